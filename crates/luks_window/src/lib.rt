//! A part of a device as a device of its own, so that a volume is read and written where it lies on
//! a disk. No byte beside it changes.
#![tactic(auto)]

mod disk;
mod laws;
mod window;

pub use disk::Disk;
pub use laws::{Places, nothing_beside_changes};
pub use window::Window;
