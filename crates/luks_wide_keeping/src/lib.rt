#![tactic(auto)]
//! A backup of a volume in whose metadata something is under way, and the way back: it is of one moment, and
//! isn't put over a header that went on.

mod areas;
mod backing_up;
mod comparing;
mod over;
mod places;
mod restore_fault;
mod restoring;
mod segments;
mod size;
mod standing;

pub use backing_up::{back_up_underway, underway_length};
pub use comparing::compare_underway;
pub use over::OverUnderway;
pub use restore_fault::UnderwayRestoreFault;
pub use restoring::restore_underway;
pub use standing::{Standing, standing_of};
