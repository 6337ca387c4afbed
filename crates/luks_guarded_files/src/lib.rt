//! Files that other programs may change meanwhile. A volume is opened under a lock; its first bytes are
//! remembered, so that a header which is asked for twice is read once, and compared before a write. Any
//! other file is opened when it is first read.
//!
//! What is asked of the system is a `System`, and clauses speak of its answers. What a file gives no clause
//! can say: that the system holds a lock, and keeps others out, is tested, and so is the order of the calls.
#![tactic(auto)]

mod beginning;
mod cached;
mod extent;
mod fitted;
mod guarded;
mod host;
mod identity;
mod layers;
mod lazy;
mod locked;
mod names;
mod node;
mod notice;
mod once;
mod opening;
mod read_only;
mod system;
mod taken;
mod watch;

pub use beginning::begins_with;
pub use cached::{CachedDevice, ROOM};
pub use extent::{Extent, Holder};
pub use fitted::FittedFile;
pub use guarded::{GuardedDevice, Same};
pub use host::Host;
pub use identity::{BLOCKS, Stretch, have_common_bytes, is_same_file};
pub use lazy::LazyFile;
pub use locked::{Lock, LockedDevice};
pub use names::{Named, hold_name};
pub use node::Node;
pub use notice::Notice;
pub use once::open_or_make;
pub use opening::{FOLDER, OpenFault, open_file, open_locked, take_lock};
pub use system::{Access, Answer, Answers, Asked, Found, Kind, Share, System};
pub use taken::holds_something;
pub use watch::Watch;
