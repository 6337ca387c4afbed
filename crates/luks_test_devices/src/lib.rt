//! What the tests of formatting and of edits share: devices, small volumes, sums, taking all memory,
//! and short words for edits.
#![tactic(auto)]

mod bytes;
mod devices;
mod edits;
mod little_memory;
mod losing;
mod luks1_volumes;
mod luks2_volumes;
mod memory;
mod sealed;
mod sums;

pub use bytes::{leave_behind, old_bytes, part, put, put_all};
pub use devices::{Call, Front, KEPT, Recording, front_of, target};
pub use little_memory::{End, Work, ends_with_little_memory};
pub use losing::{LosingDevice, Loss};
pub use luks1_volumes::{ENABLED, LARGE, large_areas, small1};
pub use luks2_volumes::{Fields, TEXT, UUID, copy_of, damaged, small2, two_hashes, two_keyslots};
pub use memory::{BLOCKS, TakenMemory, grown_stack};
pub use sealed::{VOLUME_KEY, key_area};
pub use sums::{counted, is_sum};
