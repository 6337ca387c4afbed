#![tactic(auto)]
//! Metadata of LUKS2 in the midst of something: a reencryption that isn't finished, or a disk that encrypts itself.
//! The rules of `luks_rules` refuse it; what else it may hold, and what that tells, is said here.

mod flags;
mod member;
mod opal;
mod reencryption;
mod requirements;
mod resilience;
mod segments;
mod sides;
mod slots;

pub use flags::{Flags, are_flags, has_flag, is_kept_back, read_flags};
pub use member::{has_priority, has_type, inside_at, positive_inside, shift_at, unit_at};
pub use opal::{Opal, read_opal};
pub use reencryption::{
    Direction, Mode, ReencryptArea, Reencryption, direction_at, mode_at, read_reencryption,
};
pub use requirements::{are_requirements, has_requirement, mandatory_in};
pub use resilience::{Checksum, Resilience};
pub use segments::{WideKind, WideSegment, is_opal, read_wide_segment};
pub use sides::{Side, is_named, keyslot_side, new_digest, old_digest};
pub use slots::{WideKeyslot, read_wide_keyslot};
