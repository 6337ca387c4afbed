//! Checking a LUKS volume, of either version, against its format and its layout, and opening its
//! keyslots. `Format` is what a caller says of a volume that is to be made: the command line and the calls
//! that make one share it.
#![tactic(auto)]

mod check_fault;
mod checking;
mod format;
mod header;
mod judging;
mod key_fault;
mod laws;
mod layout;
mod luks1_fields;
mod matching;
mod nearest;
mod open_fault;
mod opening;
mod plan;
mod read_fault;
mod refusing;
mod report;
mod unlocking;

pub use check_fault::CheckFault;
pub use checking::{check, check_copy, check_header};
pub use format::Format;
pub use header::{ChosenCopy, Header, read_header};
pub use judging::judge_luks1;
pub use key_fault::KeyFault;
pub use laws::{
    more_allowed_opens_alike, no_fault_is_well_formed, nothing_allowed_is_as_before, one_answer,
    one_area, one_unlocking, opened_key_matches, unread_volume_is_refused, well_formed_volume,
};
pub use layout::luks2_areas;
pub use luks_area::{
    Area, AreaFault, AreaName, Areas, Device, DeviceFault, Entry, MemDevice, text_field,
};
pub use luks_meta::{
    Config, Cost, Digest, Extent, Keyslot, Meta, MetaFault, Segment, SegmentKind, Token,
};
pub use luks_slot::{Allowed, Key};
pub use luks2_header::{Bin2, Copies, HeadFault, Luks1, Luks1Slot, Selected, SlotState, select};
pub use matching::{
    KeyMatch, has_key_of, is_key_length, is_keyslot_of, match_header_key, match_key, meets,
};
pub use nearest::Nearest;
pub use open_fault::OpenFault;
pub use opening::{open_header_slot, open_slot, try_copy_slot, try_header_slot};
pub use plan::{luks1_area, luks1_digest, luks1_plan, luks2_digest, luks2_plan};
pub use read_fault::ReadFault;
pub use refusing::refused_slot;
pub use report::{Data, Report, Version};
pub use unlocking::{try_header, unlock, unlock_header};
