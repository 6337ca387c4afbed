//! A detached LUKS2 header made from a LUKS1 volume, which stays as it is.
#![tactic(auto)]

mod areas;
mod convert_fault;
mod converting;
mod copies;
mod judging;
mod laws;
mod metadata;
mod places;
mod source;

pub use convert_fault::ConvertFault;
pub use converting::{CONVERT_RANDOM, convert};
pub use laws::{converted_volume_opens_alike, copied_keyslot_opens_alike, metadata_is_never_full};
