//! Keyslots, digests and segments of LUKS2 metadata that are whole in bytes that needn't be JSON, and
//! the metadata that is put together of one of each.
#![tactic(auto)]

mod fragment;
mod kinds;
mod made;
mod names;
mod objects;
mod region;

pub use fragment::{Fragment, next_fragment};
pub use kinds::{Kind, kind_of};
pub use made::{AREA_LENGTH, Parts, area_of, made_text};
pub use objects::object_len;
pub use region::needed_region;
