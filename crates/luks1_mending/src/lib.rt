//! A LUKS1 header made of what is left of one, and of what is given. Nothing is read or written.
#![tactic(auto)]

mod common;
mod entries;
mod given;
mod kept;
mod laws;
mod making;
mod mended;
mod signs;

pub use given::Given;
pub use laws::{
    kept_keyslots_are_apart, kept_keyslots_are_one_set, keyslot_that_meets_none_is_kept,
};
pub use making::mended_header;
pub use signs::has_signs;
