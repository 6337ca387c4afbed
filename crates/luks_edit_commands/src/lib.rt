//! The commands of the program `luks` that edit a volume, over values, and what else the disk of a volume is
//! used for.
#![tactic(auto)]

pub mod edit;
mod other_use;

pub use other_use::{note_other_use, note_overwritten, standing_use};
