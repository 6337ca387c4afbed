#![tactic(auto)]
//! The LUKS1 header, and what it shares with the header of LUKS2: the fields by their places, the
//! text of a uuid, and why a header is refused.

mod fault;
pub mod fields;
mod laws;
mod luks1;
mod luks1_faults;
pub mod luks1_places;
mod luks1_writing;
mod uuid_text;

pub use fault::{HeadFault, IterationsOf, TextField};
pub use laws::{
    luks1_is_first_bytes, luks1_without_faults, luks1_written_again_is_the_same,
    replaced_entry_keeps_header,
};
pub use luks1::{Luks1, Luks1Common, Luks1Slot, SlotState};
pub use uuid_text::is_uuid;
