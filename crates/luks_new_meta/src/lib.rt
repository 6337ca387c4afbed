//! New metadata of a LUKS2 header, made of accepted metadata or from nothing, and the JSON area that it
//! is written in.
#![tactic(auto)]

mod adding;
mod laws;
mod metadata;

pub use laws::edits_keep_records;
pub use luks_making::{
    Argon2Costs, AskedDerivation, Change, New, NewDerivation, NewVolume, Priority, SourceSlot,
    SourceVolume, area_size, area_start,
};
pub use metadata::{
    changed_slot, converted, formatted, json_area, with_new_slot, with_priority, with_slot,
    with_token, without_slot, without_slots, without_token,
};
