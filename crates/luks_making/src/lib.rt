//! New values of a LUKS2 header's metadata, made of old ones or from nothing.
#![tactic(auto)]

mod amended;
mod changed;
mod changing;
mod derivation;
mod emptied;
mod json_area;
mod laws;
mod new_keyslot;
mod new_volume;
mod source_volume;
mod with;
mod without;

pub use amended::{Change, Priority, with_priority, with_token, without_token};
pub use changed::changed_slot;
pub use derivation::{
    Argon2Costs, AskedDerivation, LEAST_ITERATIONS, NewDerivation, asked_fits, chosen_fits,
};
pub use emptied::without_slots;
pub use json_area::written_area;
pub use laws::{
    addition_keeps_the_rest, amendment_keeps_the_rest, change_keeps_the_rest,
    converted_volume_is_accepted, erasure_keeps_the_rest, made_keyslot_has_room, names_are_apart,
    new_volume_is_accepted, removal_keeps_the_rest, unchosen_derives_alike, unrefused_is_positive,
};
pub use new_keyslot::{KeyslotDerivation, New, NewKeyslot, new_fits, slot_value};
pub use new_volume::{NewVolume, formatted, volume_fits};
pub use source_volume::{SourceSlot, SourceVolume, area_size, area_start, converted, source_fits};
pub use with::with_slot;
pub use without::without_slot;
