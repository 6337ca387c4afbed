//! Headers of LUKS volumes: the two copies of the binary LUKS2 header, and which header of a volume is chosen,
//! that of LUKS1 among them; the texts of uuids, and the field that holds one.
#![tactic(auto)]

mod bin2;
mod bin2_places;
mod bin2_writing;
mod both_copies;
mod copies;
mod laws;
mod selection;
mod uuid_laws;
mod uuid_texts;

pub use bin2::Bin2;
pub use copies::KEPT_JSON;
pub use laws::{
    chosen_copy_is_sound, luks2_without_faults, luks2_written_again_is_the_same, one_choice,
    soundness_is_local, written_copies_are_chosen,
};
pub use luks1_header::{
    HeadFault, IterationsOf, Luks1, Luks1Common, Luks1Slot, SlotState, TextField,
    luks1_is_first_bytes, luks1_without_faults, luks1_written_again_is_the_same,
    replaced_entry_keeps_header,
};
pub use selection::{Copies, Selected, select, select_with_json};
pub use uuid_laws::uuids_fill_fields;
pub use uuid_texts::{is_uuid, uuid_field, uuid_text};
