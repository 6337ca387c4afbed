//! Laws over the definitions of a whole volume, and of an edit of one: of what there is always one, and that
//! whatever may refuse is decided. No call stands here.
#![tactic(auto)]

mod edit_laws;
mod gaps;
mod laws;

pub use edit_laws::{first_refusal_or_unrefused, nothing_allowed_edits_as_before};
pub use gaps::area_or_no_room;
pub use laws::{every_keyslot_has_an_answer, first_fault_or_well_formed};
