//! What edits of LUKS2 volumes are: the definitions, laws over them, and the place for a new key area.
#![tactic(auto)]

mod gap;
mod laws;
mod like;

pub use gap::least_gap;
pub use laws::{
    alike_slots_answer_alike, luks2_edit_derives, luks2_edit_keeps_volume, luks2_edit_opens,
    luks2_edit_refused_once, luks2_edit_sets_uuid, luks2_failing_edit,
};
pub use like::Like;
