//! Edits of LUKS1 volumes: what each takes, makes and leaves, and the laws on that.
//!
//! An edit here changes one or two keyslots or all, their 48-byte entries and their areas, or the 40
//! bytes of the uuid's field, so its definitions, its judging and its calls fit into one crate. An edit of
//! LUKS2 writes the whole metadata anew, so each of the three has a crate there: `luks2_edit_laws`,
//! `luks2_judging` and `luks2_editing`.
#![tactic(auto)]

mod accepted;
mod applying;
mod erasing;
mod freeing;
mod keyslots;
mod laws;
mod making;
mod needing;
mod removing;
mod rewriting;
mod sealing;
mod steps;
mod unlocking;

pub use applying::apply_luks1;
pub use laws::{
    luks1_answer_is_local, luks1_edit_keeps_volume, luks1_edit_opens, luks1_edit_refused_once,
    luks1_edit_sets_uuid, luks1_failing_edit, luks1_removed_keyslot_is_shut,
};
pub use needing::needed_luks1;
