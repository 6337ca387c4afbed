//! Judging an edit of a LUKS2 volume, before anything is written.
#![tactic(auto)]

mod accepted;
mod judged;
mod judging;
mod keys;
mod keyslots;
mod labels;
mod laws;
mod needing;
mod room;
mod rows;
mod tokens;
mod unlocking;

pub use judged::{Addition, Judged, JudgedChange, JudgedEdit, JudgedPlace, Renewal, TextFields};
pub use judging::judge_luks2;
pub use laws::{salts_are_as_long, told_once};
pub use needing::{needed_luks2, sealed_need};
