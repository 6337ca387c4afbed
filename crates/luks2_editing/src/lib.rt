//! The edits of LUKS2 volumes: the calls that do what `luks2_edit_laws` defines.
#![tactic(auto)]

mod adding;
mod amending;
mod applying;
mod changing;
mod erasing;
mod new_copy;
mod preparing;
mod random;
mod removing;
mod repairing;
mod rewriting;
mod sealed_metadata;
mod sealed_plan;
mod sealing;
mod secrets;
mod wiping;
mod writing;

pub use applying::apply_luks2;
