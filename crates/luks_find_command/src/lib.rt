//! The command `find` of the program `luks`, over values: what it prints and answers.
#![tactic(auto)]

mod check_at;
pub mod find;
pub mod fragments;
mod lines;
mod met;
mod notes;
mod progress;
mod same_uuid;
mod searched;
mod searching;
mod stop;
mod telling;
mod unread;
mod volume_at;

pub use progress::{Progress, Untold};
pub use same_uuid::SameUuid;
pub use unread::Unread;
