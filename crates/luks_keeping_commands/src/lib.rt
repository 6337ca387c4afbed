//! The commands of the program `luks` on header backups, `backup`, `restore` and `compare`, and on what is kept
//! in a file, a key by `key` and a token by `token export`, over values: what each answers.
#![tactic(auto)]

pub mod backup;
pub mod compare;
mod differences;
mod kept_file;
pub mod key;
mod key_refusal;
mod keyslots_note;
mod made_file;
pub mod restore;
pub mod token;
mod underway;
mod volume_use;

pub use key_refusal::KeyRefusal;
pub use made_file::{MakesFile, Unmade};
