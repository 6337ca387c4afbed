//! The files that a command line names: which of them are opened as what, and how they are opened. The
//! volumes are locked and remembered, the passphrases read whole.
#![tactic(auto)]

mod kept_file;
mod openings;
mod output;
mod passphrases;
mod target;
mod typing;
mod volume;
mod volumes;

pub use kept_file::KeptFile;
pub use openings::{Opening, Openings};
pub use passphrases::{Passphrases, reader};
pub use target::take_away;
pub use typing::{ERROR, is_terminal};
pub use volume::{Volume, WHOLE};
pub use volumes::{Volumes, has_changed, open_volume, open_volumes, reopened};
