//! What a command line of the program `luks` asks for: the command, its volume and its files.
#![tactic(auto)]

mod cipher;
mod derivation;
mod keeping;
mod place;
mod rebuilding;
mod request;
mod token;

pub use cipher::AskedCipher;
pub use derivation::{AskedArgon2, AskedKdf, AskedKind};
pub use keeping::{BackingUp, Comparing, KeepingKey, KeepingToken, Restoring};
pub use place::Place;
pub use rebuilding::{Luks1Fields, Meant, Rebuilding};
pub use request::{
    Command, Converting, EditRequest, Editing, Line, Making, Matching, NewFields, NewVersion,
    OpenerFile, ShowAs,
};
pub use token::AskedPriority;
