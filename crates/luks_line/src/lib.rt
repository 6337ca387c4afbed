//! The command line of the program `luks`: which command its words ask for, over which files.
#![tactic(auto)]

mod choices;
mod command_line;
mod command_name;
mod commands;
mod derivation;
mod encryption;
mod fields;
mod manner;
mod matching;
mod operands;
mod options;
mod other_words;
mod program;
mod requests;
mod search;
mod sized;
mod sizes;
mod takes;
mod tokens;

pub use command_line::{Asked, parse};
pub use luks_request::{
    BackingUp, Command, Comparing, Converting, EditRequest, Editing, Line, Luks1Fields, Making,
    Meant, NewVersion, Place, Rebuilding, Restoring, ShowAs,
};
pub use manner::Manner;
pub use search::Search;
pub use sizes::bytes_in;
