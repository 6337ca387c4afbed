//! How a command's answer is told, how the passphrases' files are read, and by what costs are chosen.

use crate::command_name::CommandName;
use clap::ArgMatches;

/// How a command's answer is told, how the passphrases' files are read, and by what costs are chosen.
#[derive(Debug, Clone, Copy)]
pub struct Manner {
    /// As one JSON object in place of the line, which `check` and `open` can. How `show` lists a
    /// header its command says.
    pub json: bool,
    /// Without hints on standard error.
    pub quiet: bool,
    /// The passphrase is the first line of its file; else the whole file.
    pub passphrase_line: bool,
    /// The new passphrase likewise.
    pub new_line: bool,
    /// How many milliseconds a new keyslot's derivation is to take on this machine: its iterations, or its
    /// passes and memory, are chosen by that, in the place of those that the command's request has.
    pub iter_time: Option<u32>,
}

/// How the answer of the command is to be told, and its files are to be read.
pub(crate) fn manner_of(name: CommandName, given: &ArgMatches<'_>) -> Manner {
    Manner {
        json: matches!(name, CommandName::Check | CommandName::Open) && given.get_flag("json"),
        quiet: given.get_flag("quiet"),
        passphrase_line: given.get_str("passphrase-line").is_some(),
        new_line: given.get_str("new-line").is_some(),
        iter_time: given.get_one::<u32>("iter-time"),
    }
}
