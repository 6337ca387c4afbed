//! The commands one by one, and the texts of their helps. Those are in no table: what a table costs the
//! prover grows with all the text in it.

use luks_helps::{helps, rescue_helps};

/// A command, by its row in `commands`.
#[derive(Clone, Copy)]
pub(crate) enum CommandName {
    Check,
    Show,
    Open,
    Add,
    Change,
    Remove,
    Erase,
    Repair,
    Label,
    Uuid,
    Priority,
    Token,
    Format,
    Convert,
    Rebuild,
    Find,
    Backup,
    Restore,
    Compare,
    Key,
    Explain,
}

impl CommandName {
    /// What the command does, in a line.
    pub(crate) fn about(self) -> &'static str {
        match self {
            CommandName::Check => helps::CHECK,
            CommandName::Show => helps::SHOW,
            CommandName::Open => helps::OPEN,
            CommandName::Add => helps::ADD,
            CommandName::Change => helps::CHANGE,
            CommandName::Remove => helps::REMOVE,
            CommandName::Erase => helps::ERASE,
            CommandName::Repair => helps::REPAIR,
            CommandName::Label => helps::LABEL,
            CommandName::Uuid => helps::UUID,
            CommandName::Priority => helps::PRIORITY,
            CommandName::Token => helps::TOKEN,
            CommandName::Format => helps::FORMAT,
            CommandName::Convert => helps::CONVERT,
            CommandName::Rebuild => helps::REBUILD,
            CommandName::Find => rescue_helps::FIND,
            CommandName::Backup => rescue_helps::BACKUP,
            CommandName::Restore => rescue_helps::RESTORE,
            CommandName::Compare => rescue_helps::COMPARE,
            CommandName::Key => rescue_helps::KEY,
            CommandName::Explain => helps::EXPLAIN,
        }
    }

    /// Its usage where that isn't `clap`'s.
    pub(crate) fn usage(self) -> Option<&'static str> {
        match self {
            CommandName::Open => Some(helps::OPEN_USAGE),
            CommandName::Add => Some(helps::ADD_USAGE),
            CommandName::Change => Some(helps::CHANGE_USAGE),
            CommandName::Remove => Some(helps::REMOVE_USAGE),
            CommandName::Format => Some(helps::FORMAT_USAGE),
            CommandName::Key => Some(rescue_helps::KEY_USAGE),
            _ => None,
        }
    }

    /// What its help has behind its words.
    pub(crate) fn more(self) -> &'static str {
        match self {
            CommandName::Check => helps::CHECK_MORE,
            CommandName::Show => helps::SHOW_MORE,
            CommandName::Open => helps::OPEN_MORE,
            CommandName::Add => helps::ADD_MORE,
            CommandName::Change => helps::CHANGE_MORE,
            CommandName::Remove => helps::REMOVE_MORE,
            CommandName::Erase => helps::ERASE_MORE,
            CommandName::Repair => helps::REPAIR_MORE,
            CommandName::Label => helps::LABEL_MORE,
            CommandName::Uuid => helps::UUID_MORE,
            CommandName::Priority => helps::PRIORITY_MORE,
            CommandName::Token => helps::TOKEN_MORE,
            CommandName::Format => helps::FORMAT_MORE,
            CommandName::Convert => helps::CONVERT_MORE,
            CommandName::Rebuild => helps::REBUILD_MORE,
            CommandName::Find => rescue_helps::FIND_MORE,
            CommandName::Backup => rescue_helps::BACKUP_MORE,
            CommandName::Restore => rescue_helps::RESTORE_MORE,
            CommandName::Compare => rescue_helps::COMPARE_MORE,
            CommandName::Key => rescue_helps::KEY_MORE,
            CommandName::Explain => helps::EXPLAIN_MORE,
        }
    }
}
