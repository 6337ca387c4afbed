//! Which key is judged, as the words of a command line say it.

use crate::derivation::is_given;
use clap::ArgMatches;
use luks_request::{Command, Matching};

/// What of the words doesn't go together.
pub(crate) fn wrong_key(given: &ArgMatches<'_>) -> Option<&'static str> {
    if given.get_str("key").is_some() {
        if is_given(given, "slot") || is_given(given, "memory") {
            return Some(
                "the argument '--key <FILE>' cannot be used with '--slot <N>' or '--memory <MIB>'",
            );
        }
        return None;
    }
    if is_given(given, "digest") {
        return Some("the argument '--digest <N>' needs '--key <FILE>'");
    }
    None
}

/// That a keyslot isn't named which a key can't find: of a change the one that is changed.
pub(crate) fn wrong_change(given: &ArgMatches<'_>) -> Option<&'static str> {
    if lacks_slot(given) && given.get_str("key").is_some() {
        return Some("the argument '--slot <N>' is needed with '--key <FILE>'");
    }
    None
}

/// What is wrong with a removal, and that the one isn't named which another's passphrase removes.
pub(crate) fn wrong_removal(given: &ArgMatches<'_>) -> Option<&'static str> {
    if lacks_slot(given) && (given.get_str("key").is_some() || is_given(given, "by")) {
        return Some("the argument '--slot <N>' is needed with '--key <FILE>' or '--by <N>'");
    }
    None
}

fn lacks_slot(given: &ArgMatches<'_>) -> bool {
    given.get_one::<u8>("slot").is_none()
}

/// That a key is judged, where one is named.
pub(crate) fn matching_of<'a>(given: &ArgMatches<'a>) -> Option<Command<'a>> {
    Some(Command::Match(Matching {
        key: given.get_str("key")?,
        digest: given.get_one::<u8>("digest"),
        older: given.get_flag("older"),
    }))
}
