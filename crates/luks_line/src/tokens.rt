//! What is asked of a volume's tokens, and of a keyslot's priority, as the words of a command line say it.

use crate::derivation::is_given;
use crate::requests::priority_named;
use clap::ArgMatches;
use luks_request::{EditRequest, KeepingToken, ShowAs};

/// The words behind the volume: what is to be done, and with which token or file.
fn words_of<'a>(given: &ArgMatches<'a>) -> (&'a str, Option<&'a str>, Option<&'a str>) {
    (
        given.get_str("ACTION").unwrap_or_default(),
        given.get_str("N|FILE"),
        given.get_str("FILE"),
    )
}

/// The form in which tokens are shown, if they are.
pub(crate) fn token_shown_of(given: &ArgMatches<'_>) -> Option<ShowAs> {
    match words_of(given) {
        ("list", None, None) => Some(ShowAs::Tokens),
        ("export", Some(number), Some("-")) => Some(ShowAs::Token(token_number(number)?)),
        _ => None,
    }
}

/// Which token is kept in a file, where one is.
pub(crate) fn token_kept_of<'a>(given: &ArgMatches<'a>) -> Option<KeepingToken<'a>> {
    match words_of(given) {
        ("export", Some(number), Some(target)) if target != "-" => Some(KeepingToken {
            target,
            number: token_number(number)?,
            over: given.get_flag("over"),
        }),
        _ => None,
    }
}

/// Which edit is asked for, where one is.
pub(crate) fn token_edit_of<'a>(given: &ArgMatches<'a>) -> Option<EditRequest<'a>> {
    match words_of(given) {
        ("import", Some(token), None) => Some(EditRequest::AddToken {
            token,
            to: given.get_one::<u8>("to"),
        }),
        ("remove", Some(number), None) => Some(EditRequest::RemoveToken {
            number: token_number(number)?,
        }),
        _ => None,
    }
}

/// The number of a token, 0 to 31.
fn token_number(word: &str) -> Option<u8> {
    match word.parse::<u8>() {
        Ok(number) if number < 32 => Some(number),
        _ => None,
    }
}

/// What of the words doesn't go together.
pub(crate) fn wrong_token(given: &ArgMatches<'_>) -> Option<&'static str> {
    if token_shown_of(given).is_none()
        && token_kept_of(given).is_none()
        && token_edit_of(given).is_none()
    {
        return Some(
            "VOLUME is followed by 'list', 'export <N> <FILE>', 'import <FILE>' or 'remove <N>', N being 0 to 31",
        );
    }
    if is_given(given, "to") && given.get_str("ACTION") != Some("import") {
        return Some("the argument '--to <N>' is of import alone");
    }
    None
}

/// That a priority has no such name.
pub(crate) fn wrong_priority(given: &ArgMatches<'_>) -> Option<&'static str> {
    let name = given.get_str("PRIORITY")?;
    if priority_named(name).is_none() {
        return Some("a priority is 'ignore', 'normal' or 'prefer'");
    }
    None
}
