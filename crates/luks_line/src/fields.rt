//! The fields of a LUKS1 header, and the segment of a LUKS2 header, that are given to the command that rebuilds.

use crate::derivation::is_given;
use clap::ArgMatches;
use luks_request::Luks1Fields;

/// How many bytes a name has at most: its field ends with a zero byte.
const LONGEST_NAME: usize = 31;

/// What of the words is no field of a header, as `clap` says it of a value. A text that is no uuid is
/// judged where the header is made.
pub(crate) fn wrong_field(given: &ArgMatches<'_>) -> Option<&'static str> {
    if let Some(text) = given.get_str("cipher") {
        if !is_cipher(text) {
            return Some(
                "invalid value for '--cipher <NAME-MODE>': a name and a mode with a hyphen between, of 1 to 31 bytes each",
            );
        }
    }
    if let Some(text) = given.get_str("hash") {
        if !is_name(text) {
            return Some("invalid value for '--hash <NAME>': a name of 1 to 31 bytes");
        }
    }
    wrong_search(given)
}

/// That nothing of a LUKS1 header is sought longer except by a passphrase, and that memory is for that alone.
fn wrong_search(given: &ArgMatches<'_>) -> Option<&'static str> {
    if searches(given) {
        return wrong_segment(given);
    }
    if is_given(given, "sector-size") {
        return Some(NEEDED_WITH_SECTORS);
    }
    if is_given(given, "memory") {
        return Some("the argument '--memory <MIB>' needs '--thorough' and '--passphrase <FILE>'");
    }
    if given.get_flag("thorough") && names_field(given) {
        return Some(
            "the argument '--thorough' cannot be used with '--cipher', '--hash', '--key-bytes' or '--payload' but beside '--passphrase <FILE>'",
        );
    }
    None
}

/// Whether what is damaged of a header is sought by a passphrase.
fn searches(given: &ArgMatches<'_>) -> bool {
    let has_passphrase = is_given(given, "passphrase") || is_given(given, "passphrase-line");
    has_passphrase && given.get_flag("thorough")
}

/// What is said of the size of a data sector without all that says the rest of a segment.
const NEEDED_WITH_SECTORS: &str =
    "the argument '--sector-size <BYTES>' needs '--thorough', '--passphrase <FILE>', '--cipher <NAME-MODE>' and '--payload <SECTOR>'";

/// That a segment is given as a whole, and beside it no field that a LUKS1 header alone has.
fn wrong_segment(given: &ArgMatches<'_>) -> Option<&'static str> {
    if !is_given(given, "sector-size") {
        return None;
    }
    if !is_given(given, "cipher") || !is_given(given, "payload") {
        return Some(NEEDED_WITH_SECTORS);
    }
    if is_given(given, "hash") || is_given(given, "key-bytes") {
        return Some(
            "the argument '--sector-size <BYTES>' cannot be used with '--hash <NAME>' or '--key-bytes <N>'",
        );
    }
    None
}

/// Whether a field is given that a LUKS1 header alone has.
fn names_field(given: &ArgMatches<'_>) -> bool {
    is_given(given, "cipher")
        || is_given(given, "hash")
        || is_given(given, "key-bytes")
        || is_given(given, "payload")
}

/// Whether it is a name and a mode, by the first hyphen.
fn is_cipher(text: &str) -> bool {
    match text.split_once('-') {
        Some((name, mode)) => is_name(name) && is_name(mode),
        None => false,
    }
}

/// Whether it fits into the field of a name.
fn is_name(text: &str) -> bool {
    !text.is_empty() && text.len() <= LONGEST_NAME
}

/// What is given of the fields.
pub(crate) fn fields_of<'a>(given: &ArgMatches<'a>) -> Luks1Fields<'a> {
    let cipher = given.get_str("cipher");
    Luks1Fields {
        cipher_name: name_in(cipher),
        cipher_mode: mode_in(cipher),
        hash: given.get_str("hash"),
        key_bytes: given.get_one::<u32>("key-bytes"),
        payload: given.get_one::<u32>("payload"),
    }
}

/// The size of a data sector of a LUKS2 segment, if it is given.
pub(crate) fn sector_size_of(given: &ArgMatches<'_>) -> Option<u32> {
    match given.get_str("sector-size")? {
        "512" => Some(512),
        "1024" => Some(1024),
        "2048" => Some(2048),
        "4096" => Some(4096),
        _ => None,
    }
}

/// What precedes the first hyphen.
fn name_in<'a>(cipher: Option<&'a str>) -> Option<&'a str> {
    let (name, _) = cipher?.split_once('-')?;
    Some(name)
}

/// What follows it.
fn mode_in<'a>(cipher: Option<&'a str>) -> Option<&'a str> {
    let (_, mode) = cipher?.split_once('-')?;
    Some(mode)
}
