//! Words of other programs, as cryptsetup's, for which this one's are told.

use clap::error::ErrorKind;
use luks_helps::other_words::{OtherWord, other_words};
use std::alloc::{AllocError, Global};

/// What is told of a fault of this kind by which `clap` refuses the words, where it comes of a word that another
/// program has.
pub(crate) fn other_word(
    alloc: Global,
    kind: ErrorKind,
    words: &[&str],
) -> Result<Option<String>, AllocError> {
    let told = match kind {
        ErrorKind::InvalidSubcommand => match command_in(words) {
            Some(OtherWord { word, here }) => format!(in alloc;
                "unrecognized subcommand '{word}'\n\n  tip: here that is {here}"
            ),
            None => return Ok(None),
        },
        ErrorKind::UnknownArgument => match option_in(words) {
            Some(OtherWord { word, here }) => format!(in alloc;
                "unexpected argument '{word}' found\n\n  tip: here that is {here}"
            ),
            None => return Ok(None),
        },
        ErrorKind::InvalidValue if names_argon2(words) => String::from_str(alloc, ARGON2),
        _ => return Ok(None),
    };
    Ok(Some(told?))
}

/// What is told of a derivation that names no kind of Argon2.
const ARGON2: &str =
    "invalid value 'argon2' for '--kdf <KDF>'\n  [possible values: pbkdf2, argon2i, argon2id]\n\n  tip: here that is argon2id";

/// The row of this word.
fn row(word: &str) -> Option<OtherWord> {
    other_words()
        .iter()
        .copied()
        .find(|other| other.word == word)
}

/// The row of the command's name.
fn command_in(words: &[&str]) -> Option<OtherWord> {
    row(words.get(1)?)
}

/// The row of the first option that has one, alone or before an equals sign.
fn option_in(words: &[&str]) -> Option<OtherWord> {
    words
        .iter()
        .take_while(|word| **word != "--")
        .find_map(|word| row(name_in(word)))
}

/// What precedes the equals sign.
fn name_in(word: &str) -> &str {
    match word.split_once('=') {
        Some((name, _)) => name,
        None => word,
    }
}

/// Whether the words ask for a derivation by `argon2`.
fn names_argon2(words: &[&str]) -> bool {
    let mut is_kdf = false;
    for word in words.iter() {
        if *word == "--kdf=argon2" || (is_kdf && *word == "argon2") {
            return true;
        }
        is_kdf = *word == "--kdf";
    }
    false
}
