//! What a new keyslot derives by, as the words of a command line say it.

use crate::sized::mib_of;
use clap::ArgMatches;
use clap::parser::ValueSource;
use luks_request::{AskedArgon2, AskedKdf, AskedKind};

/// What of the words doesn't go together.
pub(crate) fn wrong_derivation(given: &ArgMatches<'_>) -> Option<&'static str> {
    if is_given(given, "iter-time") {
        if let Some(text) = wrong_time(given) {
            return Some(text);
        }
    }
    if kind_of(given).is_some() {
        return wrong_argon2(given);
    }
    for name in ["kdf-memory", "passes", "lanes"] {
        if is_given(given, name) {
            return Some(
                "'--kdf-memory', '--passes' and '--lanes' are of Argon2 alone: '--kdf argon2id' chooses it",
            );
        }
    }
    None
}

/// What doesn't go together with a time.
fn wrong_time(given: &ArgMatches<'_>) -> Option<&'static str> {
    if is_given(given, "iterations") || is_given(given, "passes") {
        return Some(
            "the argument '--iter-time <MS>' cannot be used with '--iterations <N>' or '--passes <N>'",
        );
    }
    if given.get_str("kdf").is_none() {
        return Some("the argument '--iter-time <MS>' needs '--kdf <KDF>'");
    }
    None
}

/// What doesn't go together with Argon2.
fn wrong_argon2(given: &ArgMatches<'_>) -> Option<&'static str> {
    if is_given(given, "iterations") {
        return Some(
            "the argument '--iterations <N>' cannot be used with Argon2: it has '--passes <N>'",
        );
    }
    if given.get_str("version") == Some("1") {
        return Some("the argument '--kdf <KDF>' cannot be Argon2 with '--version 1'");
    }
    None
}

/// Whether the words have the option, and not only its preset value.
pub(crate) fn is_given(given: &ArgMatches<'_>, name: &str) -> bool {
    given.value_source(name) == Some(ValueSource::CommandLine)
}

/// The kind of Argon2 that is asked for, if it is.
fn kind_of(given: &ArgMatches<'_>) -> Option<AskedKind> {
    match given.get_str("kdf")? {
        "argon2i" => Some(AskedKind::Argon2i),
        "argon2id" => Some(AskedKind::Argon2id),
        _ => None,
    }
}

/// Argon2 that is asked for, or none; nothing where a cost isn't there.
pub(crate) fn argon2_of(given: &ArgMatches<'_>) -> Option<Option<AskedKdf>> {
    let Some(kind) = kind_of(given) else {
        return Some(None);
    };
    Some(Some(AskedKdf::Argon2(AskedArgon2 {
        kind,
        passes: given.get_one::<u32>("passes")?,
        memory: mib_of(given, "kdf-memory")?,
        lanes: given.get_one::<u32>("lanes")?,
    })))
}

/// The derivation that is asked for, or none, which keeps that of the keyslot that opens; nothing where a
/// cost isn't there.
pub(crate) fn kdf_of(given: &ArgMatches<'_>) -> Option<Option<AskedKdf>> {
    if given.get_str("kdf") == Some("pbkdf2") {
        let iterations = given.get_one::<u32>("iterations")?;
        return Some(Some(AskedKdf::Pbkdf2 { iterations }));
    }
    argon2_of(given)
}
