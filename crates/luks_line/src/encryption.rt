//! What a new volume is encrypted by, as the words of a command line say it.

use clap::ArgMatches;
use luks_request::AskedCipher;

/// The cipher that is asked for.
pub(crate) fn cipher_of(given: &ArgMatches<'_>) -> Option<AskedCipher> {
    match given.get_str("cipher")? {
        "aes-xts-plain64" => Some(AskedCipher::XtsPlain64),
        "aes-xts-plain" => Some(AskedCipher::XtsPlain),
        "aes-cbc-essiv:sha256" => Some(AskedCipher::CbcEssiv),
        "aes-cbc-plain64" => Some(AskedCipher::CbcPlain64),
        "aes-cbc-plain" => Some(AskedCipher::CbcPlain),
        _ => None,
    }
}

/// The length of the volume key in bytes: what is asked for, or else the longest that the cipher takes.
pub(crate) fn key_bytes_of(given: &ArgMatches<'_>, cipher: AskedCipher) -> u32 {
    match (given.get_one::<u32>("key-bytes"), cipher) {
        (Some(length), _) => length,
        (None, AskedCipher::XtsPlain64 | AskedCipher::XtsPlain) => 64,
        (None, _) => 32,
    }
}
