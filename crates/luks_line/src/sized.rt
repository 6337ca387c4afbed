//! The options that take a size: a number of bytes, or of MiB.

use crate::commands::Described;
use crate::sizes::{bytes_in, mib_in};
use clap::ArgMatches;
use std::alloc::{AllocError, Global};

/// The sizes that an option takes.
#[derive(Clone, Copy)]
pub(crate) enum Sizes {
    /// Bytes, from the least to the most.
    Bytes(u64, u64),
    /// MiB, likewise.
    Mib(u64, u64),
    /// The bytes of a copy of a LUKS2 header, one of these numbers.
    Copy(&'static [&'static str]),
}

impl Sizes {
    /// Whether the text says one of them.
    fn has(self, text: &str) -> bool {
        match self {
            Sizes::Bytes(least, most) => is_within(bytes_in(text, 1), least, most),
            Sizes::Mib(least, most) => is_within(mib_in(text), least, most),
            Sizes::Copy(sizes) => {
                let said = bytes_in(text, 1);
                said.is_some() && sizes.iter().any(|size| bytes_in(size, 1) == said)
            }
        }
    }

    /// What is said of a text that says none of them, which is given to the option of this name.
    fn refusal(self, alloc: Global, text: &str, option: &str) -> Result<String, AllocError> {
        let (unit, least, most) = match self {
            Sizes::Bytes(least, most) => ("BYTES", least, most),
            Sizes::Mib(least, most) => ("MIB", least, most),
            Sizes::Copy(_) => {
                return format!(in alloc;
                    "invalid value '{text}' for '--{option} <BYTES>': {text} is not 16K, twice that and so on, to 4M"
                );
            }
        };
        format!(in alloc;
            "invalid value '{text}' for '--{option} <{unit}>': {text} is not in {least}..={most}, nor such a number with K, M, G or T"
        )
    }
}

/// Whether the number is there, from the least to the most.
fn is_within(said: Option<u64>, least: u64, most: u64) -> bool {
    match said {
        Some(number) => least <= number && number <= most,
        None => false,
    }
}

/// What of the words is no size that the command takes, as `clap` says it of a value.
pub(crate) fn wrong_size(
    alloc: Global,
    described: &Described,
    given: &ArgMatches<'_>,
) -> Result<Option<String>, AllocError> {
    for option in described.options.iter() {
        let row = option.row();
        if let (Some(sizes), Some(text)) = (row.takes.sizes(), given.get_str(row.name)) {
            if !sizes.has(text) {
                return Ok(Some(sizes.refusal(alloc, text, row.name)?));
            }
        }
    }
    Ok(None)
}

/// The bytes that the option of this name says.
pub(crate) fn bytes_of(given: &ArgMatches<'_>, name: &str) -> Option<u64> {
    bytes_in(given.get_str(name)?, 1)
}

/// The MiB that it says.
pub(crate) fn mib_of(given: &ArgMatches<'_>, name: &str) -> Option<u32> {
    u32::try_from(mib_in(given.get_str(name)?)?).ok()
}
