//! What an option takes: which values, how the help calls them, and what counts without one.

use crate::sized::Sizes;
use clap::ArgAction;
use clap::builder::ValueParser;
use luks_kdf::HashName;

/// What an option takes.
#[derive(Clone, Copy)]
pub(crate) enum Takes {
    /// No value: it is there or it isn't.
    Nothing,
    /// No value, and it names a form of the answer: at most one such option may be there.
    Form,
    /// The name of a file.
    File,
    /// The name of a file, and at most one such option may be there.
    OnePassphrase,
    /// The number of a keyslot.
    Slot,
    /// The number of a digest.
    Digest,
    /// MiB of memory.
    Memory,
    /// Iterations of PBKDF2.
    Iterations,
    /// A version of LUKS.
    Version,
    /// The name of a hash.
    Hash,
    /// The text of a uuid.
    Uuid,
    /// A byte of a file, by its number.
    Offset,
    /// A number of bytes.
    Bytes,
    /// No value, and it speaks of a LUKS2 header: it goes with none of what means one of LUKS1.
    OfLuks2,
    /// How many bytes a copy of a LUKS2 header has.
    CopySize,
    /// A cipher's name and mode, with a hyphen between.
    Cipher,
    /// The name of a hash, which this program needn't know.
    Name,
    /// A cipher that a new volume may have.
    NewCipher,
    /// The length of a volume key in bytes.
    KeyBytes,
    /// The length of the data's sectors in bytes.
    SectorSize,
    /// The length of the data's sectors in bytes, as a LUKS2 segment may have it.
    GivenSectorSize,
    /// A sector, by its number.
    Sector,
    /// A key derivation function, one of which counts without the option.
    Kdf,
    /// A key derivation function.
    ChosenKdf,
    /// MiB of memory that a new keyslot takes.
    KdfMemory,
    /// Passes of Argon2.
    Passes,
    /// Lanes of Argon2.
    Lanes,
    /// A time in milliseconds.
    Milliseconds,
    /// A label or a subsystem.
    Label,
}

/// The lengths that a copy of a LUKS2 header may have (LUKS2 On-Disk Format 1.1, 2.1).
static COPY_SIZES: [&str; 9] = [
    "16384", "32768", "65536", "131072", "262144", "524288", "1048576", "2097152", "4194304",
];

/// The ciphers that a new volume may have.
static CIPHERS: [&str; 5] = [
    "aes-xts-plain64",
    "aes-xts-plain",
    "aes-cbc-essiv:sha256",
    "aes-cbc-plain64",
    "aes-cbc-plain",
];

/// The lengths that a data sector of a LUKS2 segment may have (LUKS2 On-Disk Format 1.1, 3.3).
static SECTOR_SIZES: [&str; 4] = ["512", "1024", "2048", "4096"];

impl Takes {
    pub(crate) fn action(self) -> ArgAction {
        match self {
            Takes::Nothing | Takes::Form | Takes::OfLuks2 => ArgAction::SetTrue,
            _ => ArgAction::Set,
        }
    }

    pub(crate) fn parser(self) -> ValueParser<'static> {
        match self {
            Takes::Nothing | Takes::Form | Takes::OfLuks2 => ValueParser::Bool,
            Takes::File | Takes::OnePassphrase | Takes::Uuid | Takes::Cipher | Takes::Name =>
                ValueParser::String,
            Takes::Label => ValueParser::String,
            Takes::Memory | Takes::KdfMemory | Takes::Offset | Takes::Bytes | Takes::CopySize =>
                ValueParser::String,
            Takes::Slot | Takes::Digest => ValueParser::Unsigned(0, 31),
            Takes::Iterations | Takes::Sector | Takes::SectorSize => ValueParser::Unsigned(
                0, 4294967295,
            ),
            Takes::KeyBytes => ValueParser::Unsigned(1, 128),
            Takes::Kdf | Takes::ChosenKdf => ValueParser::Names(&["pbkdf2", "argon2i", "argon2id"]),
            Takes::Passes | Takes::Milliseconds => ValueParser::Unsigned(1, 4294967295),
            Takes::Lanes => ValueParser::Unsigned(1, 4),
            Takes::Version => ValueParser::Names(&["1", "2"]),
            Takes::NewCipher => ValueParser::Names(&CIPHERS),
            Takes::GivenSectorSize => ValueParser::Names(&SECTOR_SIZES),
            Takes::Hash => ValueParser::Names(HashName::NAMES),
        }
    }

    /// The sizes that it takes, where it takes one: a text, which is judged once `clap` has told the words apart.
    pub(crate) fn sizes(self) -> Option<Sizes> {
        match self {
            Takes::Memory => Some(Sizes::Mib(0, 4194303)),
            Takes::KdfMemory => Some(Sizes::Mib(1, 4095)),
            Takes::Offset | Takes::Bytes => Some(Sizes::Bytes(0, u64::MAX)),
            Takes::CopySize => Some(Sizes::Copy(&COPY_SIZES)),
            _ => None,
        }
    }

    /// What the help calls its value: one name, or none where it takes no value.
    pub(crate) fn names(self) -> &'static [&'static str] {
        match self {
            Takes::Nothing | Takes::Form | Takes::OfLuks2 => &[],
            Takes::File | Takes::OnePassphrase => &["FILE"],
            Takes::Slot | Takes::Digest | Takes::Iterations | Takes::KeyBytes => &["N"],
            Takes::Passes | Takes::Lanes => &["N"],
            Takes::Memory | Takes::KdfMemory => &["MIB"],
            Takes::Kdf | Takes::ChosenKdf => &["KDF"],
            Takes::Milliseconds => &["MS"],
            Takes::Version => &["VERSION"],
            Takes::Hash => &["HASH"],
            Takes::Uuid | Takes::Label => &["TEXT"],
            Takes::Offset | Takes::Bytes | Takes::CopySize => &["BYTES"],
            Takes::SectorSize | Takes::GivenSectorSize => &["BYTES"],
            Takes::Cipher | Takes::NewCipher => &["NAME-MODE"],
            Takes::Name => &["NAME"],
            Takes::Sector => &["SECTOR"],
        }
    }

    /// The value that counts where the option isn't there: one, or none.
    pub(crate) fn preset(self) -> &'static [&'static str] {
        match self {
            Takes::Memory | Takes::Offset => &["0"],
            Takes::Iterations => &["100000"],
            Takes::Version => &["2"],
            Takes::Hash => &["sha256"],
            Takes::NewCipher => &["aes-xts-plain64"],
            Takes::SectorSize => &["512"],
            Takes::Kdf => &["pbkdf2"],
            Takes::KdfMemory => &["1024"],
            Takes::Passes | Takes::Lanes => &["4"],
            _ => &[],
        }
    }

    /// Whether the help doesn't list the values, since its text names them.
    pub(crate) fn hides(self) -> bool {
        matches!(
            self,
            Takes::Hash
                | Takes::CopySize
                | Takes::Kdf
                | Takes::ChosenKdf
                | Takes::NewCipher
                | Takes::GivenSectorSize
        )
    }
}
