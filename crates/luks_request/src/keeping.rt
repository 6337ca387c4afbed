//! What the commands on header backups, and on a key or a token that is kept, are asked for.

use luks_reading::Data;

/// Which backup of the volume's header is made, and of which file.
#[derive(Debug, Clone, Copy)]
pub struct BackingUp<'a> {
    /// The file that the backup is written to.
    pub target: &'a str,
    /// The place of the volume's payload.
    pub payload: Data,
    /// Whether it may write over a file that is there and isn't empty.
    pub over: bool,
    /// Whether key areas that can't be read don't end it.
    pub rescue: bool,
}

/// Which backup is put back onto the volume.
#[derive(Debug, Clone, Copy)]
pub struct Restoring<'a> {
    /// The file of the backup.
    pub backup: &'a str,
    /// The place of the volume's payload.
    pub payload: Data,
    /// Whether it may write over the header of another volume.
    pub other: bool,
    /// Whether it may write over that, and over another use of the disk.
    pub over: bool,
    /// Whether it may write over the metadata of a reencryption.
    pub over_reencryption: bool,
}

/// Which backup is compared with the volume.
#[derive(Debug, Clone, Copy)]
pub struct Comparing<'a> {
    /// The file of the backup.
    pub backup: &'a str,
    /// The place of the volume's payload.
    pub payload: Data,
}

/// Which volume key is kept, and in which file.
#[derive(Debug, Clone, Copy)]
pub struct KeepingKey<'a> {
    /// The file that the key is written to.
    pub target: &'a str,
    /// The file of the passphrase.
    pub passphrase: &'a str,
    /// The keyslot that the passphrase opens, 0 to 31; without one the first that it opens.
    pub slot: Option<u8>,
    /// How many MiB of memory Argon2 may take for a keyslot.
    pub memory: u32,
    /// Whether ciphers and hashes of older disks are accepted.
    pub older: bool,
    /// Whether it may write over a file that is there and isn't empty.
    pub over: bool,
}

/// Which token is kept, and in which file.
#[derive(Debug, Clone, Copy)]
pub struct KeepingToken<'a> {
    /// The file that the token's text is written to.
    pub target: &'a str,
    /// The token's number, 0 to 31.
    pub number: u8,
    /// Whether it may write over a file that is there and isn't empty.
    pub over: bool,
}
