//! Command lines of the program that read a volume.

/// Checks the volume.
pub const CHECK: &[&str] = &["luks", "check", "volume"];

/// Tries the passphrase on each keyslot.
pub const OPEN: &[&str] = &["luks", "open", "volume", "--passphrase", "file"];
