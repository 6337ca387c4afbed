//! What a new volume is asked to be encrypted by.

/// A cipher that a new volume is asked to be encrypted by: AES in one of these modes.
#[derive(Debug, Clone, Copy, PartialEq, Eq)]
pub enum AskedCipher {
    /// `aes-xts-plain64`.
    XtsPlain64,
    /// `aes-xts-plain`.
    XtsPlain,
    /// `aes-cbc-essiv:sha256`, of older disks.
    CbcEssiv,
    /// `aes-cbc-plain64`, of older disks.
    CbcPlain64,
    /// `aes-cbc-plain`, of older disks.
    CbcPlain,
}
