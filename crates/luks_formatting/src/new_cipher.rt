//! The ciphers of new volumes. All that is chosen among them is chosen here: another one is a variant, and
//! its arms.
ghost use Rattle.std.specs.Prelude.{◌≡◌, ◌≤◌, length};
ghost use Rattle.luks_formatting.specs.Encrypting.{is_older, mode_of, takes_key, cipher_text};

/// A cipher that a new volume is encrypted by, its key areas too: AES in one of these modes.
#[derive(Debug, Clone, Copy, PartialEq, Eq)]
pub enum NewCipher {
    /// `aes-xts-plain64`, with keys of 32 or 64 bytes.
    XtsPlain64,
    /// `aes-xts-plain`, likewise; of data behind 2 TiB its tweaks come again.
    XtsPlain,
    /// `aes-cbc-essiv:sha256` of older disks, with keys of 16, 24 or 32 bytes.
    CbcEssiv,
    /// `aes-cbc-plain64`, likewise.
    CbcPlain64,
    /// `aes-cbc-plain`, likewise.
    CbcPlain,
}

impl NewCipher {
    /// The whole text: the cipher, a hyphen and its mode.
    pub fn text(self) -> &'static str
        ensures { result.now ≡ cipher_text self }
    {
        match self {
            NewCipher::XtsPlain64 => "aes-xts-plain64",
            NewCipher::XtsPlain => "aes-xts-plain",
            NewCipher::CbcEssiv => "aes-cbc-essiv:sha256",
            NewCipher::CbcPlain64 => "aes-cbc-plain64",
            NewCipher::CbcPlain => "aes-cbc-plain",
        }
    }

    /// The text of its mode alone.
    pub fn mode(self) -> &'static str
        ensures value { result.now ≡ mode_of self }
        ensures short { length result.now ≤ 16 }
    {
        match self {
            NewCipher::XtsPlain64 => "xts-plain64",
            NewCipher::XtsPlain => "xts-plain",
            NewCipher::CbcEssiv => "cbc-essiv:sha256",
            NewCipher::CbcPlain64 => "cbc-plain64",
            NewCipher::CbcPlain => "cbc-plain",
        }
    }

    /// Whether it is one of older disks, which is made only where these are accepted.
    pub fn is_older(self) -> bool
        ensures { result ≡ is_older self }
    {
        !matches!(self, NewCipher::XtsPlain64 | NewCipher::XtsPlain)
    }

    /// Whether it takes keys of so many bytes.
    pub fn takes_key(self, key_bytes: u32) -> bool
        ensures { result ≡ takes_key self key_bytes }
    {
        match self {
            NewCipher::XtsPlain64 | NewCipher::XtsPlain => key_bytes == 32 || key_bytes == 64,
            NewCipher::CbcEssiv | NewCipher::CbcPlain64 | NewCipher::CbcPlain => key_bytes == 16
                || key_bytes == 24
                || key_bytes == 32,
        }
    }
}
