//! What is given of a LUKS1 header that is made.
ghost use Rattle.std.specs.Prelude.{◌↔◌, IsTrue};
ghost use Rattle.luks1_mending.specs.Taken.{IsNothing};

use arrayvec::ArrayString;

/// What is given of a header's fields: each wins over what is in the source.
#[derive(Clone, Copy, PartialEq, Eq)]
pub struct Given {
    /// The name of the cipher.
    pub cipher_name: Option<ArrayString<32>>,
    /// The cipher's mode.
    pub cipher_mode: Option<ArrayString<32>>,
    /// The hash of the key derivation, the splitter and the digest.
    pub hash: Option<ArrayString<32>>,
    /// The length of the volume key in bytes.
    pub key_bytes: Option<u32>,
    /// Where the payload begins, in sectors of 512 bytes.
    pub payload: Option<u32>,
    /// The volume's uuid.
    pub uuid: Option<ArrayString<40>>,
}

impl Given {
    /// Nothing is given.
    pub const NOTHING: Given = Given {
        cipher_name: None,
        cipher_mode: None,
        hash: None,
        key_bytes: None,
        payload: None,
        uuid: None,
    };

    /// Whether nothing is given.
    pub fn is_nothing(&self) -> bool
        ensures { IsTrue result ↔ IsNothing self.now }
    {
        self.cipher_name.is_none()
            && self.cipher_mode.is_none()
            && self.hash.is_none()
            && self.key_bytes.is_none()
            && self.payload.is_none()
            && self.uuid.is_none()
    }
}
