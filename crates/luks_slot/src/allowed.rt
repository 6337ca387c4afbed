/// What may be spent on a passphrase, and what is accepted of the keyslot that it opens.
#[derive(Clone, Copy, PartialEq, Eq)]
pub struct Allowed {
    /// How many KiB Argon2 may take; 0: it is refused.
    pub memory: u32,
    /// Whether the ciphers and hashes of older disks are accepted.
    pub older: bool,
}

impl Allowed {
    /// Neither memory, nor older ciphers and hashes.
    pub const NOTHING: Allowed = Allowed {
        memory: 0,
        older: false,
    };
}
