//! What a new keyslot is made like.

/// What a new keyslot of LUKS2 is made like.
#[derive(Clone, Copy, PartialEq, Eq, Drop)]
pub enum Like {
    /// A keyslot that is there, of this number.
    Keyslot(u8),
    /// Keyslot 0 of a new volume, for a digest that has none left.
    Digest {
        /// The number of the digest.
        number: u8,
        /// How many bytes its key has.
        key_bytes: u8,
    },
}
