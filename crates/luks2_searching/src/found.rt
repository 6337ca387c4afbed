//! What a search in LUKS2 metadata finds.
use luks_rebuilding::Place;

/// What isn't as it is in metadata that was found.
#[derive(Clone, Copy, PartialEq, Eq)]
pub enum Change2 {
    /// Nothing: a keyslot opens by what stands.
    Nothing,
    /// This bit, by its weight, of the byte at the place.
    Bit {
        /// The byte, from the JSON area's start.
        place: usize,
        /// The bit, 0 to 7.
        bit: u8,
    },
    /// So many bits of the keyslot's digest.
    Digest {
        /// How many, 1 to 8.
        bits: u32,
    },
    /// Bytes of both copies: each is that of one of them.
    Mixed,
    /// Metadata is made of objects that are whole, each at its place, in bytes from the volume's start.
    Fragments {
        /// The keyslot.
        keyslot: u64,
        /// The digest.
        digest: u64,
        /// The segment: none where it is given.
        segment: Option<u64>,
    },
}

/// Metadata by which a keyslot opens.
#[derive(Drop)]
pub struct Found2 {
    /// Its JSON area, as long as that of the place.
    pub json: Vec<u8>,
    /// The place of the copy that it was found at: the first one, where it is composed of both, and that of the shortest
    /// header, where it is made of fragments.
    pub place: Place,
    /// The keyslot, 0 to 31.
    pub slot: u8,
    /// What isn't as it stands.
    pub change: Change2,
}
