//! How near a passphrase came to opening a keyslot.

/// Of the keyslots that were tried and didn't open, the first of those whose digest differed in the
/// fewest bits. A wrong passphrase differs in about half of them.
#[derive(Clone, Copy)]
pub struct Nearest {
    /// The keyslot.
    pub slot: u8,
    /// The number of bits in which its digest differed.
    pub bits: u32,
}

/// Notes that the digest of a keyslot differed in so many bits.
pub(crate) fn note_distance(nearest: &mut Option<Nearest>, slot: u8, bits: u32) {
    let is_nearer = match nearest {
        Some(known) => bits < known.bits,
        None => true,
    };
    if is_nearer {
        *nearest = Some(Nearest { slot, bits });
    }
}
