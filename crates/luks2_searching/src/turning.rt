//! Bytes of which one bit is turned.
ghost use Rattle.std.specs.Prelude.{◌≡◌, ◌<◌, length, IfOk};
ghost use Rattle.luks_trials.specs.Turned.{turned};

use std::alloc::{AllocError, Global};

/// The bytes with the bit of this number, 0 to 7, of the byte at the place turned.
pub(crate) fn turned(
    alloc: Global,
    bytes: &[u8],
    place: usize,
    bit: u8,
) -> Result<Vec<u8>, AllocError>
    requires there { place < length bytes.now }
    requires low { bit < 8 }
    ensures { IfOk result (λ new. new.items ≡ turned bytes.now place bit) }
{
    let mut new = bytes.to_vec(alloc)?;
    turn(&mut new, place, bit);
    Ok(new)
}

/// Turns the bit of this number, 0 to 7, of the byte at the place.
pub(crate) fn turn(bytes: &mut [u8], place: usize, bit: u8)
    requires there { place < length bytes.old }
    requires low { bit < 8 }
    ensures { bytes.new ≡ turned bytes.old place bit }
{
    bytes[place] ^= 1 << bit;
}
