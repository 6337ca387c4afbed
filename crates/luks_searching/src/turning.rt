//! A header of which one bit is turned.
ghost use Rattle.std.specs.Prelude.{◌≡◌, ◌<◌};
ghost use Rattle.luks1_header.specs.Header1.{luks1_size};
ghost use Rattle.luks_trials.specs.Turned.{turned};

/// The header with the bit of this number, 0 to 7, of the byte at the place turned.
pub(crate) fn turned(header: &[u8; 592], place: usize, bit: u8) -> [u8; 592]
    requires there { place < luks1_size }
    requires low { bit < 8 }
    ensures { result ≡ turned header.now place bit }
{
    let mut bytes = *header;
    bytes[place] ^= 1 << bit;
    bytes
}
