//! A digest that a keyslot gives, in a LUKS1 header.
ghost use Rattle.std.specs.Prelude.{◌≡◌, ◌<◌, length, IfNone, IfSome};
ghost use Rattle.luks_area.specs.Ranges.{written};
ghost use Rattle.luks1_header.specs.Header1.{luks1_size, mk_digest_of};
ghost use Rattle.luks_slot.specs.Distance.{differing_bits};
ghost use Rattle.luks_searching.specs.Found1.{few_bits, HasDigestOf};

use crate::searching1::{Change1, Found1};
use luks_trials::differing_bits;
use luks1_header::fields::put;

/// The place of the digest, in bytes from the header's start.
const DIGEST: usize = 112;

/// A digest is taken for the key's where it differs in no more bits.
const FEW_BITS: u32 = 8;

/// The header by which the keyslot `slot` opens whose stripes give this digest: as it stands where that is its own,
/// else with it in the place of its own, if these differ in few bits.
pub(crate) fn with_given(header: &[u8; 592], slot: u8, digest: &[u8]) -> Option<Found1>
    requires header_long { length header.now ≡ luks1_size }
    requires long { length digest.now ≡ 20 }
    ensures found { IfSome result (HasDigestOf header.now digest.now slot) }
    ensures none { IfNone result (few_bits < differing_bits digest.now (mk_digest_of header.now)) }
{
    match differing_bits(digest, &header[DIGEST..DIGEST + 20]) {
        0 => Some(Found1 {
            header: *header,
            slot,
            change: Change1::Nothing,
        }),
        bits if bits <= FEW_BITS => Some(Found1 {
            header: with_digest(header, digest),
            slot,
            change: Change1::Digest { bits },
        }),
        _ => None,
    }
}

/// The header with this digest.
fn with_digest(header: &[u8; 592], digest: &[u8]) -> [u8; 592]
    requires header_long { length header.now ≡ luks1_size }
    requires long { length digest.now ≡ 20 }
    ensures { result ≡ written header.now 112 digest.now }
{
    let mut bytes = *header;
    put(&mut bytes, DIGEST, digest);
    bytes
}
