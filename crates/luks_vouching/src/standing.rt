//! Whether a binary header stands, except for its magic.
ghost use Rattle.std.specs.Prelude.{◌≡◌, ◌↔◌, ◌+◌, ◌≤◌, ◌⊎◌, ◌++◌, ℕ, List, codes, drop, length, IsTrue};
ghost use Rattle.sha2.specs.Hashers.{Holds256};
ghost use Rattle.luks_area.specs.Ranges.{part};
ghost use Rattle.luks_area.specs.Text.{text_of};
ghost use Rattle.luks2_header.specs.Header2.{binary_header_size, csum_at, hdr_size, magic_of, sha256_size, with_zero_checksum, IsFormed};
ghost use Rattle.luks2_header.specs.Sizes.{IsListed};

use luks_area::text_field;
use luks1_header::fields::{field, put};
use luks1_header::luks1_places::MAGIC;
use luks2_header::Bin2;
use sha2::{Digest, Sha256};

/// The bytes of a binary header.
pub(crate) const HEADER: usize = 4096;

/// The magic of the second copy: `SKUL`, 0xBA, 0xBE.
const SECOND_MAGIC: [u8; 6] = [0x53, 0x4B, 0x55, 0x4C, 0xBA, 0xBE];

/// Where the checksum is in a binary header, in bytes from its start.
const CSUM: usize = 448;

/// The bytes of the checksum's field.
const CSUM_SIZE: usize = 64;

/// The bytes of a SHA-256, which stand first in it.
const SHA256_SIZE: usize = 32;

/// Puts the magic of the copy at the place `at` over what is in its place.
pub(crate) fn mend(head: &mut [u8], at: u64)
    requires { length head.old ≡ binary_header_size }
    ensures { head.new ≡ magic_of at ++ drop 6 head.old }
{
    let magic = if at == 0 { MAGIC } else { SECOND_MAGIC };
    put(head, 0, &magic);
}

/// Whether a binary header with the magic of its place is that of the copy at `at` of a header of
/// `size` bytes, on a device of `total`.
pub(crate) fn is_standing(head: &[u8], size: u64, at: u64, total: u64) -> bool
    requires long { length head.now ≡ binary_header_size }
    requires mended { (rest : List ℕ) × (head.now ≡ magic_of at ++ rest) }
    requires listed { IsListed size }
    requires half { (at ≡ 0) ⊎ (at ≡ size) }
    requires inside { at + size ≤ total }
    ensures { IsTrue result ↔ (IsFormed head.now at total × (hdr_size head.now ≡ size)) }
{
    let header = Bin2::read(head);
    header.version == 2 && header.hdr_size == size && header.hdr_offset == at && has_sha256(&header)
}

/// Whether the checksum is said to be a SHA-256.
fn has_sha256(header: &Bin2) -> bool
    ensures { IsTrue result ↔ (text_of header.now.csum_alg ≡ codes "sha256") }
{
    match text_field(&header.csum_alg) {
        Some(text) => text == "sha256",
        None => false,
    }
}

/// A hasher that was fed the binary header with the 64 bytes of its checksum as zeros.
pub(crate) fn hasher_of(head: &[u8]) -> Sha256
    requires { length head.now ≡ binary_header_size }
    ensures { Holds256 result (with_zero_checksum head.now) }
{
    let mut hasher = Sha256::new();
    hasher.update(field(head, 0, CSUM));
    hasher.update([0; CSUM_SIZE].as_slice());
    hasher.update(&head[CSUM + CSUM_SIZE..]);
    hasher
}

/// The checksum that the binary header says.
pub(crate) fn sum_of(head: &[u8]) -> &[u8]
    requires { length head.now ≡ binary_header_size }
    ensures { result.now ≡ part head.now csum_at sha256_size }
{
    field(head, CSUM, SHA256_SIZE)
}
