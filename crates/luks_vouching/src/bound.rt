//! How many compositions may be hashed.
ghost use Rattle.std.specs.Prelude.{◌≡◌, ◌↔◌, ◌+◌, ◌*◌, ◌^◌, ◌≤◌, IsTrue};

/// So many bytes of areas may be hashed at most to find what one checksum vouches for, whoever asks: of 32
/// sectors or pieces that differ not all compositions have so few.
pub(crate) const MOST_EVER: usize = 1 << 40;

/// So many areas are cut and hashed before.
const CUT: usize = 2;

/// Whether so many compositions of `len` bytes each may be hashed where `most` bytes may.
fn may_hash(count: usize, len: usize, most: usize) -> bool
    ensures { IsTrue result ↔ (count * len ≤ most) }
{
    match count.checked_mul(len) {
        Some(bytes) => bytes <= most,
        None => false,
    }
}

/// Whether two areas of `len` bytes that are cut may be hashed.
pub(crate) fn may_begin(len: usize, most: usize) -> bool
    ensures { IsTrue result ↔ (2 * len ≤ most) }
{
    may_hash(CUT, len, most)
}

/// Whether all compositions may be hashed of areas of `len` bytes of which so many sectors differ.
pub(crate) fn all_may(differing: usize, len: usize, most: usize) -> bool
    requires inside { 512 * differing ≤ len }
    requires most { most ≤ 2 ^ 40 }
    ensures { IsTrue result ↔ ((2 + 2 ^ differing) * len ≤ most) }
{
    if differing < 32 {
        may_hash(CUT + (1 << differing), len, most)
    } else {
        false
    }
}

/// Whether a composition may be hashed of areas of `len` bytes of which so many sectors differ before its
/// border, and with it all up to it, of either front.
pub(crate) fn borders_may(passed: usize, len: usize, most: usize) -> bool
    requires inside { passed ≤ len }
    requires most { most ≤ 2 ^ 40 }
    ensures { IsTrue result ↔ ((2 + 2 * (passed + 1)) * len ≤ most) }
{
    passed < MOST_EVER && may_hash(CUT + 2 * (passed + 1), len, most)
}

/// Whether all compositions of so many pieces may be hashed, beside those of sectors.
pub(crate) fn pieces_may(differing: usize, count: usize, len: usize, most: usize) -> bool
    requires few { count ≤ 32 }
    requires inside { 512 * differing ≤ len }
    requires most { most ≤ 2 ^ 40 }
    ensures { IsTrue result ↔ ((2 + 2 ^ differing + 2 ^ count) * len ≤ most) }
{
    if differing < 32 {
        may_hash(CUT + (1 << differing) + (1 << count), len, most)
    } else {
        false
    }
}
