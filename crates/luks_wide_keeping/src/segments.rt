//! Segments that a header and its key areas would be put over.
ghost use Rattle.std.specs.Prelude.{◌≡◌, ◌↔◌, ◌^◌, ◌<◌, ℕ, IsTrue, MatchOption};
ghost use Rattle.luks_reading.specs.declared.report.Data.TheVariants.{Here};
ghost use Rattle.luks_wider.specs.Underways.{content};
ghost use Rattle.luks_wide_keeping.specs.Layout.{IsSegmentBelow};
ghost use Rattle.luks_wide_keeping.specs.Whole.{IsBelow, IsFirstOf, IsKnownSize};

use crate::size::whole_size;
use luks_reading::Data;
use luks_wide_reading::UnderwayCopy;

/// With the data here, the least segment by which data is read that begins before the end of the key areas'
/// region.
pub(crate) fn segment_below(copy: &UnderwayCopy, payload: Data) -> Option<u8>
    ensures { MatchOption result
        (payload ≡ Here → (n : ℕ) → IsSegmentBelow copy.now.header.hdr_size (content copy.now.meta) n → ⊥)
        (λ n. (payload ≡ Here) × IsFirstOf (IsSegmentBelow copy.now.header.hdr_size (content copy.now.meta)) n) }
{
    match payload {
        Data::Elsewhere => None,
        Data::Here => first_below(copy, whole_size(copy)),
    }
}

/// The least of them, where the header and the region have this size.
fn first_below(copy: &UnderwayCopy, size: Option<u64>) -> Option<u8>
    requires { IsKnownSize copy.now size }
    ensures { MatchOption result
        ((n : ℕ) → IsSegmentBelow copy.now.header.hdr_size (content copy.now.meta) n → ⊥)
        (λ n. IsFirstOf (IsSegmentBelow copy.now.header.hdr_size (content copy.now.meta)) n) }
{
    for n in 0..32u8 {
        if is_below(copy, n, size) {
            return Some(n);
        }
    }
    None
}

/// Whether the segment `n` is one of them.
fn is_below(copy: &UnderwayCopy, n: u8, size: Option<u64>) -> bool
    requires numbered { n < 32 }
    requires known { IsKnownSize copy.now size }
    ensures { IsTrue result
        ↔ IsSegmentBelow copy.now.header.hdr_size (content copy.now.meta) n }
{
    match copy.meta.segment(n) {
        Some(segment) => !segment.flags.backup && begins_below(segment.offset, size),
        None => false,
    }
}

/// Whether the byte place comes before this end, or none is known that a device has.
fn begins_below(offset: u64, end: Option<u64>) -> bool
    ensures below { IsTrue result ↔ IsBelow offset end }
    ensures fits { offset < 2 ^ 64 }
{
    match end {
        Some(end) => offset < end,
        None => true,
    }
}
