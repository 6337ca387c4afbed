//! The segment that is tried.
ghost use Rattle.std.specs.Prelude.{◌≡◌, ◌≢◌, ◌+◌, ◌^◌, ◌<◌, None, IfErr, IfOk, IfSome};
ghost use Rattle.luks_area.specs.Device.{CountsFailure, IsUnchanged};
ghost use Rattle.luks_trials.specs.Faults.{is_search_failure};
ghost use Rattle.luks_piecing.specs.Given.{IsGivenText};
ghost use Rattle.luks_piecing.specs.Pieced.{IsSegment};

use crate::given::{GivenSegment, given_text};
use crate::reading::read_fragment;
use crate::spots::Spot;
use luks_area::Device;
use luks_fragments::Kind;
use luks_trials::SearchFault;
use std::alloc::Global;

/// A segment.
#[derive(Drop)]
pub(crate) struct Segment {
    /// Its text.
    pub(crate) text: Vec<u8>,
    /// Where it stands: none where it is given.
    pub(crate) at: Option<u64>,
}

/// The given segment, if there is one, else the one that was seen at the spot.
pub(crate) fn segment_of<D: Device>(
    alloc: Global,
    source: &mut D,
    given: &Option<GivenSegment<'_>>,
    seen: Option<Spot>,
) -> Result<Option<Segment>, SearchFault>
    requires room { D.failed source.old + 1 < 2 ^ 64 }
    ensures unchanged { IsUnchanged D.tells D.size D.bytes D.unsettled source.old source.new }
    ensures count { CountsFailure is_search_failure result
        (D.failed source.old) (D.failed source.new) }
    ensures kinds { IfErr result (λ f. f ≢ SearchFault.Spent) }
    ensures is { D.tells → IfOk result (λ found. IfSome found (λ s.
        IsSegment (D.bytes source.old) given.now s.at s.text.items)) }
{
    match given {
        Some(given) => given_segment(alloc, given),
        None => standing_segment(alloc, source, seen),
    }
}

/// The segment that is given, if its cipher may be a name.
fn given_segment(alloc: Global, given: &GivenSegment<'_>) -> Result<Option<Segment>, SearchFault>
    ensures at { IfOk result (λ found. IfSome found (λ s. s.at ≡ None)) }
    ensures text { IfOk result (λ found. IfSome found (λ s. IsGivenText given.now s.text.items)) }
    ensures memory { IfErr result (λ f. f ≡ SearchFault.Memory) }
{
    let Some(text) = given_text(alloc, given)? else {
        return Ok(None);
    };
    Ok(Some(Segment { text, at: None }))
}

/// The segment that was seen at the spot, if it is there.
fn standing_segment<D: Device>(
    alloc: Global,
    source: &mut D,
    seen: Option<Spot>,
) -> Result<Option<Segment>, SearchFault>
    requires room { D.failed source.old + 1 < 2 ^ 64 }
    ensures unchanged { IsUnchanged D.tells D.size D.bytes D.unsettled source.old source.new }
    ensures count { CountsFailure is_search_failure result
        (D.failed source.old) (D.failed source.new) }
    ensures kinds { IfErr result (λ f. f ≢ SearchFault.Spent) }
    ensures is { D.tells → IfOk result (λ found. IfSome found (λ s.
        IsSegment (D.bytes source.old) None s.at s.text.items)) }
{
    let Some(spot) = seen else {
        return Ok(None);
    };
    let Some(text) = read_fragment(alloc, source, spot, Kind::Segment)? else {
        return Ok(None);
    };
    Ok(Some(Segment {
        text,
        at: Some(spot.at),
    }))
}
