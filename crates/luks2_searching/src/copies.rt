//! The JSON areas of the copies that a volume may have.
ghost use Rattle.std.specs.Prelude.{◌≡◌, ◌≢◌, ◌↔◌, ◌+◌, ◌-◌, ◌==◌, ◌^◌, ◌<◌, ◌≤◌, ◌⊎◌, length, position, IfErr, IfNone, IfOk, IfSome, IsTrue};
ghost use Rattle.luks_area.specs.Device.{CountsFailure, IsUnchanged};
ghost use Rattle.luks2_header.specs.Sizes.{IsListed};
ghost use Rattle.luks_rebuilding.specs.Candidates.{IsBegun, IsPlace};
ghost use Rattle.luks_vouching.specs.Cut.{cut, text_end};
ghost use Rattle.luks_trials.specs.Faults.{is_search_failure};
ghost use Rattle.luks2_searching.specs.Found.{area_of};

use luks_area::Device;
use luks_rebuilding::Place;
use luks_trials::SearchFault;
use std::alloc::Global;

/// The bytes of the binary header with which a copy begins; its JSON area follows.
const BINARY_HEADER: u64 = 4096;

/// The JSON area of the copy at the place, cut where its text ends, if the copy lies inside and its area begins with a
/// brace. Else only that byte is read.
pub(crate) fn begun_area<D: Device>(
    alloc: Global,
    source: &mut D,
    place: Place,
) -> Result<Option<Vec<u8>>, SearchFault>
    requires listed { IsListed place.size }
    requires half { (place.at ≡ 0) ⊎ (place.at ≡ place.size) }
    requires room { D.failed source.old + 1 < 2 ^ 64 }
    ensures unchanged { IsUnchanged D.tells D.size D.bytes D.unsettled source.old source.new }
    ensures count { CountsFailure is_search_failure result
        (D.failed source.old) (D.failed source.new) }
    ensures kinds { IfErr result (λ f. f ≢ SearchFault.Spent) }
    ensures place { IfOk result (λ found. IfSome found (λ _. IsPlace (D.size source.old) place)) }
    ensures long { IfOk result (λ found. IfSome found
        (λ json. length json.items ≡ place.size - 4096)) }
    ensures read { D.tells → IfOk result (λ found. IfSome found
        (λ json. json.items ≡ area_of (D.bytes source.old) place)) }
    ensures none { D.tells → IfOk result (λ found. IfNone found
        (IsBegun (D.bytes source.old) place → ⊥)) }
{
    if !is_inside(place, source.len()) {
        return Ok(None);
    }
    let mut first = [0; 1];
    source.read_at(place.at + BINARY_HEADER, &mut first)?;
    if first != *b"{" {
        return Ok(None);
    }
    let len = (place.size - BINARY_HEADER) as usize;
    let mut json = vec![in alloc; 0u8; len]?;
    source.read_at(place.at + BINARY_HEADER, &mut json)?;
    cut(&mut json);
    Ok(Some(json))
}

/// Whether the copy lies inside a volume of `total` bytes. No sum is made.
fn is_inside(place: Place, total: u64) -> bool
    ensures { IsTrue result ↔ (place.at + place.size ≤ total) }
{
    place.size <= total && place.at <= total - place.size
}

/// Cuts the area where its text ends: all behind it becomes zeros.
fn cut(json: &mut [u8])
    ensures { json.new ≡ cut json.old }
{
    let end = text_end(json);
    json[end..].fill(0);
}

/// The end of the area's text: its first zero byte, or the area's end.
pub(crate) fn text_end(area: &[u8]) -> usize
    ensures end { result ≡ text_end area.now }
    ensures inside { result ≤ length area.now }
{
    match first_zero(area) {
        Some(end) => end,
        None => area.len(),
    }
}

fn first_zero(area: &[u8]) -> Option<usize>
    ensures { result ≡ position (λ c. c == 0) area.now }
{
    area.iter().position(|c| *c == 0)
}
