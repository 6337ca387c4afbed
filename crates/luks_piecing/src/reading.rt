//! A fragment is read again where it was seen.
ghost use Rattle.std.specs.Prelude.{◌≡◌, ◌≢◌, ◌+◌, ◌^◌, ◌<◌, ◌≤◌, ◌↔◌, length, IfErr, IfOk, IfSome, IsTrue};
ghost use Rattle.luks_area.specs.Device.{CountsFailure, IsUnchanged};
ghost use Rattle.luks_area.specs.Ranges.{part};
ghost use Rattle.luks_fragments.specs.Objects.{IsObjectAt};
ghost use Rattle.luks_trials.specs.Faults.{is_search_failure};
ghost use Rattle.luks_piecing.specs.Pieced.{IsTextAt};

use crate::spots::Spot;
use luks_area::{Area, Device};
use luks_fragments::{Kind, kind_of, object_len};
use luks_trials::SearchFault;
use std::alloc::Global;

/// An object has no more bytes.
const LONGEST: u64 = 4096;

/// The bytes of the fragment that was seen at the spot, if it is there, and of this kind.
///
/// Takes memory for it, and for an area of 12288 bytes and its value.
pub(crate) fn read_fragment<D: Device>(
    alloc: Global,
    source: &mut D,
    spot: Spot,
    kind: Kind,
) -> Result<Option<Vec<u8>>, SearchFault>
    requires room { D.failed source.old + 1 < 2 ^ 64 }
    ensures unchanged { IsUnchanged D.tells D.size D.bytes D.unsettled source.old source.new }
    ensures count { CountsFailure is_search_failure result
        (D.failed source.old) (D.failed source.new) }
    ensures kinds { IfErr result (λ f. f ≢ SearchFault.Spent) }
    ensures some { IfOk result (λ found. IfSome found (λ text. 1 ≤ length text.items)) }
    ensures there { D.tells → IfOk result (λ found. IfSome found (λ text.
        IsTextAt (D.bytes source.old) spot.at kind text.items)) }
{
    let area = Area {
        start: spot.at,
        len: spot.len as u64,
    };
    let Some(text) = read_part(alloc, source, area)? else {
        return Ok(None);
    };
    if !is_whole(&text) {
        return Ok(None);
    }
    let Some(found) = kind_of(alloc, &text)? else {
        return Ok(None);
    };
    if found != kind {
        return Ok(None);
    }
    Ok(Some(text))
}

/// The bytes of the area, if it lies inside the source, and is no longer than an object may be.
fn read_part<D: Device>(
    alloc: Global,
    source: &mut D,
    area: Area,
) -> Result<Option<Vec<u8>>, SearchFault>
    requires room { D.failed source.old + 1 < 2 ^ 64 }
    ensures unchanged { IsUnchanged D.tells D.size D.bytes D.unsettled source.old source.new }
    ensures count { CountsFailure is_search_failure result
        (D.failed source.old) (D.failed source.new) }
    ensures kinds { IfErr result (λ f. f ≢ SearchFault.Spent) }
    ensures inside { IfOk result (λ found. IfSome found (λ text.
        area.start + length text.items ≤ D.size source.old)) }
    ensures part { D.tells → IfOk result (λ found. IfSome found (λ text.
        text.items ≡ part (D.bytes source.old) area.start (length text.items))) }
{
    if area.len > LONGEST {
        return Ok(None);
    }
    if !area.is_inside(source.len()) {
        return Ok(None);
    }
    let mut text = vec![in alloc; 0u8; area.len as usize]?;
    source.read_at(area.start, &mut text)?;
    Ok(Some(text))
}

/// Whether the text is one object.
fn is_whole(text: &[u8]) -> bool
    ensures { IsTrue result ↔ IsObjectAt text.now 0 (length text.now) }
{
    match object_len(text, 0) {
        Some(len) => len == text.len(),
        None => false,
    }
}
