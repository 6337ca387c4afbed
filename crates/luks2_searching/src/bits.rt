//! The search in one JSON area with one bit of its text turned.
ghost use Rattle.std.specs.Prelude.{◌≡◌, ◌+◌, ◌^◌, ◌<◌, ◌≤◌, ℕ, length, IfErr, IfNone, IfOk, IfSome};
ghost use Rattle.luks_area.specs.Device.{CountsFailure, IsUnchanged};
ghost use Rattle.luks_vouching.specs.Cut.{text_end};
ghost use Rattle.luks_trials.specs.Faults.{is_search_failure, IsCutShort};
ghost use Rattle.luks_trials.specs.Tallies.{Counts};
ghost use Rattle.luks_trials.specs.Turned.{turned};
ghost use Rattle.luks2_searching.specs.Found.{HasNoneOfBits, IsFoundIn, IsThere};
ghost use Rattle.luks_trials.specs.Metadata.{AddsNone, IsMetaOf};

use crate::copies::text_end;
use crate::found::{Change2, Found2};
use crate::turning::{turn, turned};
use luks_area::Device;
use luks_meta::Meta;
use luks_rebuilding::Place;
use luks_trials::{Progress, SearchFault, Tally, Trying, first_anew, meta_of};
use std::alloc::Global;

/// A longer text isn't searched bit by bit: each of its texts is read as metadata, and that would take hours.
const MOST_TEXT: usize = 1 << 16;

/// The first metadata with one bit of the area's text turned, by which a keyslot opens that doesn't by what stands. The
/// area is as it was when the call ends. `place` is that of the copy.
pub(crate) fn by_bits<D: Device, P: Progress>(
    alloc: Global,
    source: &mut D,
    place: Place,
    json: &mut [u8],
    trying: &Trying<'_>,
    tally: &mut Tally,
    progress: &mut P,
) -> Result<Option<Found2>, SearchFault>
    requires passphrase { 0 < trying.now.allowed.memory
        → length trying.now.passphrase.now < 2 ^ 32 }
    requires room { D.failed source.old + 1 < 2 ^ 64 }
    ensures unchanged { IsUnchanged D.tells D.size D.bytes D.unsettled source.old source.new }
    ensures count { CountsFailure is_search_failure result
        (D.failed source.old) (D.failed source.new) }
    ensures counts { Counts tally.old tally.new }
    ensures cut { IfErr result (IsCutShort tally.new) }
    ensures same { json.new ≡ json.old }
    ensures there { IfOk result (λ found. IfSome found (IsThere place json.old)) }
    ensures found { D.tells → IfOk result (λ found. IfSome found (IsFoundIn trying.now.allowed
        (D.bytes source.old) trying.now.passphrase.now json.old)) }
    ensures none { D.tells → IfOk result (λ found. IfNone found (HasNoneOfBits trying.now.allowed
        (D.bytes source.old) trying.now.passphrase.now json.old)) }
{
    let end = text_end(json);
    if end > MOST_TEXT {
        return Ok(None);
    }
    let standing = meta_of(alloc, json)?;
    by_bits_to(
        alloc, source, place, json, end, &standing, trying, tally, progress,
    )
}

/// Turns each bit of the text, which ends there.
fn by_bits_to<D: Device, P: Progress>(
    alloc: Global,
    source: &mut D,
    place: Place,
    json: &mut [u8],
    end: usize,
    standing: &Option<Meta>,
    trying: &Trying<'_>,
    tally: &mut Tally,
    progress: &mut P,
) -> Result<Option<Found2>, SearchFault>
    requires end { end ≡ text_end json.old }
    requires there { end ≤ length json.old }
    requires standing { IsMetaOf json.old standing.now }
    requires passphrase { 0 < trying.now.allowed.memory
        → length trying.now.passphrase.now < 2 ^ 32 }
    requires room { D.failed source.old + 1 < 2 ^ 64 }
    ensures unchanged { IsUnchanged D.tells D.size D.bytes D.unsettled source.old source.new }
    ensures count { CountsFailure is_search_failure result
        (D.failed source.old) (D.failed source.new) }
    ensures counts { Counts tally.old tally.new }
    ensures cut { IfErr result (IsCutShort tally.new) }
    ensures same { json.new ≡ json.old }
    ensures there { IfOk result (λ found. IfSome found (IsThere place json.old)) }
    ensures found { D.tells → IfOk result (λ found. IfSome found (IsFoundIn trying.now.allowed
        (D.bytes source.old) trying.now.passphrase.now json.old)) }
    ensures none { D.tells → IfOk result (λ found. IfNone found ((at bit : ℕ)
        → at < text_end json.old → bit < 8 → AddsNone trying.now.allowed
        (D.bytes source.old) trying.now.passphrase.now json.old (turned json.old at bit))) }
{
    for at in 0..end {
        let found = by_bits_at(
            alloc, source, place, json, at, standing, trying, tally, progress,
        )?;
        if found.is_some() {
            return Ok(found);
        }
    }
    Ok(None)
}

/// Turns each bit of the byte at this place of the text.
fn by_bits_at<D: Device, P: Progress>(
    alloc: Global,
    source: &mut D,
    place: Place,
    json: &mut [u8],
    at: usize,
    standing: &Option<Meta>,
    trying: &Trying<'_>,
    tally: &mut Tally,
    progress: &mut P,
) -> Result<Option<Found2>, SearchFault>
    requires inside { at < text_end json.old }
    requires there { at < length json.old }
    requires standing { IsMetaOf json.old standing.now }
    requires passphrase { 0 < trying.now.allowed.memory
        → length trying.now.passphrase.now < 2 ^ 32 }
    requires room { D.failed source.old + 1 < 2 ^ 64 }
    ensures unchanged { IsUnchanged D.tells D.size D.bytes D.unsettled source.old source.new }
    ensures count { CountsFailure is_search_failure result
        (D.failed source.old) (D.failed source.new) }
    ensures counts { Counts tally.old tally.new }
    ensures cut { IfErr result (IsCutShort tally.new) }
    ensures same { json.new ≡ json.old }
    ensures there { IfOk result (λ found. IfSome found (IsThere place json.old)) }
    ensures found { D.tells → IfOk result (λ found. IfSome found (IsFoundIn trying.now.allowed
        (D.bytes source.old) trying.now.passphrase.now json.old)) }
    ensures none { D.tells → IfOk result (λ found. IfNone found ((bit : ℕ) → bit < 8
        → AddsNone trying.now.allowed (D.bytes source.old) trying.now.passphrase.now
        json.old (turned json.old at bit))) }
{
    for bit in 0..8 {
        let meta = turned_meta(alloc, json, at, bit)?;
        let slot = first_anew(alloc, source, standing, &meta, trying, tally, progress)?;
        if let Some(slot) = slot {
            return Ok(Some(Found2 {
                json: turned(alloc, json, at, bit)?,
                place,
                slot,
                change: Change2::Bit { place: at, bit },
            }));
        }
    }
    Ok(None)
}

/// The metadata of the area with this bit turned, if it has none of its faults. The area is as it was when the call
/// ends.
fn turned_meta(
    alloc: Global,
    json: &mut [u8],
    at: usize,
    bit: u8,
) -> Result<Option<Meta>, SearchFault>
    requires inside { at < length json.old }
    requires low { bit < 8 }
    ensures same { json.new ≡ json.old }
    ensures meta { IfOk result (IsMetaOf (turned json.old at bit)) }
    ensures memory { IfErr result (λ f. f ≡ SearchFault.Memory) }
{
    let byte = json[at];
    turn(json, at, bit);
    let meta = meta_of(alloc, json);
    json[at] = byte;
    meta
}
