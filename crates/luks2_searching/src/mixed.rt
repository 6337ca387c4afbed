//! The search in compositions of the bytes of both copies' JSON areas.
ghost use Rattle.std.specs.Prelude.{◌≡◌, ◌+◌, ◌^◌, ◌<◌, ◌≤◌, ℕ, List, length, slice_index, slice_set, true, false, IfErr, IfNone, IfOk, IfSome};
ghost use Rattle.luks_area.specs.Device.{CountsFailure, IsUnchanged};
ghost use Rattle.luks_trials.specs.Faults.{is_search_failure, IsCutShort};
ghost use Rattle.luks_trials.specs.Metadata.{AddsNone, IsMetaOf};
ghost use Rattle.luks_trials.specs.Tallies.{Counts};
ghost use Rattle.luks2_searching.specs.Found.{HasNoneOfBoth, IsFoundMixed, IsThere};
ghost use Rattle.luks2_searching.specs.Mixed.{few_bytes, mixed, AreAllOf, AreInside, DifferAt, GrowsBy};

use crate::found::{Change2, Found2};
use arrayvec::ArrayVec;
use luks_area::Device;
use luks_meta::Meta;
use luks_rebuilding::Place;
use luks_trials::{Progress, SearchFault, Tally, Trying, first_anew, meta_of};
use std::alloc::{AllocError, Global};

/// The first composition of the bytes of two JSON areas by which a keyslot opens that doesn't by the first one: none
/// where they differ in more than 16 bytes. `place` is that of the first copy.
pub(crate) fn by_mixing<D: Device, P: Progress>(
    alloc: Global,
    source: &mut D,
    place: Place,
    first: &[u8],
    second: &[u8],
    trying: &Trying<'_>,
    tally: &mut Tally,
    progress: &mut P,
) -> Result<Option<Found2>, SearchFault>
    requires long { length second.now ≡ length first.now }
    requires passphrase { 0 < trying.now.allowed.memory
        → length trying.now.passphrase.now < 2 ^ 32 }
    requires room { D.failed source.old + 1 < 2 ^ 64 }
    ensures unchanged { IsUnchanged D.tells D.size D.bytes D.unsettled source.old source.new }
    ensures count { CountsFailure is_search_failure result
        (D.failed source.old) (D.failed source.new) }
    ensures counts { Counts tally.old tally.new }
    ensures cut { IfErr result (IsCutShort tally.new) }
    ensures there { IfOk result (λ found. IfSome found (IsThere place first.now)) }
    ensures found { D.tells → IfOk result (λ found. IfSome found (IsFoundMixed trying.now.allowed
        (D.bytes source.old) trying.now.passphrase.now first.now second.now)) }
    ensures none { D.tells → IfOk result (λ found. IfNone found (HasNoneOfBoth trying.now.allowed
        (D.bytes source.old) trying.now.passphrase.now first.now second.now)) }
{
    let Some(places) = differing(first, second) else {
        return Ok(None);
    };
    let standing = meta_of(alloc, first)?;
    by_numbers(
        alloc, source, place, first, second, &places, &standing, trying, tally, progress,
    )
}

/// Tries the compositions of these places, at which the areas differ.
fn by_numbers<D: Device, P: Progress>(
    alloc: Global,
    source: &mut D,
    place: Place,
    first: &[u8],
    second: &[u8],
    places: &[usize],
    standing: &Option<Meta>,
    trying: &Trying<'_>,
    tally: &mut Tally,
    progress: &mut P,
) -> Result<Option<Found2>, SearchFault>
    requires long { length second.now ≡ length first.now }
    requires inside { AreInside (length first.now) places.now }
    requires short { length places.now ≤ few_bytes }
    requires few { DifferAt first.now second.now few_bytes }
    requires standing { IsMetaOf first.now standing.now }
    requires passphrase { 0 < trying.now.allowed.memory
        → length trying.now.passphrase.now < 2 ^ 32 }
    requires room { D.failed source.old + 1 < 2 ^ 64 }
    ensures unchanged { IsUnchanged D.tells D.size D.bytes D.unsettled source.old source.new }
    ensures count { CountsFailure is_search_failure result
        (D.failed source.old) (D.failed source.new) }
    ensures counts { Counts tally.old tally.new }
    ensures cut { IfErr result (IsCutShort tally.new) }
    ensures there { IfOk result (λ found. IfSome found (IsThere place first.now)) }
    ensures found { D.tells → IfOk result (λ found. IfSome found (IsFoundMixed trying.now.allowed
        (D.bytes source.old) trying.now.passphrase.now first.now second.now)) }
    ensures none { D.tells → IfOk result (λ found. IfNone found ((n : ℕ)
        → n < 2 ^ length places.now → AddsNone trying.now.allowed
        (D.bytes source.old) trying.now.passphrase.now first.now
        (mixed second.now places.now n first.now))) }
{
    for number in 0..1 << places.len() {
        let json = numbered(alloc, first, second, places, number)?;
        let meta = meta_of(alloc, &json)?;
        let slot = first_anew(alloc, source, standing, &meta, trying, tally, progress)?;
        if let Some(slot) = slot {
            let change = Change2::Mixed;
            return Ok(Some(Found2 {
                json,
                place,
                slot,
                change,
            }));
        }
    }
    Ok(None)
}

/// The places of the bytes in which the areas differ, where they are at most 16.
fn differing(first: &[u8], second: &[u8]) -> Option<ArrayVec<usize, 16>>
    requires { length second.now ≡ length first.now }
    ensures few { IfSome result (λ _. DifferAt first.now second.now few_bytes) }
    ensures short { IfSome result (λ places. length places.items ≤ few_bytes) }
    ensures inside { IfSome result (λ places. AreInside (length first.now) places.items) }
    ensures all { IfSome result (λ places. AreAllOf first.now second.now (length first.now) places.items) }
    ensures none { IfNone result (DifferAt first.now second.now few_bytes → ⊥) }
{
    let mut places = ArrayVec::new();
    for place in 0..first.len() {
        if !add_differing(first, second, place, &mut places) {
            return None;
        }
    }
    Some(places)
}

/// Adds the place if the areas differ there; false where there is no room for it.
fn add_differing(
    first: &[u8],
    second: &[u8],
    place: usize,
    places: &mut ArrayVec<usize, 16>,
) -> bool
    requires inside { place < length first.now }
    requires long { length second.now ≡ length first.now }
    ensures grown { result ≡ true
        → GrowsBy first.now second.now place places.old.items places.new.items }
    ensures differs { result ≡ false → slice_index first.now place ≡ slice_index second.now place → ⊥ }
    ensures full { result ≡ false → few_bytes ≤ length places.old.items }
{
    if first[place] == second[place] {
        return true;
    }
    if places.is_full() {
        return false;
    }
    places.push(place);
    true
}

/// The first area with the second one's bytes at those of these places that the number names by its binary digits.
fn numbered(
    alloc: Global,
    first: &[u8],
    second: &[u8],
    places: &[usize],
    number: usize,
) -> Result<Vec<u8>, AllocError>
    requires long { length second.now ≡ length first.now }
    requires inside { AreInside (length first.now) places.now }
    ensures { IfOk result (λ json. json.items ≡ mixed second.now places.now number first.now) }
{
    let mut json = first.to_vec(alloc)?;
    put_numbered(&mut json, second, places, number);
    Ok(json)
}

/// Puts those bytes of the other area there that this number names.
fn put_numbered(json: &mut [u8], other: &[u8], places: &[usize], n: usize)
    requires long { length json.old ≡ length other.now }
    requires inside { AreInside (length other.now) places.now }
    ensures { json.new ≡ mixed other.now places.now n json.old }
{
    let mut number = n;
    let mut left = places;
    while let [place, later @ ..] = left {
        if number % 2 == 1 {
            put_byte(json, other, *place);
        }
        number /= 2;
        left = later;
    }
}

/// Puts the byte of the other area there.
fn put_byte(json: &mut [u8], other: &[u8], place: usize)
    requires inside { place < length other.now }
    requires long { length json.old ≡ length other.now }
    ensures { json.new ≡ slice_set json.old place (slice_index other.now place) }
{
    json[place] = other[place];
}
