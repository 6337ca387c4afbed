//! The search in one JSON area as it stands.
ghost use Rattle.std.specs.Prelude.{◌+◌, ◌^◌, ◌<◌, length, IfErr, IfNone, IfOk, IfSome};
ghost use Rattle.luks_area.specs.Device.{CountsFailure, IsUnchanged};
ghost use Rattle.luks_meta.specs.Accepted.{IsMeta};
ghost use Rattle.luks_meta.specs.Content.{content};
ghost use Rattle.luks_trials.specs.Faults.{is_search_failure, IsCutShort};
ghost use Rattle.luks_trials.specs.Tallies.{Counts};
ghost use Rattle.luks2_searching.specs.Found.{IsFoundIn, IsThere};
ghost use Rattle.luks_trials.specs.Metadata.{OpensAt, OpensNone};

use crate::digest::{FEW_BITS, mended_digest};
use crate::found::{Change2, Found2};
use luks_area::Device;
use luks_meta::Meta;
use luks_rebuilding::Place;
use luks_trials::{Progress, SearchFault, Tally, Trying, distance, meta_of};
use std::alloc::Global;

/// The first keyslot that opens by the area as it stands, or by a digest that differs in few bits. `place` is that of
/// the copy.
pub(crate) fn as_it_stands<D: Device, P: Progress>(
    alloc: Global,
    source: &mut D,
    place: Place,
    json: &[u8],
    trying: &Trying<'_>,
    tally: &mut Tally,
    progress: &mut P,
) -> Result<Option<Found2>, SearchFault>
    requires passphrase { 0 < trying.now.allowed.memory
        → length trying.now.passphrase.now < 2 ^ 32 }
    requires room { D.failed source.old + 1 < 2 ^ 64 }
    ensures unchanged { IsUnchanged D.tells D.size D.bytes D.unsettled source.old source.new }
    ensures count { CountsFailure is_search_failure result
        (D.failed source.old) (D.failed source.new) }
    ensures counts { Counts tally.old tally.new }
    ensures cut { IfErr result (IsCutShort tally.new) }
    ensures there { IfOk result (λ found. IfSome found (IsThere place json.now)) }
    ensures found { D.tells → IfOk result (λ found. IfSome found (IsFoundIn trying.now.allowed
        (D.bytes source.old) trying.now.passphrase.now json.now)) }
    ensures none { D.tells → IfOk result (λ found. IfNone found (OpensNone trying.now.allowed
        (D.bytes source.old) trying.now.passphrase.now json.now)) }
{
    let Some(meta) = meta_of(alloc, json)? else {
        return Ok(None);
    };
    for n in 0..32 {
        let found = slot_as_it_stands(
            alloc, source, place, json, &meta, n, trying, tally, progress,
        )?;
        if found.is_some() {
            return Ok(found);
        }
    }
    Ok(None)
}

/// Tries the keyslot `n` unchanged.
fn slot_as_it_stands<D: Device, P: Progress>(
    alloc: Global,
    source: &mut D,
    place: Place,
    json: &[u8],
    meta: &Meta,
    n: u8,
    trying: &Trying<'_>,
    tally: &mut Tally,
    progress: &mut P,
) -> Result<Option<Found2>, SearchFault>
    requires meta { IsMeta json.now (content meta.now) }
    requires passphrase { 0 < trying.now.allowed.memory
        → length trying.now.passphrase.now < 2 ^ 32 }
    requires room { D.failed source.old + 1 < 2 ^ 64 }
    ensures unchanged { IsUnchanged D.tells D.size D.bytes D.unsettled source.old source.new }
    ensures count { CountsFailure is_search_failure result
        (D.failed source.old) (D.failed source.new) }
    ensures counts { Counts tally.old tally.new }
    ensures cut { IfErr result (IsCutShort tally.new) }
    ensures there { IfOk result (λ found. IfSome found (IsThere place json.now)) }
    ensures found { D.tells → IfOk result (λ found. IfSome found (IsFoundIn trying.now.allowed
        (D.bytes source.old) trying.now.passphrase.now json.now)) }
    ensures none { D.tells → IfOk result (λ found. IfNone found (OpensAt trying.now.allowed
        (D.bytes source.old) trying.now.passphrase.now json.now n → ⊥)) }
{
    match distance(alloc, source, meta, n, trying, tally, progress)? {
        Some(0) => Ok(Some(Found2 {
            json: json.to_vec(alloc)?,
            place,
            slot: n,
            change: Change2::Nothing,
        })),
        Some(bits) if bits <= FEW_BITS => mended_digest(
            alloc, source, place, json, meta, n, trying, tally, progress,
        ),
        _ => Ok(None),
    }
}
