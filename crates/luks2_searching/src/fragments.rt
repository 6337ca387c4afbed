//! The search in fragments.
ghost use Rattle.std.specs.Prelude.{◌≡◌, ◌+◌, ◌^◌, ◌<◌, length, IfErr, IfOk, IfSome};
ghost use Rattle.luks_area.specs.Device.{CountsFailure, IsUnchanged};
ghost use Rattle.luks_rebuilding.specs.Candidates.{IsPlace};
ghost use Rattle.luks_trials.specs.Faults.{is_search_failure, IsCutShort};
ghost use Rattle.luks_trials.specs.Tallies.{Counts};
ghost use Rattle.luks2_searching.specs.Found.{IsFound2};

use crate::found::{Change2, Found2};
use luks_area::Device;
use luks_piecing::{GivenSegment, search_fragments};
use luks_rebuilding::Place;
use luks_trials::{Progress, SearchFault, Tally, Trying};
use std::alloc::Global;

/// The size of the header that is made of fragments, in bytes: that of the shortest.
const SIZE: u64 = 0x4000;

/// Metadata that is made of fragments. A source that is shorter than the header isn't searched.
pub(crate) fn by_fragments<D: Device, P: Progress>(
    alloc: Global,
    source: &mut D,
    given: &Option<GivenSegment<'_>>,
    trying: &Trying<'_>,
    tally: &mut Tally,
    progress: &mut P,
) -> Result<Option<Found2>, SearchFault>
    requires passphrase { 0 < trying.now.allowed.memory
        → length trying.now.passphrase.now < 2 ^ 32 }
    requires room { D.failed source.old + 1 < 2 ^ 64 }
    ensures unchanged { IsUnchanged D.tells D.size D.bytes D.unsettled source.old source.new }
    ensures count { CountsFailure is_search_failure result
        (D.failed source.old) (D.failed source.new) }
    ensures counts { Counts tally.old tally.new }
    ensures cut { IfErr result (IsCutShort tally.new) }
    ensures there { IfOk result (λ found. IfSome found (λ f.
        IsPlace (D.size source.old) f.place × (4096 + length f.json.items ≡ f.place.size))) }
    ensures found { D.tells → IfOk result (λ found. IfSome found
        (IsFound2 trying.now.allowed given.now (D.bytes source.old) trying.now.passphrase.now)) }
{
    if source.len() < SIZE {
        return Ok(None);
    }
    let Some(pieced) = search_fragments(alloc, source, given, trying, tally, progress)? else {
        return Ok(None);
    };
    Ok(Some(Found2 {
        json: pieced.json,
        place: Place { size: SIZE, at: 0 },
        slot: pieced.slot,
        change: Change2::Fragments {
            keyslot: pieced.keyslot,
            digest: pieced.digest,
            segment: pieced.segment,
        },
    }))
}
