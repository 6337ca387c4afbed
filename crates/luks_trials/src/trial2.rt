//! Trying the keyslots of LUKS2 metadata.
ghost use Rattle.std.specs.Prelude.{◌≡◌, ◌↔◌, ◌+◌, ◌^◌, ◌<◌, ℕ, List, length, Some, IfErr, IfOk, IsTrue};
ghost use Rattle.luks_area.specs.Device.{CountsFailure, IsUnchanged};
ghost use Rattle.luks_meta.specs.Accepted.{IsMeta};
ghost use Rattle.luks_meta.specs.Content.{content};
ghost use Rattle.luks_trials.specs.Faults.{is_search_failure, IsCutShort};
ghost use Rattle.luks_trials.specs.Tallies.{Counts, CountsOne};
ghost use Rattle.luks_trials.specs.Metadata.{OpensAt};

use crate::fault::SearchFault;
use crate::tally::{Progress, Tally};
use crate::trial::try_plan;
use luks_area::Device;
use luks_meta::Meta;
use luks_reading::luks2_plan;
use luks_slot::Allowed;
use std::alloc::Global;

/// What keyslots are tried with.
#[derive(Clone, Copy)]
pub struct Trying<'a> {
    /// The passphrase.
    pub passphrase: &'a [u8],
    /// What is allowed to it.
    pub allowed: Allowed,
}

/// The number of bits in which the digest differs from one by which the keyslot `n` of this metadata would open:
/// 0 if it opens, None if it isn't there, lies outside, is refused, or would take too long. It is counted before
/// it is tried.
pub fn distance<D: Device, P: Progress>(
    alloc: Global,
    source: &mut D,
    meta: &Meta,
    n: u8,
    trying: &Trying<'_>,
    tally: &mut Tally,
    progress: &mut P,
) -> Result<Option<u32>, SearchFault>
    requires passphrase { 0 < trying.now.allowed.memory
        → length trying.now.passphrase.now < 2 ^ 32 }
    requires room { D.failed source.old + 1 < 2 ^ 64 }
    ensures unchanged { IsUnchanged D.tells D.size D.bytes D.unsettled source.old source.new }
    ensures count { CountsFailure is_search_failure result
        (D.failed source.old) (D.failed source.new) }
    ensures counts { Counts tally.old tally.new }
    ensures counted { IfOk result (λ bits. CountsOne bits tally.old tally.new) }
    ensures cut { IfErr result (IsCutShort tally.new) }
    ensures opens { D.tells → (json : List ℕ) → IsMeta json (content meta.now)
        → IfOk result (λ bits. (bits ≡ Some 0) ↔ OpensAt trying.now.allowed
        (D.bytes source.old) trying.now.passphrase.now json n) }
{
    if n > 31 {
        return Ok(None);
    }
    let Some(keyslot) = meta.keyslot(n) else {
        return Ok(None);
    };
    let number = meta.digest_of_keyslot(n).unwrap();
    let digest = meta.digest(number).unwrap();
    let plan = luks2_plan(&keyslot, &digest);
    if !plan.area.is_inside(source.len()) {
        return Ok(None);
    }
    let passphrase = trying.passphrase;
    let allowed = trying.allowed;
    try_plan(alloc, source, &plan, passphrase, allowed, tally, progress)
}

/// Whether the keyslot `n` of this metadata opens.
pub fn opens<D: Device, P: Progress>(
    alloc: Global,
    source: &mut D,
    meta: &Meta,
    n: u8,
    trying: &Trying<'_>,
    tally: &mut Tally,
    progress: &mut P,
) -> Result<bool, SearchFault>
    requires passphrase { 0 < trying.now.allowed.memory
        → length trying.now.passphrase.now < 2 ^ 32 }
    requires room { D.failed source.old + 1 < 2 ^ 64 }
    ensures unchanged { IsUnchanged D.tells D.size D.bytes D.unsettled source.old source.new }
    ensures count { CountsFailure is_search_failure result
        (D.failed source.old) (D.failed source.new) }
    ensures counts { Counts tally.old tally.new }
    ensures cut { IfErr result (IsCutShort tally.new) }
    ensures opens { D.tells → (json : List ℕ) → IsMeta json (content meta.now)
        → IfOk result (λ is. IsTrue is ↔ OpensAt trying.now.allowed
        (D.bytes source.old) trying.now.passphrase.now json n) }
{
    match distance(alloc, source, meta, n, trying, tally, progress)? {
        Some(0) => Ok(true),
        _ => Ok(false),
    }
}
