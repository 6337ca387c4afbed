//! Which keyslots open by other metadata, of those that it tells otherwise than what stands.
ghost use Rattle.std.specs.Prelude.{◌≡◌, ◌+◌, ◌^◌, ◌<◌, List, ℕ, length, true, IfErr, IfNone, IfOk, IfSome, IsTrue};
ghost use Rattle.luks_area.specs.Device.{CountsFailure, IsUnchanged};
ghost use Rattle.luks_meta.specs.Accepted.{IsMeta};
ghost use Rattle.luks_meta.specs.Content.{content};
ghost use Rattle.luks_slot.specs.declared.allowed.Allowed.{Allowed as TheAllowed};
ghost use Rattle.luks_trials.specs.Faults.{is_search_failure, IsCutShort};
ghost use Rattle.luks_trials.specs.Tallies.{Counts};
ghost use Rattle.luks_trials.specs.Trials.{IsOpenedPlan};
ghost use Rattle.luks_trials.specs.Metadata.{AddsNone, IsMetaOf, OpensAt};

use crate::alike::is_alike;
use crate::fault::SearchFault;
use crate::tally::{Progress, Tally};
use crate::trial2::{Trying, opens};
use luks_area::Device;
use luks_meta::Meta;
use luks_reading::luks2_plan;
use luks_slot::SlotPlan;
use std::alloc::Global;

/// The first keyslot that opens by this metadata, if there is some, of those that it tells otherwise than what stands.
pub fn first_anew<D: Device, P: Progress>(
    alloc: Global,
    source: &mut D,
    standing: &Option<Meta>,
    turned: &Option<Meta>,
    trying: &Trying<'_>,
    tally: &mut Tally,
    progress: &mut P,
) -> Result<Option<u8>, SearchFault>
    requires passphrase { 0 < trying.now.allowed.memory
        → length trying.now.passphrase.now < 2 ^ 32 }
    requires room { D.failed source.old + 1 < 2 ^ 64 }
    ensures unchanged { IsUnchanged D.tells D.size D.bytes D.unsettled source.old source.new }
    ensures count { CountsFailure is_search_failure result
        (D.failed source.old) (D.failed source.new) }
    ensures counts { Counts tally.old tally.new }
    ensures cut { IfErr result (IsCutShort tally.new) }
    ensures opens { D.tells → (new : List ℕ) → IsMetaOf new turned.now
        → IfOk result (λ found. IfSome found (OpensAt trying.now.allowed
        (D.bytes source.old) trying.now.passphrase.now new)) }
    ensures none { D.tells → (old new : List ℕ) → IsMetaOf old standing.now
        → IsMetaOf new turned.now → IfOk result (λ found. IfNone found (AddsNone
        trying.now.allowed (D.bytes source.old) trying.now.passphrase.now old new)) }
{
    let Some(meta) = turned else {
        return Ok(None);
    };
    for n in 0..32 {
        if opens_anew(alloc, source, standing, meta, n, trying, tally, progress)? {
            return Ok(Some(n));
        }
    }
    Ok(None)
}

/// Whether the keyslot `n` opens by this metadata, and it tells it otherwise than what stands.
fn opens_anew<D: Device, P: Progress>(
    alloc: Global,
    source: &mut D,
    standing: &Option<Meta>,
    meta: &Meta,
    n: u8,
    trying: &Trying<'_>,
    tally: &mut Tally,
    progress: &mut P,
) -> Result<bool, SearchFault>
    requires numbered { n < 32 }
    requires passphrase { 0 < trying.now.allowed.memory
        → length trying.now.passphrase.now < 2 ^ 32 }
    requires room { D.failed source.old + 1 < 2 ^ 64 }
    ensures unchanged { IsUnchanged D.tells D.size D.bytes D.unsettled source.old source.new }
    ensures count { CountsFailure is_search_failure result
        (D.failed source.old) (D.failed source.new) }
    ensures counts { Counts tally.old tally.new }
    ensures cut { IfErr result (IsCutShort tally.new) }
    ensures opens { D.tells → (new : List ℕ) → IsMeta new (content meta.now)
        → IfOk result (λ is. IsTrue is → OpensAt trying.now.allowed
        (D.bytes source.old) trying.now.passphrase.now new n) }
    ensures none { D.tells → (old new : List ℕ) → IsMetaOf old standing.now
        → IsMeta new (content meta.now) → IfOk result (λ is. OpensAt trying.now.allowed
        (D.bytes source.old) trying.now.passphrase.now new n → (IsTrue is → ⊥)
        → OpensAt trying.now.allowed (D.bytes source.old) trying.now.passphrase.now old n) }
{
    if tells_as_before(standing, meta, n) {
        return Ok(false);
    }
    opens(alloc, source, meta, n, trying, tally, progress)
}

/// Whether what stands tells the keyslot `n` as this metadata does.
fn tells_as_before(standing: &Option<Meta>, meta: &Meta, n: u8) -> bool
    requires { n < 32 }
    ensures { result ≡ true → (allowed : TheAllowed) (v p old new : List ℕ)
        → IsMetaOf old standing.now → IsMeta new (content meta.now)
        → OpensAt allowed v p new n → OpensAt allowed v p old n }
{
    match standing {
        Some(standing) => tells_alike(standing, meta, n),
        None => false,
    }
}

/// Whether both tell the keyslot `n` alike.
fn tells_alike(standing: &Meta, meta: &Meta, n: u8) -> bool
    requires { n < 32 }
    ensures { result ≡ true → (allowed : TheAllowed) (v p old new : List ℕ)
        → IsMeta old (content standing.now) → IsMeta new (content meta.now)
        → OpensAt allowed v p new n → OpensAt allowed v p old n }
{
    let Some(keyslot) = meta.keyslot(n) else {
        return false;
    };
    let number = meta.digest_of_keyslot(n).unwrap();
    let digest = meta.digest(number).unwrap();
    let plan = luks2_plan(&keyslot, &digest);
    tells_plan(standing, &plan, n)
}

/// Whether it tells of the keyslot `n` what this plan says.
fn tells_plan(standing: &Meta, plan: &SlotPlan<'_>, n: u8) -> bool
    requires { n < 32 }
    ensures { result ≡ true → (allowed : TheAllowed) (v p old : List ℕ)
        → IsMeta old (content standing.now) → IsOpenedPlan allowed plan.now v p
        → OpensAt allowed v p old n }
{
    let Some(keyslot) = standing.keyslot(n) else {
        return false;
    };
    let number = standing.digest_of_keyslot(n).unwrap();
    let digest = standing.digest(number).unwrap();
    let standing_plan = luks2_plan(&keyslot, &digest);
    is_alike(&standing_plan, plan)
}
