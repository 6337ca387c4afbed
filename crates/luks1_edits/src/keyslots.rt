//! Which keyslots of a LUKS1 header are in use, and which is free.
ghost use Rattle.std.specs.Prelude.{◌≡◌, ◌≢◌, ◌<◌, ℕ, List, false, length, IfErr, IfOk, IfSome, IsTrue, MatchOption, MatchResult, OnOk};
ghost use Rattle.luks1_header.specs.Header1.{key_bytes_of, HoldsSlots};
ghost use Rattle.luks_making.specs.Derivations.{takes_memory};
ghost use Rattle.luks_edit.specs.EditFaults.{edit_row, is_edit_failure};
ghost use Rattle.luks1_edits.specs.Accepted.{AreAllThere, HasOther, IsIterated, IsMisnamed, IsNewFault, IsNewFree, IsNewRefused, IsRemovable, IsUnremovable, IsUnusable, IsUsable};
ghost use Rattle.luks1_edits.specs.Edited.{IsFree, IsInUse, IsLeastFree, iterations_of, number_asked};
ghost use Rattle.luks1_edits.specs.Refused.{keyslot_need};

use luks_edit::{AskedDerivation, Deed, Edit, EditFault, NewDerivation, Opener, Place, opener_of};
use luks2_header::{Luks1, SlotState};

/// Whether the keyslot is in use.
pub(crate) fn is_used(header: &Luks1, n: u8) -> bool
    requires { n < 8 }
    ensures used { IsTrue result
        → (v : List ℕ) → HoldsSlots v header.now.slots → IsInUse v n }
    ensures free { result ≡ false
        → (v : List ℕ) → HoldsSlots v header.now.slots → IsFree v n }
{
    match header.slots[n as usize].state {
        SlotState::Enabled => true,
        SlotState::Disabled => false,
    }
}

/// Whether there is a keyslot of that number in use.
fn is_there(header: &Luks1, n: u8) -> bool
    ensures numbered { IsTrue result → n < 8 }
    ensures used { IsTrue result
        → (v : List ℕ) → HoldsSlots v header.now.slots → IsInUse v n }
    ensures absent { result ≡ false
        → (v : List ℕ) → HoldsSlots v header.now.slots → IsInUse v n → ⊥ }
{
    n < 8 && is_used(header, n)
}

/// Whether the keyslots are there that the edit opens and removes; one that is named to open by must be
/// another one than that to remove. Refused by `NoSuchSlot`, `SameSlot`.
pub(crate) fn judge_named(header: &Luks1, edit: &Edit<'_>) -> Result<(), EditFault>
    ensures own { IfErr result (λ f. is_edit_failure f ≡ false) }
    ensures memory { IfErr result (λ f. f ≢ EditFault.Memory) }
    ensures early { IfErr result (λ f. edit_row f < 4) }
    ensures judged { (v : List ℕ) → HoldsSlots v header.now.slots
        → MatchResult result (λ _. AreAllThere v edit.now) (IsMisnamed v edit.now) }
{
    match edit.deed() {
        Deed::Seal(sealed) => judge_opener(header, &sealed.opener()),
        Deed::Remove(removed) => judge_removal(header, removed.slot, removed.by_),
        Deed::Rewrite(_) => Ok(()),
        Deed::Erase => Ok(()),
    }
}

/// Whether the keyslot is there that gives the key, if it is of one. Refused by `NoSuchSlot`.
fn judge_opener(header: &Luks1, opener: &Opener<'_>) -> Result<(), EditFault>
    ensures own { IfErr result (λ f. is_edit_failure f ≡ false) }
    ensures memory { IfErr result (λ f. f ≢ EditFault.Memory) }
    ensures early { IfErr result (λ f. edit_row f < 4) }
    ensures judged { (v : List ℕ) → HoldsSlots v header.now.slots
        → MatchResult result (λ _. IsUsable v opener.now) (IsUnusable v opener.now) }
{
    match opener {
        Opener::Keyslot { slot, secret: _ } => {
            if is_there(header, *slot) {
                Ok(())
            } else {
                Err(EditFault::NoSuchSlot)
            }
        }
        Opener::Key(_) => Ok(()),
    }
}

/// Whether the keyslots are there that a removal of `slot` names: `by_`, which is to open, must be
/// another one. Refused by `NoSuchSlot`, `SameSlot`.
fn judge_removal(header: &Luks1, slot: u8, by_: Option<u8>) -> Result<(), EditFault>
    ensures own { IfErr result (λ f. is_edit_failure f ≡ false) }
    ensures memory { IfErr result (λ f. f ≢ EditFault.Memory) }
    ensures early { IfErr result (λ f. edit_row f < 4) }
    ensures judged { (v : List ℕ) → HoldsSlots v header.now.slots
        → MatchResult result (λ _. IsRemovable v slot by_) (IsUnremovable v slot by_) }
{
    if !is_there(header, opener_of(slot, by_)) || !is_there(header, slot) {
        return Err(EditFault::NoSuchSlot);
    }
    if by_ == Some(slot) {
        return Err(EditFault::SameSlot);
    }
    Ok(())
}

/// Whether no keyslot but `n` is in use.
pub(crate) fn is_last(header: &Luks1, n: u8) -> bool
    ensures last { IsTrue result → (v : List ℕ) → HoldsSlots v header.now.slots
        → (m : ℕ) → IsInUse v m → m ≡ n }
    ensures other { result ≡ false
        → (v : List ℕ) → HoldsSlots v header.now.slots → HasOther v n }
{
    for m in 0..8 {
        if m != n && is_used(header, m) {
            return false;
        }
    }
    true
}

/// The least keyslot that is free.
pub(crate) fn least_free(header: &Luks1) -> Option<u8>
    ensures numbered { IfSome result (λ n. n < 8) }
    ensures least { (v : List ℕ) → HoldsSlots v header.now.slots
        → MatchOption result ((n : ℕ) → IsFree v n → ⊥) (IsLeastFree v) }
{
    for n in 0..8 {
        if !is_used(header, n) {
            return Some(n);
        }
    }
    None
}

/// The number that is asked for the keyslot in which a key is sealed, if one is.
pub(crate) fn number_asked(place: Place<'_>) -> Option<u8>
    ensures { result ≡ number_asked place.entry }
{
    match place {
        Place::New { opener: _, to } => to,
        Place::Opened { .. } => None,
    }
}

/// The keyslot to make: `to`, or else the least that is free. Refused by `SlotTaken`, `NoFreeSlot`.
pub(crate) fn new_keyslot(header: &Luks1, to: Option<u8>) -> Result<u8, EditFault>
    ensures numbered { IfOk result (λ n. n < 8) }
    ensures own { IfErr result (λ f. is_edit_failure f ≡ false) }
    ensures memory { IfErr result (λ f. f ≢ EditFault.Memory) }
    ensures new { (v : List ℕ) → HoldsSlots v header.now.slots
        → MatchResult result (IsNewFree v to) (IsNewFault v to) }
{
    match to {
        Some(n) => {
            if n > 7 {
                return Err(EditFault::NoFreeSlot);
            }
            if is_used(header, n) {
                return Err(EditFault::SlotTaken);
            }
            Ok(n)
        }
        None => match least_free(header) {
            Some(n) => Ok(n),
            None => Err(EditFault::NoFreeSlot),
        },
    }
}

/// How many random bytes a new keyslot takes: its salt, and its stripes but the last.
pub(crate) fn keyslot_need(header: &Luks1, n: u8) -> u64
    requires { n < 8 }
    ensures { (v : List ℕ) → HoldsSlots v header.now.slots
        → key_bytes_of v ≡ header.now.common.key_bytes → result ≡ keyslot_need v n }
{
    let stripes = header.slots[n as usize].stripes;
    let random = u64::from(stripes.saturating_sub(1)) * u64::from(header.common.key_bytes);
    32 + random
}

/// The iterations of a keyslot that is made.
pub(crate) fn iterations_of(derivation: AskedDerivation) -> u32
    ensures { result ≡ iterations_of derivation }
{
    match derivation.chosen {
        Some(NewDerivation::Pbkdf2 { iterations }) => iterations,
        Some(NewDerivation::Argon2i(_)) | Some(NewDerivation::Argon2id(_)) | None => {
            derivation.iterations
        }
    }
}

/// Whether it would derive by Argon2, which LUKS1 hasn't.
fn takes_memory(derivation: AskedDerivation) -> bool
    ensures { result ≡ takes_memory derivation.chosen }
{
    match derivation.chosen {
        Some(NewDerivation::Argon2i(_)) | Some(NewDerivation::Argon2id(_)) => true,
        Some(NewDerivation::Pbkdf2 { iterations: _ }) | None => false,
    }
}

/// Whether the keyslot `n` may be made with this derivation and these random bytes. Refused by
/// `Iterations`, `Argon2`, `RandomLength`.
pub(crate) fn judge_new(
    header: &Luks1,
    n: u8,
    derivation: AskedDerivation,
    random: &[u8],
) -> Result<(), EditFault>
    requires { n < 8 }
    ensures own { IfErr result (λ f. is_edit_failure f ≡ false) }
    ensures memory { IfErr result (λ f. f ≢ EditFault.Memory) }
    ensures iterated { OnOk result (IsIterated derivation) }
    ensures counted { (v : List ℕ) → HoldsSlots v header.now.slots
        → key_bytes_of v ≡ header.now.common.key_bytes
        → OnOk result (length random.now ≡ keyslot_need v n) }
    ensures refused { (v : List ℕ) → HoldsSlots v header.now.slots
        → key_bytes_of v ≡ header.now.common.key_bytes
        → IfErr result (IsNewRefused v n derivation random.now) }
{
    if derivation.has_few_turns() {
        return Err(EditFault::Iterations);
    }
    if takes_memory(derivation) {
        return Err(EditFault::Argon2);
    }
    if random.len() as u64 != keyslot_need(header, n) {
        return Err(EditFault::RandomLength);
    }
    Ok(())
}
