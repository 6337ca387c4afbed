//! Judging an edit by the keyslots of the metadata, with no key.
ghost use Rattle.std.specs.Prelude.{◌≡◌, ◌<◌, ℕ, Some, false, true, IfSome, IsTrue, MatchOption, MatchResult};
ghost use Rattle.luks_edit.specs.Asked.{NamesItself, deed_of, opener_in};
ghost use Rattle.luks_making.specs.Conditions.{IsFree};
ghost use Rattle.luks_meta.specs.Content.{content};
ghost use Rattle.luks_meta.specs.Requirements.{has_requirements};
ghost use Rattle.luks2_edit_laws.specs.Metadata.{IsInUse, IsKeyArea, IsLeastFree};
ghost use Rattle.luks2_edit_laws.specs.Refused.{IsAbsent};
ghost use Rattle.luks2_judging.specs.Judged.{IsAbsentAmended, IsNewNumber, IsNumberFault, IsUnusable, IsUsable, Judges};

use luks_area::Area;
use luks_edit::{Change, Deed, Edit, EditFault, Opener};
use luks_meta::Meta;

/// Whether the keyslot is there.
pub(crate) fn is_used(meta: &Meta, n: u8) -> bool
    ensures used { IsTrue result → IsInUse (content meta.now) n }
    ensures free { result ≡ false → n < 32 → IsFree (content meta.now) n }
    ensures unused { result ≡ false → IsInUse (content meta.now) n → ⊥ }
{
    if n > 31 {
        return false;
    }
    match meta.keyslot(n) {
        Some(_) => true,
        None => false,
    }
}

/// The area of the keyslot, which is there.
pub(crate) fn key_area(meta: &Meta, n: u8) -> Area
    requires { IsInUse (content meta.now) n }
    ensures { IsKeyArea (content meta.now) n result }
{
    match meta.keyslot(n) {
        Some(keyslot) => Area {
            start: keyslot.area.offset,
            len: keyslot.area.size,
        },
        None => unreachable!(),
    }
}

/// Whether nothing is required that this program doesn't know. Refused by `Requirements`.
pub(crate) fn judge_requirements(meta: &Meta) -> Result<(), EditFault>
    ensures { Judges (has_requirements (content meta.now) ≡ true) EditFault.Requirements result }
{
    if meta.has_requirements() {
        return Err(EditFault::Requirements);
    }
    Ok(())
}

/// Whether the keyslots are there that the edit opens and removes, and the one whose priority it sets.
/// Refused by `NoSuchSlot`.
pub(crate) fn judge_wanted(meta: &Meta, edit: &Edit<'_>) -> Result<(), EditFault>
    ensures { Judges (IsAbsent (content meta.now) edit.now) EditFault.NoSuchSlot result }
{
    match edit.opener() {
        None => judge_others(meta, edit),
        Some(opener) => {
            if is_usable(meta, &opener) {
                judge_others(meta, edit)
            } else {
                Err(EditFault::NoSuchSlot)
            }
        }
    }
}

/// Whether the keyslot of the opener is there, if it is of one.
fn is_usable(meta: &Meta, opener: &Opener<'_>) -> bool
    ensures used { IsTrue result → IsUsable (content meta.now) opener.now }
    ensures unused { result ≡ false → IsUnusable (content meta.now) opener.now }
{
    match opener {
        Opener::Keyslot { slot, secret: _ } => is_used(meta, *slot),
        Opener::Key(_) => true,
    }
}

/// Whether the keyslot is there that the edit removes or whose priority it sets, if it does; that of what
/// opens is. Refused by `NoSuchSlot`.
fn judge_others(meta: &Meta, edit: &Edit<'_>) -> Result<(), EditFault>
    requires { IfSome (opener_in (deed_of edit.now)) (IsUsable (content meta.now)) }
    ensures { Judges (IsAbsent (content meta.now) edit.now) EditFault.NoSuchSlot result }
{
    match edit.deed() {
        Deed::Remove(removed) => {
            if is_used(meta, removed.slot) {
                Ok(())
            } else {
                Err(EditFault::NoSuchSlot)
            }
        }
        Deed::Seal(_) => Ok(()),
        Deed::Rewrite(rewritten) => judge_amended(meta, rewritten.change),
        Deed::Erase => Ok(()),
    }
}

/// Whether the keyslot is there whose priority the change sets. Refused by `NoSuchSlot`.
fn judge_amended(meta: &Meta, change: Option<Change<'_>>) -> Result<(), EditFault>
    ensures { Judges (IsAbsentAmended (content meta.now) change.entry) EditFault.NoSuchSlot result }
{
    match change {
        Some(Change::Priority { slot, priority: _ }) => {
            if is_used(meta, slot) {
                Ok(())
            } else {
                Err(EditFault::NoSuchSlot)
            }
        }
        Some(Change::AddToken { .. }) | Some(Change::RemoveToken { .. }) | None => Ok(()),
    }
}

/// Whether the keyslot that is named to open by isn't the one to remove. Refused by `SameSlot`.
pub(crate) fn judge_opener(edit: &Edit<'_>) -> Result<(), EditFault>
    ensures { Judges (NamesItself edit.now) EditFault.SameSlot result }
{
    match edit.deed() {
        Deed::Remove(removed) => judge_another(removed.slot, removed.by_),
        Deed::Seal(_) => Ok(()),
        Deed::Rewrite(_) => Ok(()),
        Deed::Erase => Ok(()),
    }
}

/// Whether the keyslot `by_`, if one is named, isn't `slot`. Refused by `SameSlot`.
fn judge_another(slot: u8, by_: Option<u8>) -> Result<(), EditFault>
    ensures { Judges (by_ ≡ Some slot) EditFault.SameSlot result }
{
    match by_ {
        Some(other) => {
            if other == slot {
                Err(EditFault::SameSlot)
            } else {
                Ok(())
            }
        }
        None => Ok(()),
    }
}

/// The least number that no keyslot has.
pub(crate) fn least_free(meta: &Meta) -> Option<u8>
    ensures { MatchOption result ((n : ℕ) → IsFree (content meta.now) n → ⊥)
        (IsLeastFree (content meta.now)) }
{
    for n in 0..32 {
        if !is_used(meta, n) {
            return Some(n);
        }
    }
    None
}

/// The number of the keyslot to make: `to`, or else the least that is free. Refused by `SlotTaken`,
/// `NoFreeSlot`.
pub(crate) fn new_number(meta: &Meta, to: Option<u8>) -> Result<u8, EditFault>
    ensures { MatchResult result (IsNewNumber (content meta.now) to)
        (IsNumberFault (content meta.now) to) }
{
    match to {
        Some(n) => {
            if n > 31 {
                return Err(EditFault::NoFreeSlot);
            }
            if is_used(meta, n) {
                return Err(EditFault::SlotTaken);
            }
            Ok(n)
        }
        None => match least_free(meta) {
            Some(n) => Ok(n),
            None => Err(EditFault::NoFreeSlot),
        },
    }
}
