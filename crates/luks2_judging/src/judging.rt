//! Judging an edit of a LUKS2 volume by the rows that nothing has to be made for.
ghost use Rattle.std.specs.Prelude.{◌≡◌, ◌≢◌, ◌+◌, ◌-◌, ◌^◌, ◌<◌, false, IfErr, IfOk, IfSome, OnOk};
ghost use Rattle.luks_area.specs.declared.area.Area.{Area as TheArea};
ghost use Rattle.luks_area.specs.declared.area.AreaName.{AreaName};
ghost use Rattle.luks_area.specs.Area.{IsInside};
ghost use Rattle.luks_area.specs.Calls.{Reads};
ghost use Rattle.luks_area.specs.Names.{HasArea};
ghost use Rattle.luks_meta.specs.Content.{area_len, content};
ghost use Rattle.luks_reading.specs.declared.report.Data.{Data as Payload};
ghost use Rattle.luks_reading.specs.Layout2.{Luks2Area};
ghost use Rattle.luks_reading.specs.Listing.{Lists};
ghost use Rattle.luks2_edit_laws.specs.Metadata.{IsInUse, IsKeyArea};
ghost use Rattle.luks2_edit_laws.specs.Places.{IsNewArea};
ghost use Rattle.luks_reading.specs.Header.{IsAcceptedCopy, IsChosenCopy};
ghost use Rattle.luks_edit.specs.Asked.{allowed_by, deed_of};
ghost use Rattle.luks_edit.specs.declared.deed.Deed.TheVariants.{Remove as RemovesKeyslot, Seal as SealsKey};
ghost use Rattle.luks_edit.specs.EditFaults.{is_edit_failure};
ghost use Rattle.luks2_judging.specs.Calls.{IsReadyToJudge, PassesOf, RefusesOf, SealsOf, TakesOf};
ghost use Rattle.luks2_judging.specs.Changes.{HasPriorityThere};
ghost use Rattle.luks2_judging.specs.Judged.{IsNewNumber};
ghost use Rattle.luks2_edit_laws.specs.Refused.{HasBadText};
ghost use Rattle.luks2_judging.specs.Rewriting.{IsRewrittenAs, IsUnrewritten};
ghost use Rattle.luks2_judging.specs.Texts.{texts_of};
ghost use Rattle.luks2_judging.specs.Judging.{IsJudged, IsRefusedEarly, IsUnrefusedOf, IsUnrefusedSoFar};
ghost use Rattle.luks2_edit_laws.specs.declared.like.Like.TheVariants.{Keyslot};
ghost use Rattle.luks2_judging.specs.Room.{IsAllowed, IsPlaced, IsSealableLike, IsUnsealable};
ghost use Rattle.luks2_judging.specs.Sealing.{IsUnadded};

use crate::accepted::judge_without_key;
use crate::judged::{Addition, Judged, JudgedEdit, JudgedPlace, Renewal, TextFields};
use crate::keyslots::{key_area, new_number};
use crate::labels::judge_texts;
use crate::room::{Room, judge_sealing};
use crate::rows::judge_removal;
use crate::tokens::judge_change;
use crate::unlocking::unlock;
use luks_area::{Areas, Device};
use luks_edit::{
    AskedDerivation, Deed, Edit, EditFault, Place, Removed, Rewritten, Sealed, judge_uuid,
};
use luks_reading::{ChosenCopy, Data};
use luks2_edit_laws::Like;
use std::alloc::Global;

/// An accepted volume without requirements that has the keyslots that the edit opens and removes.
#[derive(Drop)]
struct Accepted<'a> {
    copy: &'a ChosenCopy,
    areas: Areas,
    /// The volume's length, in bytes.
    total: u64,
}

impl Accepted<'_> {
    /// The room for a keyslot's area.
    fn room(&self) -> Room<'_>
        ensures meta { result.meta.now ≡ self.now.copy.now.meta }
        ensures entries { result.entries.now ≡ self.now.areas }
        ensures total { result.total ≡ self.now.total }
    {
        Room {
            meta: &self.copy.meta,
            entries: self.areas.as_slice(),
            total: self.total,
        }
    }
}

/// Judges the edit of the LUKS2 volume with this copy by the rows `NotAccepted` to
/// `BadUuid` of the table of its faults, in their order: what the edit takes, or the first fault.
///
/// The rows `BadToken`, `SeqExhausted`, `MetadataFull` and `RandomLength` are left to the edit itself. A
/// keyslot is opened at most, and no byte is written. Memory is taken for Argon2 alone, where the edit
/// allows it: `Memory` comes only of a keyslot that derives by it. `Device` comes exactly where a device
/// call failed. The copy is given up, and given back where the edit
/// is taken.
pub fn judge_luks2<'a, D: Device>(
    alloc: Global,
    device: &mut D,
    copy: ChosenCopy,
    payload: Data,
    edit: &Edit<'a>,
) -> Result<Judged<'a>, EditFault>
    requires room { D.failed device.old + 1 < 2 ^ 64 }
    requires accepted { IsAcceptedCopy copy }
    ensures reads { Reads D.Device is_edit_failure result device.old device.new }
    ensures no_memory { (allowed_by edit.now).memory ≡ 0 → IfErr result (λ f. f ≢ EditFault.Memory) }
    ensures judged { IfOk result (IsJudged copy (D.size device.old) edit.now) }
    ensures unrefused { D.tells → IsChosenCopy (D.bytes device.old) copy
        → IfOk result (IsUnrefusedSoFar (D.bytes device.old) payload edit.now) }
    ensures refused { D.tells → IsChosenCopy (D.bytes device.old) copy
        → IfErr result (IsRefusedEarly (D.bytes device.old) payload edit.now) }
{
    let taken = taken_by(alloc, device, &copy, payload, edit)?;
    Ok(Judged { copy, edit: taken })
}

/// What the edit takes of the volume with this copy, or the first fault.
fn taken_by<'a, D: Device>(
    alloc: Global,
    device: &mut D,
    copy: &ChosenCopy,
    payload: Data,
    edit: &Edit<'a>,
) -> Result<JudgedEdit<'a>, EditFault>
    requires room { D.failed device.old + 1 < 2 ^ 64 }
    requires accepted { IsAcceptedCopy copy.now }
    ensures reads { Reads D.Device is_edit_failure result device.old device.new }
    ensures no_memory { (allowed_by edit.now).memory ≡ 0 → IfErr result (λ f. f ≢ EditFault.Memory) }
    ensures takes { TakesOf D.Device copy.now edit.now device.old result }
    ensures unrefused { D.tells → IsChosenCopy (D.bytes device.old) copy.now
        → IfOk result (IsUnrefusedOf copy.now (D.bytes device.old) payload edit.now) }
    ensures refused { D.tells → IsChosenCopy (D.bytes device.old) copy.now
        → IfErr result (IsRefusedEarly (D.bytes device.old) payload edit.now) }
{
    let total = device.len();
    let areas = judge_without_key(copy, payload, total, edit)?;
    let accepted = Accepted { copy, areas, total };
    judge_with_key(alloc, device, &accepted, edit)
}

/// The rows from what gives the key on: `Locked`, `KeyLength`, `WrongKey`, `Slot`, `SlotTaken`, `NoFreeSlot`,
/// `NoRoom`, `LastSlot`, `Iterations`, `Argon2`, `BadLabel`, `NoSuchToken`, `TokenTaken`, `NoFreeToken`,
/// `UnreadableToken`, `BadUuid`. If all keyslots are erased, none of them refuses it.
fn judge_with_key<'a, D: Device>(
    alloc: Global,
    device: &mut D,
    accepted: &Accepted<'_>,
    edit: &Edit<'a>,
) -> Result<JudgedEdit<'a>, EditFault>
    requires ready { IsReadyToJudge D.Device accepted.now.copy.now accepted.now.areas
        accepted.now.total edit.now device.old }
    ensures reads { Reads D.Device is_edit_failure result device.old device.new }
    ensures no_memory { (allowed_by edit.now).memory ≡ 0 → IfErr result (λ f. f ≢ EditFault.Memory) }
    ensures takes { TakesOf D.Device accepted.now.copy.now edit.now device.old result }
    ensures seals { SealsOf D.Device accepted.now.copy.now accepted.now.areas edit.now
        device.old result }
    ensures passed { PassesOf D.Device accepted.now.copy.now accepted.now.areas edit.now
        device.old result }
    ensures refused { RefusesOf D.Device accepted.now.copy.now accepted.now.areas edit.now
        device.old result }
{
    match edit.deed() {
        Deed::Seal(sealed) => judge_sealing_of(alloc, device, accepted, edit, &sealed),
        Deed::Remove(removed) => judge_removal_of(alloc, device, accepted, edit, &removed),
        Deed::Rewrite(rewritten) => judge_rewriting(accepted, &rewritten),
        Deed::Erase => Ok(JudgedEdit::Erase),
    }
}

/// The first fault of an edit that seals a key: `Locked`, `KeyLength`, `WrongKey`, `Slot`, `SlotTaken`,
/// `NoFreeSlot`, `NoRoom`, `Iterations`, `Argon2`.
fn judge_sealing_of<'a, D: Device>(
    alloc: Global,
    device: &mut D,
    accepted: &Accepted<'_>,
    edit: &Edit<'a>,
    sealed: &Sealed<'a>,
) -> Result<JudgedEdit<'a>, EditFault>
    requires ready { IsReadyToJudge D.Device accepted.now.copy.now accepted.now.areas
        accepted.now.total edit.now device.old }
    requires asked { deed_of edit.now ≡ SealsKey sealed.now }
    ensures reads { Reads D.Device is_edit_failure result device.old device.new }
    ensures no_memory { (allowed_by edit.now).memory ≡ 0 → IfErr result (λ f. f ≢ EditFault.Memory) }
    ensures takes { TakesOf D.Device accepted.now.copy.now edit.now device.old result }
    ensures seals { SealsOf D.Device accepted.now.copy.now accepted.now.areas edit.now
        device.old result }
    ensures passed { PassesOf D.Device accepted.now.copy.now accepted.now.areas edit.now
        device.old result }
    ensures refused { RefusesOf D.Device accepted.now.copy.now accepted.now.areas edit.now
        device.old result }
{
    let room = accepted.room();
    let allowed = edit.allowed();
    let passphrase = sealed.passphrase;
    let given = unlock(alloc, device, accepted.copy, &sealed.opener(), allowed)?;
    match sealed.place {
        Place::New { opener: _, to } => {
            let addition = judge_addition(
                &room,
                given.like,
                to,
                sealed.derivation,
                allowed.memory,
            )?;
            Ok(JudgedEdit::Seal {
                place: JudgedPlace::New(addition),
                key: given.key,
                passphrase,
            })
        }
        Place::Opened { slot, secret: _ } => {
            let renewal = judge_renewal(&room, slot, sealed.derivation, allowed.memory)?;
            Ok(JudgedEdit::Seal {
                place: JudgedPlace::Opened(renewal),
                key: given.key,
                passphrase,
            })
        }
    }
}

/// The first fault of an edit that removes a keyslot: `Locked`, `KeyLength`, `WrongKey`, `Slot`, `LastSlot`.
fn judge_removal_of<'a, D: Device>(
    alloc: Global,
    device: &mut D,
    accepted: &Accepted<'_>,
    edit: &Edit<'a>,
    removed: &Removed<'a>,
) -> Result<JudgedEdit<'a>, EditFault>
    requires ready { IsReadyToJudge D.Device accepted.now.copy.now accepted.now.areas
        accepted.now.total edit.now device.old }
    requires asked { deed_of edit.now ≡ RemovesKeyslot removed.now }
    ensures reads { Reads D.Device is_edit_failure result device.old device.new }
    ensures no_memory { (allowed_by edit.now).memory ≡ 0 → IfErr result (λ f. f ≢ EditFault.Memory) }
    ensures takes { TakesOf D.Device accepted.now.copy.now edit.now device.old result }
    ensures seals { SealsOf D.Device accepted.now.copy.now accepted.now.areas edit.now
        device.old result }
    ensures passed { PassesOf D.Device accepted.now.copy.now accepted.now.areas edit.now
        device.old result }
    ensures refused { RefusesOf D.Device accepted.now.copy.now accepted.now.areas edit.now
        device.old result }
{
    let room = accepted.room();
    let allowed = edit.allowed();
    let slot = removed.slot;
    let _given = unlock(alloc, device, accepted.copy, &removed.opener(), allowed)?;
    let area = judge_removal(room.meta, slot)?;
    Ok(JudgedEdit::Remove { slot, area })
}

/// The first fault of an edit that rewrites the header: `BadLabel`, `NoSuchToken`, `TokenTaken`,
/// `NoFreeToken`, `UnreadableToken`, `BadUuid`.
fn judge_rewriting<'a>(
    accepted: &Accepted<'_>,
    rewritten: &Rewritten<'a>,
) -> Result<JudgedEdit<'a>, EditFault>
    requires there { IfSome rewritten.now.change
        (HasPriorityThere (content accepted.now.copy.now.meta)) }
    ensures own { IfErr result (λ f. is_edit_failure f ≡ false) }
    ensures memory { IfErr result (λ f. f ≢ EditFault.Memory) }
    ensures good { OnOk result (HasBadText rewritten.now → ⊥) }
    ensures takes { IfOk result (IsRewrittenAs (content accepted.now.copy.now.meta)
        (texts_of accepted.now.copy.now.header) rewritten.now) }
    ensures refused { IfErr result (IsUnrewritten (content accepted.now.copy.now.meta)
        rewritten.now) }
{
    let kept = TextFields::of(&accepted.copy.header);
    let fields = match judge_texts(rewritten, &kept) {
        Ok(fields) => fields,
        Err(fault) => return Err(fault),
    };
    let change = match judge_change(&accepted.copy.meta, rewritten.change) {
        Ok(change) => change,
        Err(fault) => return Err(fault),
    };
    let uuid = rewritten.uuid;
    match judge_uuid(uuid) {
        Ok(()) => Ok(JudgedEdit::Rewrite {
            uuid,
            fields,
            change,
        }),
        Err(fault) => Err(fault),
    }
}

/// The keyslot that is added like this one, which is there: of the number `to`, or else of the least that
/// is free. Refused by `SlotTaken`, `NoFreeSlot`, `NoRoom`, `Iterations`, `Argon2`.
fn judge_addition(
    room: &Room<'_>,
    like: Like,
    to: Option<u8>,
    derivation: AskedDerivation,
    memory: u32,
) -> Result<Addition, EditFault>
    requires there { IsSealableLike (content room.now.meta.now) like }
    requires ends { (m : AreaName) (a : TheArea) → HasArea room.now.entries.now m a
        → IsInside a (2 ^ 64 - 1) }
    ensures own { IfErr result (λ f. is_edit_failure f ≡ false) }
    ensures memory { IfErr result (λ f. f ≢ EditFault.Memory) }
    ensures like { IfOk result (λ a. a.like ≡ like) }
    ensures derivation { IfOk result (λ a. a.derivation ≡ derivation) }
    ensures allowed { IfOk result (λ a. IsAllowed memory a.derivation) }
    ensures number { IfOk result (λ a. IsNewNumber (content room.now.meta.now) to a.made) }
    ensures placed { IfOk result (λ a.
        IsPlaced (area_len room.now.meta.now) (content room.now.meta.now) room.now.total a.like a.area) }
    ensures area { (payload : Payload) → Lists room.now.entries.now
        (Luks2Area (content room.now.meta.now) (area_len room.now.meta.now + 4096) payload room.now.total)
        → IfOk result (λ a. IsNewArea (area_len room.now.meta.now + 4096) room.now.total payload
        (content room.now.meta.now) a.like a.area) }
    ensures refused { (payload : Payload) → Lists room.now.entries.now
        (Luks2Area (content room.now.meta.now) (area_len room.now.meta.now + 4096) payload room.now.total)
        → IfErr result (IsUnadded (area_len room.now.meta.now + 4096) room.now.total payload
        (content room.now.meta.now) like to memory derivation) }
{
    // Not by `?`: the kit makes no proof of it where no parameter holds a fault of the metadata.
    let made = match new_number(room.meta, to) {
        Ok(made) => made,
        Err(fault) => return Err(fault),
    };
    match judge_sealing(room, like, derivation, memory) {
        Ok(area) => Ok(Addition {
            like,
            derivation,
            made,
            area,
        }),
        Err(fault) => Err(fault),
    }
}

/// The keyslot `slot`, which is there, with its new area. Refused by `NoRoom`, `Iterations`, `Argon2`.
fn judge_renewal(
    room: &Room<'_>,
    slot: u8,
    derivation: AskedDerivation,
    memory: u32,
) -> Result<Renewal, EditFault>
    requires there { IsInUse (content room.now.meta.now) slot }
    requires ends { (m : AreaName) (a : TheArea) → HasArea room.now.entries.now m a
        → IsInside a (2 ^ 64 - 1) }
    ensures own { IfErr result (λ f. is_edit_failure f ≡ false) }
    ensures memory { IfErr result (λ f. f ≢ EditFault.Memory) }
    ensures slot { IfOk result (λ r. r.slot ≡ slot) }
    ensures derivation { IfOk result (λ r. r.derivation ≡ derivation) }
    ensures allowed { IfOk result (λ r. IsAllowed memory r.derivation) }
    ensures placed { IfOk result (λ r.
        IsPlaced (area_len room.now.meta.now) (content room.now.meta.now) room.now.total (Keyslot r.slot) r.area) }
    ensures area { (payload : Payload) → Lists room.now.entries.now
        (Luks2Area (content room.now.meta.now) (area_len room.now.meta.now + 4096) payload room.now.total)
        → IfOk result (λ r. IsNewArea (area_len room.now.meta.now + 4096) room.now.total payload
        (content room.now.meta.now) (Keyslot r.slot) r.area) }
    ensures lost { IfOk result (λ r. IsKeyArea (content room.now.meta.now) r.slot r.lost) }
    ensures refused { (payload : Payload) → Lists room.now.entries.now
        (Luks2Area (content room.now.meta.now) (area_len room.now.meta.now + 4096) payload room.now.total)
        → IfErr result (IsUnsealable (area_len room.now.meta.now + 4096) room.now.total payload
        (content room.now.meta.now) (Keyslot slot) memory derivation) }
{
    match judge_sealing(room, Like::Keyslot(slot), derivation, memory) {
        Ok(area) => Ok(Renewal {
            slot,
            derivation,
            area,
            lost: key_area(room.meta, slot),
        }),
        Err(fault) => Err(fault),
    }
}
