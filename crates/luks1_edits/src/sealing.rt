//! Sealing the key of a LUKS1 volume in a new keyslot.
ghost use Rattle.std.specs.Prelude.{◌≡◌, ◌≢◌, ◌+◌, ◌^◌, ◌<◌, ℕ, List, IfErr, IfOk};
ghost use Rattle.luks_area.specs.Device.{CountsFailure, IsSettled};
ghost use Rattle.luks1_header.specs.Header1.{HoldsSlots};
ghost use Rattle.luks_edit.specs.Asked.{deed_of, opener_at};
ghost use Rattle.luks_edit.specs.EditFaults.{is_edit_failure};
ghost use Rattle.luks_edit.specs.declared.deed.Deed.TheVariants.{Seal as Seals};
ghost use Rattle.luks_edit.specs.declared.edit.Edit.{Edit as TheEdit};
ghost use Rattle.luks1_edits.specs.Accepted.{IsAcceptedAt, IsHeaderOf, IsSealedNew, IsUsable};
ghost use Rattle.luks1_edits.specs.Replies.{EndsBy1, Replies1};

use crate::accepted::AcceptedHeader;
use crate::freeing::free_keyslot;
use crate::keyslots::{judge_new, new_keyslot, number_asked};
use crate::making::make_keyslot;
use crate::unlocking::unlock;
use luks_area::Device;
use luks_edit::{Done, EditFault, Place, Sealed};
use luks_reading::luks1_area;
use std::alloc::Global;

/// Makes a keyslot, the one that is asked for or the least that is free, in which the new passphrase
/// opens the key that the opener gives, whose keyslot is in use, if it is of one. If the key was to be
/// sealed in the keyslot that was opened, that one is then removed.
pub(crate) fn seal<D: Device>(
    alloc: Global,
    device: &mut D,
    header: &AcceptedHeader<'_>,
    sealed: &Sealed<'_>,
    random: &[u8],
) -> Result<Done, EditFault>
    requires room { D.failed device.old + 1 < 2 ^ 64 }
    requires settled { D.tells → IsSettled D.unsettled device.old }
    requires accepted { IsAcceptedAt header.now (D.size device.old) }
    requires usable { (v : List ℕ) → HoldsSlots v header.now.fields.slots
        → IsUsable v (opener_at sealed.now.place) }
    ensures size { D.size device.new ≡ D.size device.old }
    ensures settled { D.tells → D.failed device.new ≡ D.failed device.old → IsSettled D.unsettled device.new }
    ensures count { CountsFailure is_edit_failure result
        (D.failed device.old) (D.failed device.new) }
    ensures memory { IfErr result (λ f. f ≢ EditFault.Memory) }
    ensures replies { D.tells → (e : TheEdit) → deed_of e ≡ Seals sealed.now
        → IsHeaderOf header.now.bytes.now header.now.payload (D.bytes device.old)
        → Replies1 header.now.payload (D.bytes device.old) e random.now result (D.bytes device.new) }
{
    let n = make(alloc, device, header, sealed, random)?;
    match sealed.place {
        Place::New { .. } => Ok(Done { slot: Some(n) }),
        Place::Opened { slot, secret: _ } => {
            let found = &header.fields.slots[slot as usize];
            let area = luks1_area(header.fields.common.key_bytes, found);
            match free_keyslot(device, &header.fields, slot, found, area) {
                Ok(()) => Ok(Done { slot: Some(n) }),
                Err(_) => Err(EditFault::Device),
            }
        }
    }
}

/// Makes the keyslot, and answers its number: nothing refuses the edit then.
fn make<D: Device>(
    alloc: Global,
    device: &mut D,
    header: &AcceptedHeader<'_>,
    sealed: &Sealed<'_>,
    random: &[u8],
) -> Result<u8, EditFault>
    requires room { D.failed device.old + 1 < 2 ^ 64 }
    requires settled { D.tells → IsSettled D.unsettled device.old }
    requires accepted { IsAcceptedAt header.now (D.size device.old) }
    requires usable { (v : List ℕ) → HoldsSlots v header.now.fields.slots
        → IsUsable v (opener_at sealed.now.place) }
    ensures size { D.size device.new ≡ D.size device.old }
    ensures settled { D.tells → D.failed device.new ≡ D.failed device.old → IsSettled D.unsettled device.new }
    ensures count { CountsFailure is_edit_failure result
        (D.failed device.old) (D.failed device.new) }
    ensures memory { IfErr result (λ f. f ≢ EditFault.Memory) }
    ensures made { D.tells
        → IsHeaderOf header.now.bytes.now header.now.payload (D.bytes device.old)
        → IfOk result (λ n. IsSealedNew header.now.payload (D.bytes device.old) sealed.now random.now n
        (D.bytes device.new)) }
    ensures refused { D.tells → (e : TheEdit) → deed_of e ≡ Seals sealed.now
        → IsHeaderOf header.now.bytes.now header.now.payload (D.bytes device.old)
        → IfErr result (λ f. EndsBy1 header.now.payload (D.bytes device.old) e random.now f
        (D.bytes device.new)) }
{
    let key = unlock(alloc, device, header, &sealed.opener())?;
    let n = new_keyslot(&header.fields, number_asked(sealed.place))?;
    judge_new(&header.fields, n, sealed.derivation, random)?;
    make_keyslot(alloc, device, header, n, sealed, &key, random)?;
    Ok(n)
}
