//! Removing a keyslot of a LUKS1 volume.
ghost use Rattle.std.specs.Prelude.{◌≡◌, ◌≢◌, ◌+◌, ◌^◌, ◌<◌, ℕ, List, IfErr};
ghost use Rattle.luks_area.specs.Device.{CountsFailure, IsSettled};
ghost use Rattle.luks1_header.specs.Header1.{HoldsSlots};
ghost use Rattle.luks_edit.specs.Asked.{deed_of};
ghost use Rattle.luks_edit.specs.EditFaults.{is_edit_failure};
ghost use Rattle.luks_edit.specs.declared.deed.Deed.TheVariants.{Remove as Removes};
ghost use Rattle.luks_edit.specs.declared.edit.Edit.{Edit as TheEdit};
ghost use Rattle.luks1_edits.specs.Accepted.{IsAcceptedAt, IsHeaderOf, IsRemovable};
ghost use Rattle.luks1_edits.specs.Replies.{Replies1};

use crate::accepted::AcceptedHeader;
use crate::freeing::free_keyslot;
use crate::keyslots::is_last;
use crate::unlocking::unlock;
use luks_area::Device;
use luks_edit::{Done, EditFault, Removed};
use luks_reading::luks1_area;
use std::alloc::Global;

/// Removes the keyslot, where the secret gives a key as it has to; its keyslots are in use.
pub(crate) fn remove<D: Device>(
    alloc: Global,
    device: &mut D,
    header: &AcceptedHeader<'_>,
    removed: &Removed<'_>,
    random: &[u8],
) -> Result<Done, EditFault>
    requires room { D.failed device.old + 1 < 2 ^ 64 }
    requires settled { D.tells → IsSettled D.unsettled device.old }
    requires accepted { IsAcceptedAt header.now (D.size device.old) }
    requires removable { (v : List ℕ) → HoldsSlots v header.now.fields.slots
        → IsRemovable v removed.now.slot removed.now.by_ }
    ensures size { D.size device.new ≡ D.size device.old }
    ensures settled { D.tells → D.failed device.new ≡ D.failed device.old → IsSettled D.unsettled device.new }
    ensures count { CountsFailure is_edit_failure result
        (D.failed device.old) (D.failed device.new) }
    ensures memory { IfErr result (λ f. f ≢ EditFault.Memory) }
    ensures replies { D.tells → (e : TheEdit) → deed_of e ≡ Removes removed.now
        → IsHeaderOf header.now.bytes.now header.now.payload (D.bytes device.old)
        → Replies1 header.now.payload (D.bytes device.old) e random.now result (D.bytes device.new) }
{
    unlock(alloc, device, header, &removed.opener())?;
    if is_last(&header.fields, removed.slot) {
        return Err(EditFault::LastSlot);
    }
    if random.len() != 0 {
        return Err(EditFault::RandomLength);
    }
    let found = &header.fields.slots[removed.slot as usize];
    let area = luks1_area(header.fields.common.key_bytes, found);
    match free_keyslot(device, &header.fields, removed.slot, found, area) {
        Ok(()) => Ok(Done { slot: None }),
        Err(_) => Err(EditFault::Device),
    }
}
