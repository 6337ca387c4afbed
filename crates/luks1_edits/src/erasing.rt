//! Erasing all keyslots of a LUKS1 volume.
ghost use Rattle.std.specs.Prelude.{◌≡◌, ◌≢◌, ◌+◌, ◌^◌, ◌<◌, ℕ, List, IfErr, OnErr, OnOk};
ghost use Rattle.luks_area.specs.Device.{CountsFailure, IsSettled, is_failure};
ghost use Rattle.luks_edit.specs.Asked.{deed_of};
ghost use Rattle.luks_edit.specs.EditFaults.{is_edit_failure};
ghost use Rattle.luks_edit.specs.declared.deed.Deed.TheVariants.{Erase as Erases};
ghost use Rattle.luks_edit.specs.declared.edit.Edit.{Edit as TheEdit};
ghost use Rattle.luks1_edits.specs.Accepted.{IsAcceptedAt, IsHeaderOf};
ghost use Rattle.luks1_edits.specs.Edited.{AreRemoved};
ghost use Rattle.luks1_edits.specs.Leftovers.{IsHalfErased};
ghost use Rattle.luks1_edits.specs.Replies.{Replies1};

use crate::accepted::AcceptedHeader;
use crate::freeing::free_keyslot;
use luks_area::{Device, DeviceFault};
use luks_edit::{Done, EditFault};
use luks_reading::luks1_area;

/// Removes every keyslot, by no key. Refused by `RandomLength`.
pub(crate) fn erase<D: Device>(
    device: &mut D,
    header: &AcceptedHeader<'_>,
    random: &[u8],
) -> Result<Done, EditFault>
    requires room { D.failed device.old + 1 < 2 ^ 64 }
    requires settled { D.tells → IsSettled D.unsettled device.old }
    requires accepted { IsAcceptedAt header.now (D.size device.old) }
    ensures size { D.size device.new ≡ D.size device.old }
    ensures settled { D.tells → D.failed device.new ≡ D.failed device.old → IsSettled D.unsettled device.new }
    ensures count { CountsFailure is_edit_failure result
        (D.failed device.old) (D.failed device.new) }
    ensures memory { IfErr result (λ f. f ≢ EditFault.Memory) }
    ensures replies { D.tells → (e : TheEdit) → deed_of e ≡ Erases
        → IsHeaderOf header.now.bytes.now header.now.payload (D.bytes device.old)
        → Replies1 header.now.payload (D.bytes device.old) e random.now result (D.bytes device.new) }
{
    if random.len() != 0 {
        return Err(EditFault::RandomLength);
    }
    match free_all(device, header) {
        Ok(()) => Ok(Done { slot: None }),
        Err(_) => Err(EditFault::Device),
    }
}

/// Frees the eight keyslots one after the other, those that aren't in use too: their areas may hold what a
/// removal left that was broken off.
fn free_all<D: Device>(device: &mut D, header: &AcceptedHeader<'_>) -> Result<(), DeviceFault>
    requires room { D.failed device.old + 1 < 2 ^ 64 }
    requires settled { D.tells → IsSettled D.unsettled device.old }
    requires accepted { IsAcceptedAt header.now (D.size device.old) }
    ensures count { CountsFailure is_failure result (D.failed device.old) (D.failed device.new) }
    ensures size { D.size device.new ≡ D.size device.old }
    ensures settled { D.tells → D.failed device.new ≡ D.failed device.old → IsSettled D.unsettled device.new }
    ensures removed { D.tells
        → IsHeaderOf header.now.bytes.now header.now.payload (D.bytes device.old)
        → OnOk result (AreRemoved 8 (D.bytes device.old) (D.bytes device.new)) }
    ensures torn { D.tells
        → IsHeaderOf header.now.bytes.now header.now.payload (D.bytes device.old)
        → OnErr result (IsHalfErased (D.bytes device.old) (D.bytes device.new)) }
{
    for n in 0..8 {
        free_next(device, header, n)?;
    }
    Ok(())
}

/// Frees the keyslot `n`, where those below it are.
fn free_next<D: Device>(
    device: &mut D,
    header: &AcceptedHeader<'_>,
    n: u8,
) -> Result<(), DeviceFault>
    requires numbered { n < 8 }
    requires room { D.failed device.old + 1 < 2 ^ 64 }
    requires settled { D.tells → IsSettled D.unsettled device.old }
    requires accepted { IsAcceptedAt header.now (D.size device.old) }
    ensures count { CountsFailure is_failure result (D.failed device.old) (D.failed device.new) }
    ensures size { D.size device.new ≡ D.size device.old }
    ensures settled { D.tells → D.failed device.new ≡ D.failed device.old → IsSettled D.unsettled device.new }
    ensures removed { D.tells → (v : List ℕ)
        → IsHeaderOf header.now.bytes.now header.now.payload v → AreRemoved n v (D.bytes device.old)
        → OnOk result (AreRemoved (n + 1) v (D.bytes device.new)) }
    ensures torn { D.tells → (v : List ℕ)
        → IsHeaderOf header.now.bytes.now header.now.payload v → AreRemoved n v (D.bytes device.old)
        → IsHalfErased v (D.bytes device.new) }
{
    let found = &header.fields.slots[n as usize];
    let area = luks1_area(header.fields.common.key_bytes, found);
    free_keyslot(device, &header.fields, n, found, area)
}
