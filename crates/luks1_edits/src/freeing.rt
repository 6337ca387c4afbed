//! Freeing a keyslot of a LUKS1 volume.
ghost use Rattle.std.specs.Prelude.{◌≡◌, ◌+◌, ◌^◌, ◌<◌, ◌≤◌, ℕ, List, slice_index_or, OnOk};
ghost use Rattle.luks_area.specs.Area.{IsInside};
ghost use Rattle.luks_area.specs.Device.{CountsFailure, IsSettled, is_failure};
ghost use Rattle.luks1_header.specs.Header1.{luks1_size};
ghost use Rattle.luks1_header.specs.Written.{WritesEntry};
ghost use Rattle.luks1_edits.specs.Edited.{IsRemoved};
ghost use Rattle.luks1_edits.specs.Leftovers.{IsHalfRemoved};
ghost use Rattle.luks1_edits.specs.Steps.{IsKeyslotAt};

use crate::steps::write_entry;
use luks_area::{Area, Device, DeviceFault};
use luks_writing::wipe_area;
use luks2_header::{Luks1, Luks1Slot, SlotState};

/// The 48 bytes of the keyslot `n` once it says `slot`.
pub(crate) fn entry_bytes(header: &Luks1, n: u8, slot: Luks1Slot) -> [u8; 48]
    requires { n < 8 }
    ensures { WritesEntry result slot }
{
    let mut changed = *header;
    changed.slots[n as usize] = slot;
    changed.slot_bytes(n)
}

/// Frees the keyslot `n` with this area: its entry is disabled, and then its area is overwritten
/// with zeros.
pub(crate) fn free_keyslot<D: Device>(
    device: &mut D,
    header: &Luks1,
    n: u8,
    slot: &Luks1Slot,
    area: Area,
) -> Result<(), DeviceFault>
    requires numbered { n < 8 }
    requires within { luks1_size ≤ D.size device.old }
    requires inside { IsInside area (D.size device.old) }
    requires room { D.failed device.old + 1 < 2 ^ 64 }
    requires settled { D.tells → IsSettled D.unsettled device.old }
    ensures count { CountsFailure is_failure result (D.failed device.old) (D.failed device.new) }
    ensures size { D.size device.new ≡ D.size device.old }
    ensures settled { D.tells → D.failed device.new ≡ D.failed device.old → IsSettled D.unsettled device.new }
    ensures removed { D.tells → IsKeyslotAt (D.bytes device.old) n slot.now area
        → OnOk result (IsRemoved (D.bytes device.old) n (D.bytes device.new)) }
    ensures torn { D.tells → IsKeyslotAt (D.bytes device.old) n slot.now area
        → IsHalfRemoved (D.bytes device.old) n (D.bytes device.new) }
{
    let freed = Luks1Slot {
        state: SlotState::Disabled,
        iterations: 0,
        salt: [0; 32],
        key_material_offset: slot.key_material_offset,
        stripes: slot.stripes,
    };
    write_entry(device, n, &entry_bytes(header, n, freed))?;
    wipe_area(device, area)?;
    Ok(())
}
