//! The steps that write in the header: a keyslot's entry, the uuid's field.
ghost use Rattle.std.specs.Prelude.{◌≡◌, ◌+◌, ◌^◌, ◌<◌, ◌≤◌, length, OnOk};
ghost use Rattle.luks_area.specs.Device.{CountsFailure, IsSettled, is_failure};
ghost use Rattle.luks_area.specs.Ranges.{part, IsAt, SameBut};
ghost use Rattle.luks1_header.specs.Header1.{entry, entry_size, field_at, field_len, luks1_size};
ghost use Rattle.luks1_header.specs.declared.fault.TextField.TheVariants.{Uuid};
ghost use Rattle.luks1_edits.specs.Places.{entry_place, IsOfUuid};

use luks_area::{Device, DeviceFault};
use luks_writing::write_range;

/// The place of the first entry, and the bytes of each.
const ENTRIES: u64 = 208;

const ENTRY_BYTES: u64 = 48;

/// The place of the uuid's field.
const UUID: u64 = 168;

/// Writes the 48-byte entry of the keyslot `n`, and flushes.
pub(crate) fn write_entry<D: Device>(device: &mut D, n: u8, bytes: &[u8]) -> Result<(), DeviceFault>
    requires numbered { n < 8 }
    requires bytes { length bytes.now ≡ entry_size }
    requires within { luks1_size ≤ D.size device.old }
    requires room { D.failed device.old + 1 < 2 ^ 64 }
    requires settled { D.tells → IsSettled D.unsettled device.old }
    ensures count { CountsFailure is_failure result (D.failed device.old) (D.failed device.new) }
    ensures size { D.size device.new ≡ D.size device.old }
    ensures settled { D.tells → D.failed device.new ≡ D.failed device.old → IsSettled D.unsettled device.new }
    ensures entry { D.tells → OnOk result (entry (D.bytes device.new) n ≡ bytes.now) }
    ensures rest { D.tells
        → SameBut (IsAt (entry_place n) entry_size) (D.bytes device.old) (D.bytes device.new) }
{
    write_range(device, ENTRIES + ENTRY_BYTES * n as u64, bytes)?;
    Ok(())
}

/// Writes the 40 bytes of the uuid's field, and flushes.
pub(crate) fn write_uuid<D: Device>(device: &mut D, bytes: &[u8]) -> Result<(), DeviceFault>
    requires bytes { length bytes.now ≡ field_len Uuid }
    requires within { luks1_size ≤ D.size device.old }
    requires room { D.failed device.old + 1 < 2 ^ 64 }
    requires settled { D.tells → IsSettled D.unsettled device.old }
    ensures count { CountsFailure is_failure result (D.failed device.old) (D.failed device.new) }
    ensures size { D.size device.new ≡ D.size device.old }
    ensures settled { D.tells → D.failed device.new ≡ D.failed device.old → IsSettled D.unsettled device.new }
    ensures uuid { D.tells → OnOk result
        (part (D.bytes device.new) (field_at Uuid) (field_len Uuid) ≡ bytes.now) }
    ensures rest { D.tells → SameBut IsOfUuid (D.bytes device.old) (D.bytes device.new) }
{
    write_range(device, UUID, bytes)?;
    Ok(())
}
