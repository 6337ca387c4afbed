//! Overwriting an area with zeros.

ghost use Rattle.std.specs.Prelude.{◌≡◌, ◌+◌, ◌^◌, ◌<◌, ◌≤◌, replicate, OnOk};
ghost use Rattle.luks_area.specs.Area.{IsInside};
ghost use Rattle.luks_area.specs.Device.{CountsFailure, Touches, is_failure};
ghost use Rattle.luks_area.specs.Ranges.{IsAt};
ghost use Rattle.luks_slot.specs.Opening.{area_bytes};

use luks_area::{Area, Device, DeviceFault, fill};

/// Overwrites the area with zeros, at most 512 bytes at a time. No byte outside the area changes
/// but those that were unsettled, where the device fails. No memory is taken, and nothing is flushed.
pub fn wipe<D: Device>(device: &mut D, area: Area) -> Result<(), DeviceFault>
    requires within { IsInside area (D.size device.old) }
    requires room { D.failed device.old + 1 < 2 ^ 64 }
    ensures count { CountsFailure is_failure result
        (D.failed device.old) (D.failed device.new) }
    ensures size { D.size device.new ≡ D.size device.old }
    ensures wiped { D.tells → OnOk result
        (area_bytes (D.bytes device.new) area ≡ replicate area.len 0) }
    ensures touches { D.tells → Touches D.bytes D.unsettled (IsAt area.start area.len)
        device.old device.new }
{
    fill(device, area, 0)?;
    Ok(())
}
