//! Clearing the first sectors of the places of both copies.
ghost use Rattle.std.specs.Prelude.{◌≡◌, ◌+◌, ◌^◌, ◌<◌, ◌≤◌, OnOk};
ghost use Rattle.luks_area.specs.Calls.{IsReady, KeepsBut, Settles};
ghost use Rattle.luks_area.specs.Device.{is_failure};
ghost use Rattle.luks_writing.specs.Cleared.{cleared_size, AreCleared, ClearsInTurn, IsOfFirstSectors};

use luks_area::{Area, Device, DeviceFault, fill};

/// The bytes of a first sector.
const SECTOR: u64 = 512;

/// Overwrites with zeros the first sector at 0, where a header stands or may stand, and then that at
/// `second`, where its second copy does, with a flush after each. No header counts there then.
///
/// The sector at `second` may lie in a key area of an older LUKS1 header: so it is as it was until that
/// header counts no more. If the device fails, the sector that is being written holds any bytes, and
/// every other byte is as it was.
pub fn clear_places<D: Device>(device: &mut D, second: u64) -> Result<(), DeviceFault>
    requires apart { cleared_size ≤ second }
    requires within { second + cleared_size ≤ D.size device.old }
    requires device { IsReady D.Device device.old }
    ensures settles { Settles D.Device is_failure result device.old device.new }
    ensures cleared { D.tells → OnOk result (AreCleared second (D.bytes device.new)) }
    ensures rest { KeepsBut D.Device (IsOfFirstSectors second) device.old device.new }
    ensures order { D.tells → ClearsInTurn (D.bytes device.old) (D.bytes device.new) }
{
    let first = Area {
        start: 0,
        len: SECTOR,
    };
    fill(device, first, 0)?;
    device.flush()?;
    let other = Area {
        start: second,
        len: SECTOR,
    };
    fill(device, other, 0)?;
    device.flush()?;
    Ok(())
}
