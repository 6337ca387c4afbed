ghost use Rattle.std.specs.Prelude.{◌≡◌, ◌+◌, ◌^◌, ◌<◌, ◌≤◌, OnOk, replicate};
ghost use Rattle.luks_area.specs.Area.{IsInside};
ghost use Rattle.luks_area.specs.Device.{CountsFailure, Touches, is_failure};
ghost use Rattle.luks_area.specs.Ranges.{written, IsAt};

use crate::area::Area;
use crate::device::{Device, DeviceFault};

/// Writes `byte` over each byte of an area, in pieces of at most 512 bytes, and takes no memory.
///
/// If the device fails it stops, and the area holds anything. Nothing is flushed.
pub fn fill<D: Device>(device: &mut D, area: Area, byte: u8) -> Result<(), DeviceFault>
    requires within { IsInside area (D.size device.old) }
    requires room { D.failed device.old + 1 < 2 ^ 64 }
    ensures count { CountsFailure is_failure result (D.failed device.old) (D.failed device.new) }
    ensures size { D.size device.new ≡ D.size device.old }
    ensures filled { D.tells → OnOk result
        (D.bytes device.new ≡ written (D.bytes device.old) area.start (replicate area.len byte)) }
    ensures touches { D.tells → Touches D.bytes D.unsettled (IsAt area.start area.len)
        device.old device.new }
{
    let mut done = 0;
    while done < area.len {
        let len = (area.len - done).min(512);
        fill_piece(device, area.start + done, len as usize, byte)?;
        done += len;
    }
    Ok(())
}

fn fill_piece<D: Device>(device: &mut D, at: u64, len: usize, byte: u8) -> Result<(), DeviceFault>
    requires within { at + len ≤ D.size device.old }
    requires piece { len ≤ 512 }
    requires room { D.failed device.old + 1 < 2 ^ 64 }
    ensures count { CountsFailure is_failure result (D.failed device.old) (D.failed device.new) }
    ensures size { D.size device.new ≡ D.size device.old }
    ensures filled { D.tells → OnOk result
        (D.bytes device.new ≡ written (D.bytes device.old) at (replicate len byte)) }
    ensures touches { D.tells → Touches D.bytes D.unsettled (IsAt at len) device.old device.new }
{
    device.write_at(at, &[byte; 512][..len])
}
