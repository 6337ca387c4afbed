//! Copying an area into one that may be longer.
ghost use Rattle.std.specs.Prelude.{◌≡◌, ◌+◌, ◌-◌, ◌++◌, ◌^◌, ◌<◌, ◌≤◌, replicate, OnOk};
ghost use Rattle.luks_area.specs.Area.{IsInside};
ghost use Rattle.luks_area.specs.Calls.{IsReady, KeepsBut};
ghost use Rattle.luks_area.specs.Device.{IsSettled, is_failure};
ghost use Rattle.luks_area.specs.Ranges.{part, IsAt};
ghost use Rattle.luks_writing.specs.TwoDevices.{Copies};

use crate::copying::copy_range;
use luks_area::{Area, Device, DeviceFault, fill};

/// Copies an area, writes zeros behind it to the end of the new one, and flushes. Also where a
/// device fails no byte of the target outside the new area changes.
pub fn copy_area<S: Device, T: Device>(
    source: &mut S,
    from: Area,
    target: &mut T,
    to: Area,
) -> Result<(), DeviceFault>
    requires there { IsInside from (S.size source.old) }
    requires within { IsInside to (T.size target.old) }
    requires large { from.len ≤ to.len }
    requires source_room { S.failed source.old + 1 < 2 ^ 64 }
    requires target { IsReady T.Device target.old }
    ensures copies { Copies S.Device T.Device is_failure result
        source.old source.new target.old target.new }
    ensures settled { T.tells → OnOk result (IsSettled T.unsettled target.new) }
    ensures copied { S.tells → T.tells → OnOk result
        (part (T.bytes target.new) to.start to.len
        ≡ part (S.bytes source.old) from.start from.len ++ replicate (to.len - from.len) 0) }
    ensures rest { KeepsBut T.Device (IsAt to.start to.len) target.old target.new }
{
    copy_range(source, from.start, target, to.start, from.len)?;
    let tail = Area {
        start: to.start + from.len,
        len: to.len - from.len,
    };
    fill(target, tail, 0)?;
    target.flush()?;
    Ok(())
}
