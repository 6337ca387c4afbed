//! Writing zeros.
ghost use Rattle.std.specs.Prelude.{◌≡◌, ◌+◌, ◌^◌, ◌<◌, OnOk, replicate};
ghost use Rattle.luks_area.specs.Area.{IsInside};
ghost use Rattle.luks_area.specs.Device.{CountsFailure, IsSettled, is_failure};
ghost use Rattle.luks_area.specs.Ranges.{part, IsAt, SameBut};

use luks_area::{Area, Device, DeviceFault, fill};

/// Writes zeros over an area, and flushes.
pub(crate) fn erase<T: Device>(target: &mut T, area: Area) -> Result<(), DeviceFault>
    requires within { IsInside area (T.size target.old) }
    requires room { T.failed target.old + 1 < 2 ^ 64 }
    requires settled { T.tells → IsSettled T.unsettled target.old }
    ensures count { CountsFailure is_failure result (T.failed target.old) (T.failed target.new) }
    ensures size { T.size target.new ≡ T.size target.old }
    ensures settled { T.tells → OnOk result (IsSettled T.unsettled target.new) }
    ensures rest { T.tells
        → SameBut (IsAt area.start area.len) (T.bytes target.old) (T.bytes target.new) }
    ensures zeros { T.tells → OnOk result
        (part (T.bytes target.new) area.start area.len ≡ replicate area.len 0) }
{
    fill(target, area, 0)?;
    target.flush()
}
