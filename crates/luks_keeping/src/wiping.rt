//! Wiping what stands where a backup is made.
ghost use Rattle.std.specs.Prelude.{◌≡◌, ◌+◌, ◌^◌, ◌<◌, ◌≤◌, OnOk, replicate};
ghost use Rattle.luks_area.specs.Device.{CountsFailure, IsSettled, is_failure};
ghost use Rattle.luks_area.specs.Ranges.{part, IsAt, SameBut};
ghost use Rattle.luks_writing.specs.Cleared.{cleared_size};
ghost use Rattle.luks_keeping.specs.Clearing.{WipesInTurn};

use crate::erasing::erase;
use crate::second_places::{Which, clear_places, wipe_between};
use crate::writing_over::sector_within;
use luks_area::{Area, Device, DeviceFault};

/// Writes zeros over the first `size` bytes: first over the sector at 0, then over the first sector of each
/// second copy that begins there, then over those of all places where one may, a flush after each, and
/// then over all others. An older header would still count while its key areas are overwritten; such a
/// place may lie in one.
pub(crate) fn wipe<T: Device>(target: &mut T, size: u64) -> Result<(), DeviceFault>
    requires within { size ≤ T.size target.old }
    requires room { T.failed target.old + 1 < 2 ^ 64 }
    requires settled { T.tells → IsSettled T.unsettled target.old }
    ensures count { CountsFailure is_failure result (T.failed target.old) (T.failed target.new) }
    ensures size { T.size target.new ≡ T.size target.old }
    ensures settled { T.tells → OnOk result (IsSettled T.unsettled target.new) }
    ensures rest { T.tells → SameBut (IsAt 0 size) (T.bytes target.old) (T.bytes target.new) }
    ensures order { T.tells → cleared_size ≤ size
        → WipesInTurn size (T.bytes target.old) (T.bytes target.new) }
    ensures zeros { T.tells → OnOk result
        (part (T.bytes target.new) 0 size ≡ replicate size 0) }
{
    let first = Area {
        start: 0,
        len: sector_within(size),
    };
    erase(target, first)?;
    clear_places(target, Which::EachCopy, size)?;
    clear_places(target, Which::EachPlace, size)?;
    wipe_between(target, size)
}
