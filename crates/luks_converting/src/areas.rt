//! Copying the key areas to their new places.
ghost use Rattle.std.specs.Prelude.{◌≡◌, ◌+◌, ◌^◌, ◌<◌, ◌≤◌, ℕ, true, OnOk};
ghost use Rattle.luks_area.specs.Device.{IsSettled, IsUnchanged, is_failure};
ghost use Rattle.luks_area.specs.Ranges.{SameBut};
ghost use Rattle.luks_converting.specs.Accepted.{HasAreasInside, IsRead};
ghost use Rattle.luks_converting.specs.Converted.{HasCopiedArea, IsOfArea, IsOfNewArea};
ghost use Rattle.luks_converting.specs.Source.{is_enabled, HasRoom};
ghost use Rattle.luks_writing.specs.TwoDevices.{CountsEither};

use crate::places::new_area;
use crate::source::SourceHeader;
use luks_area::{Device, DeviceFault};
use luks_reading::luks1_area;
use luks_writing::copy_area;
use luks2_header::SlotState;

/// Copies the area of each enabled keyslot to its new place, one after the other, each with a flush.
/// Also where a device fails no byte of the target outside the new areas changes.
pub(crate) fn copy_areas<S: Device, T: Device>(
    source: &mut S,
    target: &mut T,
    header: &SourceHeader,
) -> Result<(), DeviceFault>
    requires read { IsRead header.now }
    requires room { HasRoom header.now.bytes }
    requires there { HasAreasInside header.now.bytes (S.size source.old) }
    requires within { 16777216 ≤ T.size target.old }
    requires source_room { S.failed source.old + 1 < 2 ^ 64 }
    requires target_room { T.failed target.old + 1 < 2 ^ 64 }
    requires settled { T.tells → IsSettled T.unsettled target.old }
    ensures count { CountsEither is_failure result (S.failed source.old) (S.failed source.new)
        (T.failed target.old) (T.failed target.new) }
    ensures kept { IsUnchanged S.tells S.size S.bytes S.unsettled source.old source.new }
    ensures size { T.size target.new ≡ T.size target.old }
    ensures settled { T.tells → OnOk result (IsSettled T.unsettled target.new) }
    ensures copied { S.tells → T.tells → OnOk result ((n : ℕ)
        → is_enabled header.now.bytes n ≡ true
        → HasCopiedArea header.now.bytes (S.bytes source.old) n (T.bytes target.new)) }
    ensures rest { T.tells
        → SameBut (IsOfNewArea header.now.bytes) (T.bytes target.old) (T.bytes target.new) }
{
    for n in 0..8 {
        copy_keyslot(source, target, header, n)?;
    }
    Ok(())
}

/// Copies the area of the keyslot `n`, if it is enabled, and flushes.
fn copy_keyslot<S: Device, T: Device>(
    source: &mut S,
    target: &mut T,
    header: &SourceHeader,
    n: usize,
) -> Result<(), DeviceFault>
    requires numbered { n < 8 }
    requires read { IsRead header.now }
    requires room { HasRoom header.now.bytes }
    requires there { HasAreasInside header.now.bytes (S.size source.old) }
    requires within { 16777216 ≤ T.size target.old }
    requires source_room { S.failed source.old + 1 < 2 ^ 64 }
    requires target_room { T.failed target.old + 1 < 2 ^ 64 }
    requires settled { T.tells → IsSettled T.unsettled target.old }
    ensures count { CountsEither is_failure result (S.failed source.old) (S.failed source.new)
        (T.failed target.old) (T.failed target.new) }
    ensures kept { IsUnchanged S.tells S.size S.bytes S.unsettled source.old source.new }
    ensures size { T.size target.new ≡ T.size target.old }
    ensures settled { T.tells → OnOk result (IsSettled T.unsettled target.new) }
    ensures copied { S.tells → T.tells → OnOk result (is_enabled header.now.bytes n ≡ true
        → HasCopiedArea header.now.bytes (S.bytes source.old) n (T.bytes target.new)) }
    ensures rest { T.tells
        → SameBut (IsOfArea header.now.bytes n) (T.bytes target.old) (T.bytes target.new) }
{
    let slot = header.fields.slots[n];
    match slot.state {
        SlotState::Enabled => {
            let from = luks1_area(header.fields.common.key_bytes, &slot);
            let to = new_area(&header.fields, n);
            copy_area(source, from, target, to)
        }
        SlotState::Disabled => Ok(()),
    }
}
