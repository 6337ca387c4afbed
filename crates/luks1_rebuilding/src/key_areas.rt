//! Copying the key areas of the enabled keyslots, each to its own place of the other device.
ghost use Rattle.std.specs.Prelude.{◌≡◌, ◌+◌, ◌^◌, ◌<◌, length, IfNone, IfSome, OnOk};
ghost use Rattle.luks_area.specs.Device.{IsSettled, IsUnchanged, is_failure};
ghost use Rattle.luks_area.specs.Ranges.{part, SameBut};
ghost use Rattle.luks_area.specs.declared.area.Area.{Area as TheArea};
ghost use Rattle.luks_writing.specs.TwoDevices.{CountsEither};
ghost use Rattle.luks1_rebuilding.specs.Used.{AreApart, AreInside, HasUsedAreas, IsOfUsed, IsOfUsedAreas, IsUsedArea};

use luks_area::{Area, Device, DeviceFault};
use luks_reading::luks1_area;
use luks_writing::copy_area;
use luks2_header::{Luks1, SlotState};

/// Copies the area of each enabled keyslot, one after the other, each with a flush. Also where a device
/// fails no byte of the target outside these areas changes.
pub(crate) fn copy_areas<S: Device, T: Device>(
    source: &mut S,
    target: &mut T,
    fields: &Luks1,
) -> Result<(), DeviceFault>
    requires eight { length fields.now.slots ≡ 8 }
    requires apart { AreApart fields.now }
    requires there { AreInside fields.now (S.size source.old) }
    requires within { AreInside fields.now (T.size target.old) }
    requires source_room { S.failed source.old + 1 < 2 ^ 64 }
    requires target_room { T.failed target.old + 1 < 2 ^ 64 }
    requires settled { T.tells → IsSettled T.unsettled target.old }
    ensures count { CountsEither is_failure result (S.failed source.old) (S.failed source.new)
        (T.failed target.old) (T.failed target.new) }
    ensures kept { IsUnchanged S.tells S.size S.bytes S.unsettled source.old source.new }
    ensures size { T.size target.new ≡ T.size target.old }
    ensures settled { T.tells → OnOk result (IsSettled T.unsettled target.new) }
    ensures copied { S.tells → T.tells
        → OnOk result (HasUsedAreas fields.now (S.bytes source.old) (T.bytes target.new)) }
    ensures rest { T.tells
        → SameBut (IsOfUsedAreas fields.now) (T.bytes target.old) (T.bytes target.new) }
{
    for n in 0..8 {
        copy_slot(source, target, fields, n)?;
    }
    Ok(())
}

/// Copies the area of the keyslot `n`, if it is enabled, and flushes.
fn copy_slot<S: Device, T: Device>(
    source: &mut S,
    target: &mut T,
    fields: &Luks1,
    n: usize,
) -> Result<(), DeviceFault>
    requires eight { length fields.now.slots ≡ 8 }
    requires numbered { n < 8 }
    requires there { AreInside fields.now (S.size source.old) }
    requires within { AreInside fields.now (T.size target.old) }
    requires source_room { S.failed source.old + 1 < 2 ^ 64 }
    requires target_room { T.failed target.old + 1 < 2 ^ 64 }
    requires settled { T.tells → IsSettled T.unsettled target.old }
    ensures count { CountsEither is_failure result (S.failed source.old) (S.failed source.new)
        (T.failed target.old) (T.failed target.new) }
    ensures kept { IsUnchanged S.tells S.size S.bytes S.unsettled source.old source.new }
    ensures size { T.size target.new ≡ T.size target.old }
    ensures settled { T.tells → OnOk result (IsSettled T.unsettled target.new) }
    ensures copied { S.tells → T.tells → OnOk result ((a : TheArea) → IsUsedArea fields.now n a
        → part (T.bytes target.new) a.start a.len ≡ part (S.bytes source.old) a.start a.len) }
    ensures rest { T.tells
        → SameBut (IsOfUsed fields.now n) (T.bytes target.old) (T.bytes target.new) }
{
    match used_area(fields, n) {
        Some(area) => copy_area(source, area, target, area),
        None => Ok(()),
    }
}

/// The key area of the keyslot `n`, if it is enabled.
fn used_area(fields: &Luks1, n: usize) -> Option<Area>
    requires eight { length fields.now.slots ≡ 8 }
    requires numbered { n < 8 }
    ensures some { IfSome result (IsUsedArea fields.now n) }
    ensures none { IfNone result ((a : TheArea) → IsUsedArea fields.now n a → ⊥) }
{
    let slot = fields.slots[n];
    match slot.state {
        SlotState::Enabled => Some(luks1_area(fields.common.key_bytes, &slot)),
        SlotState::Disabled => None,
    }
}
