//! Copying the key areas, each to its own place of the other device.
ghost use Rattle.std.specs.Prelude.{◌≡◌, ◌+◌, ◌^◌, ◌<◌, ℕ, IfSome, IsNone, OnOk};
ghost use Rattle.luks_area.specs.Device.{IsSettled, IsUnchanged, is_failure};
ghost use Rattle.luks_area.specs.Ranges.{part, SameBut};
ghost use Rattle.luks_area.specs.declared.area.Area.{Area as TheArea};
ghost use Rattle.luks_writing.specs.TwoDevices.{CountsEither};
ghost use Rattle.luks_meta.specs.Content.{content};
ghost use Rattle.luks_meta.specs.Objects.{IsMissing};
ghost use Rattle.luks_rebuilding.specs.Found.{AreSlotsApart, HasSlotsInside, IsOfSlot, IsOfSlots};
ghost use Rattle.luks_rebuilding.specs.KeyAreas.{IsSlotArea};

use luks_area::{Area, Device, DeviceFault};
use luks_meta::Meta;
use luks_rules::Section;
use luks_writing::copy_area;

/// Copies the area of each keyslot of the metadata, one after the other, each with a flush. Also
/// where a device fails no byte of the target outside these areas changes.
pub(crate) fn copy_areas<S: Device, T: Device>(
    source: &mut S,
    target: &mut T,
    meta: &Meta,
) -> Result<(), DeviceFault>
    requires apart { AreSlotsApart (content meta.now) }
    requires there { HasSlotsInside (content meta.now) (S.size source.old) }
    requires within { HasSlotsInside (content meta.now) (T.size target.old) }
    requires source_room { S.failed source.old + 1 < 2 ^ 64 }
    requires target_room { T.failed target.old + 1 < 2 ^ 64 }
    requires settled { T.tells → IsSettled T.unsettled target.old }
    ensures count { CountsEither is_failure result (S.failed source.old) (S.failed source.new)
        (T.failed target.old) (T.failed target.new) }
    ensures kept { IsUnchanged S.tells S.size S.bytes S.unsettled source.old source.new }
    ensures size { T.size target.new ≡ T.size target.old }
    ensures settled { T.tells → OnOk result (IsSettled T.unsettled target.new) }
    ensures copied { S.tells → T.tells → OnOk result ((n : ℕ) (a : TheArea)
        → IsSlotArea (content meta.now) n a
        → part (T.bytes target.new) a.start a.len ≡ part (S.bytes source.old) a.start a.len) }
    ensures rest { T.tells
        → SameBut (IsOfSlots (content meta.now)) (T.bytes target.old) (T.bytes target.new) }
{
    for n in 0..32 {
        copy_slot(source, target, meta, n)?;
    }
    Ok(())
}

/// Copies the area of the keyslot `n`, if it is there, and flushes.
fn copy_slot<S: Device, T: Device>(
    source: &mut S,
    target: &mut T,
    meta: &Meta,
    n: u8,
) -> Result<(), DeviceFault>
    requires numbered { n < 32 }
    requires there { HasSlotsInside (content meta.now) (S.size source.old) }
    requires within { HasSlotsInside (content meta.now) (T.size target.old) }
    requires source_room { S.failed source.old + 1 < 2 ^ 64 }
    requires target_room { T.failed target.old + 1 < 2 ^ 64 }
    requires settled { T.tells → IsSettled T.unsettled target.old }
    ensures count { CountsEither is_failure result (S.failed source.old) (S.failed source.new)
        (T.failed target.old) (T.failed target.new) }
    ensures kept { IsUnchanged S.tells S.size S.bytes S.unsettled source.old source.new }
    ensures size { T.size target.new ≡ T.size target.old }
    ensures settled { T.tells → OnOk result (IsSettled T.unsettled target.new) }
    ensures copied { S.tells → T.tells → OnOk result ((a : TheArea)
        → IsSlotArea (content meta.now) n a
        → part (T.bytes target.new) a.start a.len ≡ part (S.bytes source.old) a.start a.len) }
    ensures rest { T.tells
        → SameBut (IsOfSlot (content meta.now) n) (T.bytes target.old) (T.bytes target.new) }
{
    match slot_area(meta, n) {
        Some(area) => copy_area(source, area, target, area),
        None => Ok(()),
    }
}

/// The key area of the keyslot `n`, if it is there.
fn slot_area(meta: &Meta, n: u8) -> Option<Area>
    requires { n < 32 }
    ensures some { IfSome result (IsSlotArea (content meta.now) n) }
    ensures none { IsNone result → IsMissing (content meta.now) Section.Keyslots n }
{
    match meta.keyslot(n) {
        Some(slot) => Some(Area {
            start: slot.area.offset,
            len: slot.area.size,
        }),
        None => None,
    }
}
