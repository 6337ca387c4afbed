//! Copying a header and its key areas, each to its own place of the other device.
ghost use Rattle.std.specs.Prelude.{◌≡◌, ◌+◌, ◌^◌, ◌<◌, ◌≤◌, OnOk};
ghost use Rattle.luks_area.specs.Device.{IsSettled, IsUnchanged, is_failure};
ghost use Rattle.luks_area.specs.Ranges.{part, SameBut};
ghost use Rattle.luks_area.specs.declared.area.Area.{Area as TheArea};
ghost use Rattle.luks_writing.specs.TwoDevices.{CountsEither};
ghost use Rattle.luks_keeping.specs.Places.{header_end, AreApart, AreInside, CopiesHeader, CopiesInTurn, HasPlace, HoldsAll, HoldsAreas, HoldsHeader, IsOfAreas, IsOfHeader, IsOfPlace, IsOfPlaces};

use crate::places::Places;
use luks_area::{Area, Device, DeviceFault};
use luks_writing::copy_area;

/// Copies the key areas, then the second copy of the header, then the first, a flush after each. Also
/// where a device fails no byte of the target outside these places changes.
pub(crate) fn copy_places<S: Device, T: Device>(
    source: &mut S,
    target: &mut T,
    places: &Places,
) -> Result<(), DeviceFault>
    requires lead { places.now.lead ≤ places.now.first }
    requires apart { AreApart places.now }
    requires there { AreInside places.now (S.size source.old) }
    requires within { AreInside places.now (T.size target.old) }
    requires source_room { S.failed source.old + 1 < 2 ^ 64 }
    requires target_room { T.failed target.old + 1 < 2 ^ 64 }
    requires settled { T.tells → IsSettled T.unsettled target.old }
    ensures count { CountsEither is_failure result (S.failed source.old) (S.failed source.new)
        (T.failed target.old) (T.failed target.new) }
    ensures kept { IsUnchanged S.tells S.size S.bytes S.unsettled source.old source.new }
    ensures size { T.size target.new ≡ T.size target.old }
    ensures settled { T.tells → OnOk result (IsSettled T.unsettled target.new) }
    ensures rest { T.tells
        → SameBut (IsOfPlaces places.now) (T.bytes target.old) (T.bytes target.new) }
    ensures order { S.tells → T.tells → CopiesInTurn places.now (S.bytes source.old)
        (T.bytes target.old) (T.bytes target.new) }
    ensures copied { S.tells → T.tells
        → OnOk result (HoldsAll places.now (S.bytes source.old) (T.bytes target.new)) }
{
    copy_areas(source, target, places)?;
    copy_header(source, target, places)
}

/// Copies the second copy of the header, then the first, a flush after each.
pub(crate) fn copy_header<S: Device, T: Device>(
    source: &mut S,
    target: &mut T,
    places: &Places,
) -> Result<(), DeviceFault>
    requires lead { places.now.lead ≤ places.now.first }
    requires there { header_end places.now ≤ S.size source.old }
    requires within { header_end places.now ≤ T.size target.old }
    requires source_room { S.failed source.old + 1 < 2 ^ 64 }
    requires target_room { T.failed target.old + 1 < 2 ^ 64 }
    requires settled { T.tells → IsSettled T.unsettled target.old }
    ensures count { CountsEither is_failure result (S.failed source.old) (S.failed source.new)
        (T.failed target.old) (T.failed target.new) }
    ensures kept { IsUnchanged S.tells S.size S.bytes S.unsettled source.old source.new }
    ensures size { T.size target.new ≡ T.size target.old }
    ensures settled { T.tells → OnOk result (IsSettled T.unsettled target.new) }
    ensures rest { T.tells
        → SameBut (IsOfHeader places.now) (T.bytes target.old) (T.bytes target.new) }
    ensures order { S.tells → T.tells → CopiesHeader places.now (S.bytes source.old)
        (T.bytes target.old) (T.bytes target.new) }
    ensures copied { S.tells → T.tells
        → OnOk result (HoldsHeader places.now (S.bytes source.old) (T.bytes target.new)) }
{
    let second = Area {
        start: places.first,
        len: places.second,
    };
    copy_area(source, second, target, second)?;
    let first = Area {
        start: places.lead,
        len: places.first - places.lead,
    };
    copy_area(source, first, target, first)
}

/// Copies the key areas, one after the other, each with a flush.
fn copy_areas<S: Device, T: Device>(
    source: &mut S,
    target: &mut T,
    places: &Places,
) -> Result<(), DeviceFault>
    requires apart { AreApart places.now }
    requires there { AreInside places.now (S.size source.old) }
    requires within { AreInside places.now (T.size target.old) }
    requires source_room { S.failed source.old + 1 < 2 ^ 64 }
    requires target_room { T.failed target.old + 1 < 2 ^ 64 }
    requires settled { T.tells → IsSettled T.unsettled target.old }
    ensures count { CountsEither is_failure result (S.failed source.old) (S.failed source.new)
        (T.failed target.old) (T.failed target.new) }
    ensures kept { IsUnchanged S.tells S.size S.bytes S.unsettled source.old source.new }
    ensures size { T.size target.new ≡ T.size target.old }
    ensures settled { T.tells → OnOk result (IsSettled T.unsettled target.new) }
    ensures copied { S.tells → T.tells
        → OnOk result (HoldsAreas places.now (S.bytes source.old) (T.bytes target.new)) }
    ensures rest { T.tells
        → SameBut (IsOfAreas places.now) (T.bytes target.old) (T.bytes target.new) }
{
    for n in 0..32 {
        copy_place(source, target, places, n)?;
    }
    Ok(())
}

/// Copies the key area of the keyslot `n`, if it is there, and flushes.
fn copy_place<S: Device, T: Device>(
    source: &mut S,
    target: &mut T,
    places: &Places,
    n: usize,
) -> Result<(), DeviceFault>
    requires numbered { n < 32 }
    requires there { AreInside places.now (S.size source.old) }
    requires within { AreInside places.now (T.size target.old) }
    requires source_room { S.failed source.old + 1 < 2 ^ 64 }
    requires target_room { T.failed target.old + 1 < 2 ^ 64 }
    requires settled { T.tells → IsSettled T.unsettled target.old }
    ensures count { CountsEither is_failure result (S.failed source.old) (S.failed source.new)
        (T.failed target.old) (T.failed target.new) }
    ensures kept { IsUnchanged S.tells S.size S.bytes S.unsettled source.old source.new }
    ensures size { T.size target.new ≡ T.size target.old }
    ensures settled { T.tells → OnOk result (IsSettled T.unsettled target.new) }
    ensures copied { S.tells → T.tells → OnOk result ((a : TheArea) → HasPlace places.now n a
        → part (T.bytes target.new) a.start a.len ≡ part (S.bytes source.old) a.start a.len) }
    ensures rest { T.tells
        → SameBut (IsOfPlace places.now n) (T.bytes target.old) (T.bytes target.new) }
{
    match places.areas[n] {
        Some(area) => copy_area(source, area, target, area),
        None => Ok(()),
    }
}
