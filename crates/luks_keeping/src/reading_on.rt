//! Copying key areas of which not every sector can be read.
ghost use Rattle.std.specs.Prelude.{◌≡◌, ◌≢◌, ◌↔◌, ◌+◌, ◌^◌, ◌<◌, ◌≤◌, IfErr, IfOk, IsTrue, OnOk, length};
ghost use Rattle.luks_area.specs.Area.{IsInside};
ghost use Rattle.luks_area.specs.Device.{IsSettled, IsUnchanged, Touches};
ghost use Rattle.luks_area.specs.Ranges.{part, written, IsAt, SameBut};
ghost use Rattle.luks_keeping.specs.Places.{AreApart, AreInside, IsOfAreas, IsOfPlace};
ghost use Rattle.luks_keeping.specs.ReadPlaces.{CountsAreas, LeavesAreas, LeavesPlace, LeavesRange, bytes_read, count_read};

use crate::places::Places;
use luks_area::{Area, Device, DeviceFault};

/// Copies the key areas, one after the other, each with a flush, and zeros for what can't be read: which
/// keyslots that costs.
pub(crate) fn rescue_areas<S: Device, T: Device>(
    source: &mut S,
    target: &mut T,
    places: &Places,
) -> Result<[bool; 32], DeviceFault>
    requires apart { AreApart places.now }
    requires there { AreInside places.now (S.size source.old) }
    requires within { AreInside places.now (T.size target.old) }
    requires target_room { T.failed target.old + 1 < 2 ^ 64 }
    requires settled { T.tells → IsSettled T.unsettled target.old }
    ensures count { CountsAreas result (S.failed source.old) (S.failed source.new)
        (T.failed target.old) (T.failed target.new) }
    ensures kept { IsUnchanged S.tells S.size S.bytes S.unsettled source.old source.new }
    ensures size { T.size target.new ≡ T.size target.old }
    ensures settled { T.tells → OnOk result (IsSettled T.unsettled target.new) }
    ensures rest { T.tells
        → SameBut (IsOfAreas places.now) (T.bytes target.old) (T.bytes target.new) }
    ensures rescued { IfOk result (LeavesAreas (S.tells × T.tells) places.now 32 (S.bytes source.old)
        (T.bytes target.new) (S.failed source.old) (S.failed source.new)) }
{
    let mut keyslots = [false; 32];
    for n in 0..32 {
        keyslots[n] = rescue_place(source, target, places, n)?;
    }
    Ok(keyslots)
}

/// Copies the key area of the keyslot `n`, if it is there, and flushes: whether not all could be read.
fn rescue_place<S: Device, T: Device>(
    source: &mut S,
    target: &mut T,
    places: &Places,
    n: usize,
) -> Result<bool, DeviceFault>
    requires numbered { n < 32 }
    requires there { AreInside places.now (S.size source.old) }
    requires within { AreInside places.now (T.size target.old) }
    requires target_room { T.failed target.old + 1 < 2 ^ 64 }
    requires settled { T.tells → IsSettled T.unsettled target.old }
    ensures count { CountsAreas result (S.failed source.old) (S.failed source.new)
        (T.failed target.old) (T.failed target.new) }
    ensures kept { IsUnchanged S.tells S.size S.bytes S.unsettled source.old source.new }
    ensures size { T.size target.new ≡ T.size target.old }
    ensures settled { T.tells → OnOk result (IsSettled T.unsettled target.new) }
    ensures rest { T.tells
        → SameBut (IsOfPlace places.now n) (T.bytes target.old) (T.bytes target.new) }
    ensures told { IfOk result (λ lost. IsTrue lost
        ↔ (S.failed source.new ≢ S.failed source.old)) }
    ensures rescued { OnOk result (LeavesPlace (S.tells × T.tells) places.now n (S.bytes source.old)
        (T.bytes target.new) (S.failed source.old) (S.failed source.new)) }
{
    match places.areas[n] {
        Some(area) => rescue_area(source, target, area),
        None => Ok(false),
    }
}

/// Copies an area sector by sector, from its start on, zeros for each that can't be read, and flushes:
/// whether there was one.
fn rescue_area<S: Device, T: Device>(
    source: &mut S,
    target: &mut T,
    area: Area,
) -> Result<bool, DeviceFault>
    requires there { IsInside area (S.size source.old) }
    requires within { IsInside area (T.size target.old) }
    requires target_room { T.failed target.old + 1 < 2 ^ 64 }
    requires settled { T.tells → IsSettled T.unsettled target.old }
    ensures count { CountsAreas result (S.failed source.old) (S.failed source.new)
        (T.failed target.old) (T.failed target.new) }
    ensures kept { IsUnchanged S.tells S.size S.bytes S.unsettled source.old source.new }
    ensures size { T.size target.new ≡ T.size target.old }
    ensures settled { T.tells → OnOk result (IsSettled T.unsettled target.new) }
    ensures rest { T.tells
        → SameBut (IsAt area.start area.len) (T.bytes target.old) (T.bytes target.new) }
    ensures told { IfOk result (λ lost. IsTrue lost
        ↔ (S.failed source.new ≢ S.failed source.old)) }
    ensures rescued { OnOk result (LeavesRange (S.tells × T.tells) (S.bytes source.old)
        (T.bytes target.new) area.start area.len (S.failed source.old) (S.failed source.new)) }
{
    let before = source.failures();
    let mut done = 0;
    while done < area.len {
        let len = (area.len - done).min(512);
        rescue_piece(source, target, area.start + done, len as usize)?;
        done += len;
    }
    target.flush()?;
    Ok(source.failures() != before)
}

/// Copies a sector, or the rest of an area, to its own place; zeros where it can't be read. Whether it could.
fn rescue_piece<S: Device, T: Device>(
    source: &mut S,
    target: &mut T,
    at: u64,
    len: usize,
) -> Result<bool, DeviceFault>
    requires there { at + len ≤ S.size source.old }
    requires within { at + len ≤ T.size target.old }
    requires piece { len ≤ 512 }
    requires room { T.failed target.old + 1 < 2 ^ 64 }
    ensures count { CountsAreas result (S.failed source.old) (S.failed source.new)
        (T.failed target.old) (T.failed target.new) }
    ensures kept { IsUnchanged S.tells S.size S.bytes S.unsettled source.old source.new }
    ensures size { T.size target.new ≡ T.size target.old }
    ensures read { IfOk result (λ is_read.
        S.failed source.new ≡ count_read is_read (S.failed source.old)) }
    ensures copied { S.tells → T.tells → IfOk result (λ is_read. T.bytes target.new
        ≡ written (T.bytes target.old) at (bytes_read is_read (part (S.bytes source.old) at len) len)) }
    ensures touches { T.tells → Touches T.bytes T.unsettled (IsAt at len) target.old target.new }
{
    can_fail(source)?;
    let mut buffer = [0u8; 512];
    let piece = &mut buffer[..len];
    let is_read = read_piece(source, at, piece);
    target.write_at(at, piece)?;
    Ok(is_read)
}

/// A fault where no more failures of the device can be counted.
pub(crate) fn can_fail<D: Device>(device: &D) -> Result<(), DeviceFault>
    ensures room { OnOk result (D.failed device.now + 1 < 2 ^ 64) }
    ensures full { IfErr result (λ _. D.failed device.now + 1 ≡ 2 ^ 64) }
{
    if device.failures() == u64::MAX {
        return Err(DeviceFault);
    }
    Ok(())
}

/// Reads these bytes, or makes them zeros where they can't be read. Whether they could.
fn read_piece<S: Device>(source: &mut S, at: u64, into: &mut [u8]) -> bool
    requires there { at + length into.old ≤ S.size source.old }
    requires room { S.failed source.old + 1 < 2 ^ 64 }
    ensures kept { IsUnchanged S.tells S.size S.bytes S.unsettled source.old source.new }
    ensures count { S.failed source.new ≡ count_read result (S.failed source.old) }
    ensures long { length into.new ≡ length into.old }
    ensures read { S.tells → into.new
        ≡ bytes_read result (part (S.bytes source.old) at (length into.old)) (length into.old) }
{
    match source.read_at(at, into) {
        Ok(()) => true,
        Err(DeviceFault) => {
            into.fill(0);
            false
        }
    }
}
