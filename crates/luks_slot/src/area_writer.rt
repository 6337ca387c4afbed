//! Writing a keyslot's area, encrypted, a run of eight sectors of 512 bytes at a time.

ghost use Rattle.std.specs.Prelude.{◌≡◌, ◌+◌, ◌*◌, ◌/◌, ◌%◌, ◌^◌, ◌<◌, ◌≤◌, ℕ, List, length, slice_index, take, OnOk};
ghost use Rattle.luks_area.specs.Area.{IsInside};
ghost use Rattle.luks_area.specs.Device.{CountsFailure, Touches, is_failure};
ghost use Rattle.luks_area.specs.Ranges.{written, IsAt, SameBut};
ghost use Rattle.luks_modes.specs.Units.{AreMade};
ghost use Rattle.luks_slot.specs.Ciphers.{sector_opened};
ghost use Rattle.luks_slot.specs.Opening.{area_bytes};
ghost use Rattle.luks_slot.specs.Reading.{HoldsRun};
ghost use Rattle.luks_slot.specs.Writing.{ArePlaced, IsWriting};

use crate::area_reader::{RUN, RUN_BYTES, RUN_SECTORS, run_length};
use crate::cipher::AreaKey;
use luks_area::{Area, Device, DeviceFault};

// Encrypts sectors of so many bytes in the front of a run, the first under the number `first`, and
// writes them to a place of the device.
fn write_run<D: Device>(
    device: &mut D,
    key: &AreaKey,
    at: u64,
    first: u64,
    len: usize,
    run: &mut [u8],
) -> Result<(), DeviceFault>
    requires whole { len % 512 ≡ 0 }
    requires at_most_eight { len ≤ 4096 }
    requires long { length run.old ≡ 4096 }
    requires within { at + len ≤ D.size device.old }
    requires room { D.failed device.old + 1 < 2 ^ 64 }
    ensures count { CountsFailure is_failure result
        (D.failed device.old) (D.failed device.new) }
    ensures size { D.size device.new ≡ D.size device.old }
    ensures sealed { AreMade (sector_opened key.now) first (take len run.new) (take len run.old) }
    ensures wrote { D.tells → OnOk result
        (D.bytes device.new ≡ written (D.bytes device.old) at (take len run.new)) }
    ensures touches { D.tells → Touches D.bytes D.unsettled (IsAt at len) device.old device.new }
{
    let sectors = &mut run[..len];
    key.seal_units(first, sectors);
    device.write_at(at, sectors)?;
    Ok(())
}

// Writes bytes into an area in a row, encrypted, and holds those of a run that isn't full yet.
#[derive(Drop)]
pub(crate) struct AreaWriter {
    pub(crate) area: Area,
    pub(crate) key: AreaKey,
    pub(crate) run: [u8; RUN_BYTES],
}

impl AreaWriter {
    // Before the first byte of the area.
    pub(crate) fn new(area: Area, key: AreaKey) -> AreaWriter
        ensures area { result.area ≡ area }
        ensures key { result.key ≡ key }
    {
        AreaWriter {
            area,
            key,
            run: [0; RUN_BYTES],
        }
    }

    // Encrypts the run that is held, and writes it, or as many sectors of it as the area has.
    fn store<D: Device>(&mut self, device: &mut D, number: u64) -> Result<(), DeviceFault>
        requires in_area { 4096 * number + 512 ≤ self.old.area.len }
        requires within { IsInside self.old.area (D.size device.old) }
        requires room { D.failed device.old + 1 < 2 ^ 64 }
        ensures count { CountsFailure is_failure result
            (D.failed device.old) (D.failed device.new) }
        ensures size { D.size device.new ≡ D.size device.old }
        ensures same_area { self.new.area ≡ self.old.area }
        ensures same_key { self.new.key ≡ self.old.key }
        ensures value { D.tells → OnOk result (HoldsRun self.old.key
            (area_bytes (D.bytes device.new) self.old.area) self.old.area.len number self.old.run) }
        ensures alone { D.tells → OnOk result
            (SameBut (IsAt (self.old.area.start + 4096 * number) 4096)
            (D.bytes device.old) (D.bytes device.new)) }
        ensures touches { D.tells → Touches D.bytes D.unsettled
            (IsAt self.old.area.start self.old.area.len) device.old device.new }
    {
        let len = run_length(self.area.len, number);
        let at = self.area.start + RUN * number;
        let first = RUN_SECTORS * number;
        write_run(device, &self.key, at, first, len, &mut self.run)?;
        Ok(())
    }

    // Puts a byte at a place of the area. It is held until its run is full or the area ends; the run
    // is written then.
    fn put<D: Device>(&mut self, device: &mut D, place: u64, byte: u8) -> Result<(), DeviceFault>
        requires in_area { 512 * (place / 512 + 1) ≤ self.old.area.len }
        requires within { IsInside self.old.area (D.size device.old) }
        requires room { D.failed device.old + 1 < 2 ^ 64 }
        ensures count { CountsFailure is_failure result
            (D.failed device.old) (D.failed device.new) }
        ensures size { D.size device.new ≡ D.size device.old }
        ensures same_area { self.new.area ≡ self.old.area }
        ensures same_key { self.new.key ≡ self.old.key }
        ensures more { D.tells → (wanted : List ℕ)
            → IsWriting self.old (D.bytes device.old) wanted place
            → byte ≡ slice_index wanted place
            → OnOk result (IsWriting self.new (D.bytes device.new) wanted (place + 1)) }
        ensures touches { D.tells → Touches D.bytes D.unsettled
            (IsAt self.old.area.start self.old.area.len) device.old device.new }
    {
        self.run[(place % RUN) as usize] = byte;
        if place % RUN == RUN - 1 || place + 1 == self.area.len {
            self.store(device, place / RUN)?;
        }
        Ok(())
    }

    // Puts bytes into the area from a place on.
    pub(crate) fn write<D: Device>(
        &mut self,
        device: &mut D,
        from: u64,
        bytes: &[u8],
    ) -> Result<(), DeviceFault>
        requires whole { self.old.area.len % 512 ≡ 0 }
        requires in_area { from + length bytes.now ≤ self.old.area.len }
        requires within { IsInside self.old.area (D.size device.old) }
        requires room { D.failed device.old + 1 < 2 ^ 64 }
        ensures count { CountsFailure is_failure result
            (D.failed device.old) (D.failed device.new) }
        ensures size { D.size device.new ≡ D.size device.old }
        ensures same_area { self.new.area ≡ self.old.area }
        ensures same_key { self.new.key ≡ self.old.key }
        ensures more { D.tells → (wanted : List ℕ)
            → IsWriting self.old (D.bytes device.old) wanted from → ArePlaced wanted from bytes.now
            → OnOk result
            (IsWriting self.new (D.bytes device.new) wanted (from + length bytes.now)) }
        ensures touches { D.tells → Touches D.bytes D.unsettled
            (IsAt self.old.area.start self.old.area.len) device.old device.new }
    {
        for j in 0..bytes.len() {
            self.put(device, from + j as u64, bytes[j])?;
        }
        Ok(())
    }
}
