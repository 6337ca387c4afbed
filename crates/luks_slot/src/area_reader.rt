//! Reading a keyslot's area, decrypted, a run of eight sectors of 512 bytes at a time.

ghost use Rattle.std.specs.Prelude.{◌≡◌, ◌+◌, ◌*◌, ◌/◌, ◌%◌, ◌^◌, ◌<◌, ◌≤◌, length, take, OnOk, IfOk};
ghost use Rattle.luks_area.specs.Area.{IsInside};
ghost use Rattle.luks_area.specs.Device.{CountsFailure, IsUnchanged, is_failure};
ghost use Rattle.luks_area.specs.Ranges.{part};
ghost use Rattle.luks_area.specs.Sectors.{rounded_to_sectors};
ghost use Rattle.luks_modes.specs.Units.{AreMade};
ghost use Rattle.luks_slot.specs.Ciphers.{sector_opened};
ghost use Rattle.luks_slot.specs.Opening.{area_bytes};
ghost use Rattle.luks_slot.specs.Reading.{plain_byte, run_length, ArePlain, HoldsRun, IsReading};

use crate::cipher::AreaKey;
use luks_area::{Area, Device, DeviceFault, SECTOR};

// The length of a sector as that of an array.
pub(crate) const SECTOR_BYTES: usize = SECTOR as usize;

// How many sectors a run has.
pub(crate) const RUN_SECTORS: u64 = 8;

// The length of a run.
pub(crate) const RUN: u64 = 4096;

// The length of a run as that of an array.
pub(crate) const RUN_BYTES: usize = RUN as usize;

// The bytes of a run that an area of so many bytes has.
pub(crate) fn run_length(len: u64, number: u64) -> usize
    requires { 4096 * number + 512 ≤ len }
    ensures { result ≡ run_length len number }
{
    let left = len - RUN * number;
    (left / SECTOR * SECTOR).min(RUN) as usize
}

// Reads sectors of so many bytes from a place of the device into the front of a run, and decrypts
// them, the first under the number `first`.
fn read_run<D: Device>(
    device: &mut D,
    key: &AreaKey,
    at: u64,
    first: u64,
    len: usize,
    run: &mut [u8],
) -> Result<(), DeviceFault>
    requires whole { len % 512 ≡ 0 }
    requires at_most_eight { len ≤ 4096 }
    requires long { length run.old ≡ 4096 }
    requires within { at + len ≤ D.size device.old }
    requires room { D.failed device.old + 1 < 2 ^ 64 }
    ensures count { CountsFailure is_failure result
        (D.failed device.old) (D.failed device.new) }
    ensures unchanged { IsUnchanged D.tells D.size D.bytes D.unsettled device.old device.new }
    ensures value { D.tells → OnOk result (AreMade (sector_opened key.now) first
        (part (D.bytes device.old) at len) (take len run.new)) }
{
    let sectors = &mut run[..len];
    device.read_at(at, sectors)?;
    key.open_units(first, sectors);
    Ok(())
}

// Reads the decrypted bytes of an area in a row, and holds one run of them.
#[derive(Drop)]
pub(crate) struct AreaReader {
    pub(crate) area: Area,
    pub(crate) key: AreaKey,
    pub(crate) run: [u8; RUN_BYTES],
}

impl AreaReader {
    // Before the first byte of the area.
    pub(crate) fn new(area: Area, key: AreaKey) -> AreaReader
        ensures area { result.area ≡ area }
        ensures key { result.key ≡ key }
    {
        AreaReader {
            area,
            key,
            run: [0; RUN_BYTES],
        }
    }

    // Reads and decrypts a run of the area, or as many sectors of it as the area has.
    fn load<D: Device>(&mut self, device: &mut D, number: u64) -> Result<(), DeviceFault>
        requires in_area { 4096 * number + 512 ≤ self.old.area.len }
        requires within { IsInside self.old.area (D.size device.old) }
        requires room { D.failed device.old + 1 < 2 ^ 64 }
        ensures count { CountsFailure is_failure result
            (D.failed device.old) (D.failed device.new) }
        ensures unchanged { IsUnchanged D.tells D.size D.bytes D.unsettled device.old device.new }
        ensures same_area { self.new.area ≡ self.old.area }
        ensures same_key { self.new.key ≡ self.old.key }
        ensures value { D.tells → OnOk result (HoldsRun self.old.key
            (area_bytes (D.bytes device.old) self.old.area) self.old.area.len number self.new.run) }
    {
        let len = run_length(self.area.len, number);
        let at = self.area.start + RUN * number;
        let first = RUN_SECTORS * number;
        read_run(device, &self.key, at, first, len, &mut self.run)?;
        Ok(())
    }

    // The decrypted byte at a place of the area. Its run is held, or is loaded where it begins at
    // the place.
    fn byte_at<D: Device>(&mut self, device: &mut D, place: u64) -> Result<u8, DeviceFault>
        requires in_area { 512 * (place / 512 + 1) ≤ self.old.area.len }
        requires within { IsInside self.old.area (D.size device.old) }
        requires room { D.failed device.old + 1 < 2 ^ 64 }
        requires before { D.tells → IsReading self.old (D.bytes device.old) place }
        ensures count { CountsFailure is_failure result
            (D.failed device.old) (D.failed device.new) }
        ensures unchanged { IsUnchanged D.tells D.size D.bytes D.unsettled device.old device.new }
        ensures same_area { self.new.area ≡ self.old.area }
        ensures same_key { self.new.key ≡ self.old.key }
        ensures after { D.tells → OnOk result
            (IsReading self.new (D.bytes device.new) (place + 1)) }
        ensures value { D.tells → IfOk result (λ b. b
            ≡ plain_byte self.old.key (area_bytes (D.bytes device.old) self.old.area) place) }
    {
        if place % RUN == 0 {
            self.load(device, place / RUN)?;
        }
        Ok(self.run[(place % RUN) as usize])
    }

    // Reads the decrypted bytes of the area from a place on.
    pub(crate) fn read<D: Device>(
        &mut self,
        device: &mut D,
        from: u64,
        out: &mut [u8],
    ) -> Result<(), DeviceFault>
        requires in_area { rounded_to_sectors (from + length out.old) ≤ self.old.area.len }
        requires within { IsInside self.old.area (D.size device.old) }
        requires room { D.failed device.old + 1 < 2 ^ 64 }
        requires before { D.tells → IsReading self.old (D.bytes device.old) from }
        ensures count { CountsFailure is_failure result
            (D.failed device.old) (D.failed device.new) }
        ensures unchanged { IsUnchanged D.tells D.size D.bytes D.unsettled device.old device.new }
        ensures same_area { self.new.area ≡ self.old.area }
        ensures same_key { self.new.key ≡ self.old.key }
        ensures after { D.tells → OnOk result
            (IsReading self.new (D.bytes device.new) (from + length out.old)) }
        ensures value { D.tells → OnOk result
            (ArePlain self.old.key (area_bytes (D.bytes device.old) self.old.area) from out.new) }
    {
        for j in 0..out.len() {
            out[j] = self.byte_at(device, from + j as u64)?;
        }
        Ok(())
    }
}
