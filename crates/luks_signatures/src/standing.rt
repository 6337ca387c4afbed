//! Whether a mark is among the first bytes of a disk.
ghost use Rattle.std.specs.Prelude.{◌≡◌, ◌≢◌, ◌↔◌, ℕ, [], ◌∷◌, ◌+◌, ◌*◌, ◌<◌, ◌≤◌, ◌^◌, IfOk, IsTrue, length, take};
ghost use Rattle.luks_area.specs.Device.{CountsFailure, IsUnchanged, is_failure};
ghost use Rattle.luks_area.specs.Ranges.{part};
ghost use Rattle.luks_signatures.specs.Signatures.{BeginsEntry, HasEmptyTable, HasPartition, HasUberblock, IsIn, IsPartition, IsUberblock, LabelHasUberblock, Stands};
ghost use Rattle.luks_signatures.specs.Views.{is_short, mark_of};

use crate::table::Mark;
use luks_area::{Device, DeviceFault};

/// The most bytes of a mark.
const MOST: usize = 32;

/// The length of a label of ZFS.
const LABEL: u64 = 0x4_0000;

/// The start of the uberblocks of a label.
const UBERBLOCKS: u64 = 0x2_0000;

/// The number by which an uberblock begins, 0x00BAB10C, in both byte orders.
const LITTLE_ENDIAN: [u8; 8] = [0x0C, 0xB1, 0xBA, 0, 0, 0, 0, 0];

const BIG_ENDIAN: [u8; 8] = [0, 0, 0, 0, 0, 0xBA, 0xB1, 0x0C];

/// The length of the sector that a master boot record fills.
const SECTOR: usize = 512;

/// Whether the mark is among the first `end` bytes.
pub(crate) fn is_in<D: Device>(device: &mut D, end: u64, mark: &Mark) -> Result<bool, DeviceFault>
    requires short { IsTrue (is_short mark.now) }
    requires within { end ≤ D.size device.old }
    requires room { D.failed device.old + 1 < 2 ^ 64 }
    ensures unchanged { IsUnchanged D.tells D.size D.bytes D.unsettled device.old device.new }
    ensures count { CountsFailure is_failure result (D.failed device.old) (D.failed device.new) }
    ensures is_in { D.tells → IfOk result (λ is.
        IsTrue is ↔ IsIn (take end (D.bytes device.old)) (mark_of mark.now)) }
{
    match mark {
        Mark::Bytes(place, bytes) => stands(device, end, *place, bytes),
        Mark::Uberblock => has_uberblock(device, end),
        Mark::Partition => has_partition(device, end),
        Mark::EmptyTable => has_empty_table(device, end),
    }
}

/// Whether these bytes stand from this place on, wholly among the first `end`.
fn stands<D: Device>(
    device: &mut D,
    end: u64,
    place: u64,
    bytes: &[u8],
) -> Result<bool, DeviceFault>
    requires some { 1 ≤ length bytes.now }
    requires few { length bytes.now ≤ 32 }
    requires within { end ≤ D.size device.old }
    requires room { D.failed device.old + 1 < 2 ^ 64 }
    ensures unchanged { IsUnchanged D.tells D.size D.bytes D.unsettled device.old device.new }
    ensures count { CountsFailure is_failure result (D.failed device.old) (D.failed device.new) }
    ensures stands { D.tells → IfOk result (λ stand.
        IsTrue stand ↔ Stands (take end (D.bytes device.old)) place bytes.now) }
{
    let len = bytes.len() as u64;
    if len > end || place > end - len {
        return Ok(false);
    }
    let mut window = [0; MOST];
    let read = &mut window[..bytes.len()];
    device.read_at(place, read)?;
    Ok(&*read == bytes)
}

/// Whether one of the two labels of ZFS at the start has an uberblock.
fn has_uberblock<D: Device>(device: &mut D, end: u64) -> Result<bool, DeviceFault>
    requires within { end ≤ D.size device.old }
    requires room { D.failed device.old + 1 < 2 ^ 64 }
    ensures unchanged { IsUnchanged D.tells D.size D.bytes D.unsettled device.old device.new }
    ensures count { CountsFailure is_failure result (D.failed device.old) (D.failed device.new) }
    ensures has { D.tells → IfOk result (λ has.
        IsTrue has ↔ HasUberblock (take end (D.bytes device.old))) }
{
    if label_has_uberblock(device, end, 0)? {
        return Ok(true);
    }
    label_has_uberblock(device, end, LABEL)
}

/// Whether the label at `start` has an uberblock.
fn label_has_uberblock<D: Device>(device: &mut D, end: u64, start: u64) -> Result<bool, DeviceFault>
    requires low { start ≤ 262144 }
    requires within { end ≤ D.size device.old }
    requires room { D.failed device.old + 1 < 2 ^ 64 }
    ensures unchanged { IsUnchanged D.tells D.size D.bytes D.unsettled device.old device.new }
    ensures count { CountsFailure is_failure result (D.failed device.old) (D.failed device.new) }
    ensures has { D.tells → IfOk result (λ has.
        IsTrue has ↔ LabelHasUberblock (take end (D.bytes device.old)) start) }
{
    for k in 0..128u64 {
        if is_uberblock(device, end, start + UBERBLOCKS + 1024 * k)? {
            return Ok(true);
        }
    }
    Ok(false)
}

fn is_uberblock<D: Device>(device: &mut D, end: u64, place: u64) -> Result<bool, DeviceFault>
    requires within { end ≤ D.size device.old }
    requires room { D.failed device.old + 1 < 2 ^ 64 }
    ensures unchanged { IsUnchanged D.tells D.size D.bytes D.unsettled device.old device.new }
    ensures count { CountsFailure is_failure result (D.failed device.old) (D.failed device.new) }
    ensures is { D.tells → IfOk result (λ is.
        IsTrue is ↔ IsUberblock (take end (D.bytes device.old)) place) }
{
    if stands(device, end, place, &LITTLE_ENDIAN)? {
        return Ok(true);
    }
    stands(device, end, place, &BIG_ENDIAN)
}

/// Whether the first sector is a master boot record with a partition.
fn has_partition<D: Device>(device: &mut D, end: u64) -> Result<bool, DeviceFault>
    requires within { end ≤ D.size device.old }
    requires room { D.failed device.old + 1 < 2 ^ 64 }
    ensures unchanged { IsUnchanged D.tells D.size D.bytes D.unsettled device.old device.new }
    ensures count { CountsFailure is_failure result (D.failed device.old) (D.failed device.new) }
    ensures has { D.tells → IfOk result (λ has.
        IsTrue has ↔ HasPartition (take end (D.bytes device.old))) }
{
    if end < SECTOR as u64 {
        return Ok(false);
    }
    let mut sector = [0; SECTOR];
    device.read_at(0, &mut sector)?;
    Ok(is_boot_record(&sector) && names_partition(&sector))
}

fn is_boot_record(sector: &[u8]) -> bool
    requires { length sector.now ≡ 512 }
    ensures { IsTrue result ↔ Stands sector.now 510 (0x55 ∷ 0xAA ∷ []) }
{
    sector[510] == 0x55 && sector[511] == 0xAA
}

/// Whether one of the four entries of a master boot record is a partition.
fn names_partition(sector: &[u8]) -> bool
    requires { length sector.now ≡ 512 }
    ensures { IsTrue result ↔ ((k : ℕ) × (k < 4) × IsPartition (part sector.now (446 + 16 * k) 16)) }
{
    for k in 0..4 {
        let start = 446 + 16 * k;
        if is_partition(&sector[start..start + 16]) {
            return true;
        }
    }
    false
}

/// Whether an entry has a type and sectors.
fn is_partition(entry: &[u8]) -> bool
    requires { length entry.now ≡ 16 }
    ensures { IsTrue result ↔ IsPartition entry.now }
{
    entry[4] != 0 && entry[12..16] != [0; 4]
}

/// Whether the first sector is a master boot record that names its disk, of which each entry begins as one.
fn has_empty_table<D: Device>(device: &mut D, end: u64) -> Result<bool, DeviceFault>
    requires within { end ≤ D.size device.old }
    requires room { D.failed device.old + 1 < 2 ^ 64 }
    ensures unchanged { IsUnchanged D.tells D.size D.bytes D.unsettled device.old device.new }
    ensures count { CountsFailure is_failure result (D.failed device.old) (D.failed device.new) }
    ensures has { D.tells → IfOk result (λ has.
        IsTrue has ↔ HasEmptyTable (take end (D.bytes device.old))) }
{
    if end < SECTOR as u64 {
        return Ok(false);
    }
    let mut record = [0; SECTOR];
    device.read_at(0, &mut record)?;
    Ok(is_empty_table(&record))
}

fn is_empty_table(sector: &[u8]) -> bool
    requires { length sector.now ≡ 512 }
    ensures { IsTrue result ↔ HasEmptyTable sector.now }
{
    is_boot_record(sector) && is_name(&sector[440..444]) && begin_entries(sector)
}

/// Whether a disk is named by this signature of it.
fn is_name(signature: &[u8]) -> bool
    ensures { IsTrue result ↔ (signature.now ≢ 0 ∷ 0 ∷ 0 ∷ 0 ∷ []) }
{
    signature != [0; 4].as_slice()
}

/// Whether each of the four entries of a master boot record begins as one.
fn begin_entries(sector: &[u8]) -> bool
    requires { length sector.now ≡ 512 }
    ensures { IsTrue result ↔ ((k : ℕ) → k < 4 → BeginsEntry (part sector.now (446 + 16 * k) 16)) }
{
    for n in 0..4 {
        let start = 446 + 16 * n;
        if !begins_entry(&sector[start..start + 16]) {
            return false;
        }
    }
    true
}

fn begins_entry(entry: &[u8]) -> bool
    requires { length entry.now ≡ 16 }
    ensures { IsTrue result ↔ BeginsEntry entry.now }
{
    entry[0] == 0 || entry[0] == 0x80
}
