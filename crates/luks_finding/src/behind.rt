//! What lies behind a sector that can't be read.
ghost use Rattle.std.specs.Prelude.{◌≡◌, ◌+◌, ◌-◌, ◌*◌, ◌^◌, ◌<◌, ◌≤◌, true, false};
ghost use Rattle.luks_area.specs.Device.{IsUnchanged};

use crate::finding::sectors_in;
use crate::signs::SECTOR;
use luks_area::Device;

/// The most sectors of a stride over such sectors: 1 MiB.
const LONGEST: u64 = 2048;

/// Whether the sector can be read, as much of it as the device has.
fn can_be_read<D: Device>(device: &mut D, sector: u64) -> bool
    requires within { 512 * sector < D.size device.old }
    requires room { D.failed device.old + 1 < 2 ^ 64 }
    ensures unchanged { IsUnchanged D.tells D.size D.bytes D.unsettled device.old device.new }
    ensures yes { result ≡ true → D.failed device.new ≡ D.failed device.old }
    ensures no { result ≡ false → D.failed device.new ≡ D.failed device.old + 1 }
{
    let mut bytes = [0; SECTOR];
    let at = SECTOR as u64 * sector;
    let len = (device.len() - at).min(SECTOR as u64);
    match device.read_at(at, &mut bytes[..len as usize]) {
        Ok(()) => true,
        Err(_) => false,
    }
}

/// The first sector behind those at `from` that can't be read, where that one and as many as follow
/// it can't be: it looks by strides that double up to 1 MiB, for one that can be read, and then goes
/// back by halves to the border. What lies between two sectors that can't be read is taken for the same.
///
/// If none of 48 strides comes to one, it is the one behind the last sector that was tried.
pub(crate) fn first_behind<D: Device>(device: &mut D, from: u64) -> u64
    requires within { 512 * from < D.size device.old }
    requires room { D.failed device.old + 60 < 2 ^ 64 }
    ensures unchanged { IsUnchanged D.tells D.size D.bytes D.unsettled device.old device.new }
    ensures further { from < result }
    ensures inside { 512 * result < D.size device.old + 512 }
    ensures counts { (D.failed device.old ≤ D.failed device.new) × (D.failed device.new ≤ D.failed device.old + 59) }
    ensures bounded { result ≤ from + 2048 * (D.failed device.new - D.failed device.old + 1) }
{
    let end = sectors_in(device.len());
    let mut bad = from;
    let mut stride = 1;
    for _ in 0..48u64 {
        let next = (bad + stride).min(end);
        if next == end || can_be_read(device, next) {
            return border(device, bad, next);
        }
        bad = next;
        stride = (2 * stride).min(LONGEST);
    }
    bad + 1
}

/// The border between the sector `first`, which can't be read, and `last`, which can be, or is the one
/// behind the disk's last: by halves.
fn border<D: Device>(device: &mut D, first: u64, last: u64) -> u64
    requires order { first < last }
    requires near { last ≤ first + 2048 }
    requires within { 512 * last < D.size device.old + 512 }
    requires room { D.failed device.old + 12 < 2 ^ 64 }
    ensures unchanged { IsUnchanged D.tells D.size D.bytes D.unsettled device.old device.new }
    ensures behind { first < result }
    ensures most { result ≤ last }
    ensures counts { (D.failed device.old ≤ D.failed device.new) × (D.failed device.new ≤ D.failed device.old + 11) }
{
    let mut bad = first;
    let mut good = last;
    for _ in 0..11u64 {
        if good - bad == 1 {
            return good;
        }
        let middle = bad + (good - bad) / 2;
        if can_be_read(device, middle) {
            good = middle;
        } else {
            bad = middle;
        }
    }
    good
}
