//! The entries of the keyslots, and their areas.
ghost use Rattle.std.specs.Prelude.{◌≡◌, ◌↔◌, ◌+◌, ◌^◌, ◌<◌, ◌≤◌, length, IsTrue};
ghost use Rattle.luks_area.specs.Area.{Meet};
ghost use Rattle.luks1_header.specs.Bytes.{number_at};
ghost use Rattle.luks1_header.specs.Header1.{active_word, entry, entry_size, luks1_size};
ghost use Rattle.luks1_mending.specs.Areas.{own_area, sector_of, stripes_area, stripes_of, usual_sector, is_usual};

use byteorder::{BigEndian, ByteOrder};
use luks_area::{Area, SECTOR, rounded_to_sectors};
use luks1_header::fields::field;

/// The place of the first of the eight entries, and the bytes of each.
const KEYSLOTS: usize = 208;

const ENTRY_SIZE: usize = 48;

/// The stripes that a keyslot usually has.
pub(crate) const USUAL_STRIPES: u32 = 4000;

/// The number in the 4 bytes at the place `at`.
pub(crate) fn number_at(bytes: &[u8], at: usize) -> u32
    requires { at + 4 ≤ length bytes.now }
    ensures { result ≡ number_at bytes.now at 4 }
{
    BigEndian::read_u32(field(bytes, at, 4))
}

/// The 48 bytes of the keyslot `n`.
pub(crate) fn entry_of(header: &[u8], n: u8) -> &[u8]
    requires long { length header.now ≡ luks1_size }
    requires numbered { n < 8 }
    ensures value { result.now ≡ entry header.now n }
    ensures length { length result.now ≡ entry_size }
{
    field(header, KEYSLOTS + ENTRY_SIZE * n as usize, ENTRY_SIZE)
}

/// The active word of the keyslot `n`.
pub(crate) fn word_of(header: &[u8], n: u8) -> u32
    requires long { length header.now ≡ luks1_size }
    requires numbered { n < 8 }
    ensures { result ≡ active_word (entry header.now n) }
{
    number_at(entry_of(header, n), 0)
}

/// The sector at which its key material begins.
pub(crate) fn sector_of(header: &[u8], n: u8) -> u32
    requires long { length header.now ≡ luks1_size }
    requires numbered { n < 8 }
    ensures { result ≡ sector_of header.now n }
{
    number_at(entry_of(header, n), 40)
}

/// Its stripes.
pub(crate) fn stripes_of(header: &[u8], n: u8) -> u32
    requires long { length header.now ≡ luks1_size }
    requires numbered { n < 8 }
    ensures { result ≡ stripes_of header.now n }
{
    number_at(entry_of(header, n), 44)
}

/// The area of so many stripes of a key of `key_bytes` bytes, from a sector on.
pub(crate) fn stripes_area(key_bytes: u32, sector: u32, stripes: u32) -> Area
    ensures { result ≡ stripes_area key_bytes sector stripes }
{
    Area {
        start: u64::from(sector) * SECTOR,
        len: rounded_to_sectors(u64::from(key_bytes) * u64::from(stripes)),
    }
}

/// The area of the keyslot `n`.
pub(crate) fn own_area(header: &[u8], key_bytes: u32, n: u8) -> Area
    requires long { length header.now ≡ luks1_size }
    requires numbered { n < 8 }
    ensures { result ≡ own_area header.now key_bytes n }
{
    stripes_area(key_bytes, sector_of(header, n), stripes_of(header, n))
}

/// The usual first sector of the keyslot `n`.
pub(crate) fn usual_sector(key_bytes: u32, n: u8) -> u32
    requires key { key_bytes ≤ 128 }
    requires numbered { n < 8 }
    ensures { result ≡ usual_sector key_bytes n }
{
    let sectors = (key_bytes * USUAL_STRIPES + 511) / 512;
    8 + u32::from(n) * ((sectors + 7) / 8 * 8)
}

/// Whether the keyslot `n` is there, with the usual stripes.
pub(crate) fn is_usual(header: &[u8], key_bytes: u32, n: u8) -> bool
    requires long { length header.now ≡ luks1_size }
    requires key { key_bytes ≤ 128 }
    requires numbered { n < 8 }
    ensures { result ≡ is_usual header.now key_bytes n }
{
    sector_of(header, n) == usual_sector(key_bytes, n) && stripes_of(header, n) == USUAL_STRIPES
}

/// Whether the two areas share a byte. No sum is made that may wrap.
pub(crate) fn do_meet(a: Area, b: Area) -> bool
    ensures { IsTrue result ↔ Meet a b }
{
    if a.len == 0 || b.len == 0 {
        return false;
    }
    do_ranges_meet(a, b)
}

/// Whether they do, where neither is empty.
fn do_ranges_meet(a: Area, b: Area) -> bool
    requires first { 0 < a.len }
    requires second { 0 < b.len }
    ensures { IsTrue result ↔ Meet a b }
{
    if !begins_before_end(a, b) {
        return false;
    }
    begins_before_end(b, a)
}

fn begins_before_end(a: Area, b: Area) -> bool
    ensures { IsTrue result ↔ (a.start < b.start + b.len) }
{
    a.start < b.start || a.start - b.start < b.len
}
