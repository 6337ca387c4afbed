//! Fields of a header by their places: what is there, and what is put there.
ghost use Rattle.std.specs.Prelude.{◌≡◌, ◌≤◌, ◌+◌, ◌^◌, ◌<◌, length};
ghost use Rattle.byteorder.specs.Endian.{big_bytes};
ghost use Rattle.luks_area.specs.Ranges.{part, written};
ghost use Rattle.luks1_header.specs.Bytes.{number_at};

use byteorder::{BigEndian, ByteOrder};

/// The `len` bytes at the place `at`.
pub fn field(bytes: &[u8], at: usize, len: usize) -> &[u8]
    requires { at + len ≤ length bytes.now }
    ensures value { result.now ≡ part bytes.now at len }
    ensures length { length result.now ≡ len }
{
    &bytes[at..at + len]
}

/// The number in the 2 bytes at the place `at`.
pub fn u16_at(bytes: &[u8], at: usize) -> u16
    requires { at + 2 ≤ length bytes.now }
    ensures { result ≡ number_at bytes.now at 2 }
{
    BigEndian::read_u16(field(bytes, at, 2))
}

/// The number in the 4 bytes at the place `at`.
pub(crate) fn u32_at(bytes: &[u8], at: usize) -> u32
    requires { at + 4 ≤ length bytes.now }
    ensures { result ≡ number_at bytes.now at 4 }
{
    BigEndian::read_u32(field(bytes, at, 4))
}

/// The number in the 8 bytes at the place `at`.
pub fn u64_at(bytes: &[u8], at: usize) -> u64
    requires { at + 8 ≤ length bytes.now }
    ensures { result ≡ number_at bytes.now at 8 }
{
    BigEndian::read_u64(field(bytes, at, 8))
}

/// The `N` bytes at the place `at`.
pub fn array_at<const N: usize>(bytes: &[u8], at: usize) -> [u8; N]
    requires { at + N ≤ length bytes.now }
    ensures { result ≡ part bytes.now at N }
{
    let mut owned = [0; N];
    owned.copy_from_slice(field(bytes, at, N));
    owned
}

/// Puts `field` at the place `at`.
pub fn put(bytes: &mut [u8], at: usize, field: &[u8])
    requires { at + length field.now ≤ length bytes.old }
    ensures { bytes.new ≡ written bytes.old at field.now }
{
    bytes[at..at + field.len()].copy_from_slice(field);
}

/// Puts the number into the 2 bytes at the place `at`.
pub fn put_u16(bytes: &mut [u8], at: usize, number: u16)
    requires { at + 2 ≤ length bytes.old }
    ensures written { bytes.new ≡ written bytes.old at (big_bytes 2 number) }
    ensures fits { number < 256 ^ 2 }
{
    let mut owned = [0; 2];
    BigEndian::write_u16(&mut owned, number);
    put(bytes, at, &owned);
}

/// Puts the number into the 4 bytes at the place `at`.
pub(crate) fn put_u32(bytes: &mut [u8], at: usize, number: u32)
    requires { at + 4 ≤ length bytes.old }
    ensures written { bytes.new ≡ written bytes.old at (big_bytes 4 number) }
    ensures fits { number < 256 ^ 4 }
{
    let mut owned = [0; 4];
    BigEndian::write_u32(&mut owned, number);
    put(bytes, at, &owned);
}

/// Puts the number into the 8 bytes at the place `at`.
pub fn put_u64(bytes: &mut [u8], at: usize, number: u64)
    requires { at + 8 ≤ length bytes.old }
    ensures written { bytes.new ≡ written bytes.old at (big_bytes 8 number) }
    ensures fits { number < 256 ^ 8 }
{
    let mut owned = [0; 8];
    BigEndian::write_u64(&mut owned, number);
    put(bytes, at, &owned);
}
