//! SubBytes and its inverse on one block, by look-ups in tables of 16 bytes that lie in registers,
//! where a place is no address.
//!
//! A byte is k + t i, for two elements i and k of the field of 16 elements and a root t of
//! y^2 + 2 y + 2 over that: its parts. Its norm is n = 2 i^2 + 2 i k + k^2, and its inverse a sum of
//! multiples of (k + 2 i) / n and (k + 2 (i + k)) / n. The reciprocals of both are sums of
//! reciprocals: n / (k + 2 i) is 1 / (1 / i + 2 / k) + i + k, with 0x80 in the place of 1 / 0 (Mike
//! Hamburg, "Accelerating AES with Vector Permute Instructions"). The last tables take these to the
//! two multiples, and through the affine map of the S-box.

ghost use Rattle.std.specs.Prelude.{◌≡◌, ℕ, ◌<◌, ◌/◌, ◌%◌, bit_xor, slice_index};
ghost use Rattle.luks_aes.specs.Aes as aes;
ghost use Rattle.luks_aes.specs.Nibbles.{ArePlaces, joined, parts_by};
ghost use Rattle.luks_aes.specs.Planes.{IsPlane};

use std::simd::u8x16;

// The parts of the bytes below 16, i in the upper half and k in the lower one.
const PARTS_LOW: [u8; 16] = [
    0x00, 0x01, 0x1c, 0x1d, 0x2d, 0x2c, 0x31, 0x30, 0x27, 0x26, 0x3b, 0x3a, 0x0a, 0x0b, 0x16, 0x17,
];

// The parts of the multiples of 16.
const PARTS_HIGH: [u8; 16] = [
    0x00, 0x86, 0xfd, 0x7b, 0x8e, 0x08, 0x73, 0xf5, 0x77, 0xf1, 0x8a, 0x0c, 0xf9, 0x7f, 0x04, 0x82,
];

// As `PARTS_LOW`, of what the inverse of the affine map makes of the byte.
const INVERSE_PARTS_LOW: [u8; 16] = [
    0x2c, 0x99, 0xf0, 0x45, 0xf7, 0x42, 0x2b, 0x9e, 0x38, 0x8d, 0xe4, 0x51, 0xe3, 0x56, 0x3f, 0x8a,
];

// As `PARTS_HIGH`, of what its linear part makes of the byte.
const INVERSE_PARTS_HIGH: [u8; 16] = [
    0x00, 0xa7, 0xa8, 0x0f, 0xed, 0x4a, 0x45, 0xe2, 0xd1, 0x76, 0x79, 0xde, 0x3c, 0x9b, 0x94, 0x33,
];

// The reciprocals in the field of 16 elements, and 0x80 for 0.
const RECIPROCALS: [u8; 16] = [
    0x80, 0x01, 0x09, 0x0e, 0x0d, 0x0b, 0x07, 0x06, 0x0f, 0x02, 0x0c, 0x05, 0x0a, 0x04, 0x03, 0x08,
];

// 2 divided by each of these elements, and 0x80 for 0.
const QUOTIENTS: [u8; 16] = [
    0x80, 0x02, 0x01, 0x0f, 0x09, 0x05, 0x0e, 0x0c, 0x0d, 0x04, 0x0b, 0x0a, 0x07, 0x08, 0x06, 0x03,
];

// The multiple of (k + 2 i) / n, through the linear part of the affine map, at n / (k + 2 i).
const SBOX_FIRST: [u8; 16] = [
    0x00, 0xcb, 0xd7, 0xb0, 0x21, 0x8d, 0x67, 0xac, 0x7b, 0x5a, 0xea, 0x3d, 0x46, 0xf6, 0x91, 0x1c,
];

// As `SBOX_FIRST`, with i + k in the place of i.
const SBOX_SECOND: [u8; 16] = [
    0x00, 0x9f, 0x61, 0x16, 0xc2, 0x2a, 0x77, 0xe8, 0x89, 0x4b, 0x5d, 0x3c, 0xb5, 0xa3, 0xd4, 0xfe,
];

// The multiple of (k + 2 i) / n, at n / (k + 2 i).
const INVERSE_FIRST: [u8; 16] = [
    0x00, 0x3b, 0xe4, 0xc8, 0x03, 0x14, 0x2c, 0x17, 0xf3, 0xf0, 0x38, 0xdc, 0x2f, 0xe7, 0xcb, 0xdf,
];

// As `INVERSE_FIRST`, with i + k in the place of i.
const INVERSE_SECOND: [u8; 16] = [
    0x00, 0x24, 0x91, 0x19, 0x23, 0x8f, 0x88, 0xac, 0x3d, 0x1e, 0x07, 0x96, 0xab, 0xb2, 0x3a, 0xb5,
];

// The sums of the bytes.
#[inline(always)]
pub(crate) fn sum(x: u8x16, y: u8x16) -> u8x16
    ensures plane { IsPlane result }
    ensures bytes { (k : ℕ) → k < 16 → slice_index result k ≡ bit_xor (slice_index x k) (slice_index y k) }
{
    x ^ y
}

// The lower half of each byte.
#[inline(always)]
fn low(x: u8x16) -> u8x16
    ensures given { IsPlane x }
    ensures places { ArePlaces result }
    ensures bytes { (k : ℕ) → k < 16 → slice_index result k ≡ slice_index x k % 16 }
{
    x & u8x16::splat(15)
}

// The upper half of each byte.
#[inline(always)]
fn high(x: u8x16) -> u8x16
    ensures places { ArePlaces result }
    ensures bytes { (k : ℕ) → k < 16 → slice_index result k ≡ slice_index x k / 16 }
{
    x >> u8x16::splat(4)
}

// What a table has at these places, and 0 at a place of 0x80 or more.
#[inline(always)]
fn at(table: [u8; 16], places: u8x16) -> u8x16
    requires { ArePlaces places }
    ensures { (k : ℕ) → k < 16 → slice_index result k ≡ slice_index table (slice_index places k) }
{
    u8x16::from_array(table).swizzle_dyn(places)
}

// The parts of the bytes, by the tables of those below 16 and of the multiples of 16.
#[inline(always)]
fn parts(first: [u8; 16], second: [u8; 16], x: u8x16) -> u8x16
    ensures given { IsPlane x }
    ensures bytes { (k : ℕ) → k < 16 → slice_index result k ≡ parts_by first second (slice_index x k) }
{
    let low = low(x);
    let high = high(x);
    let of_low = at(first, low);
    let of_high = at(second, high);
    sum(of_low, of_high)
}

// The sums of what two tables have at the places that the parts of the bytes lead to.
#[inline(always)]
fn inverted(first: [u8; 16], second: [u8; 16], x: u8x16) -> u8x16
    ensures plane { IsPlane result }
    ensures bytes { (k : ℕ) → k < 16 → slice_index result k ≡ joined first second (slice_index x k) }
{
    let i = high(x);
    let k = low(x);
    let j = sum(i, k);
    let quotient = at(QUOTIENTS, k);
    let of_i = at(RECIPROCALS, i);
    let of_j = at(RECIPROCALS, j);
    let a = sum(of_i, quotient);
    let b = sum(of_j, quotient);
    let of_a = at(RECIPROCALS, a);
    let of_b = at(RECIPROCALS, b);
    let upper = sum(of_a, j);
    let lower = sum(of_b, i);
    let from_first = at(first, upper);
    let from_second = at(second, lower);
    sum(from_first, from_second)
}

// SubBytes (FIPS 197, 5.1.1).
#[inline(always)]
pub(crate) fn sub_bytes(x: u8x16) -> u8x16
    ensures plane { IsPlane result }
    ensures value { result ≡ aes.sub_bytes x }
{
    let parts = parts(PARTS_LOW, PARTS_HIGH, x);
    let made = inverted(SBOX_FIRST, SBOX_SECOND, parts);
    sum(made, u8x16::splat(0x63))
}

// InvSubBytes (FIPS 197, 5.3.2).
#[inline(always)]
pub(crate) fn inverse_sub_bytes(x: u8x16) -> u8x16
    ensures plane { IsPlane result }
    ensures value { result ≡ aes.inverse_sub_bytes x }
{
    let parts = parts(INVERSE_PARTS_LOW, INVERSE_PARTS_HIGH, x);
    inverted(INVERSE_FIRST, INVERSE_SECOND, parts)
}
