//! The steps of AES on planes that are sums of bits: AddRoundKey, ShiftRows, MixColumns, and their
//! inverses.

ghost use Rattle.std.specs.Prelude.{◌≡◌, ℕ, ◌<◌, ◌+◌, ◌*◌, ◌/◌, ◌%◌, bit_xor, slice_index};
ghost use Rattle.luks_aes.specs.Field.{gmul};
ghost use Rattle.luks_aes.specs.Aes as aes;
ghost use Rattle.luks_aes.specs.Planes.{IsPlane, ArePlanes, byte_of, block_of, rotated_place};

use crate::gates::xor;
use std::simd::u8x16;

// The sum of the bytes.
#[inline(always)]
pub(crate) fn added(x: [u8x16; 8], y: [u8x16; 8]) -> [u8x16; 8]
    ensures planes { ArePlanes result }
    ensures bytes { (k b : ℕ) → k < 16 → byte_of k b result ≡ bit_xor (byte_of k b x) (byte_of k b y) }
{
    let s0 = xor(x[0], y[0]);
    let s1 = xor(x[1], y[1]);
    let s2 = xor(x[2], y[2]);
    let s3 = xor(x[3], y[3]);
    let s4 = xor(x[4], y[4]);
    let s5 = xor(x[5], y[5]);
    let s6 = xor(x[6], y[6]);
    let s7 = xor(x[7], y[7]);
    [s0, s1, s2, s3, s4, s5, s6, s7]
}

// The bytes times 02.
#[inline(always)]
fn doubled(x: [u8x16; 8]) -> [u8x16; 8]
    requires planes { ArePlanes x }
    ensures planes { ArePlanes result }
    ensures bytes { (k b : ℕ) → k < 16 → byte_of k b result ≡ gmul 2 (byte_of k b x) }
{
    let s1 = xor(x[0], x[7]);
    let s3 = xor(x[2], x[7]);
    let s4 = xor(x[3], x[7]);
    [x[7], s1, x[1], s3, s4, x[4], x[5], x[6]]
}

// Each byte from the place that ShiftRows takes it from (FIPS 197, 5.1.2).
#[inline(always)]
pub(crate) fn shifted(x: u8x16) -> u8x16
    requires { IsPlane x }
    ensures plane { IsPlane result }
    ensures bytes { (k : ℕ) → k < 16 → slice_index result k ≡ slice_index x ((k + 4 * (k % 4)) % 16) }
{
    x.swizzle([0, 5, 10, 15, 4, 9, 14, 3, 8, 13, 2, 7, 12, 1, 6, 11])
}

// As `shifted`, for InvShiftRows (5.3.1).
#[inline(always)]
pub(crate) fn shifted_back(x: u8x16) -> u8x16
    requires { IsPlane x }
    ensures plane { IsPlane result }
    ensures bytes { (k : ℕ) → k < 16 → slice_index result k ≡ slice_index x ((k + 12 * (k % 4)) % 16) }
{
    x.swizzle([0, 13, 10, 7, 4, 1, 14, 11, 8, 5, 2, 15, 12, 9, 6, 3])
}

// The rows rotated up by one.
#[inline(always)]
pub(crate) fn rotate_rows(x: u8x16) -> u8x16
    requires { IsPlane x }
    ensures plane { IsPlane result }
    ensures bytes { (k : ℕ) → k < 16 → slice_index result k ≡ slice_index x (rotated_place 1 k) }
{
    x.swizzle([1, 2, 3, 0, 5, 6, 7, 4, 9, 10, 11, 8, 13, 14, 15, 12])
}

// The rows rotated up by two.
#[inline(always)]
pub(crate) fn rotate_rows_twice(x: u8x16) -> u8x16
    requires { IsPlane x }
    ensures plane { IsPlane result }
    ensures bytes { (k : ℕ) → k < 16 → slice_index result k ≡ slice_index x (rotated_place 2 k) }
{
    x.swizzle([2, 3, 0, 1, 6, 7, 4, 5, 10, 11, 8, 9, 14, 15, 12, 13])
}

// ShiftRows (5.1.2).
#[inline(always)]
pub(crate) fn shift_rows(x: [u8x16; 8]) -> [u8x16; 8]
    requires planes { ArePlanes x }
    ensures planes { ArePlanes result }
    ensures each { (b : ℕ) → block_of b result ≡ aes.shift_rows (block_of b x) }
{
    let s0 = shifted(x[0]);
    let s1 = shifted(x[1]);
    let s2 = shifted(x[2]);
    let s3 = shifted(x[3]);
    let s4 = shifted(x[4]);
    let s5 = shifted(x[5]);
    let s6 = shifted(x[6]);
    let s7 = shifted(x[7]);
    [s0, s1, s2, s3, s4, s5, s6, s7]
}

// InvShiftRows (5.3.1).
#[inline(always)]
pub(crate) fn inverse_shift_rows(x: [u8x16; 8]) -> [u8x16; 8]
    requires planes { ArePlanes x }
    ensures planes { ArePlanes result }
    ensures each { (b : ℕ) → block_of b result ≡ aes.inverse_shift_rows (block_of b x) }
{
    let s0 = shifted_back(x[0]);
    let s1 = shifted_back(x[1]);
    let s2 = shifted_back(x[2]);
    let s3 = shifted_back(x[3]);
    let s4 = shifted_back(x[4]);
    let s5 = shifted_back(x[5]);
    let s6 = shifted_back(x[6]);
    let s7 = shifted_back(x[7]);
    [s0, s1, s2, s3, s4, s5, s6, s7]
}

// All rows rotated up by one.
#[inline(always)]
fn rotate_all_rows(x: [u8x16; 8]) -> [u8x16; 8]
    requires planes { ArePlanes x }
    ensures planes { ArePlanes result }
    ensures bytes { (k b : ℕ) → k < 16 → byte_of k b result ≡ byte_of (rotated_place 1 k) b x }
{
    let s0 = rotate_rows(x[0]);
    let s1 = rotate_rows(x[1]);
    let s2 = rotate_rows(x[2]);
    let s3 = rotate_rows(x[3]);
    let s4 = rotate_rows(x[4]);
    let s5 = rotate_rows(x[5]);
    let s6 = rotate_rows(x[6]);
    let s7 = rotate_rows(x[7]);
    [s0, s1, s2, s3, s4, s5, s6, s7]
}

// All rows rotated up by two.
#[inline(always)]
fn rotate_all_rows_twice(x: [u8x16; 8]) -> [u8x16; 8]
    requires planes { ArePlanes x }
    ensures planes { ArePlanes result }
    ensures bytes { (k b : ℕ) → k < 16 → byte_of k b result ≡ byte_of (rotated_place 2 k) b x }
{
    let s0 = rotate_rows_twice(x[0]);
    let s1 = rotate_rows_twice(x[1]);
    let s2 = rotate_rows_twice(x[2]);
    let s3 = rotate_rows_twice(x[3]);
    let s4 = rotate_rows_twice(x[4]);
    let s5 = rotate_rows_twice(x[5]);
    let s6 = rotate_rows_twice(x[6]);
    let s7 = rotate_rows_twice(x[7]);
    [s0, s1, s2, s3, s4, s5, s6, s7]
}

// MixColumns (5.1.3): 02 times the sum of a byte and the next one, and the three others.
#[inline(always)]
pub(crate) fn mix_columns(x: [u8x16; 8]) -> [u8x16; 8]
    requires planes { ArePlanes x }
    ensures planes { ArePlanes result }
    ensures each { (b : ℕ) → block_of b result ≡ aes.mix_columns (block_of b x) }
{
    let next = rotate_all_rows(x);
    let sum = added(x, next);
    let twice = doubled(sum);
    let last = rotate_all_rows_twice(sum);
    let others = added(next, last);
    added(twice, others)
}

// InvMixColumns (5.3.3): its matrix is that of MixColumns times one of 05 and 04.
#[inline(always)]
pub(crate) fn inverse_mix_columns(x: [u8x16; 8]) -> [u8x16; 8]
    requires planes { ArePlanes x }
    ensures planes { ArePlanes result }
    ensures each { (b : ℕ) → block_of b result ≡ aes.inverse_mix_columns (block_of b x) }
{
    let opposite = rotate_all_rows_twice(x);
    let sum = added(x, opposite);
    let twice = doubled(sum);
    let four_times = doubled(twice);
    let before = added(x, four_times);
    mix_columns(before)
}
