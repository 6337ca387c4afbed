//! Cipher and InvCipher on one block, a vector of its 16 bytes (FIPS 197, 5.1 and 5.3).

ghost use Rattle.std.specs.Prelude.{◌≡◌, ℕ, ◌<◌, ◌≤◌, ◌+◌, ◌*◌, ◌/◌, ◌%◌, length, slice_index};
ghost use Rattle.luks_aes.specs.Aes as aes;
ghost use Rattle.luks_aes.specs.Field.{gmul};
ghost use Rattle.luks_aes.specs.Planes.{IsPlane};

use crate::linear::{rotate_rows, rotate_rows_twice, shifted, shifted_back};
use crate::lookups::{inverse_sub_bytes, sub_bytes, sum};
use std::simd::u8x16;

// The round key of round i.
#[inline(always)]
fn round_key(words: &[u8], i: usize) -> u8x16
    requires { 16 * i + 16 ≤ length words.now }
    ensures { result ≡ aes.round_key words.now i }
{
    u8x16::from_slice(&words[16 * i..16 * i + 16])
}

// AddRoundKey (5.1.4).
#[inline(always)]
fn key_added(s: u8x16, key: u8x16) -> u8x16
    ensures plane { IsPlane result }
    ensures value { result ≡ aes.add_round_key s key }
{
    sum(s, key)
}

// 0x1B where the highest bit of the byte is 1, and 0 elsewhere.
#[inline(always)]
fn carried(x: u8x16) -> u8x16
    ensures given { IsPlane x }
    ensures bytes { (k : ℕ) → k < 16 → slice_index result k ≡ slice_index x k / 128 * 0x1B }
{
    (u8x16::splat(0) - (x >> u8x16::splat(7))) & u8x16::splat(0x1B)
}

// The bytes times 02, except for what is carried.
#[inline(always)]
fn moved_up(x: u8x16) -> u8x16
    ensures { (k : ℕ) → k < 16 → slice_index result k ≡ slice_index x k * 2 % 256 }
{
    x + x
}

// The bytes times 02.
#[inline(always)]
fn doubled(x: u8x16) -> u8x16
    ensures plane { IsPlane result }
    ensures bytes { (k : ℕ) → k < 16 → slice_index result k ≡ gmul 2 (slice_index x k) }
{
    let carried = carried(x);
    let twice = moved_up(x);
    sum(twice, carried)
}

// MixColumns (5.1.3): 02 times the sum of a byte and the next one, and the three others.
#[inline(always)]
fn mixed(x: u8x16) -> u8x16
    requires { IsPlane x }
    ensures plane { IsPlane result }
    ensures value { result ≡ aes.mix_columns x }
{
    let next = rotate_rows(x);
    let sums = sum(x, next);
    let twice = doubled(sums);
    let last = rotate_rows_twice(sums);
    let others = sum(next, last);
    sum(twice, others)
}

// InvMixColumns (5.3.3): its matrix is that of MixColumns times one of 05 and 04.
#[inline(always)]
fn unmixed(x: u8x16) -> u8x16
    requires { IsPlane x }
    ensures plane { IsPlane result }
    ensures value { result ≡ aes.inverse_mix_columns x }
{
    let opposite = rotate_rows_twice(x);
    let sums = sum(x, opposite);
    let twice = doubled(sums);
    let four_times = doubled(twice);
    let before = sum(x, four_times);
    mixed(before)
}

// SubBytes and ShiftRows (5.1.1 and 5.1.2).
#[inline(always)]
fn sub_and_shift(s: u8x16) -> u8x16
    ensures plane { IsPlane result }
    ensures value { result ≡ aes.shift_rows (aes.sub_bytes s) }
{
    let substituted = sub_bytes(s);
    shifted(substituted)
}

// InvShiftRows and InvSubBytes (5.3.1 and 5.3.2).
#[inline(always)]
fn shift_and_sub_back(s: u8x16) -> u8x16
    requires { IsPlane s }
    ensures plane { IsPlane result }
    ensures value { result ≡ aes.inverse_sub_bytes (aes.inverse_shift_rows s) }
{
    let moved = shifted_back(s);
    inverse_sub_bytes(moved)
}

// A whole round (5.1).
#[inline(always)]
fn round(s: u8x16, key: u8x16) -> u8x16
    ensures { result ≡ aes.add_round_key (aes.mix_columns (aes.shift_rows (aes.sub_bytes s))) key }
{
    let moved = sub_and_shift(s);
    let mixed = mixed(moved);
    key_added(mixed, key)
}

// A whole round undone (5.3).
#[inline(always)]
fn undo_round(s: u8x16, key: u8x16) -> u8x16
    ensures { result
        ≡ aes.inverse_sub_bytes
        (aes.inverse_shift_rows (aes.inverse_mix_columns (aes.add_round_key s key))) }
{
    let sum = key_added(s, key);
    let unmixed = unmixed(sum);
    shift_and_sub_back(unmixed)
}

// Cipher of `rounds` whole rounds and the last one.
pub(crate) fn cipher(words: &[u8], rounds: usize, block: [u8; 16]) -> [u8; 16]
    requires { 16 * rounds + 32 ≤ length words.now }
    ensures { result ≡ aes.cipher words.now rounds block }
{
    let first = round_key(words, 0);
    let mut state = key_added(u8x16::from_array(block), first);
    for i in 0..rounds {
        let key = round_key(words, i + 1);
        let next = round(state, key);
        state = next;
    }
    let moved = sub_and_shift(state);
    let last = round_key(words, rounds + 1);
    let sealed = key_added(moved, last);
    sealed.to_array()
}

// InvCipher of the same rounds.
pub(crate) fn inverse_cipher(words: &[u8], rounds: usize, block: [u8; 16]) -> [u8; 16]
    requires { 16 * rounds + 32 ≤ length words.now }
    ensures { result ≡ aes.inverse_cipher words.now rounds block }
{
    let last = round_key(words, rounds + 1);
    let sum = key_added(u8x16::from_array(block), last);
    let mut state = shift_and_sub_back(sum);
    for i in 0..rounds {
        let key = round_key(words, rounds - i);
        let next = undo_round(state, key);
        state = next;
    }
    let first = round_key(words, 0);
    let opened = key_added(state, first);
    opened.to_array()
}
