//! Cipher and InvCipher of AES on eight blocks side by side (FIPS 197, 5.1 and 5.3).

ghost use Rattle.std.specs.Prelude.{◌≡◌, ℕ, ◌<◌, ◌≤◌, ◌+◌, List, [], length, slice_index_or};
ghost use Rattle.luks_aes.specs.Aes as aes;
ghost use Rattle.luks_aes.specs.Planes.{ArePlanes, AreKeyPlanes, block_of};

use crate::linear::{added, inverse_mix_columns, inverse_shift_rows, mix_columns, shift_rows};
use crate::packing::{blocks_of, planes_of};
use crate::sbox::{inverse_sub_bytes, sub_bytes};
use std::simd::u8x16;

// A whole round (5.1).
#[inline(always)]
fn round(s: [u8x16; 8], key: [u8x16; 8]) -> [u8x16; 8]
    ensures { (b : ℕ) → b < 8
        → block_of b result
        ≡ aes.add_round_key (aes.mix_columns (aes.shift_rows (aes.sub_bytes (block_of b s)))) (block_of b key) }
{
    let substituted = sub_bytes(s);
    let moved = shift_rows(substituted);
    let mixed = mix_columns(moved);
    added(mixed, key)
}

// The last round (5.1).
#[inline(always)]
fn last_round(s: [u8x16; 8], key: [u8x16; 8]) -> [u8x16; 8]
    ensures { (b : ℕ) → b < 8
        → block_of b result ≡ aes.add_round_key (aes.shift_rows (aes.sub_bytes (block_of b s))) (block_of b key) }
{
    let substituted = sub_bytes(s);
    let moved = shift_rows(substituted);
    added(moved, key)
}

// The last round undone (5.3).
#[inline(always)]
fn undo_last_round(s: [u8x16; 8], key: [u8x16; 8]) -> [u8x16; 8]
    ensures { (b : ℕ) → b < 8
        → block_of b result
        ≡ aes.inverse_sub_bytes (aes.inverse_shift_rows (aes.add_round_key (block_of b s) (block_of b key))) }
{
    let sum = added(s, key);
    let moved = inverse_shift_rows(sum);
    inverse_sub_bytes(moved)
}

// A whole round undone (5.3).
#[inline(always)]
fn undo_round(s: [u8x16; 8], key: [u8x16; 8]) -> [u8x16; 8]
    ensures { (b : ℕ) → b < 8
        → block_of b result
        ≡ aes.inverse_sub_bytes
        (aes.inverse_shift_rows (aes.inverse_mix_columns (aes.add_round_key (block_of b s) (block_of b key)))) }
{
    let sum = added(s, key);
    let unmixed = inverse_mix_columns(sum);
    let moved = inverse_shift_rows(unmixed);
    inverse_sub_bytes(moved)
}

// The first round key added (5.1), and taken away (5.3).
#[inline(always)]
fn key_added(s: [u8x16; 8], key: [u8x16; 8]) -> [u8x16; 8]
    ensures { (b : ℕ) → b < 8 → block_of b result ≡ aes.add_round_key (block_of b s) (block_of b key) }
{
    added(s, key)
}

// Cipher on planes, of `rounds` whole rounds and the last one.
fn cipher_planes(keys: &[[u8x16; 8]], rounds: usize, first: [u8x16; 8]) -> [u8x16; 8]
    requires { rounds + 2 ≤ length keys.now }
    ensures { (words : List ℕ) → AreKeyPlanes keys.now words → (b : ℕ) → b < 8
        → block_of b result ≡ aes.cipher words rounds (block_of b first) }
{
    let mut state = key_added(first, keys[0]);
    for i in 0..rounds {
        let next = round(state, keys[i + 1]);
        state = next;
    }
    last_round(state, keys[rounds + 1])
}

// InvCipher on planes.
fn inverse_cipher_planes(keys: &[[u8x16; 8]], rounds: usize, last: [u8x16; 8]) -> [u8x16; 8]
    requires { rounds + 2 ≤ length keys.now }
    ensures { (words : List ℕ) → AreKeyPlanes keys.now words → (b : ℕ) → b < 8
        → block_of b result ≡ aes.inverse_cipher words rounds (block_of b last) }
{
    let mut state = undo_last_round(last, keys[rounds + 1]);
    for i in 0..rounds {
        let next = undo_round(state, keys[rounds - i]);
        state = next;
    }
    key_added(state, keys[0])
}

// Cipher on eight blocks (5.1).
pub(crate) fn cipher(keys: &[[u8x16; 8]], rounds: usize, blocks: [u8x16; 8]) -> [u8x16; 8]
    requires { rounds + 2 ≤ length keys.now }
    ensures { (words : List ℕ) → AreKeyPlanes keys.now words → (b : ℕ) → b < 8
        → slice_index_or result b [] ≡ aes.cipher words rounds (slice_index_or blocks b []) }
{
    let planes = planes_of(blocks);
    let sealed = cipher_planes(keys, rounds, planes);
    blocks_of(sealed)
}

// InvCipher on eight blocks (5.3).
pub(crate) fn inverse_cipher(keys: &[[u8x16; 8]], rounds: usize, blocks: [u8x16; 8]) -> [u8x16; 8]
    requires { rounds + 2 ≤ length keys.now }
    ensures { (words : List ℕ) → AreKeyPlanes keys.now words → (b : ℕ) → b < 8
        → slice_index_or result b [] ≡ aes.inverse_cipher words rounds (slice_index_or blocks b []) }
{
    let planes = planes_of(blocks);
    let opened = inverse_cipher_planes(keys, rounds, planes);
    blocks_of(opened)
}
