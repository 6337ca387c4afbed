// The turns of PBKDF2 with HMAC by SHA-256, on two blocks side by side.

ghost use Rattle.std.specs.Prelude.{◌≡◌, ℕ, ◌+◌, ◌*◌, ◌/◌, ◌<◌, ◌≤◌, length, bit_xor};
ghost use Rattle.sha2.specs.Sha256.{initial_hash_256, sha256, word_at};
ghost use Rattle.luks_rounds.specs.Pair.{lane, word_of};
ghost use Rattle.luks_lanes.specs.Turns.{AreTurned};

use crate::bytes::{load_be, load_or_zero, write_words};
use crate::lanes::{Keyed, Lanes};
use luks_rounds::pair_rounds::{compress, compress_window};
use std::simd::u32x4;

/// Runs the turns of PBKDF2 with HMAC by SHA-256 under a key that is a whole block (RFC 8018, 5.2) on
/// a row of blocks, which hold their first turns: on two at a time, and on an odd last one alone. The
/// result is how many blocks are done, all of them.
pub fn sha256_turns(blocks: &mut [u8], key: &[u8], iterations: u32) -> usize
    requires some_iterations { 1 ≤ iterations }
    requires whole_key { length key.now ≡ 64 }
    ensures count { result ≡ length blocks.old / 32 }
    ensures turned { AreTurned sha256 32 key.now iterations result blocks.old blocks.new }
{
    let keyed = Keyed::<[u32x4; 8]>::new(key);
    let pairs = blocks.len() / 64;
    for i in 0..pairs {
        keyed.run(&mut blocks[i * 64..i * 64 + 64], iterations);
    }
    let done = pairs * 2;
    if blocks.len() / 32 == done {
        return done;
    }
    let alone = Keyed::<[u32; 8]>::new(key);
    alone.run(&mut blocks[done * 32..done * 32 + 32], iterations);
    done + 1
}

// Two hash values of SHA-256: eight words of each.
impl Lanes for [u32x4; 8] {
    ghost use Rattle.sha2.specs.Sha256.{compress, digest_bytes, initial_hash_256};
    ghost use Rattle.std.proofs.Common.{rules};

    ghost COUNT = { 2 };

    ghost LEN = { 32 };

    ghost BLOCK = { 64 };

    ghost digest = { sha256 };

    ghost bytes = { λ j p. digest_bytes (lane j p) 8 };

    ghost has_taken = { λ p block. (j : ℕ) → j < 2 → lane j p ≡ compress initial_hash_256 block };

    fn of_block(block: &[u8]) -> [u32x4; 8] {
        let mut w = [u32x4::splat(0); 16];
        'load: for i in 0..16 {
            w[i] = in_both(load_be(block, 4 * i));
        }
        compress_window(&start(), w)
    }

    fn load(row: &[u8]) -> [u32x4; 8] {
        [
            words_at(row, 0),
            words_at(row, 1),
            words_at(row, 2),
            words_at(row, 3),
            words_at(row, 4),
            words_at(row, 5),
            words_at(row, 6),
            words_at(row, 7),
        ]
    }

    fn store(&self, row: &mut [u8]) {
        for j in 0..(row.len() / 32).min(2) {
            write_words(&mut row[j * 32..j * 32 + 32], &lane_words(self, j));
        }
    }

    fn tagged(&self, inner: &[u32x4; 8], outer: &[u32x4; 8]) -> [u32x4; 8] {
        let middle = compress(inner, self);
        compress(outer, &middle)
    }

    #[inline(always)]
    fn xor(&self, other: &[u32x4; 8]) -> [u32x4; 8] {
        [
            xor(self[0], other[0]),
            xor(self[1], other[1]),
            xor(self[2], other[2]),
            xor(self[3], other[3]),
            xor(self[4], other[4]),
            xor(self[5], other[5]),
            xor(self[6], other[6]),
            xor(self[7], other[7]),
        ]
    }

    ghost block_in_128 = { Prim.search rules };
}

// The initial hash value, the same in both lanes (FIPS 180-4, 5.3.3).
#[inline(always)]
pub(crate) fn start() -> [u32x4; 8]
    ensures { (j : ℕ) → j < 2 → lane j result ≡ initial_hash_256 }
{
    [
        u32x4::splat(0x6a09_e667),
        u32x4::splat(0xbb67_ae85),
        u32x4::splat(0x3c6e_f372),
        u32x4::splat(0xa54f_f53a),
        u32x4::splat(0x510e_527f),
        u32x4::splat(0x9b05_688c),
        u32x4::splat(0x1f83_d9ab),
        u32x4::splat(0x5be0_cd19),
    ]
}

#[inline(always)]
fn xor(x: u32x4, y: u32x4) -> u32x4
    ensures { (j : ℕ) → j < 2 → word_of j result ≡ bit_xor (word_of j x) (word_of j y) }
{
    x ^ y
}

// A word in both lanes.
fn in_both(x: u32) -> u32x4
    ensures { (j : ℕ) → j < 2 → word_of j result ≡ x }
{
    u32x4::splat(x)
}

// Word `i` of each of the values in a row.
fn words_at(row: &[u8], i: usize) -> u32x4
    requires { i < 8 }
    ensures { (j : ℕ) → j < 2 → j * 32 + 32 ≤ length row.now
        → word_of j result ≡ word_at row.now (j * 32 + i * 4) }
{
    let first = load_or_zero(row, i * 4);
    let second = load_or_zero(row, 32 + i * 4);
    u32x4::from_array([first, 0, second, 0])
}

// The words of value `j`.
pub(crate) fn lane_words(words: &[u32x4; 8], j: usize) -> [u32; 8]
    requires { j < 2 }
    ensures { result ≡ lane j words.now }
{
    [
        words[0].to_array()[2 * j],
        words[1].to_array()[2 * j],
        words[2].to_array()[2 * j],
        words[3].to_array()[2 * j],
        words[4].to_array()[2 * j],
        words[5].to_array()[2 * j],
        words[6].to_array()[2 * j],
        words[7].to_array()[2 * j],
    ]
}
