// The turns of PBKDF2 with HMAC by SHA-1, on up to four blocks side by side.

ghost use Rattle.std.specs.Prelude.{◌≡◌, ℕ, ◌+◌, ◌*◌, ◌/◌, ◌<◌, ◌≤◌, length, bit_xor};
ghost use Rattle.sha1.specs.Sha1.{sha1, word_at};
ghost use Rattle.luks_rounds.specs.Quad.{lane, word_of};
ghost use Rattle.luks_lanes.specs.Turns.{AreTurned};

use crate::bytes::{load_be, load_or_zero, write_words};
use crate::lanes::{Keyed, Lanes};
use luks_rounds::quad_rounds::{compress, compress_window};
use std::simd::u32x4;

/// Runs the turns of PBKDF2 with HMAC by SHA-1 under a key that is a whole block (RFC 8018, 5.2) on a
/// row of blocks, which hold their first turns: on four at a time, on two or three last ones, and on
/// one last one alone. The result is how many blocks are done, all of them.
pub fn sha1_turns(blocks: &mut [u8], key: &[u8], iterations: u32) -> usize
    requires some_iterations { 1 ≤ iterations }
    requires whole_key { length key.now ≡ 64 }
    ensures count { result ≡ length blocks.old / 20 }
    ensures turned { AreTurned sha1 20 key.now iterations result blocks.old blocks.new }
{
    let keyed = Keyed::<[u32x4; 5]>::new(key);
    let quads = blocks.len() / 80;
    for i in 0..quads {
        keyed.run(&mut blocks[i * 80..i * 80 + 80], iterations);
    }
    let done = quads * 4;
    let left = blocks.len() / 20 - done;
    if left == 0 {
        return done;
    }
    let rest = &mut blocks[done * 20..(done + left) * 20];
    if left == 1 {
        let alone = Keyed::<[u32; 5]>::new(key);
        alone.run(rest, iterations);
        return done + 1;
    }
    keyed.run(rest, iterations);
    done + left
}

// Four hash values of SHA-1: five words of each.
impl Lanes for [u32x4; 5] {
    ghost use Rattle.sha1.specs.Sha1.{compress, digest_bytes, initial_hash};
    ghost use Rattle.std.proofs.Common.{rules};

    ghost COUNT = { 4 };

    ghost LEN = { 20 };

    ghost BLOCK = { 64 };

    ghost digest = { sha1 };

    ghost bytes = { λ j q. digest_bytes (lane j q) 5 };

    ghost has_taken = { λ q block. (j : ℕ) → j < 4 → lane j q ≡ compress initial_hash block };

    fn of_block(block: &[u8]) -> [u32x4; 5] {
        let mut w = [u32x4::splat(0); 16];
        'load: for i in 0..16 {
            w[i] = in_all(load_be(block, 4 * i));
        }
        let start = [
            u32x4::splat(0x6745_2301),
            u32x4::splat(0xefcd_ab89),
            u32x4::splat(0x98ba_dcfe),
            u32x4::splat(0x1032_5476),
            u32x4::splat(0xc3d2_e1f0),
        ];
        compress_window(&start, w)
    }

    fn load(row: &[u8]) -> [u32x4; 5] {
        [
            words_at(row, 0),
            words_at(row, 1),
            words_at(row, 2),
            words_at(row, 3),
            words_at(row, 4),
        ]
    }

    fn store(&self, row: &mut [u8]) {
        for j in 0..(row.len() / 20).min(4) {
            write_words(&mut row[j * 20..j * 20 + 20], &lane_words(self, j));
        }
    }

    fn tagged(&self, inner: &[u32x4; 5], outer: &[u32x4; 5]) -> [u32x4; 5] {
        let middle = compress(inner, self);
        compress(outer, &middle)
    }

    #[inline(always)]
    fn xor(&self, other: &[u32x4; 5]) -> [u32x4; 5] {
        [
            xor(self[0], other[0]),
            xor(self[1], other[1]),
            xor(self[2], other[2]),
            xor(self[3], other[3]),
            xor(self[4], other[4]),
        ]
    }

    ghost block_in_128 = { Prim.search rules };
}

#[inline(always)]
fn xor(x: u32x4, y: u32x4) -> u32x4
    ensures { (j : ℕ) → j < 4 → word_of j result ≡ bit_xor (word_of j x) (word_of j y) }
{
    x ^ y
}

// A word in all lanes.
fn in_all(x: u32) -> u32x4
    ensures { (j : ℕ) → j < 4 → word_of j result ≡ x }
{
    u32x4::splat(x)
}

// Word `i` of each of the values in a row.
fn words_at(row: &[u8], i: usize) -> u32x4
    requires { i < 5 }
    ensures { (j : ℕ) → j < 4 → j * 20 + 20 ≤ length row.now
        → word_of j result ≡ word_at row.now (j * 20 + i * 4) }
{
    let first = load_or_zero(row, i * 4);
    let second = load_or_zero(row, 20 + i * 4);
    let third = load_or_zero(row, 40 + i * 4);
    let fourth = load_or_zero(row, 60 + i * 4);
    u32x4::from_array([first, second, third, fourth])
}

// The words of value `j`.
fn lane_words(words: &[u32x4; 5], j: usize) -> [u32; 5]
    requires { j < 4 }
    ensures { result ≡ lane j words.now }
{
    [
        words[0].to_array()[j],
        words[1].to_array()[j],
        words[2].to_array()[j],
        words[3].to_array()[j],
        words[4].to_array()[j],
    ]
}
