// SHA-256 on two messages of one length, side by side.

ghost use Rattle.std.specs.Prelude.{◌≡◌, ℕ, ◌*◌, ◌^◌, ◌%◌, ◌<◌, ◌++◌, List, [], length};
ghost use Rattle.sha2.specs.Sha256.{compress, digest_bytes, initial_hash_256, padding, sha256};
ghost use Rattle.luks_rounds.specs.Pair.{lane, word_of};
ghost use Rattle.luks_lanes.specs.PairHasher.{HoldsPair};

use crate::bytes::{load_be, write_words};
use crate::pair_turns::lane_words;
use luks_rounds::pair_rounds::compress_window;
use std::simd::u32x4;

// The initial hash value (FIPS 180-4, 5.3.3).
const START: [u32; 8] = [
    0x6a09_e667,
    0xbb67_ae85,
    0x3c6e_f372,
    0xa54f_f53a,
    0x510e_527f,
    0x9b05_688c,
    0x1f83_d9ab,
    0x5be0_cd19,
];

/// A hasher by SHA-256 (FIPS 180-4, 6.2) of two messages of one length, which it takes in side by
/// side, by whole blocks of 64 bytes.
#[derive(Drop)]
pub struct PairHasher {
    // The hash value of each message so far.
    first: [u32; 8],
    second: [u32; 8],
    // The length of each message so far, modulo 2^64.
    total: u64,
}

impl PairHasher {
    /// A hasher of two empty messages.
    pub fn new() -> PairHasher
        ensures { HoldsPair result [] [] }
    {
        PairHasher {
            first: START,
            second: START,
            total: 0,
        }
    }

    /// Adds bytes to the first message, and as many others to the second.
    pub fn update(&mut self, first: &[u8], second: &[u8])
        requires whole { length first.now % 64 ≡ 0 }
        requires alike { length second.now ≡ length first.now }
        ensures { (a b : List ℕ) → HoldsPair self.old a b
            → HoldsPair self.new (a ++ first.now) (b ++ second.now) }
    {
        let mut lanes = side_by_side(&self.first, &self.second);
        'pairs: for i in 0..first.len() / 64 {
            let at = 64 * i;
            lanes = taken(&lanes, &first[at..at + 64], &second[at..at + 64]);
        }
        self.first = lane_words(&lanes, 0);
        self.second = lane_words(&lanes, 1);
        self.total = self.total.wrapping_add(first.len() as u64);
    }

    /// The digest of each message.
    pub fn finalize(mut self) -> ([u8; 32], [u8; 32])
        ensures first { (a b : List ℕ) → HoldsPair self a b → result.0 ≡ sha256 a }
        ensures second { (a b : List ℕ) → HoldsPair self a b → result.1 ≡ sha256 b }
    {
        let end = last_block(self.total);
        self.update(&end, &end);
        (digest_of(&self.first), digest_of(&self.second))
    }
}

// Two hash values, one in each lane.
#[inline(always)]
fn side_by_side(first: &[u32; 8], second: &[u32; 8]) -> [u32x4; 8]
    ensures first { lane 0 result ≡ first.now }
    ensures second { lane 1 result ≡ second.now }
{
    [
        beside(first[0], second[0]),
        beside(first[1], second[1]),
        beside(first[2], second[2]),
        beside(first[3], second[3]),
        beside(first[4], second[4]),
        beside(first[5], second[5]),
        beside(first[6], second[6]),
        beside(first[7], second[7]),
    ]
}

// The hash values after a block of each message.
#[inline(always)]
fn taken(state: &[u32x4; 8], first: &[u8], second: &[u8]) -> [u32x4; 8]
    requires first { length first.now ≡ 64 }
    requires second { length second.now ≡ 64 }
    ensures first { lane 0 result ≡ compress (lane 0 state.now) first.now }
    ensures second { lane 1 result ≡ compress (lane 1 state.now) second.now }
{
    let mut w = [u32x4::splat(0); 16];
    'load: for i in 0..16 {
        let one = load_be(first, 4 * i);
        let other = load_be(second, 4 * i);
        w[i] = beside(one, other);
    }
    compress_window(state, w)
}

// A word in each lane.
#[inline(always)]
fn beside(first: u32, second: u32) -> u32x4
    ensures first { word_of 0 result ≡ first }
    ensures second { word_of 1 result ≡ second }
{
    u32x4::from_array([first, 0, second, 0])
}

// What follows a message of whole blocks, whose length is `total` modulo 2^64 (FIPS 180-4, 5.1.1).
fn last_block(total: u64) -> [u8; 64]
    ensures { (n : ℕ) → n % 64 ≡ 0 → total ≡ n % 2 ^ 64 → result ≡ padding n }
{
    let mut block = [0; 64];
    block[0] = 0x80;
    block[56..].copy_from_slice(&total.wrapping_mul(8).to_be_bytes());
    block
}

// The bytes of a hash value.
fn digest_of(words: &[u32; 8]) -> [u8; 32]
    ensures { result ≡ digest_bytes words.now 8 }
{
    let mut digest = [0; 32];
    write_words(&mut digest, words);
    digest
}
