// The turns of PBKDF2 with HMAC by SHA-512, on words from one turn to the next.

ghost use Rattle.std.specs.Prelude.{◌≡◌, ◌/◌, ◌≤◌, length};
ghost use Rattle.sha2.specs.Sha512.{sha512};
ghost use Rattle.luks_lanes.specs.Turns.{AreTurned};

use crate::bytes::{load_wide, load_wide_or_zero, write_wide};
use crate::lanes::{Keyed, Lanes};
use luks_rounds::wide_rounds::{compress, compress_window};

/// Runs the turns of PBKDF2 with HMAC by SHA-512 under a key that is a whole block, 128 bytes (RFC
/// 8018, 5.2), on a row of blocks, which hold their first turns. The result is how many blocks are
/// done, all of them.
pub fn sha512_turns(blocks: &mut [u8], key: &[u8], iterations: u32) -> usize
    requires some_iterations { 1 ≤ iterations }
    requires whole_key { length key.now ≡ 128 }
    ensures count { result ≡ length blocks.old / 64 }
    ensures turned { AreTurned sha512 64 key.now iterations result blocks.old blocks.new }
{
    let keyed = Keyed::<[u64; 8]>::new(key);
    let count = blocks.len() / 64;
    for i in 0..count {
        keyed.run(&mut blocks[i * 64..i * 64 + 64], iterations);
    }
    count
}

// One hash value of SHA-512: its eight words.
impl Lanes for [u64; 8] {
    ghost use Rattle.sha2.specs.Sha512.{compress, digest_bytes, initial_hash_512};
    ghost use Rattle.std.proofs.Common.{rules};

    ghost COUNT = { 1 };

    ghost LEN = { 64 };

    ghost BLOCK = { 128 };

    ghost digest = { sha512 };

    ghost bytes = { λ j words. digest_bytes words 8 };

    ghost has_taken = { λ words block. words ≡ compress initial_hash_512 block };

    fn of_block(block: &[u8]) -> [u64; 8] {
        let mut w = [0; 16];
        'load: for i in 0..16 {
            w[i] = load_wide(block, 8 * i);
        }
        let start = [
            0x6a09_e667_f3bc_c908,
            0xbb67_ae85_84ca_a73b,
            0x3c6e_f372_fe94_f82b,
            0xa54f_f53a_5f1d_36f1,
            0x510e_527f_ade6_82d1,
            0x9b05_688c_2b3e_6c1f,
            0x1f83_d9ab_fb41_bd6b,
            0x5be0_cd19_137e_2179,
        ];
        compress_window(&start, w)
    }

    fn load(row: &[u8]) -> [u64; 8] {
        [
            load_wide_or_zero(row, 0),
            load_wide_or_zero(row, 8),
            load_wide_or_zero(row, 16),
            load_wide_or_zero(row, 24),
            load_wide_or_zero(row, 32),
            load_wide_or_zero(row, 40),
            load_wide_or_zero(row, 48),
            load_wide_or_zero(row, 56),
        ]
    }

    fn store(&self, row: &mut [u8]) {
        if row.len() >= 64 {
            write_wide(&mut row[..64], self);
        }
    }

    fn tagged(&self, inner: &[u64; 8], outer: &[u64; 8]) -> [u64; 8] {
        let middle = compress(inner, self);
        compress(outer, &middle)
    }

    #[inline(always)]
    fn xor(&self, other: &[u64; 8]) -> [u64; 8] {
        [
            self[0] ^ other[0],
            self[1] ^ other[1],
            self[2] ^ other[2],
            self[3] ^ other[3],
            self[4] ^ other[4],
            self[5] ^ other[5],
            self[6] ^ other[6],
            self[7] ^ other[7],
        ]
    }

    ghost block_in_128 = { Prim.search rules };
}
