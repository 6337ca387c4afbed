// The turns of PBKDF2 with HMAC by SHA-1, on the words of one block.

ghost use Rattle.std.specs.Prelude.{◌≡◌};

use crate::bytes::{load_be, load_or_zero, write_words};
use crate::lanes::Lanes;
use luks_rounds::single_sha1_rounds::{compress, compress_window};

// One hash value of SHA-1: its five words.
impl Lanes for [u32; 5] {
    ghost use Rattle.sha1.specs.Sha1.{compress, digest_bytes, initial_hash, sha1};
    ghost use Rattle.std.proofs.Common.{rules};

    ghost COUNT = { 1 };

    ghost LEN = { 20 };

    ghost BLOCK = { 64 };

    ghost digest = { sha1 };

    ghost bytes = { λ j words. digest_bytes words 5 };

    ghost has_taken = { λ words block. words ≡ compress initial_hash block };

    fn of_block(block: &[u8]) -> [u32; 5] {
        let mut w = [0; 16];
        'load: for i in 0..16 {
            w[i] = load_be(block, 4 * i);
        }
        let start = [
            0x6745_2301,
            0xefcd_ab89,
            0x98ba_dcfe,
            0x1032_5476,
            0xc3d2_e1f0,
        ];
        compress_window(&start, w)
    }

    fn load(row: &[u8]) -> [u32; 5] {
        [
            load_or_zero(row, 0),
            load_or_zero(row, 4),
            load_or_zero(row, 8),
            load_or_zero(row, 12),
            load_or_zero(row, 16),
        ]
    }

    fn store(&self, row: &mut [u8]) {
        if row.len() >= 20 {
            write_words(&mut row[..20], self);
        }
    }

    fn tagged(&self, inner: &[u32; 5], outer: &[u32; 5]) -> [u32; 5] {
        let middle = compress(inner, self);
        compress(outer, &middle)
    }

    #[inline(always)]
    fn xor(&self, other: &[u32; 5]) -> [u32; 5] {
        [
            self[0] ^ other[0],
            self[1] ^ other[1],
            self[2] ^ other[2],
            self[3] ^ other[3],
            self[4] ^ other[4],
        ]
    }

    ghost block_in_128 = { Prim.search rules };
}
