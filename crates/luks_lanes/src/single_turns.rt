// The turns of PBKDF2 with HMAC by SHA-256, on the words of one block.

ghost use Rattle.std.specs.Prelude.{◌≡◌};

use crate::bytes::{load_be, load_or_zero, write_words};
use crate::lanes::Lanes;
use luks_rounds::single_rounds::{compress, compress_window};

// One hash value of SHA-256: its eight words.
impl Lanes for [u32; 8] {
    ghost use Rattle.sha2.specs.Sha256.{compress, digest_bytes, initial_hash_256, sha256};
    ghost use Rattle.std.proofs.Common.{rules};

    ghost COUNT = { 1 };

    ghost LEN = { 32 };

    ghost BLOCK = { 64 };

    ghost digest = { sha256 };

    ghost bytes = { λ j words. digest_bytes words 8 };

    ghost has_taken = { λ words block. words ≡ compress initial_hash_256 block };

    fn of_block(block: &[u8]) -> [u32; 8] {
        let mut w = [0; 16];
        'load: for i in 0..16 {
            w[i] = load_be(block, 4 * i);
        }
        let start = [
            0x6a09_e667,
            0xbb67_ae85,
            0x3c6e_f372,
            0xa54f_f53a,
            0x510e_527f,
            0x9b05_688c,
            0x1f83_d9ab,
            0x5be0_cd19,
        ];
        compress_window(&start, w)
    }

    fn load(row: &[u8]) -> [u32; 8] {
        [
            load_or_zero(row, 0),
            load_or_zero(row, 4),
            load_or_zero(row, 8),
            load_or_zero(row, 12),
            load_or_zero(row, 16),
            load_or_zero(row, 20),
            load_or_zero(row, 24),
            load_or_zero(row, 28),
        ]
    }

    fn store(&self, row: &mut [u8]) {
        if row.len() >= 32 {
            write_words(&mut row[..32], self);
        }
    }

    fn tagged(&self, inner: &[u32; 8], outer: &[u32; 8]) -> [u32; 8] {
        let middle = compress(inner, self);
        compress(outer, &middle)
    }

    #[inline(always)]
    fn xor(&self, other: &[u32; 8]) -> [u32; 8] {
        [
            self[0] ^ other[0],
            self[1] ^ other[1],
            self[2] ^ other[2],
            self[3] ^ other[3],
            self[4] ^ other[4],
            self[5] ^ other[5],
            self[6] ^ other[6],
            self[7] ^ other[7],
        ]
    }

    ghost block_in_128 = { Prim.search rules };
}
