//! BLAKE2b without a key, on a message taken in piece by piece (RFC 7693, 3.3).

ghost use Rattle.std.specs.Prelude.{◌≡◌, ℕ, ◌≤◌, ◌<◌, ◌+◌, ◌++◌, List, [], ◌∷◌, length};

use crate::blake2b_compression::{INITIAL, compress, digest_of, padded};
use std::alloc::AllocError;

/// BLAKE2b of a message that comes piece by piece. It takes no memory. A contract sees it by the
/// message that it holds; the last block is held back until the message ends. Its clone holds the same
/// message.
#[derive(Drop)]
pub struct Blake2b {
    h: [u64; 8],
    buffer: [u8; 128],
    used: usize,
    total: u128,
    ghost in_buffer: { used ≤ 128 },
}

impl Clone for Blake2b {
    ghost use Rattle.std.specs.Prelude.{⊤};

    ghost is_clone = { λ x y. y ≡ x };

    ghost is_infallible = { λ _. ⊤ };

    fn clone(&self) -> Result<Blake2b, AllocError> {
        Ok(Blake2b {
            h: self.h,
            buffer: self.buffer,
            used: self.used,
            total: self.total,
        })
    }
}

impl Blake2b {
    ghost use Rattle.luks_argon2.specs.Blake2b.{blake2b};
    ghost use Rattle.luks_argon2.specs.Hasher.{Holds};

    /// Holds the empty message, for a digest of `len` bytes, 1 to 64 (RFC 7693, 2.1).
    pub fn new(len: u8) -> Blake2b
        ensures { Holds len result [] }
    {
        Blake2b {
            h: [
                INITIAL[0] ^ 0x0101_0000 ^ len as u64,
                INITIAL[1],
                INITIAL[2],
                INITIAL[3],
                INITIAL[4],
                INITIAL[5],
                INITIAL[6],
                INITIAL[7],
            ],
            buffer: [0; 128],
            used: 0,
            total: 0,
        }
    }

    /// Takes in a byte where the last block has room.
    fn push_into_last(&mut self, byte: u8)
        requires { self.old.used < 128 }
        ensures { (n : ℕ) (m : List ℕ) → Holds n self.old m → Holds n self.new (m ++ byte ∷ []) }
    {
        self.buffer[self.used] = byte;
        self.used += 1;
        self.total = self.total.wrapping_add(1);
    }

    /// Takes in a byte where the last block is full, and turns out not to be the last.
    fn push_into_next(&mut self, byte: u8)
        requires { self.old.used ≡ 128 }
        ensures { (n : ℕ) (m : List ℕ) → Holds n self.old m → Holds n self.new (m ++ byte ∷ []) }
    {
        compress(&mut self.h, &self.buffer, self.total, false);
        self.buffer[0] = byte;
        self.used = 1;
        self.total = self.total.wrapping_add(1);
    }

    /// Takes in a byte.
    fn push(&mut self, byte: u8)
        ensures { (n : ℕ) (m : List ℕ) → Holds n self.old m → Holds n self.new (m ++ byte ∷ []) }
    {
        if self.used == 128 {
            self.push_into_next(byte);
        } else {
            self.push_into_last(byte);
        }
    }

    /// Takes in more bytes of the message.
    pub fn update(&mut self, bytes: &[u8])
        ensures { (n : ℕ) (m : List ℕ) → Holds n self.old m → Holds n self.new (m ++ bytes.now) }
    {
        for byte in bytes {
            self.push(*byte);
        }
    }

    /// Writes the digest of the message. `out` has as many bytes as the hasher was begun for.
    pub fn finalize(self, out: &mut [u8])
        requires { length out.old ≤ 64 }
        ensures { (m : List ℕ) → Holds (length out.old) self m → out.new ≡ blake2b (length out.old) m }
    {
        let Blake2b {
            h,
            buffer,
            used,
            total,
        } = self;
        let mut h = h;
        let block = padded(buffer, used);
        compress(&mut h, &block, total, true);
        let bytes = digest_of(&h);
        let len = out.len();
        out.copy_from_slice(&bytes[..len]);
    }
}
