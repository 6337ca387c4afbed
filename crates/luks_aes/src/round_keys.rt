//! The planes of round keys.

ghost use Rattle.std.specs.Prelude.{◌≡◌, ℕ, ◌<◌, ◌≤◌, ◌+◌, ◌*◌, List, [], length, slice_index_or};
ghost use Rattle.luks_aes.specs.Planes.{AreKeyPlanes, IsPlane, bit_of, block_of};

use std::simd::u8x16;

// Bit i of each byte, in all the bits of the byte.
#[inline(always)]
fn spread(x: u8x16, i: u8) -> u8x16
    requires { i < 8 }
    ensures given { IsPlane x }
    ensures bits { (k b : ℕ) → k < 16 → b < 8 → bit_of k b result ≡ bit_of k i x }
{
    u8x16::splat(0) - ((x >> u8x16::splat(i)) & u8x16::splat(1))
}

// A block eight times, side by side.
#[inline(always)]
fn repeated(block: &[u8]) -> [u8x16; 8]
    requires { length block.now ≡ 16 }
    ensures { (b : ℕ) → b < 8 → block_of b result ≡ block.now }
{
    let x = u8x16::from_slice(block);
    let p0 = spread(x, 0);
    let p1 = spread(x, 1);
    let p2 = spread(x, 2);
    let p3 = spread(x, 3);
    let p4 = spread(x, 4);
    let p5 = spread(x, 5);
    let p6 = spread(x, 6);
    let p7 = spread(x, 7);
    [p0, p1, p2, p3, p4, p5, p6, p7]
}

// The planes of the round keys of a schedule of 60 words.
pub(crate) fn key_planes(words: &[u8]) -> [[u8x16; 8]; 15]
    requires { length words.now ≡ 240 }
    ensures planes { AreKeyPlanes result words.now }
    ensures count { length result ≡ 15 }
{
    let mut planes = [[u8x16::splat(0); 8]; 15];
    for i in 0..15 {
        let next = repeated(&words[16 * i..16 * i + 16]);
        planes[i] = next;
    }
    planes
}
