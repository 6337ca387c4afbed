//! The gates of the circuits, each on every bit of a plane.

ghost use Rattle.std.specs.Prelude.{◌≡◌, ℕ, ◌<◌, bit_and, bit_xor};
ghost use Rattle.luks_aes.specs.Planes.{IsPlane, bit_of};

use std::simd::u8x16;

// The sum of two bits.
#[inline(always)]
pub(crate) fn xor(x: u8x16, y: u8x16) -> u8x16
    ensures plane { IsPlane result }
    ensures bits { (k b : ℕ) → k < 16 → bit_of k b result ≡ bit_xor (bit_of k b x) (bit_of k b y) }
{
    x ^ y
}

// The product of two bits.
#[inline(always)]
pub(crate) fn and(x: u8x16, y: u8x16) -> u8x16
    ensures plane { IsPlane result }
    ensures bits { (k b : ℕ) → k < 16 → bit_of k b result ≡ bit_and (bit_of k b x) (bit_of k b y) }
{
    x & y
}

// The other bit.
#[inline(always)]
pub(crate) fn not(x: u8x16) -> u8x16
    ensures plane { IsPlane result }
    ensures bits { (k b : ℕ) → k < 16 → b < 8 → bit_of k b result ≡ bit_xor (bit_of k b x) 1 }
{
    x ^ u8x16::splat(0xFF)
}
