//! Blocks into planes, and back.

ghost use Rattle.std.specs.Prelude.{◌≡◌, ℕ, ◌<◌, ◌+◌, ◌-◌, ◌/◌, ◌%◌, ◌==◌, if◌then◌else◌, slice_index_or, []};
ghost use Rattle.luks_aes.specs.Planes.{IsPlane, ArePlanes, bit_of, block_of, IsStep};

use std::simd::u8x16;

// The bits of `a` at the places whose bit of weight n is 0, and the bits of `b` that stand n below
// the others.
#[inline(always)]
fn lower(a: u8x16, b: u8x16, n: u8, mask: u8) -> u8x16
    requires step { IsStep n mask }
    requires low { n < 8 }
    ensures given { IsPlane a × IsPlane b }
    ensures plane { IsPlane result }
    ensures bits { (k i : ℕ) → k < 16 → i < 8
        → bit_of k i result ≡ (if i / n % 2 == 0 then bit_of k i a else bit_of k (i - n) b) }
{
    (a & u8x16::splat(mask)) ^ ((b << u8x16::splat(n)) & u8x16::splat(255 - mask))
}

// The bits of `a` that stand n above the places whose bit of weight n is 0, and the bits of `b` at
// the others.
#[inline(always)]
fn upper(a: u8x16, b: u8x16, n: u8, mask: u8) -> u8x16
    requires step { IsStep n mask }
    requires low { n < 8 }
    ensures given { IsPlane a × IsPlane b }
    ensures plane { IsPlane result }
    ensures bits { (k i : ℕ) → k < 16 → i < 8
        → bit_of k i result ≡ (if i / n % 2 == 0 then bit_of k (i + n) a else bit_of k i b) }
{
    ((a >> u8x16::splat(n)) & u8x16::splat(mask)) ^ (b & u8x16::splat(255 - mask))
}

// Bit i of vector j for bit j of vector i, in each lane.
#[inline(always)]
fn transposed(x: [u8x16; 8]) -> [u8x16; 8]
    ensures given { ArePlanes x }
    ensures planes { ArePlanes result }
    ensures bits { (k i j : ℕ) → k < 16 → i < 8 → j < 8
        → bit_of k i (slice_index_or result j []) ≡ bit_of k j (slice_index_or x i []) }
{
    let a0 = lower(x[0], x[1], 1, 0x55);
    let a1 = upper(x[0], x[1], 1, 0x55);
    let a2 = lower(x[2], x[3], 1, 0x55);
    let a3 = upper(x[2], x[3], 1, 0x55);
    let a4 = lower(x[4], x[5], 1, 0x55);
    let a5 = upper(x[4], x[5], 1, 0x55);
    let a6 = lower(x[6], x[7], 1, 0x55);
    let a7 = upper(x[6], x[7], 1, 0x55);
    let b0 = lower(a0, a2, 2, 0x33);
    let b2 = upper(a0, a2, 2, 0x33);
    let b1 = lower(a1, a3, 2, 0x33);
    let b3 = upper(a1, a3, 2, 0x33);
    let b4 = lower(a4, a6, 2, 0x33);
    let b6 = upper(a4, a6, 2, 0x33);
    let b5 = lower(a5, a7, 2, 0x33);
    let b7 = upper(a5, a7, 2, 0x33);
    let c0 = lower(b0, b4, 4, 0x0F);
    let c4 = upper(b0, b4, 4, 0x0F);
    let c1 = lower(b1, b5, 4, 0x0F);
    let c5 = upper(b1, b5, 4, 0x0F);
    let c2 = lower(b2, b6, 4, 0x0F);
    let c6 = upper(b2, b6, 4, 0x0F);
    let c3 = lower(b3, b7, 4, 0x0F);
    let c7 = upper(b3, b7, 4, 0x0F);
    [c0, c1, c2, c3, c4, c5, c6, c7]
}

// The planes of eight blocks.
#[inline(always)]
pub(crate) fn planes_of(blocks: [u8x16; 8]) -> [u8x16; 8]
    ensures given { ArePlanes blocks }
    ensures planes { ArePlanes result }
    ensures each { (b : ℕ) → b < 8 → block_of b result ≡ slice_index_or blocks b [] }
{
    transposed(blocks)
}

// The blocks of planes.
#[inline(always)]
pub(crate) fn blocks_of(planes: [u8x16; 8]) -> [u8x16; 8]
    ensures planes { ArePlanes result }
    ensures each { (b : ℕ) → b < 8 → slice_index_or result b [] ≡ block_of b planes }
{
    transposed(planes)
}
