// The functions of SHA-1 on four words side by side (FIPS 180-4, 4.1.1), each of another block.

ghost use Rattle.std.specs.Prelude.{◌≡◌, ℕ, ◌<◌, ◌≤◌, bit_xor};
ghost use Rattle.std.specs.Int.{w32, rotate_left};
ghost use Rattle.sha1.specs.Sha1.{add32, ch, maj, parity, round_constant, round_fn};
ghost use Rattle.luks_rounds.specs.Quad.{word_of};

use std::simd::u32x4;

// The rotation to the left.
#[inline(always)]
pub(crate) fn rotated(x: u32x4, k: u32) -> u32x4
    requires low { 1 ≤ k }
    requires high { k < 32 }
    ensures { (j : ℕ) → j < 4 → word_of j result ≡ rotate_left w32 (word_of j x) k }
{
    (x << u32x4::splat(k)) | (x >> u32x4::splat(32 - k))
}

// The sum of two words, the carry out of the word dropped.
#[inline(always)]
pub(crate) fn add(x: u32x4, y: u32x4) -> u32x4
    ensures { (j : ℕ) → j < 4 → word_of j result ≡ add32 (word_of j x) (word_of j y) }
{
    x + y
}

#[inline(always)]
pub(crate) fn xor(x: u32x4, y: u32x4) -> u32x4
    ensures { (j : ℕ) → j < 4 → word_of j result ≡ bit_xor (word_of j x) (word_of j y) }
{
    x ^ y
}

// One operation fewer than the standard's form.
#[inline(always)]
pub(crate) fn ch(x: u32x4, y: u32x4, z: u32x4) -> u32x4
    ensures { (j : ℕ) → j < 4 → word_of j result ≡ ch (word_of j x) (word_of j y) (word_of j z) }
{
    z ^ (x & (y ^ z))
}

#[inline(always)]
fn parity(x: u32x4, y: u32x4, z: u32x4) -> u32x4
    ensures { (j : ℕ) → j < 4 → word_of j result ≡ parity (word_of j x) (word_of j y) (word_of j z) }
{
    xor(xor(x, y), z)
}

// As `ch`, in fewer operations.
#[inline(always)]
fn maj(x: u32x4, y: u32x4, z: u32x4) -> u32x4
    ensures { (j : ℕ) → j < 4 → word_of j result ≡ maj (word_of j x) (word_of j y) (word_of j z) }
{
    y ^ ((x ^ y) & (y ^ z))
}

// The function of round `t`.
#[inline(always)]
pub(crate) fn mixed(t: usize, x: u32x4, y: u32x4, z: u32x4) -> u32x4
    requires { t < 80 }
    ensures { (j : ℕ) → j < 4
        → word_of j result ≡ round_fn t (word_of j x) (word_of j y) (word_of j z) }
{
    if t < 20 {
        ch(x, y, z)
    } else if t < 40 {
        parity(x, y, z)
    } else if t < 60 {
        maj(x, y, z)
    } else {
        parity(x, y, z)
    }
}

// The constant of round `t` (FIPS 180-4, 4.2.1).
#[inline(always)]
pub(crate) fn constant(t: usize) -> u32
    requires { t < 80 }
    ensures { result ≡ round_constant t }
{
    if t < 20 {
        0x5A82_7999
    } else if t < 40 {
        0x6ED9_EBA1
    } else if t < 60 {
        0x8F1B_BCDC
    } else {
        0xCA62_C1D6
    }
}
