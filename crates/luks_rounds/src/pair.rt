// The functions of SHA-256 on a pair of words (FIPS 180-4, 4.1.2): a vector holds a word of each of
// two blocks, in its lanes 0 and 2. What is in its lanes 1 and 3 doesn't matter.

ghost use Rattle.std.specs.Prelude.{◌≡◌, ℕ, ◌+◌, ◌*◌, ◌/◌, ◌%◌, ◌^◌, ◌<◌, bit_xor, length, slice_index};
ghost use Rattle.sha2.specs.Sha256.{add32, ch, maj, big_sigma0, big_sigma1, small_sigma0, small_sigma1};
ghost use Rattle.luks_rounds.specs.Pair.{word_of};

use std::simd::{u32x4, u64x2};

// Each word twice, in a lane of 64 bits: so a rotation is a shift.
#[inline(always)]
fn doubled(x: u32x4) -> u64x2
    ensures twice { (j : ℕ) → j < 2 → slice_index result j ≡ word_of j x * (2 ^ 32 + 1) }
    ensures two { length result ≡ 2 }
{
    u64x2::from_le_bytes(x.swizzle([0, 0, 2, 2]).to_le_bytes())
}

// The low word of each lane of 64 bits.
#[inline(always)]
fn low_words(x: u64x2) -> u32x4
    ensures { (j : ℕ) → j < 2 → word_of j result ≡ slice_index x j % 2 ^ 32 }
{
    u32x4::from_le_bytes(x.to_le_bytes())
}

// The sum of two words, the carry out of the word dropped.
#[inline(always)]
pub(crate) fn add(x: u32x4, y: u32x4) -> u32x4
    ensures { (j : ℕ) → j < 2 → word_of j result ≡ add32 (word_of j x) (word_of j y) }
{
    x + y
}

#[inline(always)]
pub(crate) fn xor(x: u32x4, y: u32x4) -> u32x4
    ensures { (j : ℕ) → j < 2 → word_of j result ≡ bit_xor (word_of j x) (word_of j y) }
{
    x ^ y
}

// The shift to the right.
#[inline(always)]
fn shifted(x: u32x4, k: u32) -> u32x4
    requires { k < 32 }
    ensures { (j : ℕ) → j < 2 → word_of j result ≡ word_of j x / 2 ^ k }
{
    x >> u32x4::splat(k)
}

// One operation fewer than the standard's form.
#[inline(always)]
pub(crate) fn ch(x: u32x4, y: u32x4, z: u32x4) -> u32x4
    ensures { (j : ℕ) → j < 2 → word_of j result ≡ ch (word_of j x) (word_of j y) (word_of j z) }
{
    z ^ (x & (y ^ z))
}

// As `ch`, in fewer operations.
#[inline(always)]
pub(crate) fn maj(x: u32x4, y: u32x4, z: u32x4) -> u32x4
    ensures { (j : ℕ) → j < 2 → word_of j result ≡ maj (word_of j x) (word_of j y) (word_of j z) }
{
    y ^ ((x ^ y) & (y ^ z))
}

#[inline(always)]
pub(crate) fn big_sigma0(x: u32x4) -> u32x4
    ensures { (j : ℕ) → j < 2 → word_of j result ≡ big_sigma0 (word_of j x) }
{
    let d = doubled(x);
    low_words((d >> u64x2::splat(2)) ^ (d >> u64x2::splat(13)) ^ (d >> u64x2::splat(22)))
}

#[inline(always)]
pub(crate) fn big_sigma1(x: u32x4) -> u32x4
    ensures { (j : ℕ) → j < 2 → word_of j result ≡ big_sigma1 (word_of j x) }
{
    let d = doubled(x);
    low_words((d >> u64x2::splat(6)) ^ (d >> u64x2::splat(11)) ^ (d >> u64x2::splat(25)))
}

#[inline(always)]
pub(crate) fn small_sigma0(x: u32x4) -> u32x4
    ensures { (j : ℕ) → j < 2 → word_of j result ≡ small_sigma0 (word_of j x) }
{
    let d = doubled(x);
    let rotated = low_words((d >> u64x2::splat(7)) ^ (d >> u64x2::splat(18)));
    xor(rotated, shifted(x, 3))
}

#[inline(always)]
pub(crate) fn small_sigma1(x: u32x4) -> u32x4
    ensures { (j : ℕ) → j < 2 → word_of j result ≡ small_sigma1 (word_of j x) }
{
    let d = doubled(x);
    let rotated = low_words((d >> u64x2::splat(17)) ^ (d >> u64x2::splat(19)));
    xor(rotated, shifted(x, 10))
}
