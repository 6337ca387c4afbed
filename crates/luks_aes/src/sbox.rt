//! SubBytes and its inverse on planes, by circuits that share their middle: the inversion in the
//! field.

ghost use Rattle.std.specs.Prelude.{◌≡◌, ℕ, ◌<◌, ◌++◌};
ghost use Rattle.luks_aes.specs.Circuits as circuits;
ghost use Rattle.luks_aes.specs.Field as field;
ghost use Rattle.luks_aes.specs.Planes.{ArePlanes, bits_of, byte_of};

use crate::circuits::{
    factors, inverse_factors, inverse_sums, norm, norm_inverse, products, sums, with_constant,
};
use std::simd::u8x16;

// The middle of both circuits.
#[inline(always)]
fn middle(y: [u8x16; 22]) -> [u8x16; 18]
    ensures { (k b : ℕ) → k < 16 → b < 8 → bits_of 18 k b result ≡ circuits.middle (bits_of 22 k b y) }
{
    let norm = norm(y);
    let inverse = norm_inverse(norm);
    products(y, inverse)
}

// SubBytes (FIPS 197, 5.1.1).
#[inline(always)]
pub(crate) fn sub_bytes(x: [u8x16; 8]) -> [u8x16; 8]
    ensures planes { ArePlanes result }
    ensures bytes { (k b : ℕ) → k < 16 → b < 8 → byte_of k b result ≡ field.sbox (byte_of k b x) }
{
    let y = factors(x);
    let z = middle(y);
    let s = sums(z);
    with_constant(s)
}

// InvSubBytes (FIPS 197, 5.3.2).
#[inline(always)]
pub(crate) fn inverse_sub_bytes(x: [u8x16; 8]) -> [u8x16; 8]
    ensures planes { ArePlanes result }
    ensures bytes { (k b : ℕ) → k < 16 → b < 8 → byte_of k b result ≡ field.inverse_sbox (byte_of k b x) }
{
    let v = with_constant(x);
    let y = inverse_factors(v);
    let z = middle(y);
    inverse_sums(z)
}
