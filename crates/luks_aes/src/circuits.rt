//! The parts of the circuits of the S-box and of its inverse, on planes. That of the S-box is Joan
//! Boyar's and René Peralta's ("A new combinational logic minimization technique with applications
//! to cryptology"), in their names of the wires. Written by tools/circuits.

ghost use Rattle.std.specs.Prelude.{◌≡◌, ℕ, ◌<◌, ◌++◌};
ghost use Rattle.luks_aes.specs.Circuits as circuits;
ghost use Rattle.luks_aes.specs.Planes.{ArePlanes, bits_of};

use crate::gates::{and, not, xor};
use std::simd::u8x16;

// The sum of each byte and 0x63.
#[inline(always)]
pub(crate) fn with_constant(x: [u8x16; 8]) -> [u8x16; 8]
    ensures planes { ArePlanes x → ArePlanes result }
    ensures bits { (k b : ℕ) → k < 16 → b < 8
        → bits_of 8 k b result ≡ circuits.with_constant (bits_of 8 k b x) }
{
    let n0 = not(x[0]);
    let n1 = not(x[1]);
    let n5 = not(x[5]);
    let n6 = not(x[6]);
    [n0, n1, x[2], x[3], x[4], n5, n6, x[7]]
}

// The sums of a byte's bits that the middle multiplies.
#[inline(always)]
pub(crate) fn factors(x: [u8x16; 8]) -> [u8x16; 22]
    ensures { (k b : ℕ) → k < 16 → b < 8
        → bits_of 22 k b result ≡ circuits.factors (bits_of 8 k b x) }
{
    let y14 = xor(x[4], x[2]);
    let y13 = xor(x[7], x[1]);
    let y9 = xor(x[7], x[4]);
    let y8 = xor(x[7], x[2]);
    let t0 = xor(x[6], x[5]);
    let y1 = xor(t0, x[0]);
    let y4 = xor(y1, x[4]);
    let y12 = xor(y13, y14);
    let y2 = xor(y1, x[7]);
    let y5 = xor(y1, x[1]);
    let y3 = xor(y5, y8);
    let t1 = xor(x[3], y12);
    let y15 = xor(t1, x[2]);
    let y20 = xor(t1, x[6]);
    let y6 = xor(y15, x[0]);
    let y10 = xor(y15, t0);
    let y11 = xor(y20, y9);
    let y7 = xor(x[0], y11);
    let y17 = xor(y10, y11);
    let y19 = xor(y10, y8);
    let y16 = xor(t0, y11);
    let y21 = xor(y13, y16);
    let y18 = xor(x[7], y16);
    [
        x[0], y1, y2, y3, y4, y5, y6, y7, y8, y9, y10, y11, y12, y13, y14, y15, y16, y17, y18, y19,
        y20, y21,
    ]
}

// As `factors`, for the inverse of the S-box: of a byte to which 0x63 was added.
#[inline(always)]
pub(crate) fn inverse_factors(x: [u8x16; 8]) -> [u8x16; 22]
    ensures { (k b : ℕ) → k < 16 → b < 8
        → bits_of 22 k b result ≡ circuits.inverse_factors (bits_of 8 k b x) }
{
    let y5 = xor(x[6], x[4]);
    let a0 = xor(x[1], x[0]);
    let y9 = xor(x[4], x[3]);
    let a1 = xor(x[6], x[3]);
    let y4 = xor(y5, a0);
    let a2 = xor(x[7], x[2]);
    let y8 = xor(x[7], x[6]);
    let a3 = xor(x[5], y5);
    let y2 = xor(a0, a1);
    let y6 = xor(x[7], y5);
    let y7 = xor(x[5], y4);
    let a4 = xor(x[0], a1);
    let y11 = xor(y4, a2);
    let y20 = xor(a2, y2);
    let y13 = xor(a0, y9);
    let a5 = xor(x[1], a1);
    let a6 = xor(x[1], y9);
    let y18 = xor(x[5], y9);
    let y16 = xor(x[5], a5);
    let b0 = xor(x[5], a2);
    let y12 = xor(a0, y8);
    let y1 = xor(x[0], y9);
    let y17 = xor(x[2], a6);
    let y3 = xor(x[7], x[4]);
    let y10 = xor(x[7], a4);
    let y14 = xor(x[3], y6);
    let y21 = xor(x[0], a3);
    let y19 = xor(x[3], x[0]);
    let y15 = xor(x[2], a3);
    [
        b0, y1, y2, y3, y4, y5, y6, y7, y8, y9, y10, y11, y12, y13, y14, y15, y16, y17, y18, y19,
        y20, y21,
    ]
}

// The element of the field of 16 elements that is inverted in the place of a byte.
#[inline(always)]
pub(crate) fn norm(y: [u8x16; 22]) -> [u8x16; 4]
    ensures { (k b : ℕ) → k < 16 → b < 8
        → bits_of 4 k b result ≡ circuits.norm (bits_of 22 k b y) }
{
    let t2 = and(y[12], y[15]);
    let t3 = and(y[3], y[6]);
    let t4 = xor(t3, t2);
    let t5 = and(y[4], y[0]);
    let t6 = xor(t5, t2);
    let t7 = and(y[13], y[16]);
    let t8 = and(y[5], y[1]);
    let t9 = xor(t8, t7);
    let t10 = and(y[2], y[7]);
    let t11 = xor(t10, t7);
    let t12 = and(y[9], y[11]);
    let t13 = and(y[14], y[17]);
    let t14 = xor(t13, t12);
    let t15 = and(y[8], y[10]);
    let t16 = xor(t15, t12);
    let t17 = xor(t4, t14);
    let t18 = xor(t6, t16);
    let t19 = xor(t9, t14);
    let t20 = xor(t11, t16);
    let t21 = xor(t17, y[20]);
    let t22 = xor(t18, y[19]);
    let t23 = xor(t19, y[21]);
    let t24 = xor(t20, y[18]);
    [t21, t22, t23, t24]
}

// The inverse of that element, and sums of the inverse's bits.
#[inline(always)]
pub(crate) fn norm_inverse(t: [u8x16; 4]) -> [u8x16; 9]
    ensures { (k b : ℕ) → k < 16 → b < 8
        → bits_of 9 k b result ≡ circuits.norm_inverse (bits_of 4 k b t) }
{
    let t25 = xor(t[0], t[1]);
    let t26 = and(t[0], t[2]);
    let t27 = xor(t[3], t26);
    let t28 = and(t25, t27);
    let t29 = xor(t28, t[1]);
    let t30 = xor(t[2], t[3]);
    let t31 = xor(t[1], t26);
    let t32 = and(t31, t30);
    let t33 = xor(t32, t[3]);
    let t34 = xor(t[2], t33);
    let t35 = xor(t27, t33);
    let t36 = and(t[3], t35);
    let t37 = xor(t36, t34);
    let t38 = xor(t27, t36);
    let t39 = and(t29, t38);
    let t40 = xor(t25, t39);
    let t41 = xor(t40, t37);
    let t42 = xor(t29, t33);
    let t43 = xor(t29, t40);
    let t44 = xor(t33, t37);
    let t45 = xor(t42, t41);
    [t29, t33, t37, t40, t41, t42, t43, t44, t45]
}

// The products of the sums and of the inverse's bits.
#[inline(always)]
pub(crate) fn products(y: [u8x16; 22], t: [u8x16; 9]) -> [u8x16; 18]
    ensures { (k b : ℕ) → k < 16 → b < 8
        → bits_of 18 k b result ≡ circuits.products (bits_of 22 k b y ++ bits_of 9 k b t) }
{
    let z0 = and(t[7], y[15]);
    let z1 = and(t[2], y[6]);
    let z2 = and(t[1], y[0]);
    let z3 = and(t[6], y[16]);
    let z4 = and(t[3], y[1]);
    let z5 = and(t[0], y[7]);
    let z6 = and(t[5], y[11]);
    let z7 = and(t[8], y[17]);
    let z8 = and(t[4], y[10]);
    let z9 = and(t[7], y[12]);
    let z10 = and(t[2], y[3]);
    let z11 = and(t[1], y[4]);
    let z12 = and(t[6], y[13]);
    let z13 = and(t[3], y[5]);
    let z14 = and(t[0], y[2]);
    let z15 = and(t[5], y[9]);
    let z16 = and(t[8], y[14]);
    let z17 = and(t[4], y[8]);
    [
        z0, z1, z2, z3, z4, z5, z6, z7, z8, z9, z10, z11, z12, z13, z14, z15, z16, z17,
    ]
}

// The sums of the products that are the S-box's byte except for 0x63.
#[inline(always)]
pub(crate) fn sums(z: [u8x16; 18]) -> [u8x16; 8]
    ensures planes { ArePlanes result }
    ensures bits { (k b : ℕ) → k < 16 → b < 8
        → bits_of 8 k b result ≡ circuits.sums (bits_of 18 k b z) }
{
    let t46 = xor(z[15], z[16]);
    let t47 = xor(z[10], z[11]);
    let t48 = xor(z[5], z[13]);
    let t49 = xor(z[9], z[10]);
    let t50 = xor(z[2], z[12]);
    let t51 = xor(z[2], z[5]);
    let t52 = xor(z[7], z[8]);
    let t53 = xor(z[0], z[3]);
    let t54 = xor(z[6], z[7]);
    let t55 = xor(z[16], z[17]);
    let t56 = xor(z[12], t48);
    let t57 = xor(t50, t53);
    let t58 = xor(z[4], t46);
    let t59 = xor(z[3], t54);
    let t60 = xor(t46, t57);
    let t61 = xor(z[14], t57);
    let t62 = xor(t52, t58);
    let t63 = xor(t49, t58);
    let t64 = xor(z[4], t59);
    let t65 = xor(t61, t62);
    let t66 = xor(z[1], t63);
    let s0 = xor(t59, t63);
    let s6 = xor(t56, t62);
    let s7 = xor(t48, t60);
    let t67 = xor(t64, t65);
    let s3 = xor(t53, t66);
    let s4 = xor(t51, t66);
    let s5 = xor(t47, t65);
    let s1 = xor(t64, s3);
    let s2 = xor(t55, t67);
    [s7, s6, s5, s4, s3, s2, s1, s0]
}

// The sums that are the inverse's byte.
#[inline(always)]
pub(crate) fn inverse_sums(z: [u8x16; 18]) -> [u8x16; 8]
    ensures planes { ArePlanes result }
    ensures bits { (k b : ℕ) → k < 16 → b < 8
        → bits_of 8 k b result ≡ circuits.inverse_sums (bits_of 18 k b z) }
{
    let b0 = xor(z[2], z[5]);
    let b1 = xor(z[13], z[16]);
    let b2 = xor(z[11], z[17]);
    let b3 = xor(z[12], b1);
    let b4 = xor(z[3], b0);
    let b5 = xor(z[0], b4);
    let b6 = xor(z[15], b3);
    let b7 = xor(z[4], b0);
    let b8 = xor(z[3], z[6]);
    let b9 = xor(b6, b8);
    let b10 = xor(z[9], b2);
    let b11 = xor(z[1], b7);
    let b12 = xor(z[16], b5);
    let b13 = xor(z[10], b12);
    let b14 = xor(z[4], z[7]);
    let b15 = xor(z[10], z[14]);
    let b16 = xor(b2, b13);
    let b17 = xor(z[11], b15);
    let b18 = xor(b3, b10);
    let b19 = xor(z[8], b9);
    let b20 = xor(b11, b17);
    let b21 = xor(z[13], b20);
    let s0 = xor(z[5], b19);
    let s2 = xor(b21, s0);
    let s1 = xor(b18, s2);
    let s3 = xor(b5, s0);
    let s5 = xor(b11, s3);
    let s6 = xor(b9, b14);
    let s4 = xor(b16, s6);
    let s7 = xor(z[15], b10);
    [s7, s6, s5, s4, s3, s2, s1, s0]
}
