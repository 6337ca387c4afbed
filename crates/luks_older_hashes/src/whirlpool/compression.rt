//! The compression function of Whirlpool (ISO/IEC 10118-3), one block of 64 bytes at a time.

ghost use Rattle.std.specs.Prelude.{◌≡◌, ◌∷◌, [], ◌<◌, length, slice_index};
ghost use Rattle.luks_older_hashes.specs.Whirlpool.{add, cipher, compress, constant, mix_rows, product, round, row_mixed, shift_columns, sub_bytes, times_x};

use crate::whirlpool::sbox::sbox;

// x times an element of the field.
#[inline(always)]
fn times_x(a: u8) -> u8
    ensures { result ≡ times_x a }
{
    a.wrapping_mul(2) ^ (a / 128).wrapping_mul(0x1D)
}

// The products of an element with 1, 2, 4, 5, 8 and 9.
#[inline(always)]
fn multiples(a: u8) -> [u8; 6]
    ensures { result
        ≡ product 1 a ∷ product 2 a ∷ product 4 a ∷ product 5 a ∷ product 8 a ∷ product 9 a ∷ [] }
{
    let two = times_x(a);
    let four = times_x(two);
    let eight = times_x(four);
    [a, two, four, a ^ four, eight, a ^ eight]
}

// Each byte through the S-box.
fn sub_bytes(state: &[u8; 64]) -> [u8; 64]
    ensures { result ≡ sub_bytes state.now }
{
    let mut out = [0; 64];
    for k in 0..64 {
        out[k] = sbox(state[k]);
    }
    out
}

// Column j moved down by j.
fn shift_columns(state: &[u8; 64]) -> [u8; 64]
    ensures { result ≡ shift_columns state.now }
{
    let mut out = [0; 64];
    for k in 0..64 {
        out[k] = state[8 * ((k / 8 + 8 - k % 8) % 8) + k % 8];
    }
    out
}

// A row times the matrix, of which each row is the one before it moved on by one.
fn row_mixed(row: &[u8]) -> [u8; 8]
    requires { length row.now ≡ 8 }
    ensures { result ≡ row_mixed row.now }
{
    let a = multiples(row[0]);
    let b = multiples(row[1]);
    let c = multiples(row[2]);
    let d = multiples(row[3]);
    let e = multiples(row[4]);
    let f = multiples(row[5]);
    let g = multiples(row[6]);
    let h = multiples(row[7]);
    [
        a[0] ^ b[5] ^ c[1] ^ d[3] ^ e[4] ^ f[0] ^ g[2] ^ h[0],
        a[0] ^ b[0] ^ c[5] ^ d[1] ^ e[3] ^ f[4] ^ g[0] ^ h[2],
        a[2] ^ b[0] ^ c[0] ^ d[5] ^ e[1] ^ f[3] ^ g[4] ^ h[0],
        a[0] ^ b[2] ^ c[0] ^ d[0] ^ e[5] ^ f[1] ^ g[3] ^ h[4],
        a[4] ^ b[0] ^ c[2] ^ d[0] ^ e[0] ^ f[5] ^ g[1] ^ h[3],
        a[3] ^ b[4] ^ c[0] ^ d[2] ^ e[0] ^ f[0] ^ g[5] ^ h[1],
        a[1] ^ b[3] ^ c[4] ^ d[0] ^ e[2] ^ f[0] ^ g[0] ^ h[5],
        a[5] ^ b[1] ^ c[3] ^ d[4] ^ e[0] ^ f[2] ^ g[0] ^ h[0],
    ]
}

// Each row times the matrix.
fn mix_rows(state: &[u8; 64]) -> [u8; 64]
    ensures { result ≡ mix_rows state.now }
{
    let mut out = [0; 64];
    for i in 0..8 {
        out[8 * i..8 * i + 8].copy_from_slice(&row_mixed(&state[8 * i..8 * i + 8]));
    }
    out
}

// The sum of two states.
fn add(state: &[u8; 64], other: &[u8; 64]) -> [u8; 64]
    ensures { result ≡ add state.now other.now }
{
    let mut out = [0; 64];
    for k in 0..64 {
        out[k] = state[k] ^ other[k];
    }
    out
}

// A round under a key.
fn round(state: &[u8; 64], key: &[u8; 64]) -> [u8; 64]
    ensures { result ≡ round state.now key.now }
{
    let substituted = sub_bytes(state);
    let moved = shift_columns(&substituted);
    let mixed = mix_rows(&moved);
    add(&mixed, key)
}

// The constant of round r, counted from 0.
fn constant(r: u8) -> [u8; 64]
    requires { r < 10 }
    ensures { result ≡ constant r }
{
    let first = 8 * r;
    let s0 = sbox(first);
    let s1 = sbox(first + 1);
    let s2 = sbox(first + 2);
    let s3 = sbox(first + 3);
    let s4 = sbox(first + 4);
    let s5 = sbox(first + 5);
    let s6 = sbox(first + 6);
    let s7 = sbox(first + 7);
    [
        s0, s1, s2, s3, s4, s5, s6, s7, 0, 0, 0, 0, 0, 0, 0, 0, 0, 0, 0, 0, 0, 0, 0, 0, 0, 0, 0, 0,
        0, 0, 0, 0, 0, 0, 0, 0, 0, 0, 0, 0, 0, 0, 0, 0, 0, 0, 0, 0, 0, 0, 0, 0, 0, 0, 0, 0, 0, 0,
        0, 0, 0, 0, 0, 0,
    ]
}

// The block cipher of ten rounds, each under the next key.
fn cipher(first_key: &[u8; 64], block: &[u8; 64]) -> [u8; 64]
    ensures { result ≡ cipher first_key.now block.now }
{
    let mut key = *first_key;
    let mut state = add(block, first_key);
    for r in 0..10 {
        let next_key = round(&key, &constant(r));
        let next = round(&state, &next_key);
        key = next_key;
        state = next;
    }
    state
}

// Takes one block into the state.
pub(crate) fn compress(state: &mut [u8; 64], block: &[u8; 64])
    ensures { state.new ≡ compress state.old block.now }
{
    let sealed = cipher(state, block);
    let sum = add(&sealed, state);
    *state = add(&sum, block);
}
