//! The compression function G (RFC 9106, 3.5 and 3.6).

ghost use Rattle.std.specs.Prelude.{◌≡◌, ◌≢◌, ℕ, ◌≤◌, ◌<◌, ◌+◌, ◌*◌, ◌/◌, ◌%◌, length, slice_index};
ghost use Rattle.luks_argon2.specs.BlockCompression.{multiplied_sum, column, columns_mixed, columns_permuted, diagonals_mixed, compressed, permuted, mix, row, rows_permuted, xor_blocks, xor_rotate};

use std::simd::u64x2;

/// Of two words in each, the sums with twice the product of the low halves.
#[inline(always)]
fn multiplied_sum(x: u64x2, y: u64x2) -> u64x2
    ensures { (j : ℕ) → j < 2 → slice_index result j ≡ multiplied_sum (slice_index x j) (slice_index y j) }
{
    let low = u64x2::splat(0xFFFF_FFFF);
    let product = (x & low) * (y & low);
    x + y + (product + product)
}

/// Of two words in each, the exclusive or, rotated right by k bits.
#[inline(always)]
fn xor_rotate(x: u64x2, y: u64x2, k: u32) -> u64x2
    requires { (0 < k) × (k < 64) }
    ensures { (j : ℕ) → j < 2 → slice_index result j ≡ xor_rotate (slice_index x j) (slice_index y j) k }
{
    let z = x ^ y;
    (z >> u64x2::splat(k as u64)) | (z << u64x2::splat(64 - k as u64))
}

/// GB on two columns or two diagonals side by side.
#[inline(always)]
fn mix(a: u64x2, b: u64x2, c: u64x2, d: u64x2) -> (u64x2, u64x2, u64x2, u64x2)
    ensures { (j : ℕ) → j < 2
        → (slice_index result.0 j, slice_index result.1 j, slice_index result.2 j, slice_index result.3 j)
        ≡ mix (slice_index a j) (slice_index b j) (slice_index c j) (slice_index d j) }
{
    let a1 = multiplied_sum(a, b);
    let d1 = xor_rotate(d, a1, 32);
    let c1 = multiplied_sum(c, d1);
    let b1 = xor_rotate(b, c1, 24);
    let a2 = multiplied_sum(a1, b1);
    let d2 = xor_rotate(d1, a2, 16);
    let c2 = multiplied_sum(c1, d2);
    let b2 = xor_rotate(b1, c2, 63);
    (a2, b2, c2, d2)
}

/// GB on two times four words.
#[inline(always)]
fn mix_two(
    a: [u64; 2],
    b: [u64; 2],
    c: [u64; 2],
    d: [u64; 2],
) -> ([u64; 2], [u64; 2], [u64; 2], [u64; 2])
    ensures { (j : ℕ) → j < 2
        → (slice_index result.0 j, slice_index result.1 j, slice_index result.2 j, slice_index result.3 j)
        ≡ mix (slice_index a j) (slice_index b j) (slice_index c j) (slice_index d j) }
{
    let (a, b, c, d) = mix(
        u64x2::from_array(a),
        u64x2::from_array(b),
        u64x2::from_array(c),
        u64x2::from_array(d),
    );
    (a.to_array(), b.to_array(), c.to_array(), d.to_array())
}

/// GB on the four columns of the words.
#[inline(always)]
fn columns_mixed(v: [u64; 16]) -> [u64; 16]
    ensures { result ≡ columns_mixed v }
{
    let [
        v0,
        v1,
        v2,
        v3,
        v4,
        v5,
        v6,
        v7,
        v8,
        v9,
        v10,
        v11,
        v12,
        v13,
        v14,
        v15,
    ] = v;
    let (a, b, c, d) = mix_two([v0, v1], [v4, v5], [v8, v9], [v12, v13]);
    let (e, f, g, h) = mix_two([v2, v3], [v6, v7], [v10, v11], [v14, v15]);
    [
        a[0], a[1], e[0], e[1], b[0], b[1], f[0], f[1], c[0], c[1], g[0], g[1], d[0], d[1], h[0],
        h[1],
    ]
}

/// GB on the four diagonals of the words.
#[inline(always)]
fn diagonals_mixed(v: [u64; 16]) -> [u64; 16]
    ensures { result ≡ diagonals_mixed v }
{
    let [
        v0,
        v1,
        v2,
        v3,
        v4,
        v5,
        v6,
        v7,
        v8,
        v9,
        v10,
        v11,
        v12,
        v13,
        v14,
        v15,
    ] = v;
    let (a, b, c, d) = mix_two([v0, v1], [v5, v6], [v10, v11], [v15, v12]);
    let (e, f, g, h) = mix_two([v2, v3], [v7, v4], [v8, v9], [v13, v14]);
    [
        a[0], a[1], e[0], e[1], f[1], b[0], b[1], f[0], g[0], g[1], c[0], c[1], d[1], h[0], h[1],
        d[0],
    ]
}

/// The words of row i.
#[inline(always)]
fn row(b: &[u64; 128], i: usize) -> [u64; 16]
    requires { i < 8 }
    ensures { result ≡ row b.now i }
{
    let mut v = [0u64; 16];
    'get: for n in 0..16 {
        v[n] = b[16 * i + n];
    }
    v
}

/// The words of column j.
#[inline(always)]
fn column(b: &[u64; 128], j: usize) -> [u64; 16]
    requires { j < 8 }
    ensures { result ≡ column b.now j }
{
    let mut v = [0u64; 16];
    'get: for n in 0..16 {
        v[n] = b[16 * (n / 2) + 2 * j + n % 2];
    }
    v
}

/// Writes the words of row i.
#[inline(always)]
fn put_row(b: &mut [u64; 128], i: usize, v: [u64; 16])
    requires { i < 8 }
    ensures done { (n : ℕ) → n < 16 → slice_index b.new (16 * i + n) ≡ slice_index v n }
    ensures kept { (m : ℕ) → m / 16 ≢ i → slice_index b.new m ≡ slice_index b.old m }
{
    'put: for n in 0..16 {
        b[16 * i + n] = v[n];
    }
}

/// Writes the words of column j.
#[inline(always)]
fn put_column(b: &mut [u64; 128], j: usize, v: [u64; 16])
    requires { j < 8 }
    ensures done { (n : ℕ) → n < 16 → slice_index b.new (16 * (n / 2) + 2 * j + n % 2) ≡ slice_index v n }
    ensures kept { (m : ℕ) → m % 16 / 2 ≢ j → slice_index b.new m ≡ slice_index b.old m }
{
    'put: for n in 0..16 {
        b[16 * (n / 2) + 2 * j + n % 2] = v[n];
    }
}

/// Writes the rows of `sum`, each permuted.
fn permute_rows(turned: &mut [u64; 128], sum: &[u64; 128])
    ensures { turned.new ≡ rows_permuted sum.now }
{
    'all: for i in 0..8 {
        let v = row(sum, i);
        put_row(turned, i, diagonals_mixed(columns_mixed(v)));
    }
}

/// Permutes each column.
fn permute_columns(b: &mut [u64; 128])
    ensures { b.new ≡ columns_permuted b.old }
{
    'all: for j in 0..8 {
        let v = column(b, j);
        put_column(b, j, diagonals_mixed(columns_mixed(v)));
    }
}

/// Writes two blocks xored, word by word.
#[inline(always)]
fn set_xored(z: &mut [u64; 128], x: &[u64; 128], y: &[u64; 128])
    ensures { z.new ≡ xor_blocks x.now y.now }
{
    'words: for k in 0..128 {
        z[k] = x[k] ^ y[k];
    }
}

/// Two blocks xored.
pub(crate) fn xored(x: &[u64; 128], y: &[u64; 128]) -> [u64; 128]
    ensures { result ≡ xor_blocks x.now y.now }
{
    let mut z = [0u64; 128];
    set_xored(&mut z, x, y);
    z
}

/// Where a block is made: R and Z of the standard. The block is R xor Z.
#[derive(Drop)]
pub(crate) struct Scratch {
    sum: [u64; 128],
    turned: [u64; 128],
}

impl Scratch {
    pub(crate) fn new() -> Scratch {
        Scratch {
            sum: [0; 128],
            turned: [0; 128],
        }
    }

    /// Makes G of two blocks.
    pub(crate) fn compress(&mut self, x: &[u64; 128], y: &[u64; 128])
        ensures { xor_blocks self.new.sum self.new.turned ≡ compressed x.now y.now }
    {
        set_xored(&mut self.sum, x, y);
        permute_rows(&mut self.turned, &self.sum);
        permute_columns(&mut self.turned);
    }

    /// Writes the block that was made.
    #[inline(always)]
    pub(crate) fn put(&self, block: &mut [u64; 128])
        ensures { block.new ≡ xor_blocks self.now.sum self.now.turned }
    {
        set_xored(block, &self.sum, &self.turned);
    }

    /// Writes the block that was made, xored with the old one.
    #[inline(always)]
    pub(crate) fn put_over(&self, block: &mut [u64; 128])
        ensures { block.new ≡ xor_blocks (xor_blocks self.now.sum self.now.turned) block.old }
    {
        'words: for k in 0..128 {
            block[k] = self.sum[k] ^ self.turned[k] ^ block[k];
        }
    }
}

/// G of two blocks.
pub(crate) fn compressed(x: &[u64; 128], y: &[u64; 128]) -> [u64; 128]
    ensures { result ≡ compressed x.now y.now }
{
    let mut scratch = Scratch::new();
    scratch.compress(x, y);
    let mut block = [0u64; 128];
    scratch.put(&mut block);
    block
}
