//! XTS-AES on eight blocks side by side (IEEE 1619, 5.3.1 and 5.4.1).

ghost use Rattle.std.specs.Prelude.{◌≡◌, ℕ, ◌<◌, ◌+◌, ◌*◌, ◌^◌, [], length, slice_index, slice_index_or};
ghost use Rattle.std.specs.Int.{w128, from_le_bytes, to_le_bytes};
ghost use Rattle.luks_aes.specs.Polynomial.{poly_rem};
ghost use Rattle.luks_aes.specs.Keys.{IsInPlanes};
ghost use Rattle.luks_modes.specs.Xts.{alpha_times, block_at, joined, xor_block};
ghost use Rattle.luks_modes.specs.Blocks.{sealed_blocks, opened_blocks};

use luks_aes::AesKey;
use std::simd::prelude::*;

// A tweak times alpha (IEEE 1619, 5.2).
#[inline(always)]
pub(crate) fn doubled(tweak: u128) -> u128
    ensures { result ≡ poly_rem (2 ^ 128 + 0x87) 128 1 (tweak * 2) }
{
    (tweak << 1) ^ ((tweak >> 127) * 0x87)
}

// The tweaks of eight blocks.
#[inline(always)]
fn tweaks(first: u128) -> [u128; 8]
    ensures { (b : ℕ) → b < 8 → slice_index result b ≡ alpha_times b first }
{
    let t1 = doubled(first);
    let t2 = doubled(t1);
    let t3 = doubled(t2);
    let t4 = doubled(t3);
    let t5 = doubled(t4);
    let t6 = doubled(t5);
    let t7 = doubled(t6);
    [first, t1, t2, t3, t4, t5, t6, t7]
}

// The mask of a block.
#[inline(always)]
fn mask(tweak: u128) -> u8x16
    ensures { result ≡ to_le_bytes w128 tweak }
{
    let low = (tweak % 0x1_0000_0000_0000_0000) as u64;
    let high = (tweak >> 64) as u64;
    u64x2::from_array([low, high]).to_le_bytes()
}

// The exclusive or of a block and its mask.
#[inline(always)]
fn masked(block: u8x16, mask: u8x16) -> u8x16
    ensures { result ≡ xor_block block mask }
{
    block ^ mask
}

// Eight blocks and their masks.
#[inline(always)]
fn all_masked(blocks: [u8x16; 8], masks: [u8x16; 8]) -> [u8x16; 8]
    ensures { (b : ℕ) → b < 8
        → slice_index_or result b [] ≡ xor_block (slice_index_or blocks b []) (slice_index_or masks b []) }
{
    let m0 = masked(blocks[0], masks[0]);
    let m1 = masked(blocks[1], masks[1]);
    let m2 = masked(blocks[2], masks[2]);
    let m3 = masked(blocks[3], masks[3]);
    let m4 = masked(blocks[4], masks[4]);
    let m5 = masked(blocks[5], masks[5]);
    let m6 = masked(blocks[6], masks[6]);
    let m7 = masked(blocks[7], masks[7]);
    [m0, m1, m2, m3, m4, m5, m6, m7]
}

// The masks of eight blocks.
#[inline(always)]
pub(crate) fn masks_of(t: [u128; 8]) -> [u8x16; 8]
    ensures { (b : ℕ) → b < 8 → slice_index_or result b [] ≡ to_le_bytes w128 (slice_index t b) }
{
    let m0 = mask(t[0]);
    let m1 = mask(t[1]);
    let m2 = mask(t[2]);
    let m3 = mask(t[3]);
    let m4 = mask(t[4]);
    let m5 = mask(t[5]);
    let m6 = mask(t[6]);
    let m7 = mask(t[7]);
    [m0, m1, m2, m3, m4, m5, m6, m7]
}

// The polynomial whose coefficients are the bits of a block.
#[inline(always)]
fn polynomial(block: u8x16) -> u128
    ensures { result ≡ from_le_bytes w128 block }
{
    u128::from_le_bytes(block.to_array())
}

// The polynomials of eight blocks.
#[inline(always)]
pub(crate) fn polynomials(blocks: [u8x16; 8]) -> [u128; 8]
    ensures { (b : ℕ) → b < 8 → slice_index result b ≡ from_le_bytes w128 (slice_index_or blocks b []) }
{
    let p0 = polynomial(blocks[0]);
    let p1 = polynomial(blocks[1]);
    let p2 = polynomial(blocks[2]);
    let p3 = polynomial(blocks[3]);
    let p4 = polynomial(blocks[4]);
    let p5 = polynomial(blocks[5]);
    let p6 = polynomial(blocks[6]);
    let p7 = polynomial(blocks[7]);
    [p0, p1, p2, p3, p4, p5, p6, p7]
}

// Eight blocks, from their bytes.
#[inline(always)]
fn blocks_in(bytes: &[u8]) -> [u8x16; 8]
    requires { length bytes.now ≡ 128 }
    ensures { (b : ℕ) → b < 8 → slice_index_or result b [] ≡ block_at bytes.now b }
{
    [
        u8x16::from_slice(bytes),
        u8x16::from_slice(&bytes[16..]),
        u8x16::from_slice(&bytes[32..]),
        u8x16::from_slice(&bytes[48..]),
        u8x16::from_slice(&bytes[64..]),
        u8x16::from_slice(&bytes[80..]),
        u8x16::from_slice(&bytes[96..]),
        u8x16::from_slice(&bytes[112..]),
    ]
}

// Writes eight blocks.
#[inline(always)]
fn put_blocks(bytes: &mut [u8], blocks: [u8x16; 8])
    requires { length bytes.old ≡ 128 }
    ensures { bytes.new ≡ joined (λ b. slice_index_or blocks b []) 8 }
{
    for i in 0..8 {
        let block = blocks[i].to_array();
        bytes[16 * i..16 * i + 16].copy_from_slice(&block);
    }
}

// Eight blocks of a unit, encrypted from the tweak of the first on. Gives the tweak after theirs.
pub(crate) fn seal_eight(key: &AesKey, planes: &[[u8x16; 8]], first: u128, bytes: &mut [u8]) -> u128
    requires blocks { length bytes.old ≡ 128 }
    requires planes { IsInPlanes key.now planes.now }
    ensures made { bytes.new ≡ sealed_blocks key.now first bytes.old 8 }
    ensures next { result ≡ alpha_times 8 first }
{
    let t = tweaks(first);
    let masks = masks_of(t);
    let blocks = blocks_in(bytes);
    let before = all_masked(blocks, masks);
    let made = key.encrypt_eight(planes, before);
    let after = all_masked(made, masks);
    put_blocks(bytes, after);
    doubled(t[7])
}

// Eight blocks of a unit, decrypted from the tweak of the first on. Gives the tweak after theirs.
pub(crate) fn open_eight(key: &AesKey, planes: &[[u8x16; 8]], first: u128, bytes: &mut [u8]) -> u128
    requires blocks { length bytes.old ≡ 128 }
    requires planes { IsInPlanes key.now planes.now }
    ensures made { bytes.new ≡ opened_blocks key.now first bytes.old 8 }
    ensures next { result ≡ alpha_times 8 first }
{
    let t = tweaks(first);
    let masks = masks_of(t);
    let blocks = blocks_in(bytes);
    let before = all_masked(blocks, masks);
    let made = key.decrypt_eight(planes, before);
    let after = all_masked(made, masks);
    put_blocks(bytes, after);
    doubled(t[7])
}
