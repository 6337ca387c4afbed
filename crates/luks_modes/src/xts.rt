//! XTS-AES (IEEE 1619).

ghost use Rattle.std.specs.Prelude.{◌≡◌, ◌⊎◌, ◌<◌, ◌≤◌, ◌+◌, ◌*◌, ◌/◌, ◌%◌, ℕ, length, slice_index, SomeIff};
ghost use Rattle.luks_aes.specs.Keys.{IsInPlanes};
ghost use Rattle.luks_modes.specs.Xts.{XtsSeal, XtsOpen, tweak_of, xor_block, sealed_under, opened_under};
ghost use Rattle.luks_modes.specs.Blocks.{sealed_blocks, opened_blocks};
ghost use Rattle.luks_modes.specs.Units.{AreMade, converted, converted_blocks, opposite};

use crate::eights::{doubled, masks_of, open_eight, polynomials, seal_eight};
use luks_aes::AesKey;
use std::marker::Model;
use std::simd::u8x16;

// What is done to a unit.
#[derive(Clone, Copy)]
pub(crate) enum Direction {
    Seal,
    Open,
}

/// A key of XTS-AES (IEEE 1619, 5.3.1). A contract sees the bytes that it was made of.
#[derive(Drop)]
pub struct XtsKey {
    blocks: AesKey,
    tweaks: AesKey,
}

impl Model for XtsKey {
    ghost use Rattle.std.specs.Prelude.{List, ℕ, ◌++◌};

    ghost Value = { List ℕ };

    ghost use Rattle.luks_modes.specs.Halves.{AreHalves};

    ghost view = { λ k. k.blocks ++ k.tweaks };

    ghost invariant = { λ k. AreHalves k.blocks k.tweaks };
}

impl XtsKey {
    /// The key of these bytes: 32 for XTS-AES-128, 64 for XTS-AES-256, and None at every other
    /// length. The first half is for the blocks, the second for the tweaks.
    pub fn new(key: &[u8]) -> Option<XtsKey>
        ensures { SomeIff result ((length key.now ≡ 32) ⊎ (length key.now ≡ 64)) key.now }
    {
        let (first, second) = key.split_at(key.len() / 2);
        let blocks = AesKey::new(first)?;
        let tweaks = AesKey::new(second)?;
        Some(XtsKey { blocks, tweaks })
    }

    /// Encrypts a unit in place: a sector, as a volume has them, of whole blocks of 16 bytes (IEEE
    /// 1619, 5.3.2). `unit` is the sector's number, and an empty unit stays empty.
    pub fn seal_unit(&self, unit: u64, bytes: &mut [u8])
        requires { length bytes.old % 16 ≡ 0 }
        ensures value { bytes.new ≡ XtsSeal self.now unit bytes.old }
        ensures undone { XtsOpen self.now unit bytes.new ≡ bytes.old }
    {
        let tweak = self.tweak(unit);
        seal_whole(&self.blocks, tweak, bytes);
    }

    /// Decrypts a unit in place, of whole blocks of 16 bytes (IEEE 1619, 5.4.2): what `seal_unit`
    /// did under the same number is undone.
    pub fn open_unit(&self, unit: u64, bytes: &mut [u8])
        requires { length bytes.old % 16 ≡ 0 }
        ensures value { bytes.new ≡ XtsOpen self.now unit bytes.old }
        ensures undone { XtsSeal self.now unit bytes.new ≡ bytes.old }
    {
        let tweak = self.tweak(unit);
        open_whole(&self.blocks, tweak, bytes);
    }

    // The tweak of the first block of a unit.
    fn tweak(&self, unit: u64) -> u128
        ensures { result ≡ tweak_of self.now unit }
    {
        let tweak = self.tweaks.encrypt(u128::from(unit).to_le_bytes());
        u128::from_le_bytes(tweak)
    }

    /// Encrypts a run of at most eight units of 512 bytes in place, each as `seal_unit` does: the
    /// first under the number `first`, and each other under the number after that of the unit before.
    pub fn seal_units(&self, first: u64, bytes: &mut [u8])
        requires whole { length bytes.old % 512 ≡ 0 }
        requires at_most_eight { length bytes.old ≤ 4096 }
        ensures value { AreMade (XtsSeal self.now) first bytes.old bytes.new }
        ensures undone { AreMade (XtsOpen self.now) first bytes.new bytes.old }
    {
        self.convert_units(Direction::Seal, first, bytes);
    }

    /// Decrypts a run of at most eight units of 512 bytes in place, each as `open_unit` does: what
    /// `seal_units` did under the same number is undone.
    pub fn open_units(&self, first: u64, bytes: &mut [u8])
        requires whole { length bytes.old % 512 ≡ 0 }
        requires at_most_eight { length bytes.old ≤ 4096 }
        ensures value { AreMade (XtsOpen self.now) first bytes.old bytes.new }
        ensures undone { AreMade (XtsSeal self.now) first bytes.new bytes.old }
    {
        self.convert_units(Direction::Open, first, bytes);
    }

    // The same in a direction.
    fn convert_units(&self, direction: Direction, first: u64, bytes: &mut [u8])
        requires whole { length bytes.old % 512 ≡ 0 }
        requires at_most_eight { length bytes.old ≤ 4096 }
        ensures value { AreMade (converted direction self.now) first bytes.old bytes.new }
        ensures undone { AreMade (converted (opposite direction) self.now) first bytes.new bytes.old }
    {
        let tweaks = self.eight_tweaks(first);
        let planes = self.blocks.planes();
        for u in 0..bytes.len() / 512 {
            let unit = &mut bytes[512 * u..512 * u + 512];
            convert_blocks(direction, &self.blocks, &planes, tweaks[u], unit);
        }
    }

    // The tweaks of the first blocks of eight units, from this number on.
    fn eight_tweaks(&self, first: u64) -> [u128; 8]
        ensures { (u : ℕ) → u < 8 → slice_index result u ≡ tweak_of self.now (first + u) }
    {
        let n = u128::from(first);
        let numbers = masks_of([n, n + 1, n + 2, n + 3, n + 4, n + 5, n + 6, n + 7]);
        let tweaks = self.tweaks.encrypt_eight(&self.tweaks.planes(), numbers);
        polynomials(tweaks)
    }
}

// The exclusive or of a block and its mask.
#[inline(always)]
fn xor_block(block: &[u8], mask: &[u8]) -> [u8; 16]
    requires block_length { length block.now ≡ 16 }
    requires mask_length { length mask.now ≡ 16 }
    ensures { result ≡ xor_block block.now mask.now }
{
    [
        block[0] ^ mask[0],
        block[1] ^ mask[1],
        block[2] ^ mask[2],
        block[3] ^ mask[3],
        block[4] ^ mask[4],
        block[5] ^ mask[5],
        block[6] ^ mask[6],
        block[7] ^ mask[7],
        block[8] ^ mask[8],
        block[9] ^ mask[9],
        block[10] ^ mask[10],
        block[11] ^ mask[11],
        block[12] ^ mask[12],
        block[13] ^ mask[13],
        block[14] ^ mask[14],
        block[15] ^ mask[15],
    ]
}

// One block of a unit, encrypted (IEEE 1619, 5.3.1).
fn seal_block(key: &AesKey, tweak: u128, block: &mut [u8])
    requires { length block.old ≡ 16 }
    ensures { block.new ≡ sealed_under key.now tweak block.old }
{
    let mask = tweak.to_le_bytes();
    let sealed = key.encrypt(xor_block(block, &mask));
    block.copy_from_slice(&xor_block(&sealed, &mask));
}

// One block of a unit, decrypted (IEEE 1619, 5.4.1).
fn open_block(key: &AesKey, tweak: u128, block: &mut [u8])
    requires { length block.old ≡ 16 }
    ensures { block.new ≡ opened_under key.now tweak block.old }
{
    let mask = tweak.to_le_bytes();
    let opened = key.decrypt(xor_block(block, &mask));
    block.copy_from_slice(&xor_block(&opened, &mask));
}

// The blocks of the end of a unit, one by one, encrypted from the tweak of the first on.
fn seal_rest(key: &AesKey, first: u128, bytes: &mut [u8])
    requires { length bytes.old % 16 ≡ 0 }
    ensures { bytes.new ≡ sealed_blocks key.now first bytes.old (length bytes.old / 16) }
{
    let mut tweak = first;
    for j in 0..bytes.len() / 16 {
        seal_block(key, tweak, &mut bytes[16 * j..16 * j + 16]);
        tweak = doubled(tweak);
    }
}

// The blocks of the end of a unit, one by one, decrypted from the tweak of the first on.
fn open_rest(key: &AesKey, first: u128, bytes: &mut [u8])
    requires { length bytes.old % 16 ≡ 0 }
    ensures { bytes.new ≡ opened_blocks key.now first bytes.old (length bytes.old / 16) }
{
    let mut tweak = first;
    for j in 0..bytes.len() / 16 {
        open_block(key, tweak, &mut bytes[16 * j..16 * j + 16]);
        tweak = doubled(tweak);
    }
}

// The blocks of a unit, encrypted from the tweak of the first on, eight at a time.
fn seal_blocks(key: &AesKey, planes: &[[u8x16; 8]], first: u128, bytes: &mut [u8])
    requires planes { IsInPlanes key.now planes.now }
    requires whole { length bytes.old % 16 ≡ 0 }
    ensures { bytes.new ≡ sealed_blocks key.now first bytes.old (length bytes.old / 16) }
{
    let whole = bytes.len() / 128;
    let mut tweak = first;
    for j in 0..whole {
        let next = seal_eight(key, planes, tweak, &mut bytes[128 * j..128 * j + 128]);
        tweak = next;
    }
    seal_rest(key, tweak, &mut bytes[128 * whole..]);
}

// The blocks of a unit, decrypted from the tweak of the first on, eight at a time.
fn open_blocks(key: &AesKey, planes: &[[u8x16; 8]], first: u128, bytes: &mut [u8])
    requires planes { IsInPlanes key.now planes.now }
    requires whole { length bytes.old % 16 ≡ 0 }
    ensures { bytes.new ≡ opened_blocks key.now first bytes.old (length bytes.old / 16) }
{
    let whole = bytes.len() / 128;
    let mut tweak = first;
    for j in 0..whole {
        let next = open_eight(key, planes, tweak, &mut bytes[128 * j..128 * j + 128]);
        tweak = next;
    }
    open_rest(key, tweak, &mut bytes[128 * whole..]);
}

// The blocks of a unit, encrypted from the tweak of the first on. Fewer than eight need no planes.
fn seal_whole(key: &AesKey, first: u128, bytes: &mut [u8])
    requires { length bytes.old % 16 ≡ 0 }
    ensures { bytes.new ≡ sealed_blocks key.now first bytes.old (length bytes.old / 16) }
{
    if bytes.len() < 128 {
        seal_rest(key, first, bytes);
    } else {
        seal_blocks(key, &key.planes(), first, bytes);
    }
}

// The blocks of a unit, decrypted from the tweak of the first on. Fewer than eight need no planes.
fn open_whole(key: &AesKey, first: u128, bytes: &mut [u8])
    requires { length bytes.old % 16 ≡ 0 }
    ensures { bytes.new ≡ opened_blocks key.now first bytes.old (length bytes.old / 16) }
{
    if bytes.len() < 128 {
        open_rest(key, first, bytes);
    } else {
        open_blocks(key, &key.planes(), first, bytes);
    }
}

// The blocks of a unit in a direction, from the tweak of the first on.
fn convert_blocks(
    direction: Direction,
    key: &AesKey,
    planes: &[[u8x16; 8]],
    first: u128,
    bytes: &mut [u8],
)
    requires planes { IsInPlanes key.now planes.now }
    requires whole { length bytes.old % 16 ≡ 0 }
    ensures { bytes.new ≡ converted_blocks direction key.now first bytes.old (length bytes.old / 16) }
{
    match direction {
        Direction::Seal => seal_blocks(key, planes, first, bytes),
        Direction::Open => open_blocks(key, planes, first, bytes),
    }
}
