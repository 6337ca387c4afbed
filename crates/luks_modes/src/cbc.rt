//! CBC over the sectors of a key area.

ghost use Rattle.std.specs.Prelude.{◌≡◌, ◌⊎◌, ◌*◌, ◌/◌, ◌%◌, length, SomeIff};
ghost use Rattle.luks_modes.specs.Cbc.{CbcOpen, CbcSeal, opened_from, sealed_from};
ghost use Rattle.luks_aes.specs.Aes.{Aes, AesInverse};
ghost use Rattle.luks_aes.specs.States.{AreBytes};
ghost use Rattle.luks_modes.specs.Units.{AreMade};
ghost use Rattle.luks_modes.specs.Xts.{xor_block};

use crate::vectors::{IvKind, Ivs};
use luks_aes::AesKey;
use std::marker::Model;

/// A key of AES with the IVs of its sectors. A contract sees the bytes that it was made of, and the kind
/// of the IVs.
#[derive(Drop)]
pub struct CbcKey {
    blocks: AesKey,
    ivs: Ivs,
}

impl Model for CbcKey {
    ghost use Rattle.luks_aes.specs.States.{AreBytes};
    ghost use Rattle.luks_modes.specs.Cbc.{CbcKeyOf};
    ghost use Rattle.luks_modes.specs.Vectors.{are_of, kind_of};

    ghost Value = { CbcKeyOf };

    ghost view = { λ k. record { bytes = k.blocks; ivs = kind_of k.ivs } };

    ghost invariant = { λ k. AreBytes k.blocks × are_of k.ivs k.blocks };
}

impl CbcKey {
    /// The key of these bytes: 16 for AES-128, 24 for AES-192, 32 for AES-256, and None at every other
    /// length. `ivs` is how the IV of a sector is made.
    pub fn new(key: &[u8], ivs: IvKind) -> Option<CbcKey>
        ensures { SomeIff result
            ((length key.now ≡ 16) ⊎ ((length key.now ≡ 24) ⊎ (length key.now ≡ 32)))
            (record { bytes = key.now; ivs = ivs }) }
    {
        let blocks = AesKey::of_any_size(key)?;
        let ivs = Ivs::new(ivs, key);
        Some(CbcKey { blocks, ivs })
    }

    /// Encrypts a sector in place, of whole blocks of 16 bytes (NIST SP 800-38A, 6.2). `sector` is its
    /// number, and an empty one stays empty.
    pub fn seal_sector(&self, sector: u64, bytes: &mut [u8])
        requires { length bytes.old % 16 ≡ 0 }
        ensures value { bytes.new ≡ CbcSeal self.now sector bytes.old }
        ensures undone { CbcOpen self.now sector bytes.new ≡ bytes.old }
    {
        let iv = self.ivs.of_sector(sector);
        seal_from(&self.blocks, iv, bytes);
    }

    /// Decrypts a sector in place, of whole blocks of 16 bytes (NIST SP 800-38A, 6.2): what `seal_sector` did
    /// under the same number is undone.
    pub fn open_sector(&self, sector: u64, bytes: &mut [u8])
        requires { length bytes.old % 16 ≡ 0 }
        ensures value { bytes.new ≡ CbcOpen self.now sector bytes.old }
        ensures undone { CbcSeal self.now sector bytes.new ≡ bytes.old }
    {
        let iv = self.ivs.of_sector(sector);
        open_from(&self.blocks, iv, bytes);
    }

    /// Encrypts a run of sectors of 512 bytes in place, each as `seal_sector` does: the first under the
    /// number `first`, and each other under the number after that of the sector before. After the highest
    /// number comes 0, as the IVs have it.
    pub fn seal_units(&self, first: u64, bytes: &mut [u8])
        requires { length bytes.old % 512 ≡ 0 }
        ensures value { AreMade (CbcSeal self.now) first bytes.old bytes.new }
        ensures undone { AreMade (CbcOpen self.now) first bytes.new bytes.old }
    {
        for u in 0..bytes.len() / 512 {
            let sector = first.wrapping_add(u as u64);
            self.seal_sector(sector, &mut bytes[512 * u..512 * u + 512]);
        }
    }

    /// Decrypts a run of sectors of 512 bytes in place, each as `open_sector` does: what `seal_units` did
    /// under the same number is undone.
    pub fn open_units(&self, first: u64, bytes: &mut [u8])
        requires { length bytes.old % 512 ≡ 0 }
        ensures value { AreMade (CbcOpen self.now) first bytes.old bytes.new }
        ensures undone { AreMade (CbcSeal self.now) first bytes.new bytes.old }
    {
        for u in 0..bytes.len() / 512 {
            let sector = first.wrapping_add(u as u64);
            self.open_sector(sector, &mut bytes[512 * u..512 * u + 512]);
        }
    }
}

/// The exclusive or of a block and the block before it.
fn xor_block(block: &[u8], before: &[u8]) -> [u8; 16]
    requires block_length { length block.now ≡ 16 }
    requires before_length { length before.now ≡ 16 }
    ensures { result ≡ xor_block block.now before.now }
{
    [
        block[0] ^ before[0],
        block[1] ^ before[1],
        block[2] ^ before[2],
        block[3] ^ before[3],
        block[4] ^ before[4],
        block[5] ^ before[5],
        block[6] ^ before[6],
        block[7] ^ before[7],
        block[8] ^ before[8],
        block[9] ^ before[9],
        block[10] ^ before[10],
        block[11] ^ before[11],
        block[12] ^ before[12],
        block[13] ^ before[13],
        block[14] ^ before[14],
        block[15] ^ before[15],
    ]
}

/// Encrypts whole blocks from this IV on.
fn seal_from(key: &AesKey, iv: [u8; 16], bytes: &mut [u8])
    requires { length bytes.old % 16 ≡ 0 }
    ensures value { bytes.new ≡ sealed_from key.now iv bytes.old }
    ensures undone { AreBytes key.now → opened_from key.now iv bytes.new ≡ bytes.old }
{
    let mut before = iv;
    for j in 0..bytes.len() / 16 {
        let block = &mut bytes[16 * j..16 * j + 16];
        before = key.encrypt(xor_block(block, &before));
        block.copy_from_slice(&before);
    }
}

/// Decrypts whole blocks from this IV on.
fn open_from(key: &AesKey, iv: [u8; 16], bytes: &mut [u8])
    requires { length bytes.old % 16 ≡ 0 }
    ensures value { bytes.new ≡ opened_from key.now iv bytes.old }
    ensures undone { AreBytes key.now → sealed_from key.now iv bytes.new ≡ bytes.old }
{
    let mut before = iv;
    for j in 0..bytes.len() / 16 {
        let sealed = open_block(key, before, &mut bytes[16 * j..16 * j + 16]);
        before = sealed;
    }
}

/// Decrypts a block of the ciphertext, with this one before it, and answers what it was.
fn open_block(key: &AesKey, before: [u8; 16], block: &mut [u8]) -> [u8; 16]
    requires { length block.old ≡ 16 }
    ensures opened { block.new ≡ xor_block (AesInverse key.now block.old) before }
    ensures sealed { result ≡ block.old }
{
    let mut sealed = [0; 16];
    sealed.copy_from_slice(block);
    block.copy_from_slice(&xor_block(&key.decrypt(sealed), &before));
    sealed
}
