//! AES (FIPS 197).

ghost use Rattle.std.specs.Prelude.{◌≡◌, ◌⊎◌, ◌<◌, ◌+◌, ◌*◌, ℕ, [], length, slice_index_or, SomeIff};
ghost use Rattle.luks_aes.specs.Aes.{Aes, AesInverse};
ghost use Rattle.luks_aes.specs.Keys.{IsInPlanes};

use crate::round_keys::key_planes;
use crate::{block, key_schedule, rounds};
use std::marker::Model;
use std::simd::u8x16;

/// A key of AES with its key schedule (FIPS 197, 5.2). A contract sees the bytes that it was made
/// of.
#[derive(Drop)]
pub struct AesKey {
    // The words of the schedule, 4 bytes each, for 60 words at most.
    words: [u8; 240],
    // How many words of them are the key's own: Nk of the standard.
    key_words: usize,
}

impl Model for AesKey {
    ghost use Rattle.std.specs.Prelude.{List, ℕ};

    ghost Value = { List ℕ };

    ghost use Rattle.luks_aes.specs.Keys.{IsExpanded, key_bytes};

    ghost view = { λ k. key_bytes k.key_words k.words };

    ghost invariant = { λ k. IsExpanded k.key_words k.words };
}

impl AesKey {
    /// The key of these bytes: 16 for AES-128, 32 for AES-256 (FIPS 197, 5), and None at every
    /// other length.
    pub fn new(key: &[u8]) -> Option<AesKey>
        ensures { SomeIff result ((length key.now ≡ 16) ⊎ (length key.now ≡ 32)) key.now }
    {
        if key.len() != 16 && key.len() != 32 {
            return None;
        }
        Some(AesKey::expanded(key))
    }

    /// The key of these bytes: 16 for AES-128, 24 for AES-192, 32 for AES-256 (FIPS 197, 5), and
    /// None at every other length.
    pub fn of_any_size(key: &[u8]) -> Option<AesKey>
        ensures { SomeIff result
            ((length key.now ≡ 16) ⊎ ((length key.now ≡ 24) ⊎ (length key.now ≡ 32))) key.now }
    {
        if key.len() != 24 {
            return AesKey::new(key);
        }
        Some(AesKey::expanded(key))
    }

    /// The key of these bytes with its key schedule.
    fn expanded(key: &[u8]) -> AesKey
        requires { (length key.now ≡ 16) ⊎ ((length key.now ≡ 24) ⊎ (length key.now ≡ 32)) }
        ensures { result ≡ key.now }
    {
        let mut words = [0; 240];
        key_schedule::expand_key(&mut words, key);
        AesKey {
            words,
            key_words: key.len() / 4,
        }
    }

    /// The block that the key encrypts this one to: `Cipher` of FIPS 197, 5.1, with 10 rounds under
    /// a key of 16 bytes, 12 under one of 24 and 14 under one of 32.
    pub fn encrypt(&self, block: [u8; 16]) -> [u8; 16]
        ensures value { result ≡ Aes self.now block }
        ensures undone { AesInverse self.now result ≡ block }
    {
        block::cipher(&self.words, self.key_words + 5, block)
    }

    /// The block that the key decrypts this one to: `InvCipher` of FIPS 197, 5.3.
    pub fn decrypt(&self, block: [u8; 16]) -> [u8; 16]
        ensures value { result ≡ AesInverse self.now block }
        ensures undone { Aes self.now result ≡ block }
    {
        block::inverse_cipher(&self.words, self.key_words + 5, block)
    }

    /// The round keys in planes, which eight blocks are encrypted and decrypted with side by side:
    /// each of 15 round keys eight times, bit by bit. They are made once for many blocks.
    pub fn planes(&self) -> [[u8x16; 8]; 15]
        ensures { IsInPlanes self.now result }
    {
        key_planes(&self.words)
    }

    /// Eight blocks, each encrypted as `encrypt` does. `planes` are those of the key.
    pub fn encrypt_eight(&self, planes: &[[u8x16; 8]], blocks: [u8x16; 8]) -> [u8x16; 8]
        requires { IsInPlanes self.now planes.now }
        ensures { (b : ℕ) → b < 8
            → slice_index_or result b [] ≡ Aes self.now (slice_index_or blocks b []) }
    {
        rounds::cipher(planes, self.key_words + 5, blocks)
    }

    /// Eight blocks, each decrypted as `decrypt` does. `planes` are those of the key.
    pub fn decrypt_eight(&self, planes: &[[u8x16; 8]], blocks: [u8x16; 8]) -> [u8x16; 8]
        requires { IsInPlanes self.now planes.now }
        ensures { (b : ℕ) → b < 8
            → slice_index_or result b [] ≡ AesInverse self.now (slice_index_or blocks b []) }
    {
        rounds::inverse_cipher(planes, self.key_words + 5, blocks)
    }
}
