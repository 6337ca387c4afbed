//! RIPEMD-160, Whirlpool and BLAKE2b for the derivation of older keyslots.

ghost use Rattle.std.specs.Prelude.{◌≡◌, ◌≤◌, ℕ, List, [], ◌++◌, length};
ghost use Rattle.luks_kdf.specs.declared.older_hash.OlderHash.TheVariants.{Ripemd160 as IRipemd160, Whirlpool as IWhirlpool, Blake2b512 as IBlake2b512};
ghost use Rattle.luks_kdf.specs.KeyslotNames.{length-older_digest};

use crate::hash::HashFn;
use luks_argon2::Blake2b;
use luks_older_hashes::ripemd160::Ripemd160;
use luks_older_hashes::whirlpool::Whirlpool;

/// RIPEMD-160 (ISO/IEC 10118-3).
#[derive(Drop)]
pub struct Ripemd160Fn {
    hasher: Ripemd160,
}

impl HashFn for Ripemd160Fn {
    ghost use Rattle.luks_older_hashes.specs.Ripemd160.{ripemd160};
    ghost use Rattle.luks_older_hashes.specs.Ripemd160Holding.{Holds};
    ghost use Rattle.std.proofs.Common.{rules};

    ghost LEN = { 20 };

    const LEN: usize = 20;

    ghost BLOCK = { 64 };

    const BLOCK: usize = 64;

    ghost digest = { ripemd160 };

    ghost holds = { λ s m. Holds s.hasher m };

    fn start() -> Ripemd160Fn {
        Ripemd160Fn {
            hasher: Ripemd160::new(),
        }
    }

    fn feed(&mut self, bytes: &[u8]) {
        self.hasher.update(bytes);
    }

    fn fork(&self) -> Ripemd160Fn {
        Ripemd160Fn {
            hasher: self.hasher.clone().unwrap(),
        }
    }

    fn finish(self, out: &mut [u8]) {
        out.copy_from_slice(&self.hasher.finalize());
    }

    ghost not_empty = { Prim.search rules };

    ghost in_64 = { Prim.search rules };

    ghost in_block = { Prim.search rules };

    ghost block_in_128 = { Prim.search rules };

    ghost digest_length = { length-older_digest IRipemd160 };
}

/// Whirlpool (ISO/IEC 10118-3).
#[derive(Drop)]
pub struct WhirlpoolFn {
    hasher: Whirlpool,
}

impl HashFn for WhirlpoolFn {
    ghost use Rattle.luks_older_hashes.specs.Whirlpool.{whirlpool};
    ghost use Rattle.luks_older_hashes.specs.WhirlpoolHolding.{Holds};
    ghost use Rattle.std.proofs.Common.{rules};

    ghost LEN = { 64 };

    const LEN: usize = 64;

    ghost BLOCK = { 64 };

    const BLOCK: usize = 64;

    ghost digest = { whirlpool };

    ghost holds = { λ s m. Holds s.hasher m };

    fn start() -> WhirlpoolFn {
        WhirlpoolFn {
            hasher: Whirlpool::new(),
        }
    }

    fn feed(&mut self, bytes: &[u8]) {
        self.hasher.update(bytes);
    }

    fn fork(&self) -> WhirlpoolFn {
        WhirlpoolFn {
            hasher: self.hasher.clone().unwrap(),
        }
    }

    fn finish(self, out: &mut [u8]) {
        out.copy_from_slice(&self.hasher.finalize());
    }

    ghost not_empty = { Prim.search rules };

    ghost in_64 = { Prim.search rules };

    ghost in_block = { Prim.search rules };

    ghost block_in_128 = { Prim.search rules };

    ghost digest_length = { length-older_digest IWhirlpool };
}

/// BLAKE2b with digests of 64 bytes (RFC 7693).
#[derive(Drop)]
pub struct Blake2b512Fn {
    hasher: Blake2b,
}

impl HashFn for Blake2b512Fn {
    ghost use Rattle.luks_argon2.specs.Blake2b.{blake2b};
    ghost use Rattle.luks_argon2.specs.Hasher.{Holds};
    ghost use Rattle.std.proofs.Common.{rules};

    ghost LEN = { 64 };

    const LEN: usize = 64;

    ghost BLOCK = { 128 };

    const BLOCK: usize = 128;

    ghost digest = { blake2b 64 };

    ghost holds = { λ s m. Holds 64 s.hasher m };

    fn start() -> Blake2b512Fn {
        Blake2b512Fn {
            hasher: Blake2b::new(64),
        }
    }

    fn feed(&mut self, bytes: &[u8]) {
        self.hasher.update(bytes);
    }

    fn fork(&self) -> Blake2b512Fn {
        Blake2b512Fn {
            hasher: self.hasher.clone().unwrap(),
        }
    }

    fn finish(self, out: &mut [u8]) {
        self.hasher.finalize(out);
    }

    ghost not_empty = { Prim.search rules };

    ghost in_64 = { Prim.search rules };

    ghost in_block = { Prim.search rules };

    ghost block_in_128 = { Prim.search rules };

    ghost digest_length = { length-older_digest IBlake2b512 };
}
