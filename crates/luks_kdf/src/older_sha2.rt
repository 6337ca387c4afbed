//! SHA-224 and SHA-384 for the derivation of older keyslots.

ghost use Rattle.std.specs.Prelude.{◌≡◌, ◌≤◌, ℕ, List, [], ◌++◌, length};
ghost use Rattle.luks_kdf.specs.declared.older_hash.OlderHash.TheVariants.{Sha224 as ISha224, Sha384 as ISha384};
ghost use Rattle.luks_kdf.specs.KeyslotNames.{length-older_digest};

use crate::hash::HashFn;
use sha2::{Digest, Sha224, Sha384};

/// SHA-224 (FIPS 180-4, 6.3).
#[derive(Drop)]
pub struct Sha224Fn {
    hasher: Sha224,
}

impl HashFn for Sha224Fn {
    ghost use Rattle.sha2.specs.Sha256.{sha224};
    ghost use Rattle.sha2.specs.Hashers.{Holds224};
    ghost use Rattle.std.proofs.Common.{rules};

    ghost LEN = { 28 };

    const LEN: usize = 28;

    ghost BLOCK = { 64 };

    const BLOCK: usize = 64;

    ghost digest = { sha224 };

    ghost holds = { λ s m. Holds224 s.hasher m };

    fn start() -> Sha224Fn {
        Sha224Fn {
            hasher: Sha224::new(),
        }
    }

    fn feed(&mut self, bytes: &[u8]) {
        self.hasher.update(bytes);
    }

    fn fork(&self) -> Sha224Fn {
        Sha224Fn {
            hasher: self.hasher.clone().unwrap(),
        }
    }

    fn finish(self, out: &mut [u8]) {
        out.copy_from_slice(&self.hasher.finalize());
    }

    ghost not_empty = { Prim.search rules };

    ghost in_64 = { Prim.search rules };

    ghost in_block = { Prim.search rules };

    ghost block_in_128 = { Prim.search rules };

    ghost digest_length = { length-older_digest ISha224 };
}

/// SHA-384 (FIPS 180-4, 6.5).
#[derive(Drop)]
pub struct Sha384Fn {
    hasher: Sha384,
}

impl HashFn for Sha384Fn {
    ghost use Rattle.sha2.specs.Sha512.{sha384};
    ghost use Rattle.sha2.specs.Hashers.{Holds384};
    ghost use Rattle.std.proofs.Common.{rules};

    ghost LEN = { 48 };

    const LEN: usize = 48;

    ghost BLOCK = { 128 };

    const BLOCK: usize = 128;

    ghost digest = { sha384 };

    ghost holds = { λ s m. Holds384 s.hasher m };

    fn start() -> Sha384Fn {
        Sha384Fn {
            hasher: Sha384::new(),
        }
    }

    fn feed(&mut self, bytes: &[u8]) {
        self.hasher.update(bytes);
    }

    fn fork(&self) -> Sha384Fn {
        Sha384Fn {
            hasher: self.hasher.clone().unwrap(),
        }
    }

    fn finish(self, out: &mut [u8]) {
        out.copy_from_slice(&self.hasher.finalize());
    }

    ghost not_empty = { Prim.search rules };

    ghost in_64 = { Prim.search rules };

    ghost in_block = { Prim.search rules };

    ghost block_in_128 = { Prim.search rules };

    ghost digest_length = { length-older_digest ISha384 };
}
