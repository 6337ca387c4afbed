//! The hash functions that a header names. All that is chosen among them is chosen here: another one
//! is a variant, its rows in `ALL` and `NAMES`, its arms, and its type.

ghost use Rattle.std.specs.Prelude.{◌≡◌, ◌≤◌, ℕ, List, [], ◌++◌, length};
ghost use Rattle.luks_kdf.specs.declared.hash_name.HashName.TheVariants.{Sha1 as ISha1, Sha256 as ISha256, Sha512 as ISha512};
ghost use Rattle.luks_kdf.specs.Names.{name_of, hash_of, digest_size_of, block_size_of, length-digest};

use crate::hash::HashFn;
use crate::hash_work::HashWork;
use luks_lanes::{sha1_turns, sha256_diffusion, sha256_turns, sha512_turns};
use sha1::Sha1;
use sha2::{Digest, Sha256, Sha512};

/// A hash function that keys are derived, split and checked with, by its name in a header.
#[derive(Debug, Clone, Copy, PartialEq, Eq)]
pub enum HashName {
    /// SHA-1 (FIPS 180-4, 6.1), `sha1` in a header.
    Sha1,
    /// SHA-256 (FIPS 180-4, 6.2), `sha256` in a header.
    Sha256,
    /// SHA-512 (FIPS 180-4, 6.4), `sha512` in a header.
    Sha512,
}

impl HashName {
    /// Every hash that has a name.
    pub const ALL: [HashName; 3] = [HashName::Sha1, HashName::Sha256, HashName::Sha512];

    /// The names of all of them, as a command line offers them.
    pub const NAMES: &'static [&'static str] = &["sha1", "sha256", "sha512"];

    /// The names as a sentence lists them.
    pub const LISTED: &'static str = "sha1, sha256 or sha512";

    /// The text that names the hash in a header: the one that `parse` knows it by.
    pub fn text(self) -> &'static str
        ensures { result.now ≡ name_of self }
    {
        match self {
            HashName::Sha1 => "sha1",
            HashName::Sha256 => "sha256",
            HashName::Sha512 => "sha512",
        }
    }

    // Does the work by the function that the name stands for.
    pub(crate) fn run<W: HashWork>(self, work: W, out: &mut [u8]) -> W::Answer
        requires { W.fits work (digest_size_of self) out.old }
        ensures { W.gives work (hash_of self) (digest_size_of self) (block_size_of self)
            out.old out.new result }
    {
        match self {
            HashName::Sha1 => work.run::<Sha1Fn>(out),
            HashName::Sha256 => work.run::<Sha256Fn>(out),
            HashName::Sha512 => work.run::<Sha512Fn>(out),
        }
    }
}

/// SHA-1 (FIPS 180-4, 6.1).
#[derive(Drop)]
pub struct Sha1Fn {
    hasher: Sha1,
}

impl HashFn for Sha1Fn {
    ghost use Rattle.sha1.specs.Sha1.{sha1, Holds};
    ghost use Rattle.std.proofs.Common.{rules};

    ghost LEN = { 20 };

    const LEN: usize = 20;

    ghost BLOCK = { 64 };

    const BLOCK: usize = 64;

    ghost digest = { sha1 };

    ghost holds = { λ s m. Holds s.hasher m };

    fn start() -> Sha1Fn {
        Sha1Fn {
            hasher: Sha1::new(),
        }
    }

    fn feed(&mut self, bytes: &[u8]) {
        self.hasher.update(bytes);
    }

    fn fork(&self) -> Sha1Fn {
        Sha1Fn {
            hasher: self.hasher.clone().unwrap(),
        }
    }

    fn finish(self, out: &mut [u8]) {
        out.copy_from_slice(&self.hasher.finalize());
    }

    fn run_side_by_side(blocks: &mut [u8], key: &[u8], iterations: u32) -> usize {
        sha1_turns(blocks, key, iterations)
    }

    ghost not_empty = { Prim.search rules };

    ghost in_64 = { Prim.search rules };

    ghost in_block = { Prim.search rules };

    ghost block_in_128 = { Prim.search rules };

    ghost digest_length = { length-digest ISha1 };
}

/// SHA-256 (FIPS 180-4, 6.2).
#[derive(Drop)]
pub struct Sha256Fn {
    hasher: Sha256,
}

impl HashFn for Sha256Fn {
    ghost use Rattle.sha2.specs.Sha256.{sha256};
    ghost use Rattle.sha2.specs.Hashers.{Holds256};
    ghost use Rattle.std.proofs.Common.{rules};

    ghost LEN = { 32 };

    const LEN: usize = 32;

    ghost BLOCK = { 64 };

    const BLOCK: usize = 64;

    ghost digest = { sha256 };

    ghost holds = { λ s m. Holds256 s.hasher m };

    fn start() -> Sha256Fn {
        Sha256Fn {
            hasher: Sha256::new(),
        }
    }

    fn feed(&mut self, bytes: &[u8]) {
        self.hasher.update(bytes);
    }

    fn fork(&self) -> Sha256Fn {
        Sha256Fn {
            hasher: self.hasher.clone().unwrap(),
        }
    }

    fn finish(self, out: &mut [u8]) {
        out.copy_from_slice(&self.hasher.finalize());
    }

    fn diffuse_side_by_side(bytes: &mut [u8]) -> usize {
        let pairs = bytes.len() / 64;
        for i in 0..pairs {
            sha256_diffusion(&mut bytes[i * 64..i * 64 + 64], i as u32 * 2);
        }
        pairs * 2
    }

    fn run_side_by_side(blocks: &mut [u8], key: &[u8], iterations: u32) -> usize {
        sha256_turns(blocks, key, iterations)
    }

    ghost not_empty = { Prim.search rules };

    ghost in_64 = { Prim.search rules };

    ghost in_block = { Prim.search rules };

    ghost block_in_128 = { Prim.search rules };

    ghost digest_length = { length-digest ISha256 };
}

/// SHA-512 (FIPS 180-4, 6.4).
#[derive(Drop)]
pub struct Sha512Fn {
    hasher: Sha512,
}

impl HashFn for Sha512Fn {
    ghost use Rattle.sha2.specs.Sha512.{sha512};
    ghost use Rattle.sha2.specs.Hashers.{Holds512};
    ghost use Rattle.std.proofs.Common.{rules};

    ghost LEN = { 64 };

    const LEN: usize = 64;

    ghost BLOCK = { 128 };

    const BLOCK: usize = 128;

    ghost digest = { sha512 };

    ghost holds = { λ s m. Holds512 s.hasher m };

    fn start() -> Sha512Fn {
        Sha512Fn {
            hasher: Sha512::new(),
        }
    }

    fn feed(&mut self, bytes: &[u8]) {
        self.hasher.update(bytes);
    }

    fn fork(&self) -> Sha512Fn {
        Sha512Fn {
            hasher: self.hasher.clone().unwrap(),
        }
    }

    fn finish(self, out: &mut [u8]) {
        out.copy_from_slice(&self.hasher.finalize());
    }

    fn run_side_by_side(blocks: &mut [u8], key: &[u8], iterations: u32) -> usize {
        sha512_turns(blocks, key, iterations)
    }

    ghost not_empty = { Prim.search rules };

    ghost in_64 = { Prim.search rules };

    ghost in_block = { Prim.search rules };

    ghost block_in_128 = { Prim.search rules };

    ghost digest_length = { length-digest ISha512 };
}
