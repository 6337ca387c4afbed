//! The hash functions that headers of older volumes name. All that is chosen among them is chosen here:
//! another one is a variant, its row in `ALL`, its arms, and its type.

ghost use Rattle.std.specs.Prelude.{◌≡◌, ◌↔◌};
ghost use Rattle.luks_kdf.specs.declared.older_hash.OlderHash.{OlderHash as ThisHash};
ghost use Rattle.luks_kdf.specs.KeyslotNames.{older_function_of, older_hash_named, older_name_of};

use crate::hash_work::HashWork;
use crate::older_functions::{Blake2b512Fn, Ripemd160Fn, WhirlpoolFn};
use crate::older_sha2::{Sha224Fn, Sha384Fn};

/// A hash function that keyslots of older volumes are derived and split with, by its name in a header.
/// No new header names one.
#[derive(Clone, Copy, PartialEq, Eq)]
pub enum OlderHash {
    /// SHA-224 (FIPS 180-4, 6.3), `sha224` in a header.
    Sha224,
    /// SHA-384 (FIPS 180-4, 6.5), `sha384` in a header.
    Sha384,
    /// RIPEMD-160 (ISO/IEC 10118-3), `ripemd160` in a header.
    Ripemd160,
    /// Whirlpool (ISO/IEC 10118-3), `whirlpool` in a header.
    Whirlpool,
    /// BLAKE2b with digests of 64 bytes (RFC 7693), `blake2b-512` in a header.
    Blake2b512,
}

impl OlderHash {
    /// Every older hash that has a name.
    pub const ALL: [OlderHash; 5] = [
        OlderHash::Sha224,
        OlderHash::Sha384,
        OlderHash::Ripemd160,
        OlderHash::Whirlpool,
        OlderHash::Blake2b512,
    ];

    /// The text that names the hash in a header: the one that `parse` knows it by.
    pub fn text(self) -> &'static str
        ensures { result.now ≡ older_name_of self }
    {
        match self {
            OlderHash::Sha224 => "sha224",
            OlderHash::Sha384 => "sha384",
            OlderHash::Ripemd160 => "ripemd160",
            OlderHash::Whirlpool => "whirlpool",
            OlderHash::Blake2b512 => "blake2b-512",
        }
    }

    /// The older hash that the text names, letter for letter; None for any text that names none.
    pub fn parse(text: &str) -> Option<OlderHash>
        ensures value { result ≡ older_hash_named text.now }
        ensures exact { (name : ThisHash) → (result ≡ Some name) ↔ (text.now ≡ older_name_of name) }
    {
        match text {
            "sha224" => Some(OlderHash::Sha224),
            "sha384" => Some(OlderHash::Sha384),
            "ripemd160" => Some(OlderHash::Ripemd160),
            "whirlpool" => Some(OlderHash::Whirlpool),
            "blake2b-512" => Some(OlderHash::Blake2b512),
            _ => None,
        }
    }

    // Does the work by the function that the name stands for.
    pub(crate) fn run<W: HashWork>(self, work: W, out: &mut [u8]) -> W::Answer
        requires { W.fits work (older_function_of self).digest_size out.old }
        ensures { W.gives work (older_function_of self).digest (older_function_of self).digest_size
            (older_function_of self).block_size out.old out.new result }
    {
        match self {
            OlderHash::Sha224 => work.run::<Sha224Fn>(out),
            OlderHash::Sha384 => work.run::<Sha384Fn>(out),
            OlderHash::Ripemd160 => work.run::<Ripemd160Fn>(out),
            OlderHash::Whirlpool => work.run::<WhirlpoolFn>(out),
            OlderHash::Blake2b512 => work.run::<Blake2b512Fn>(out),
        }
    }
}
