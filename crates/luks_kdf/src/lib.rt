//! HMAC, PBKDF2 and the anti-forensic splitter of LUKS, for any hash function.
#![tactic(auto)]

mod by_name;
mod derive;
mod diffuse;
mod hash;
mod hash_name;
mod hash_work;
mod keyed;
mod keyslot_hash;
mod merger;
mod older_functions;
mod older_hash;
mod older_sha2;
mod running_block;
mod splitter;
mod xor;

pub use derive::pbkdf2;
pub use hash::HashFn;
pub use hash_name::{HashName, Sha1Fn, Sha256Fn, Sha512Fn};
pub use keyed::hmac;
pub use keyslot_hash::KeyslotHash;
pub use merger::{Merger, merge};
pub use older_functions::{Blake2b512Fn, Ripemd160Fn, WhirlpoolFn};
pub use older_hash::OlderHash;
pub use older_sha2::{Sha224Fn, Sha384Fn};
pub use splitter::{Splitter, merge_undoes_split, split};
pub use xor::xor_into;
