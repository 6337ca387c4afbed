//! RIPEMD-160 (ISO/IEC 10118-3), which the key derivation of older volumes names. Its digests are too short
//! to keep collisions away: it is here for volumes that exist.
mod compression;
mod hasher;

pub use hasher::{DIGEST_LEN, Ripemd160};
