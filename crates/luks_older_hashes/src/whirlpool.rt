//! Whirlpool (ISO/IEC 10118-3), which the key derivation of older volumes names.
mod compression;
mod hasher;
mod sbox;

pub use hasher::{DIGEST_LEN, Whirlpool};
