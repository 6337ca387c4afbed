//! RIPEMD-160 and Whirlpool.
use luks_older_hashes::ripemd160::Ripemd160;
use luks_older_hashes::whirlpool::Whirlpool;
use luks_vector_lines::{Malformed, Words};
use std::alloc::Global;

/// `ripemd160 MESSAGE`: the digest of the message, which is fed in two pieces.
pub fn ripemd160(alloc: Global, words: &mut Words<'_>) -> Result<String, Malformed> {
    let message = words.bytes(alloc)?;
    let (first, second) = message.split_at(message.len() / 3);
    let mut hasher = Ripemd160::new();
    hasher.update(first);
    hasher.update(second);
    let digest = hasher.finalize();
    Ok(hex::encode(alloc, digest.as_slice())?)
}

/// `whirlpool MESSAGE`: the digest of the message, which is fed in two pieces.
pub fn whirlpool(alloc: Global, words: &mut Words<'_>) -> Result<String, Malformed> {
    let message = words.bytes(alloc)?;
    let (first, second) = message.split_at(message.len() / 3);
    let mut hasher = Whirlpool::new();
    hasher.update(first);
    hasher.update(second);
    let digest = hasher.finalize();
    Ok(hex::encode(alloc, digest.as_slice())?)
}
