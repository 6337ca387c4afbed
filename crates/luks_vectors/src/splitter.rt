//! The anti-forensic splitter.
use luks_vector_lines::{Malformed, Words, demand};
use std::alloc::Global;

/// `split HASH KEY RANDOM`: the stripes that hold the key, the first of them the random bytes.
pub fn split(alloc: Global, words: &mut Words<'_>) -> Result<String, Malformed> {
    let hash = words.hash()?;
    let key = words.bytes(alloc)?;
    let random = words.bytes(alloc)?;
    demand(key.len() >= 1 && key.len() <= 128)?;
    demand(random.len() <= 1 << 20)?;
    demand(random.len() % key.len() == 0)?;
    let mut stripes = vec![in alloc; 0u8; random.len() + key.len()]?;
    hash.split(&mut stripes, &key, &random);
    Ok(hex::encode(alloc, stripes.as_slice())?)
}

/// `merge HASH LEN STRIPES`: the key of so many bytes that the stripes hold.
pub fn merge(alloc: Global, words: &mut Words<'_>) -> Result<String, Malformed> {
    let hash = words.hash()?;
    let len = words.len()?;
    let stripes = words.bytes(alloc)?;
    demand(len >= 1 && len <= 128)?;
    demand(stripes.len() >= 1)?;
    demand(stripes.len() % len == 0)?;
    let mut key = vec![in alloc; 0u8; len]?;
    hash.merge(&mut key, &stripes);
    Ok(hex::encode(alloc, key.as_slice())?)
}

/// `take-in HASH BLOCK STRIPE`: the splitter's running block after the stripe.
pub fn take_in(alloc: Global, words: &mut Words<'_>) -> Result<String, Malformed> {
    let hash = words.hash()?;
    let mut block = words.bytes(alloc)?;
    let stripe = words.bytes(alloc)?;
    demand(block.len() <= 128)?;
    demand(stripe.len() == block.len())?;
    hash.take_in(&mut block, &stripe);
    Ok(hex::encode(alloc, block.as_slice())?)
}
