//! BLAKE2b and Argon2.
use luks_argon2::{Blake2b, Costs, Variant, argon2_with_secret};
use luks_vector_lines::{Malformed, Memory, Words, demand};
use std::alloc::Global;

/// `blake2b LEN MESSAGE`: the digest of so many bytes of a message, which is fed in two pieces.
pub fn blake2b(alloc: Global, words: &mut Words<'_>) -> Result<String, Malformed> {
    let len = words.len()?;
    let message = words.bytes(alloc)?;
    demand(len >= 1 && len <= 64)?;
    let (first, second) = message.split_at(message.len() / 3);
    let mut hasher = Blake2b::new(len as u8);
    hasher.update(first);
    hasher.update(second);
    let mut digest = vec![in alloc; 0u8; len]?;
    hasher.finalize(&mut digest);
    Ok(hex::encode(alloc, digest.as_slice())?)
}

/// `argon2 VARIANT LANES MEMORY TIME LEN PASSWORD SALT SECRET ASSOCIATED`: the tag of so many bytes, or
/// the fault and the bytes that stand in the tag's place, which were 7 before.
pub fn argon2(alloc: Global, memory: Memory, words: &mut Words<'_>) -> Result<String, Malformed> {
    let variant = variant_of(words.word()?)?;
    let costs = costs_of(words)?;
    let len = words.len()?;
    let password = words.bytes(alloc)?;
    let salt = words.bytes(alloc)?;
    let secret = words.bytes(alloc)?;
    let associated = words.bytes(alloc)?;
    demand(len >= 4 && len <= 128 && salt.len() <= 128)?;
    demand(password.len() <= 1024 && secret.len() <= 1024 && associated.len() <= 1024)?;
    let mut tag = vec![in alloc; 7u8; len]?;
    let taken = memory.take(alloc)?;
    let made = argon2_with_secret(
        alloc,
        variant,
        &mut tag,
        costs,
        &password,
        &salt,
        &secret,
        &associated,
    );
    drop(taken);
    let tag = hex::encode(alloc, tag.as_slice())?;
    match made {
        Ok(()) => Ok(tag),
        Err(fault) => Ok(format!(in alloc; "{fault} {tag}")?),
    }
}

fn variant_of(word: &str) -> Result<Variant, Malformed> {
    match word {
        "d" => Ok(Variant::D),
        "i" => Ok(Variant::I),
        "id" => Ok(Variant::Id),
        _ => Err(Malformed::Name),
    }
}

/// Lanes, the memory in KiB and the passes.
fn costs_of(words: &mut Words<'_>) -> Result<Costs, Malformed> {
    let lanes = words.number32()?;
    let memory = words.number32()?;
    let time = words.number32()?;
    demand(time >= 1 && lanes >= 1 && lanes < 1 << 24)?;
    demand(memory / 8 >= lanes)?;
    Ok(Costs {
        time,
        memory,
        lanes,
    })
}
