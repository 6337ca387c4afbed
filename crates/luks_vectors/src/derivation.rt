//! Hashes, HMAC and PBKDF2.
use luks_kdf::{
    Blake2b512Fn, HashFn, HashName, KeyslotHash, OlderHash, Ripemd160Fn, Sha1Fn, Sha224Fn,
    Sha256Fn, Sha384Fn, Sha512Fn, WhirlpoolFn,
};
use luks_vector_lines::{Malformed, Words, demand};
use std::alloc::Global;

/// `hash HASH MESSAGE`: the digest of the message.
pub fn hash(alloc: Global, words: &mut Words<'_>) -> Result<String, Malformed> {
    let name = words.hash()?;
    let message = words.bytes(alloc)?;
    match name {
        KeyslotHash::Standard(HashName::Sha1) => digest::<Sha1Fn>(alloc, &message),
        KeyslotHash::Standard(HashName::Sha256) => digest::<Sha256Fn>(alloc, &message),
        KeyslotHash::Standard(HashName::Sha512) => digest::<Sha512Fn>(alloc, &message),
        KeyslotHash::Older(OlderHash::Sha224) => digest::<Sha224Fn>(alloc, &message),
        KeyslotHash::Older(OlderHash::Sha384) => digest::<Sha384Fn>(alloc, &message),
        KeyslotHash::Older(OlderHash::Ripemd160) => digest::<Ripemd160Fn>(alloc, &message),
        KeyslotHash::Older(OlderHash::Whirlpool) => digest::<WhirlpoolFn>(alloc, &message),
        KeyslotHash::Older(OlderHash::Blake2b512) => digest::<Blake2b512Fn>(alloc, &message),
    }
}

/// The digest of a message that is fed in two pieces.
fn digest<H: HashFn>(alloc: Global, message: &[u8]) -> Result<String, Malformed> {
    let (first, second) = message.split_at(message.len() / 3);
    let mut state = H::start();
    state.feed(first);
    state.feed(second);
    let mut digest = vec![in alloc; 0u8; H::LEN]?;
    state.finish(&mut digest);
    Ok(hex::encode(alloc, digest.as_slice())?)
}

/// `hmac HASH KEY MESSAGE`: the HMAC of the message.
pub fn hmac(alloc: Global, words: &mut Words<'_>) -> Result<String, Malformed> {
    let hash = words.hash()?;
    let key = words.bytes(alloc)?;
    let message = words.bytes(alloc)?;
    let mut tag = vec![in alloc; 0u8; hash.digest_len()]?;
    hash.hmac(&mut tag, &key, &message);
    Ok(hex::encode(alloc, tag.as_slice())?)
}

/// `pbkdf2 HASH PASSWORD SALT ITERATIONS LEN`: so many derived bytes.
pub fn pbkdf2(alloc: Global, words: &mut Words<'_>) -> Result<String, Malformed> {
    let hash = words.hash()?;
    let password = words.bytes(alloc)?;
    let salt = words.bytes(alloc)?;
    let iterations = words.number32()?;
    let len = words.len()?;
    demand(iterations >= 1)?;
    demand(len <= 128)?;
    let mut derived = vec![in alloc; 0u8; len]?;
    hash.pbkdf2(&mut derived, &password, &salt, iterations);
    Ok(hex::encode(alloc, derived.as_slice())?)
}

/// `name TEXT`: the hash of this name and the length of its digest, or `none`.
pub fn name(alloc: Global, words: &mut Words<'_>) -> Result<String, Malformed> {
    let text = words.text(alloc)?;
    match HashName::parse(text.as_str()) {
        Some(hash) => Ok(format!(in alloc; "{} {}", hash.text(), hash.digest_len())?),
        None => Ok(String::from_str(alloc, "none")?),
    }
}

/// `keyslot-name older|standard TEXT`: the hash of this name where older ones are accepted, or only those of
/// a new header, and the length of its digest; `none` for any other text.
pub fn keyslot_name(alloc: Global, words: &mut Words<'_>) -> Result<String, Malformed> {
    let older = match words.word()? {
        "older" => true,
        "standard" => false,
        _ => return Err(Malformed::Name),
    };
    let text = words.text(alloc)?;
    let Some(hash) = KeyslotHash::parse(text.as_str(), older) else {
        return Ok(String::from_str(alloc, "none")?);
    };
    let name = match hash {
        KeyslotHash::Standard(hash) => hash.text(),
        KeyslotHash::Older(hash) => hash.text(),
    };
    Ok(format!(in alloc; "{name} {}", hash.digest_len())?)
}

/// `names`: the names of all hashes, those that are offered, and the sentence that lists these.
pub fn names(alloc: Global) -> Result<String, Malformed> {
    let mut text = String::new(alloc);
    for hash in HashName::ALL {
        text.push_str(hash.text())?;
        text.push_str(" ")?;
    }
    for name in HashName::NAMES {
        text.push_str(" ")?;
        text.push_str(*name)?;
    }
    text.push_str(": ")?;
    text.push_str(HashName::LISTED)?;
    Ok(text)
}
