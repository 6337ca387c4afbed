//! The keyslots, tokens and digests of LUKS2 metadata, each kind as an array by number.
use crate::as_json::values::{put_bytes, put_number, put_numbers, put_text};
use luks_meta::{Argon2, Derivation, KeyArea, Pbkdf2, Splitter};
use luks_reading::{Cost, Digest, Keyslot, Meta, Token};
use serde_json::{Map, Value, put};
use std::alloc::{AllocError, Global};

/// The priority of a keyslot that names none.
const NORMAL: u8 = 1;

pub(crate) fn keyslots_value(alloc: Global, meta: &Meta) -> Result<Value, AllocError> {
    let mut items = Vec::new(alloc);
    for n in 0..32 {
        if let Some(keyslot) = meta.keyslot(n) {
            let digest = meta.digest_of_keyslot(n);
            items.push(keyslot_value(alloc, n, &keyslot, digest)?)?;
        }
    }
    Ok(Value::from(items))
}

/// The object of a keyslot, and the digest that names it.
pub fn keyslot_value(
    alloc: Global,
    n: u8,
    keyslot: &Keyslot<'_>,
    digest: Option<u8>,
) -> Result<Value, AllocError> {
    let mut members = Map::new(alloc);
    put_keyslot(&mut members, alloc, n, keyslot, digest)?;
    Ok(Value::from(members))
}

fn put_keyslot(
    members: &mut Map<String, Value>,
    alloc: Global,
    n: u8,
    keyslot: &Keyslot<'_>,
    digest: Option<u8>,
) -> Result<(), AllocError> {
    let priority = keyslot.priority.unwrap_or(NORMAL);
    put(members, alloc, "area", area_value(alloc, &keyslot.area)?)?;
    put(members, alloc, "digest", Value::from(digest))?;
    put(members, alloc, "kdf", kdf_value(alloc, &keyslot.kdf)?)?;
    put_number(members, alloc, "key_bytes", u64::from(keyslot.key_size))?;
    put_number(members, alloc, "number", u64::from(n))?;
    put_number(members, alloc, "priority", u64::from(priority))?;
    put(
        members,
        alloc,
        "splitter",
        splitter_value(alloc, &keyslot.af)?,
    )?;
    put_text(members, alloc, "state", "enabled")
}

fn area_value(alloc: Global, area: &KeyArea<'_>) -> Result<Value, AllocError> {
    let mut members = Map::new(alloc);
    put_area(&mut members, alloc, area)?;
    Ok(Value::from(members))
}

fn put_area(
    members: &mut Map<String, Value>,
    alloc: Global,
    area: &KeyArea<'_>,
) -> Result<(), AllocError> {
    put_text(members, alloc, "cipher", area.encryption)?;
    put_number(members, alloc, "key_bytes", u64::from(area.key_size))?;
    put_number(members, alloc, "offset", area.offset)?;
    put_number(members, alloc, "size", area.size)
}

fn splitter_value(alloc: Global, splitter: &Splitter<'_>) -> Result<Value, AllocError> {
    let mut members = Map::new(alloc);
    put_text(&mut members, alloc, "hash", splitter.hash)?;
    put_number(&mut members, alloc, "stripes", u64::from(splitter.stripes))?;
    Ok(Value::from(members))
}

fn kdf_value(alloc: Global, kdf: &Derivation<'_>) -> Result<Value, AllocError> {
    let mut members = Map::new(alloc);
    put_bytes(&mut members, alloc, "salt", kdf.salt.as_slice())?;
    put_cost(&mut members, alloc, &kdf.cost)?;
    Ok(Value::from(members))
}

fn put_cost(
    members: &mut Map<String, Value>,
    alloc: Global,
    cost: &Cost<'_>,
) -> Result<(), AllocError> {
    match cost {
        Cost::Pbkdf2(cost) => put_pbkdf2(members, alloc, cost),
        Cost::Argon2i(cost) => put_argon2(members, alloc, "argon2i", cost),
        Cost::Argon2id(cost) => put_argon2(members, alloc, "argon2id", cost),
    }
}

fn put_pbkdf2(
    members: &mut Map<String, Value>,
    alloc: Global,
    cost: &Pbkdf2<'_>,
) -> Result<(), AllocError> {
    put_text(members, alloc, "hash", cost.hash)?;
    put_number(members, alloc, "iterations", u64::from(cost.iterations))?;
    put_text(members, alloc, "type", "pbkdf2")
}

fn put_argon2(
    members: &mut Map<String, Value>,
    alloc: Global,
    kind: &str,
    cost: &Argon2,
) -> Result<(), AllocError> {
    put_number(members, alloc, "cpus", u64::from(cost.cpus))?;
    put_number(members, alloc, "memory", u64::from(cost.memory))?;
    put_number(members, alloc, "time", u64::from(cost.time))?;
    put_text(members, alloc, "type", kind)
}

pub(crate) fn tokens_value(alloc: Global, meta: &Meta) -> Result<Value, AllocError> {
    let mut items = Vec::new(alloc);
    for n in 0..32 {
        if let Some(token) = meta.token(n) {
            items.push(token_value(alloc, n, &token)?)?;
        }
    }
    Ok(Value::from(items))
}

/// The object of a token.
pub fn token_value(alloc: Global, n: u8, token: &Token<'_>) -> Result<Value, AllocError> {
    let mut members = Map::new(alloc);
    put_numbers(&mut members, alloc, "keyslots", token.keyslots.as_slice())?;
    put_number(&mut members, alloc, "number", u64::from(n))?;
    put_text(&mut members, alloc, "type", token.kind)?;
    Ok(Value::from(members))
}

pub(crate) fn digests_value(alloc: Global, meta: &Meta) -> Result<Value, AllocError> {
    let mut items = Vec::new(alloc);
    for n in 0..32 {
        if let Some(digest) = meta.digest(n) {
            items.push(digest_value(alloc, n, &digest)?)?;
        }
    }
    Ok(Value::from(items))
}

/// The object of a digest.
pub fn digest_value(alloc: Global, n: u8, digest: &Digest<'_>) -> Result<Value, AllocError> {
    let mut members = Map::new(alloc);
    put_digest(&mut members, alloc, n, digest)?;
    Ok(Value::from(members))
}

fn put_digest(
    members: &mut Map<String, Value>,
    alloc: Global,
    n: u8,
    digest: &Digest<'_>,
) -> Result<(), AllocError> {
    put_text(members, alloc, "hash", digest.hash)?;
    put_number(members, alloc, "iterations", u64::from(digest.iterations))?;
    put_numbers(members, alloc, "keyslots", digest.keyslots.as_slice())?;
    put_number(members, alloc, "number", u64::from(n))?;
    put_bytes(members, alloc, "salt", digest.salt.as_slice())?;
    put_numbers(members, alloc, "segments", digest.segments.as_slice())?;
    put_text(members, alloc, "type", "pbkdf2")?;
    put_bytes(members, alloc, "value", digest.digest.as_slice())
}
