//! A keyslot that is made, and what is new of one.

ghost use Rattle.std.specs.Prelude.{◌≡◌, string_bytes, IfOk};
ghost use Rattle.base64.specs.GeneralPurpose.{IsBytes};
ghost use Rattle.serde_json.specs.View.{view};
ghost use Rattle.luks_making.specs.Keyslots.{area_value, argon2_value, base64_text, by_pbkdf2, derivation_by, derivation_of, kdf_value, new_members, slot_members, slot_value, splitter_value};
ghost use Rattle.luks_making.specs.Conditions.{FitsNew};

use crate::derivation::{Argon2Costs, AskedDerivation, NewDerivation, asked_fits};
use base64::engine::general_purpose::STANDARD;
use serde_json::{Value, json};
use std::alloc::{AllocError, Global};

/// What is new of a keyslot that is sealed again, or made with the members of another.
#[derive(Clone, Copy)]
pub struct New<'a> {
    /// How the key of the area is derived.
    pub derivation: AskedDerivation,
    /// The derivation's salt.
    pub salt: &'a [u8],
    /// Where the area begins, in bytes.
    pub offset: u64,
    /// The area's length in bytes.
    pub size: u64,
}

/// How the key of a keyslot's area is derived, except for the salt.
#[derive(Clone, Copy)]
pub enum KeyslotDerivation<'a> {
    /// The type `pbkdf2`.
    Pbkdf2 {
        /// The hash.
        hash: &'a str,
        /// The iterations.
        iterations: u32,
    },
    /// The type `argon2i`.
    Argon2i(Argon2Costs),
    /// The type `argon2id`.
    Argon2id(Argon2Costs),
}

impl<'a> KeyslotDerivation<'a> {
    /// The derivation that is chosen for a keyslot whose splitter has the hash.
    pub fn of_chosen(chosen: &NewDerivation, hash: &'a str) -> Self
        ensures { derivation_of result ≡ derivation_by hash.now chosen.now }
    {
        match *chosen {
            NewDerivation::Pbkdf2 { iterations } => KeyslotDerivation::Pbkdf2 { hash, iterations },
            NewDerivation::Argon2i(costs) => KeyslotDerivation::Argon2i(costs),
            NewDerivation::Argon2id(costs) => KeyslotDerivation::Argon2id(costs),
        }
    }
}

/// The members of a keyslot that is made, without a priority.
#[derive(Clone, Copy)]
pub struct NewKeyslot<'a> {
    /// The length of the volume key in bytes.
    pub key_size: u8,
    /// Stripes of the splitter.
    pub stripes: u32,
    /// The splitter's hash.
    pub splitter_hash: &'a str,
    /// Where the area begins, in bytes.
    pub offset: u64,
    /// The area's length in bytes.
    pub size: u64,
    /// The area's cipher with its mode.
    pub encryption: &'a str,
    /// The length of the cipher's key in bytes.
    pub area_key_size: u8,
    /// How the key of the area is derived.
    pub derivation: KeyslotDerivation<'a>,
    /// The derivation's salt.
    pub salt: &'a [u8],
}

/// What is new has the ranges of its types. The function does nothing; its contract is the law.
pub fn new_fits(new: &New<'_>)
    ensures { FitsNew (new_members new.now) }
{
    let New {
        derivation,
        salt,
        offset,
        size,
    } = *new;
    asked_fits(derivation);
    are_bytes(salt);
}

/// What a slice of bytes has is bytes.
pub(crate) fn are_bytes(bytes: &[u8])
    ensures { IsBytes bytes.now }
{}

/// The bytes in base64, padded (RFC 4648, section 4).
pub(crate) fn base64_text(alloc: Global, bytes: &[u8]) -> Result<String, AllocError>
    ensures { IfOk result (λ t. string_bytes t ≡ base64_text bytes.now) }
{
    STANDARD.encode(alloc, bytes)
}

fn splitter_value(alloc: Global, keyslot: &NewKeyslot<'_>) -> Result<Value, AllocError>
    ensures { IfOk result (λ v. view v ≡ splitter_value (slot_members keyslot.now)) }
{
    let (hash, stripes) = (keyslot.splitter_hash, keyslot.stripes);
    json!(in alloc; {"hash": hash, "stripes": stripes, "type": "luks1"})
}

fn area_value(alloc: Global, keyslot: &NewKeyslot<'_>) -> Result<Value, AllocError>
    ensures { IfOk result (λ v. view v ≡ area_value (slot_members keyslot.now)) }
{
    let offset = keyslot.offset.to_string(alloc)?;
    let size = keyslot.size.to_string(alloc)?;
    json!(in alloc; {
        "encryption": keyslot.encryption,
        "key_size": keyslot.area_key_size,
        "offset": offset,
        "size": size,
        "type": "raw"
    })
}

fn pbkdf2_value(
    alloc: Global,
    hash: &str,
    iterations: u32,
    salt: &[u8],
) -> Result<Value, AllocError>
    ensures { IfOk result (λ v. view v ≡ kdf_value (by_pbkdf2 hash.now iterations) salt.now) }
{
    let salt = base64_text(alloc, salt)?;
    json!(in alloc; {"hash": hash, "iterations": iterations, "salt": salt, "type": "pbkdf2"})
}

fn argon2_value(
    alloc: Global,
    kind: &str,
    costs: &Argon2Costs,
    salt: &[u8],
) -> Result<Value, AllocError>
    ensures { IfOk result (λ v. view v ≡ argon2_value kind.now costs.now salt.now) }
{
    let salt = base64_text(alloc, salt)?;
    json!(in alloc; {
        "cpus": costs.cpus,
        "memory": costs.memory,
        "salt": salt,
        "time": costs.time,
        "type": kind
    })
}

/// The value of the derivation with its salt.
pub(crate) fn kdf_value(
    alloc: Global,
    derivation: &KeyslotDerivation<'_>,
    salt: &[u8],
) -> Result<Value, AllocError>
    ensures { IfOk result (λ v. view v ≡ kdf_value (derivation_of derivation.now) salt.now) }
{
    match *derivation {
        KeyslotDerivation::Pbkdf2 { hash, iterations } => pbkdf2_value(
            alloc, hash, iterations, salt,
        ),
        KeyslotDerivation::Argon2i(costs) => argon2_value(alloc, "argon2i", &costs, salt),
        KeyslotDerivation::Argon2id(costs) => argon2_value(alloc, "argon2id", &costs, salt),
    }
}

/// The value of the keyslot (LUKS2 On-Disk Format 1.1, section 3.2).
///
/// Takes memory for the value.
pub fn slot_value(alloc: Global, keyslot: &NewKeyslot<'_>) -> Result<Value, AllocError>
    ensures { IfOk result (λ v. view v ≡ slot_value (slot_members keyslot.now)) }
{
    let af = splitter_value(alloc, keyslot)?;
    let area = area_value(alloc, keyslot)?;
    let kdf = kdf_value(alloc, &keyslot.derivation, keyslot.salt)?;
    let key_size = keyslot.key_size;
    json!(in alloc; {"af": af, "area": area, "kdf": kdf, "key_size": key_size, "type": "luks2"})
}
