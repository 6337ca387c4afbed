//! Keyslots: where a volume key is kept, and how it is sealed.

ghost use Rattle.std.specs.Prelude.{◌≡◌, true, IfSome, IsSome};
ghost use Rattle.serde_json.specs.View.{view};
ghost use Rattle.luks_rules.specs.Table.{keyslot_rows};
ghost use Rattle.luks_rules.specs.declared.table.When.TheVariants as when;
ghost use Rattle.luks_rules.specs.Faults.{suits, type_at};
ghost use Rattle.luks_rules.specs.Accepted.{IsRead};
ghost use Rattle.luks_meta.specs.Says.{TellsArea, TellsArgon2, TellsCost, TellsKdf, TellsKeyslot, TellsSplitter};

use crate::member::{bytes_at, decimal_at, has_type, key_size_at, priority_at, small_at, text_at};
use arrayvec::ArrayVec;
use luks_rules::{Member, Outer};
use serde_json::Value;

/// How the key is split over its area.
#[derive(Clone, Copy)]
pub struct Splitter<'a> {
    /// How many stripes the volume key is split into, at least 1.
    pub stripes: u32,
    /// The name of the splitter's hash, as the metadata writes it.
    pub hash: &'a str,
}

/// The area of a keyslot.
#[derive(Clone, Copy)]
pub struct KeyArea<'a> {
    /// Where it begins, in bytes.
    pub offset: u64,
    /// Its length in bytes.
    pub size: u64,
    /// The cipher with its mode.
    pub encryption: &'a str,
    /// The length of the cipher's key in bytes.
    pub key_size: u8,
}

/// The cost of PBKDF2.
#[derive(Clone, Copy)]
pub struct Pbkdf2<'a> {
    /// The name of the hash, as the metadata writes it.
    pub hash: &'a str,
    /// The iterations, at least 1.
    pub iterations: u32,
}

/// The cost of Argon2.
#[derive(Clone, Copy, PartialEq, Eq)]
pub struct Argon2 {
    /// How many passes over the memory, at least 1.
    pub time: u32,
    /// The memory in KiB, at least 1.
    pub memory: u32,
    /// The number of lanes, at least 1.
    pub cpus: u32,
}

/// Which derivation gives the area's key, and at what cost.
#[derive(Clone, Copy)]
pub enum Cost<'a> {
    /// The type `pbkdf2`.
    Pbkdf2(Pbkdf2<'a>),
    /// The type `argon2i`.
    Argon2i(Argon2),
    /// The type `argon2id`.
    Argon2id(Argon2),
}

/// How a passphrase gives the area's key.
#[derive(Drop)]
pub struct Derivation<'a> {
    /// The salt, 1 to 128 bytes.
    pub salt: ArrayVec<u8, 128>,
    /// The derivation, and what it costs.
    pub cost: Cost<'a>,
}

/// The members of a keyslot.
#[derive(Drop)]
pub struct Keyslot<'a> {
    /// The length of the volume key in bytes.
    pub key_size: u8,
    /// 0: only when asked for; 2: before others.
    pub priority: Option<u8>,
    /// How the key is split (LUKS2 On-Disk Format 1.1, 3.2.4).
    pub af: Splitter<'a>,
    /// The area of its key material (3.2.3).
    pub area: KeyArea<'a>,
    /// How a passphrase gives the key of that area (3.2.5).
    pub kdf: Derivation<'a>,
}

/// The members of a keyslot; none where one breaks its rule.
pub fn read_keyslot(object: &Value) -> Option<Keyslot<'_>>
    ensures tells { IfSome result (λ k. TellsKeyslot (view object.now) k) }
    ensures there { IsRead keyslot_rows (view object.now) → IsSome result }
{
    if !has_type(object, Outer::Top, "luks2") {
        return None;
    }
    let key_size = key_size_at(object, Outer::Top)?;
    let priority = priority_at(object)?;
    let af = read_splitter(object)?;
    let area = read_area(object)?;
    let kdf = read_derivation(object)?;
    Some(Keyslot {
        key_size,
        priority,
        af,
        area,
        kdf,
    })
}

fn read_splitter(object: &Value) -> Option<Splitter<'_>>
    ensures says { IfSome result (λ k. TellsSplitter (view object.now) k) }
    ensures there { IsRead keyslot_rows (view object.now) → IsSome result }
{
    if !has_type(object, Outer::Af, "luks1") {
        return None;
    }
    let stripes = small_at(object, Outer::Af, Member::Stripes)?;
    let hash = text_at(object, Outer::Af, Member::Hash)?;
    Some(Splitter { stripes, hash })
}

fn read_area(object: &Value) -> Option<KeyArea<'_>>
    ensures says { IfSome result (λ k. TellsArea (view object.now) k) }
    ensures there { IsRead keyslot_rows (view object.now) → IsSome result }
{
    if !has_type(object, Outer::Area, "raw") {
        return None;
    }
    let offset = decimal_at(object, Outer::Area, Member::Offset)?;
    let size = decimal_at(object, Outer::Area, Member::Size)?;
    let encryption = text_at(object, Outer::Area, Member::Encryption)?;
    let key_size = key_size_at(object, Outer::Area)?;
    Some(KeyArea {
        offset,
        size,
        encryption,
        key_size,
    })
}

fn read_derivation(object: &Value) -> Option<Derivation<'_>>
    ensures says { IfSome result (λ k. TellsKdf (view object.now) k) }
    ensures there { IsRead keyslot_rows (view object.now) → IsSome result }
{
    let cost = read_cost(object)?;
    let salt = bytes_at(object, Outer::Kdf, Member::Salt, 1, 128)?;
    Some(Derivation { salt, cost })
}

fn read_cost(object: &Value) -> Option<Cost<'_>>
    ensures says { IfSome result (λ k. TellsCost (view object.now) k) }
    ensures there { IsRead keyslot_rows (view object.now) → IsSome result }
{
    if has_type(object, Outer::Kdf, "argon2i") {
        return Some(Cost::Argon2i(read_argon2(object)?));
    }
    if has_type(object, Outer::Kdf, "argon2id") {
        return Some(Cost::Argon2id(read_argon2(object)?));
    }
    if !has_type(object, Outer::Kdf, "pbkdf2") {
        return None;
    }
    let hash = text_at(object, Outer::Kdf, Member::Hash)?;
    let iterations = small_at(object, Outer::Kdf, Member::Iterations)?;
    Some(Cost::Pbkdf2(Pbkdf2 { hash, iterations }))
}

fn read_argon2(object: &Value) -> Option<Argon2>
    ensures says { IfSome result (λ k. TellsArgon2 (view object.now) k) }
    ensures there { IsRead keyslot_rows (view object.now)
        → suits when.Argon2 (type_at (view object.now) Outer.Kdf) ≡ true → IsSome result }
{
    let time = small_at(object, Outer::Kdf, Member::Time)?;
    let memory = small_at(object, Outer::Kdf, Member::Memory)?;
    let cpus = small_at(object, Outer::Kdf, Member::Cpus)?;
    Some(Argon2 { time, memory, cpus })
}
