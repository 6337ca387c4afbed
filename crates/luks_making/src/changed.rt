//! The metadata with a keyslot that is sealed again.

ghost use Rattle.std.specs.Prelude.{◌≡◌, ◌<◌, codes, option_map, IfOk};
ghost use Rattle.serde_json.specs.View.{view};
ghost use Rattle.luks_rules.specs.declared.table.Outer.TheVariants as outer;
ghost use Rattle.luks_rules.specs.Reading.{text_of};
ghost use Rattle.luks_rules.specs.Sizes.{inside_at};
ghost use Rattle.luks_making.specs.Changing.{at_member, set_member};
ghost use Rattle.luks_making.specs.Changed.{changed_slot, renewed_area, renewed_kdf, renewed_slot, resalted_kdf, splitter_hash};
ghost use Rattle.luks_making.specs.Keyslots.{derivation_by, kdf_value, new_members};

use crate::changing::{set_member, take_member, with_member};
use crate::derivation::NewDerivation;
use crate::new_keyslot::{KeyslotDerivation, New, base64_text, kdf_value};
use luks_json::{number_text, text_in};
use serde_json::Value;
use std::alloc::{AllocError, Global};

/// The derivation with its new salt, and new iterations where it has some.
fn resalted_kdf(alloc: Global, kdf: Value, new: &New<'_>) -> Result<Value, AllocError>
    ensures { IfOk result (λ v. view v ≡ resalted_kdf (new_members new.now) (view kdf)) }
{
    let salt = base64_text(alloc, new.salt)?;
    let salted = set_member(alloc, kdf, "salt", Value::String(salt))?;
    let iterations = Value::from(new.derivation.iterations);
    set_member(alloc, salted, "iterations", iterations)
}

fn renewed_area(alloc: Global, area: Value, new: &New<'_>) -> Result<Value, AllocError>
    ensures { IfOk result (λ v. view v ≡ renewed_area (new_members new.now) (view area)) }
{
    let offset = new.offset.to_string(alloc)?;
    let size = new.size.to_string(alloc)?;
    let sized = set_member(alloc, area, "size", Value::String(size))?;
    set_member(alloc, sized, "offset", Value::String(offset))
}

/// The keyslot with its new area.
fn with_area(alloc: Global, mut keyslot: Value, new: &New<'_>) -> Result<Value, AllocError>
    ensures { IfOk result (λ v. view v
        ≡ at_member (codes "area") (renewed_area (new_members new.now)) (view keyslot)) }
{
    match take_member(&mut keyslot, "area") {
        Some(area) => {
            let changed = renewed_area(alloc, area, new)?;
            with_member(alloc, keyslot, "area", changed)
        }
        None => Ok(keyslot),
    }
}

/// The keyslot with the derivation that it has, salted anew.
fn with_resalted(alloc: Global, mut keyslot: Value, new: &New<'_>) -> Result<Value, AllocError>
    ensures { IfOk result (λ v. view v
        ≡ at_member (codes "kdf") (resalted_kdf (new_members new.now)) (view keyslot)) }
{
    match take_member(&mut keyslot, "kdf") {
        Some(kdf) => {
            let changed = resalted_kdf(alloc, kdf, new)?;
            with_member(alloc, keyslot, "kdf", changed)
        }
        None => Ok(keyslot),
    }
}

/// The hash of the keyslot's splitter, if it has one.
fn hash_in(keyslot: &Value) -> Option<&str>
    ensures { option_map (λ t. t.now) result
        ≡ text_of (inside_at outer.Af (codes "hash") (view keyslot.now)) }
{
    text_in(keyslot.get("af")?.get("hash"))
}

/// The hash of the keyslot's splitter.
fn splitter_hash(keyslot: &Value) -> &str
    ensures { result.now ≡ splitter_hash (view keyslot.now) }
{
    match hash_in(keyslot) {
        Some(hash) => hash,
        None => "",
    }
}

/// The keyslot with the derivation that is chosen.
fn with_chosen(
    alloc: Global,
    keyslot: Value,
    chosen: &NewDerivation,
    salt: &[u8],
) -> Result<Value, AllocError>
    ensures { IfOk result (λ v. view v ≡ set_member (codes "kdf")
        (kdf_value (derivation_by (splitter_hash (view keyslot)) chosen.now) salt.now)
        (view keyslot)) }
{
    let derivation = KeyslotDerivation::of_chosen(chosen, splitter_hash(&keyslot));
    let kdf = kdf_value(alloc, &derivation, salt)?;
    set_member(alloc, keyslot, "kdf", kdf)
}

/// The keyslot with its new derivation.
fn with_kdf(alloc: Global, keyslot: Value, new: &New<'_>) -> Result<Value, AllocError>
    ensures { IfOk result (λ v. view v ≡ at_member (codes "kdf")
        (renewed_kdf (new_members new.now) (splitter_hash (view keyslot)))
        (view keyslot)) }
{
    match &new.derivation.chosen {
        None => with_resalted(alloc, keyslot, new),
        Some(chosen) => with_chosen(alloc, keyslot, chosen, new.salt),
    }
}

fn renewed_slot(alloc: Global, keyslot: Value, new: &New<'_>) -> Result<Value, AllocError>
    ensures { IfOk result (λ v. view v ≡ renewed_slot (new_members new.now) (view keyslot)) }
{
    let moved = with_area(alloc, keyslot, new)?;
    with_kdf(alloc, moved, new)
}

/// The keyslots, with what is new in one of them.
fn renewed_in(
    alloc: Global,
    mut keyslots: Value,
    name: &str,
    new: &New<'_>,
) -> Result<Value, AllocError>
    ensures { IfOk result (λ v. view v
        ≡ at_member name.now (renewed_slot (new_members new.now)) (view keyslots)) }
{
    match take_member(&mut keyslots, name) {
        Some(keyslot) => {
            let changed = renewed_slot(alloc, keyslot, new)?;
            with_member(alloc, keyslots, name, changed)
        }
        None => Ok(keyslots),
    }
}

/// The metadata with the keyslot's new derivation and area (LUKS2 On-Disk Format 1.1, section 3.2).
/// If nothing is chosen the derivation is as it was, except for its salt and iterations; one that has
/// no iterations gets none. All else is as in `value`, which is edited in place.
///
/// Takes memory for the new members.
pub fn changed_slot(
    alloc: Global,
    mut value: Value,
    number: u8,
    new: &New<'_>,
) -> Result<Value, AllocError>
    requires { number < 32 }
    ensures { IfOk result (λ v. view v
        ≡ changed_slot number (new_members new.now) (view value)) }
{
    match take_member(&mut value, "keyslots") {
        Some(keyslots) => {
            let changed = renewed_in(alloc, keyslots, number_text(number), new)?;
            with_member(alloc, value, "keyslots", changed)
        }
        None => Ok(value),
    }
}
