//! The metadata with a new keyslot.

ghost use Rattle.std.specs.Prelude.{◌≡◌, ◌<◌, List, ℕ, codes, IfOk, OnOk};
ghost use Rattle.serde_json.specs.Data.{put, string};
ghost use Rattle.serde_json.specs.View.{view};
ghost use Rattle.luks_making.specs.Changing.{add_text, at_member, in_array, in_object};
ghost use Rattle.luks_making.specs.Keyslots.{SlotMembers, slot_value};
ghost use Rattle.luks_making.specs.With.{with_name, with_slot};

use crate::changing::{take_member, with_member};
use luks_json::number_text;
use serde_json::Value;
use std::alloc::{AllocError, Global};

fn add_item(array: &mut Value, item: Value) -> Result<(), AllocError>
    ensures { (t : List ℕ) → view item ≡ string t
        → OnOk result (view array.new ≡ in_array (add_text t) (view array.old)) }
{
    match array.as_array_mut() {
        Some(items) => Ok(items.push(item)?),
        None => Ok(()),
    }
}

/// The array with the text last.
fn array_with(alloc: Global, mut array: Value, text: &str) -> Result<Value, AllocError>
    ensures { IfOk result (λ v. view v ≡ in_array (add_text text.now) (view array)) }
{
    add_item(&mut array, Value::String(String::from_str(alloc, text)?))?;
    Ok(array)
}

/// The digest with the name last in its array of keyslots.
fn digest_with_name(alloc: Global, mut digest: Value, name: &str) -> Result<Value, AllocError>
    ensures { IfOk result (λ v. view v ≡ with_name name.now (view digest)) }
{
    match take_member(&mut digest, "keyslots") {
        Some(names) => {
            let more = array_with(alloc, names, name)?;
            with_member(alloc, digest, "keyslots", more)
        }
        None => Ok(digest),
    }
}

/// The digests with the name in one of them.
fn digests_with_name(
    alloc: Global,
    mut digests: Value,
    digest: &str,
    name: &str,
) -> Result<Value, AllocError>
    ensures { IfOk result (λ v. view v
        ≡ at_member digest.now (with_name name.now) (view digests)) }
{
    match take_member(&mut digests, digest) {
        Some(found) => {
            let changed = digest_with_name(alloc, found, name)?;
            with_member(alloc, digests, digest, changed)
        }
        None => Ok(digests),
    }
}

/// The metadata with the name in one of its digests.
fn with_name(alloc: Global, mut value: Value, digest: &str, name: &str) -> Result<Value, AllocError>
    ensures { IfOk result (λ v. view v
        ≡ at_member (codes "digests") (at_member digest.now (with_name name.now))
        (view value)) }
{
    match take_member(&mut value, "digests") {
        Some(digests) => {
            let changed = digests_with_name(alloc, digests, digest, name)?;
            with_member(alloc, value, "digests", changed)
        }
        None => Ok(value),
    }
}

fn add_member(
    alloc: Global,
    object: &mut Value,
    name: &str,
    member: Value,
) -> Result<(), AllocError>
    ensures { OnOk result (view object.new
        ≡ in_object (put name.now (view member)) (view object.old)) }
{
    match object.as_object_mut() {
        Some(members) => serde_json::put(members, alloc, name, member),
        None => Ok(()),
    }
}

/// The map with one more object.
pub(crate) fn map_with_object(
    alloc: Global,
    mut map: Value,
    name: &str,
    object: Value,
) -> Result<Value, AllocError>
    ensures { IfOk result (λ v. view v ≡ in_object (put name.now (view object)) (view map)) }
{
    add_member(alloc, &mut map, name, object)?;
    Ok(map)
}

/// The metadata with one more object in a section.
pub(crate) fn with_object(
    alloc: Global,
    mut value: Value,
    section: &str,
    name: &str,
    object: Value,
) -> Result<Value, AllocError>
    ensures { IfOk result (λ v. view v
        ≡ at_member section.now (in_object (put name.now (view object)))
        (view value)) }
{
    match take_member(&mut value, section) {
        Some(map) => {
            let more = map_with_object(alloc, map, name, object)?;
            with_member(alloc, value, section, more)
        }
        None => Ok(value),
    }
}

/// The metadata with the new keyslot, a value that `slot_value` made; its name is last in the
/// digest's array (LUKS2 On-Disk Format 1.1, sections 3.2 and 3.6). All else is as in `value`, which
/// is edited in place.
///
/// Takes memory for the names.
pub fn with_slot(
    alloc: Global,
    value: Value,
    number: u8,
    digest: u8,
    keyslot: Value,
) -> Result<Value, AllocError>
    requires number { number < 32 }
    requires digest { digest < 32 }
    ensures { (s : SlotMembers) → view keyslot ≡ slot_value s
        → IfOk result (λ v. view v ≡ with_slot number digest s (view value)) }
{
    let named = with_name(alloc, value, number_text(digest), number_text(number))?;
    with_object(alloc, named, "keyslots", number_text(number), keyslot)
}
