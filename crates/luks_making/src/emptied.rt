//! The metadata without any keyslot.

ghost use Rattle.std.specs.Prelude.{◌≡◌, IfOk, codes};
ghost use Rattle.serde_json.specs.Data.{no_items, no_members};
ghost use Rattle.serde_json.specs.View.{view, members_view};
ghost use Rattle.luks_making.specs.Changing.{at_member, each_member, in_array, in_object};
ghost use Rattle.luks_making.specs.Without.{without_names, without_slots};

use crate::changing::{take_member, with_member};
use serde_json::{Map, Value};
use std::alloc::{AllocError, Global};

/// The array without its items.
fn emptied_array(alloc: Global, array: Value) -> Value
    ensures { view result ≡ in_array (λ _. no_items) (view array) }
{
    match array {
        Value::Array(_) => Value::Array(Vec::new(alloc)),
        other => other,
    }
}

/// The map without its objects.
fn emptied_map(alloc: Global, map: Value) -> Value
    ensures { view result ≡ in_object (λ _. no_members) (view map) }
{
    match map {
        Value::Object(_) => Value::Object(Map::new(alloc)),
        other => other,
    }
}

/// The digest or token without the names in its array of keyslots.
fn without_names(alloc: Global, mut object: Value) -> Result<Value, AllocError>
    ensures { IfOk result (λ v. view v ≡ without_names (view object)) }
{
    match take_member(&mut object, "keyslots") {
        Some(names) => with_member(alloc, object, "keyslots", emptied_array(alloc, names)),
        None => Ok(object),
    }
}

/// Each member without the names in its array of keyslots.
fn each_without_names(
    alloc: Global,
    members: Map<String, Value>,
) -> Result<Map<String, Value>, AllocError>
    ensures { IfOk result (λ m. members_view m.entries
        ≡ each_member without_names (members_view members.entries)) }
{
    let mut changed = Map::new(alloc);
    for (key, member) in members {
        drop(changed.insert(key, without_names(alloc, member)?)?);
    }
    Ok(changed)
}

/// The map whose objects name no keyslot.
fn map_without_names(alloc: Global, map: Value) -> Result<Value, AllocError>
    ensures { IfOk result (λ v. view v ≡ in_object (each_member without_names) (view map)) }
{
    match map {
        Value::Object(members) => Ok(Value::Object(each_without_names(alloc, members)?)),
        other => Ok(other),
    }
}

/// The metadata without the names in the arrays of a section's objects.
fn take_names(alloc: Global, mut value: Value, section: &str) -> Result<Value, AllocError>
    ensures { IfOk result (λ v. view v
        ≡ at_member section.now (in_object (each_member without_names)) (view value)) }
{
    match take_member(&mut value, section) {
        Some(map) => {
            let changed = map_without_names(alloc, map)?;
            with_member(alloc, value, section, changed)
        }
        None => Ok(value),
    }
}

/// The metadata without the objects of its section of keyslots.
fn take_slots(alloc: Global, mut value: Value) -> Result<Value, AllocError>
    ensures { IfOk result (λ v. view v
        ≡ at_member (codes "keyslots") (in_object (λ _. no_members)) (view value)) }
{
    match take_member(&mut value, "keyslots") {
        Some(map) => with_member(alloc, value, "keyslots", emptied_map(alloc, map)),
        None => Ok(value),
    }
}

/// The metadata without any keyslot, and with none named in the arrays of digests and tokens (LUKS2
/// On-Disk Format 1.1, sections 3.2, 3.3 and 3.5). All else is as in `value`, which is edited in place.
///
/// Takes memory for the maps of tokens and digests.
pub fn without_slots(alloc: Global, value: Value) -> Result<Value, AllocError>
    ensures { IfOk result (λ v. view v ≡ without_slots (view value)) }
{
    let value = take_names(alloc, value, "tokens")?;
    let value = take_names(alloc, value, "digests")?;
    take_slots(alloc, value)
}
