//! The metadata without a keyslot.

ghost use Rattle.std.specs.Prelude.{◌≡◌, ◌<◌, IfOk};
ghost use Rattle.serde_json.specs.View.{view, items_view, members_view};
ghost use Rattle.luks_json.specs.Arrays.{is_text};
ghost use Rattle.luks_making.specs.Changing.{at_member, drop_member, drop_text, each_member, in_array, in_object};
ghost use Rattle.luks_making.specs.Without.{without_name, without_slot};

use crate::changing::{take_member, with_member};
use luks_json::number_text;
use serde_json::{Map, Value};
use std::alloc::{AllocError, Global};

/// The item is the text.
fn is_text(item: &Value, text: &str) -> bool
    ensures { result ≡ is_text text.now (view item.now) }
{
    match item.as_str() {
        Some(other) => other == text,
        None => false,
    }
}

/// The items that aren't the text.
fn without_text(mut items: Vec<Value>, text: &str) -> Vec<Value>
    ensures { items_view result.items ≡ drop_text text.now (items_view items.items) }
{
    items.retain(|item| !is_text(item, text));
    items
}

/// The array without the text.
fn array_without(array: Value, text: &str) -> Value
    ensures { view result ≡ in_array (drop_text text.now) (view array) }
{
    match array {
        Value::Array(items) => Value::Array(without_text(items, text)),
        other => other,
    }
}

/// The digest or token without the name in its array of keyslots.
fn without_name(alloc: Global, mut object: Value, name: &str) -> Result<Value, AllocError>
    ensures { IfOk result (λ v. view v ≡ without_name name.now (view object)) }
{
    match take_member(&mut object, "keyslots") {
        Some(names) => with_member(alloc, object, "keyslots", array_without(names, name)),
        None => Ok(object),
    }
}

/// Each member without the name in its array of keyslots.
fn each_without_name(
    alloc: Global,
    members: Map<String, Value>,
    name: &str,
) -> Result<Map<String, Value>, AllocError>
    ensures { IfOk result (λ m. members_view m.entries
        ≡ each_member (without_name name.now) (members_view members.entries)) }
{
    let mut changed = Map::new(alloc);
    for (key, member) in members {
        drop(changed.insert(key, without_name(alloc, member, name)?)?);
    }
    Ok(changed)
}

/// The members of other names.
fn without_member(mut members: Map<String, Value>, name: &str) -> Map<String, Value>
    ensures { members_view result.entries ≡ drop_member name.now (members_view members.entries) }
{
    drop(members.remove(name));
    members
}

/// The map whose objects have the name no more in their arrays of keyslots.
fn map_without_name(alloc: Global, map: Value, name: &str) -> Result<Value, AllocError>
    ensures { IfOk result (λ v. view v
        ≡ in_object (each_member (without_name name.now)) (view map)) }
{
    match map {
        Value::Object(members) => Ok(Value::Object(each_without_name(alloc, members, name)?)),
        other => Ok(other),
    }
}

/// The map without the object of that name.
pub(crate) fn map_without_object(map: Value, name: &str) -> Value
    ensures { view result ≡ in_object (drop_member name.now) (view map) }
{
    match map {
        Value::Object(members) => Value::Object(without_member(members, name)),
        other => other,
    }
}

/// The metadata without the name in the arrays of a section's objects.
fn take_name(
    alloc: Global,
    mut value: Value,
    section: &str,
    name: &str,
) -> Result<Value, AllocError>
    ensures { IfOk result (λ v. view v
        ≡ at_member section.now (in_object (each_member (without_name name.now)))
        (view value)) }
{
    match take_member(&mut value, section) {
        Some(map) => {
            let changed = map_without_name(alloc, map, name)?;
            with_member(alloc, value, section, changed)
        }
        None => Ok(value),
    }
}

/// The metadata without the object of a section.
pub(crate) fn take_object(
    alloc: Global,
    mut value: Value,
    section: &str,
    name: &str,
) -> Result<Value, AllocError>
    ensures { IfOk result (λ v. view v
        ≡ at_member section.now (in_object (drop_member name.now)) (view value)) }
{
    match take_member(&mut value, section) {
        Some(map) => with_member(alloc, value, section, map_without_object(map, name)),
        None => Ok(value),
    }
}

/// The metadata without the keyslot, and without its name in the arrays of digests and tokens
/// (LUKS2 On-Disk Format 1.1, sections 3.3 and 3.6). All else is as in `value`, which is edited in
/// place.
///
/// Takes memory for the maps of tokens and digests.
pub fn without_slot(alloc: Global, value: Value, number: u8) -> Result<Value, AllocError>
    requires { number < 32 }
    ensures { IfOk result (λ v. view v ≡ without_slot number (view value)) }
{
    let name = number_text(number);
    let value = take_name(alloc, value, "tokens", name)?;
    let value = take_name(alloc, value, "digests", name)?;
    take_object(alloc, value, "keyslots", name)
}
