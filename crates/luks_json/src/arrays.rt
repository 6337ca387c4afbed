//! Arrays of names, and the members of maps.

ghost use Rattle.std.specs.Prelude.{◌≡◌, ◌==◌, option_map};
ghost use Rattle.serde_json.specs.View.{view, items_view, members_view};
ghost use Rattle.luks_json.specs.Arrays.{all_named, all_there, has_repeat, has_text, is_text, is_there, names, naming_count, naming_members, repeats};

use crate::number::number_named;
use serde_json::{Map, Value};

/// Each member's name is a name.
pub fn are_named(members: &Map<String, Value>) -> bool
    ensures { result ≡ all_named (members_view members.now.entries) }
{
    for (name, _) in members.iter() {
        if number_named(name.as_str()).is_none() {
            return false;
        }
    }
    true
}

/// The item is the text.
fn is_text(item: &Value, text: &str) -> bool
    ensures { result ≡ is_text text.now (view item.now) }
{
    match item.as_str() {
        Some(other) => other == text,
        None => false,
    }
}

/// Some item is the text.
fn has_text(items: &[Value], text: &str) -> bool
    ensures { result ≡ has_text text.now (items_view items.now) }
{
    for item in items {
        if is_text(item, text) {
            return true;
        }
    }
    false
}

/// The item is no text, or a member's name.
fn is_there(item: &Value, map: Option<&Value>) -> bool
    ensures { result ≡ is_there (option_map (λ v. view v.now) map.entry) (view item.now) }
{
    match (item.as_str(), map) {
        (None, _) => true,
        (Some(_), None) => false,
        (Some(name), Some(map)) => map.get(name).is_some(),
    }
}

/// Each text among the items is a member's name.
pub fn all_there(items: &Vec<Value>, map: Option<&Value>) -> bool
    ensures { result ≡ all_there (option_map (λ v. view v.now) map.entry) (items_view items.now.items) }
{
    for item in items {
        if !is_there(item, map) {
            return false;
        }
    }
    true
}

/// The first item is a text that stands among the rest.
fn repeats(item: &Value, rest: &[Value]) -> bool
    ensures { result ≡ repeats (view item.now) (items_view rest.now) }
{
    match item.as_str() {
        Some(text) => has_text(rest, text),
        None => false,
    }
}

/// Some text stands twice.
pub fn has_repeat(items: &[Value]) -> bool
    ensures { result ≡ has_repeat (items_view items.now) }
{
    let mut left = items;
    while let [first, rest @ ..] = left {
        if repeats(first, rest) {
            return true;
        }
        left = rest;
    }
    false
}

/// The value is an array that has the text.
pub fn names(value: Option<&Value>, text: &str) -> bool
    ensures { result ≡ names text.now (option_map (λ v. view v.now) value.entry) }
{
    match value {
        Some(Value::Array(items)) => has_text(items.as_slice(), text),
        _ => false,
    }
}

/// Exactly one member has the text in its array `list`.
fn is_named_once_among(members: &Map<String, Value>, list: &str, text: &str) -> bool
    ensures { result ≡ (naming_members list.now text.now (members_view members.now.entries) == 1) }
{
    let mut found = false;
    for (_, member) in members.iter() {
        if names(member.get(list), text) {
            if found {
                return false;
            }
            found = true;
        }
    }
    found
}

/// Exactly one member of the object has the text in its array `list`.
pub fn is_named_once(digests: Option<&Value>, list: &str, text: &str) -> bool
    ensures { result ≡ (naming_count list.now text.now (option_map (λ v. view v.now) digests.entry) == 1) }
{
    match digests {
        Some(Value::Object(members)) => is_named_once_among(members, list, text),
        _ => false,
    }
}
