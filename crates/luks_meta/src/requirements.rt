//! What the metadata demands of who changes it.

ghost use Rattle.std.specs.Prelude.{◌≡◌};
ghost use Rattle.std.specs.Option.{option_map_or};
ghost use Rattle.std.specs.Prelude.{option_map, false};
ghost use Rattle.serde_json.specs.Data.{object};
ghost use Rattle.serde_json.specs.View.{view, members_view};
ghost use Rattle.luks_meta.specs.Requirements.{asks_nothing, has_requirements, is_empty_array};

use luks_rules::{Section, section_at};
use serde_json::{Map, Value};

fn is_empty_array(value: &Value) -> bool
    ensures { result ≡ is_empty_array (view value.now) }
{
    match value {
        Value::Array(items) => matches!(items.as_slice(), []),
        _ => false,
    }
}

fn is_empty_at(value: Option<&Value>) -> bool
    ensures { result ≡ option_map_or is_empty_array (option_map (λ v. view v.now) value.entry) false }
{
    match value {
        Some(value) => is_empty_array(value),
        None => false,
    }
}

fn members_ask_nothing(value: &Value, members: &Map<String, Value>) -> bool
    requires { view value.now ≡ object (members_view members.now.entries) }
    ensures { result ≡ asks_nothing (view value.now) }
{
    let count = members.len();
    if count == 0 {
        return true;
    }
    if count == 1 {
        return is_empty_at(value.get("mandatory"));
    }
    false
}

fn asks_nothing(value: &Value) -> bool
    ensures { result ≡ asks_nothing (view value.now) }
{
    match value {
        Value::Null => true,
        Value::Array(items) => matches!(items.as_slice(), []),
        Value::Object(members) => members_ask_nothing(value, members),
        _ => false,
    }
}

/// `config.requirements` is there, and is none of `null`, `[]`, `{}` and `{"mandatory":[]}`.
pub(crate) fn has_requirements(value: &Value) -> bool
    ensures { result ≡ has_requirements (view value.now) }
{
    match section_at(value, Section::Config) {
        Some(config) => match config.get("requirements") {
            Some(requirements) => !asks_nothing(requirements),
            None => false,
        },
        None => false,
    }
}
