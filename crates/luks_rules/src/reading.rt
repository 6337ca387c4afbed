//! What the value of a member says, by the rule of its row.

ghost use Rattle.std.specs.Prelude.{◌≡◌, Some, None, ◌&&◌, length, nat_le, option_map, option_and_then, is_some, Bool};
ghost use Rattle.serde_json.specs.View.{view, items_view};
ghost use Rattle.luks_rules.specs.Reading.{reads, is_unlisted, is_listed, is_between, is_sector_size, text_of, number_of, number_in, decimal_in, bytes_in, texts_of, item_texts, extent_of, kept};

use crate::table::{Listed, Rule};
use luks_json::{
    bytes_in, decimal_in, decimal_value, is_text_array, number_in, text_in, whole_number_in,
};
use serde_json::Value;

/// The type is one of the list.
pub(crate) fn is_listed(listed: Listed, text: &str) -> bool
    ensures { result ≡ is_listed listed text.now }
{
    match listed {
        Listed::Keyslot => text == "luks2",
        Listed::Splitter => text == "luks1",
        Listed::KeyArea => text == "raw",
        Listed::Derivation => text == "pbkdf2" || text == "argon2i" || text == "argon2id",
        Listed::Segment => text == "crypt" || text == "linear",
        Listed::Digest => text == "pbkdf2",
    }
}

/// The size of a sector that the value is.
pub fn sector_size_in(value: Option<&Value>) -> Option<u64>
    ensures { result ≡ option_and_then (kept is_sector_size)
        (number_of (option_map (λ v. view v.now) value.entry)) }
{
    match whole_number_in(value) {
        Some(n) if n == 512 || n == 1024 || n == 2048 || n == 4096 => Some(n),
        _ => None,
    }
}

/// The value is `dynamic` or a decimal text.
fn is_extent(value: Option<&Value>) -> bool
    ensures { result ≡ is_some (option_and_then extent_of
        (text_of (option_map (λ v. view v.now) value.entry))) }
{
    match text_in(value) {
        Some(text) => text == "dynamic" || decimal_value(text).is_some(),
        None => false,
    }
}

/// The value is a type of the list.
fn is_type(listed: Listed, value: Option<&Value>) -> bool
    ensures { result ≡ is_some (option_and_then (kept (is_listed listed))
        (text_of (option_map (λ v. view v.now) value.entry))) }
{
    match text_in(value) {
        Some(text) => is_listed(listed, text),
        None => false,
    }
}

/// The value meets the rule.
pub(crate) fn meets(rule: Rule, value: Option<&Value>) -> bool
    ensures { result ≡ is_some (reads rule (option_map (λ v. view v.now) value.entry)) }
{
    match rule {
        Rule::Object => match value {
            Some(value) => value.is_object(),
            None => false,
        },
        Rule::Text => text_in(value).is_some(),
        Rule::Type(listed) => is_type(listed, value),
        Rule::Number(least, most) => number_in(value, least, most).is_some(),
        Rule::MayBeNumber(least, most) => match value {
            Some(_) => number_in(value, least, most).is_some(),
            None => true,
        },
        Rule::SectorSize => sector_size_in(value).is_some(),
        Rule::Decimal => decimal_in(value).is_some(),
        Rule::DecimalOrDynamic => is_extent(value),
        Rule::Base64(least, most) => bytes_in(value, least, most).is_some(),
        Rule::Names(_) => is_text_array(value),
    }
}

/// The value is a text that the rule's list of types doesn't have.
pub(crate) fn is_unlisted(rule: Rule, value: Option<&Value>) -> bool
    ensures { result ≡ is_unlisted rule (option_map (λ v. view v.now) value.entry) }
{
    match rule {
        Rule::Type(listed) => match text_in(value) {
            Some(text) => !is_listed(listed, text),
            None => false,
        },
        _ => false,
    }
}
