//! What a value says that may be missing.

ghost use Rattle.std.specs.Prelude.{◌≡◌, option_map, is_some};
ghost use Rattle.serde_json.specs.View.{view, items_view};
ghost use Rattle.luks_json.specs.Values.{text_of, number_of, number_in, decimal_in, bytes_in, texts_of, item_texts};

use crate::decimal::decimal_value;
use crate::encoded::base64_bytes;
use arrayvec::ArrayVec;
use serde_json::Value;

/// The text that the value is.
pub fn text_in<'a>(value: Option<&'a Value>) -> Option<&'a str>
    ensures { option_map (λ s. s.now) result ≡ text_of (option_map (λ v. view v.now) value.entry) }
{
    value?.as_str()
}

/// The whole number, not negative, that the value is.
pub fn whole_number_in(value: Option<&Value>) -> Option<u64>
    ensures { result ≡ number_of (option_map (λ v. view v.now) value.entry) }
{
    value?.as_u64()
}

/// The number from `least` to `most` that the value is.
pub fn number_in(value: Option<&Value>, least: u64, most: u64) -> Option<u64>
    ensures { result ≡ number_in least most (option_map (λ v. view v.now) value.entry) }
{
    match whole_number_in(value) {
        Some(n) if least <= n && n <= most => Some(n),
        _ => None,
    }
}

/// The number whose decimal text the value is.
pub fn decimal_in(value: Option<&Value>) -> Option<u64>
    ensures { result ≡ decimal_in (option_map (λ v. view v.now) value.entry) }
{
    decimal_value(text_in(value)?)
}

/// The `least` to `most` bytes whose base64 the value is.
pub fn bytes_in(value: Option<&Value>, least: u64, most: u64) -> Option<ArrayVec<u8, 128>>
    ensures { option_map (λ b. b.items) result
        ≡ bytes_in least most (option_map (λ v. view v.now) value.entry) }
{
    let bytes = base64_bytes(text_in(value)?)?;
    let length = bytes.len() as u64;
    if least <= length && length <= most {
        Some(bytes)
    } else {
        None
    }
}

/// Each item is a text.
fn are_texts(items: &Vec<Value>) -> bool
    ensures { result ≡ is_some (item_texts (items_view items.now.items)) }
{
    for item in items {
        if !item.is_string() {
            return false;
        }
    }
    true
}

/// The value is an array of texts.
pub fn is_text_array(value: Option<&Value>) -> bool
    ensures { result ≡ is_some (texts_of (option_map (λ v. view v.now) value.entry)) }
{
    match value {
        Some(Value::Array(items)) => are_texts(items),
        _ => false,
    }
}
