//! Texts, numbers and bytes as members of a JSON object.
ghost use Rattle.std.specs.Prelude.{◌≡◌, IfOk, OnOk};
ghost use Rattle.base64.specs.Engines.{standard};
ghost use Rattle.base64.specs.GeneralPurpose.{encode_of};
ghost use Rattle.serde_json.specs.Data.{number, put as with_member, string, unsigned};
ghost use Rattle.serde_json.specs.View.{members_view, view};
ghost use Rattle.luks_show.specs.ValueTexts.{IsTextValue};

use base64::engine::general_purpose::STANDARD;
use serde_json::{Map, Value, put};
use std::alloc::{AllocError, Global};
use std::str;

/// Puts a text.
pub fn put_text(
    members: &mut Map<String, Value>,
    alloc: Global,
    name: &str,
    text: &str,
) -> Result<(), AllocError>
    ensures { OnOk result (members_view members.new.entries
        ≡ with_member name.now (string text.now) (members_view members.old.entries)) }
{
    put(members, alloc, name, Value::try_from_str(alloc, text)?)
}

/// Puts a number.
pub fn put_number(
    members: &mut Map<String, Value>,
    alloc: Global,
    name: &str,
    value: u64,
) -> Result<(), AllocError>
    ensures { OnOk result (members_view members.new.entries
        ≡ with_member name.now (number (unsigned value)) (members_view members.old.entries)) }
{
    put(members, alloc, name, Value::from(value))
}

/// Puts bytes in base64, padded (RFC 4648, section 4).
pub(crate) fn put_bytes(
    members: &mut Map<String, Value>,
    alloc: Global,
    name: &str,
    bytes: &[u8],
) -> Result<(), AllocError>
    ensures { OnOk result (members_view members.new.entries
        ≡ with_member name.now (string (encode_of standard bytes.now))
        (members_view members.old.entries)) }
{
    put(
        members,
        alloc,
        name,
        Value::from(STANDARD.encode(alloc, bytes)?),
    )
}

/// Puts an array of numbers.
pub(crate) fn put_numbers(
    members: &mut Map<String, Value>,
    alloc: Global,
    name: &str,
    numbers: &[u8],
) -> Result<(), AllocError> {
    put(members, alloc, name, numbers_value(alloc, numbers)?)
}

/// The text; an array of its bytes where they aren't UTF-8.
pub(crate) fn text_value(alloc: Global, text: &[u8]) -> Result<Value, AllocError>
    ensures { IfOk result (λ v. IsTextValue text.now (view v)) }
{
    match str::from_utf8(text) {
        Ok(text) => Value::try_from_str(alloc, text),
        Err(_) => numbers_value(alloc, text),
    }
}

/// An array of the numbers.
fn numbers_value(alloc: Global, numbers: &[u8]) -> Result<Value, AllocError> {
    let mut items = Vec::new(alloc);
    for number in numbers {
        items.push(Value::from(*number))?;
    }
    Ok(Value::from(items))
}
