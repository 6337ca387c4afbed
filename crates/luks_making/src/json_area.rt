//! The JSON area as it is written.

ghost use Rattle.std.specs.Prelude.{◌≡◌, ◌-◌, ◌<◌, ◌≤◌, ◌++◌, length, replicate, string_bytes, IfOk, IfSome, IsNone};
ghost use Rattle.serde_json.specs.View.{view};
ghost use Rattle.serde_json.specs.Written.{compact_text};
ghost use Rattle.luks_rules.specs.Held.{IsHeld};
ghost use Rattle.luks_making.specs.WrittenArea.{IsWrittenArea};

use luks_json::compact_text_of;
use serde_json::Value;
use std::alloc::{AllocError, Global};

/// An area of `len` bytes with the text and zeros after it, if that leaves room for a zero. The text's
/// own bytes become the area.
fn area_of(text: String, len: usize) -> Result<Option<Vec<u8>>, AllocError>
    ensures filled { IfOk result (λ o. IfSome o (λ a.
        a.items ≡ string_bytes text ++ replicate (len - length (string_bytes text)) 0)) }
    ensures room { IfOk result (λ o. IfSome o (λ a. length (string_bytes text) < len)) }
    ensures full { IfOk result (λ o. IsNone o → len ≤ length (string_bytes text)) }
{
    if text.len() >= len {
        return Ok(None);
    }
    let mut area = text.into_bytes();
    area.resize(len, 0)?;
    Ok(Some(area))
}

/// The JSON area of `len` bytes with the value's text and zeros after it; none where the text
/// leaves no room for a zero byte (LUKS2 On-Disk Format 1.1, section 2.2).
///
/// Takes memory for the area, in which the text is made.
pub fn written_area(alloc: Global, value: &Value, len: usize) -> Result<Option<Vec<u8>>, AllocError>
    requires { IsHeld len (view value.now) }
    ensures holds { IfOk result (λ o. IfSome o (λ a.
        IsWrittenArea len (view value.now) a.items)) }
    ensures full { IfOk result (λ o. IsNone o → len ≤ length (compact_text (view value.now))) }
{
    let text = compact_text_of(alloc, value)?;
    area_of(text, len)
}
