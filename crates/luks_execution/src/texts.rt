//! Texts as an array of JSON.
ghost use Rattle.std.specs.Prelude.{◌≡◌, map, IfOk};
ghost use Rattle.serde_json.specs.View.{view};
ghost use Rattle.luks_execution.specs.AnswerValue.{texts_value};

use serde_json::Value;
use std::alloc::{AllocError, Global};

/// An array of the texts.
pub(crate) fn texts_value(alloc: Global, texts: &[&str]) -> Result<Value, AllocError>
    ensures { IfOk result (λ v. view v ≡ texts_value (map (λ text. text.now) texts.now)) }
{
    let mut items = Vec::new(alloc);
    for text in texts {
        items.push(Value::try_from_str(alloc, text)?)?;
    }
    Ok(Value::from(items))
}
