//! The value that a JSON area holds.

ghost use Rattle.std.specs.Prelude.{◌≤◌, IfOk, IfErr};
ghost use Rattle.serde_json.specs.Data.{depth};
ghost use Rattle.serde_json.specs.Read.{max_depth};
ghost use Rattle.serde_json.specs.View.{view};
ghost use Rattle.luks_json.specs.AreaText.{IsJsonFault, Json};

use crate::area_text::json_text;
use crate::fault::JsonFault;
use serde_json::{Category, Value};
use std::alloc::Global;

/// The value that the area holds (LUKS2 On-Disk Format 1.1, section 3.1; RFC 8259).
///
/// Memory is taken for the value alone, where a text is in the area.
pub fn read_json(alloc: Global, area: &[u8]) -> Result<Value, JsonFault>
    ensures json { IfOk result (λ v. Json area.now (view v)) }
    ensures nests { IfOk result (λ v. depth (view v) ≤ max_depth) }
    ensures fault { IfErr result (IsJsonFault area.now) }
{
    let Some(text) = json_text(area) else {
        return Err(JsonFault::JsonArea);
    };
    match Value::from_slice(alloc, text) {
        Ok(value) => Ok(value),
        Err(error) => match error.classify() {
            Category::Memory => Err(JsonFault::Memory),
            _ => Err(JsonFault::BadJson),
        },
    }
}
