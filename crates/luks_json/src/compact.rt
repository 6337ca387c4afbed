//! The text of a value.

ghost use Rattle.std.specs.Prelude.{◌≡◌, ◌≢◌, ◌≤◌, false, All, Some, IfOk, string_bytes};
ghost use Rattle.serde_json.specs.Data.{depth};
ghost use Rattle.serde_json.specs.Read.{read, max_depth};
ghost use Rattle.serde_json.specs.View.{view};
ghost use Rattle.serde_json.specs.Written.{has_float, compact_text};

use serde_json::Value;
use std::alloc::{AllocError, Global};

/// The text of the value, with no white space outside its texts.
pub fn compact_text_of(alloc: Global, value: &Value) -> Result<String, AllocError>
    requires whole { has_float (view value.now) ≡ false }
    requires nests { depth (view value.now) ≤ max_depth }
    ensures text { IfOk result (λ s. string_bytes s ≡ compact_text (view value.now)) }
    ensures no_zero { IfOk result (λ s. All (λ c. c ≢ 0) (string_bytes s)) }
    ensures back { IfOk result (λ s. read (string_bytes s) ≡ Some (view value.now)) }
{
    value.to_string(alloc)
}
