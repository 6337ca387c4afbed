//! The first fault of a value that is to be in a JSON area.

ghost use Rattle.std.specs.Prelude.{IfErr, OnOk};
ghost use Rattle.serde_json.specs.View.{view};
ghost use Rattle.luks_area.specs.First.{IsLeast};
ghost use Rattle.luks_rules.specs.Held.{IsHeld};
ghost use Rattle.luks_rules.specs.MetaFault.{meta_key};
ghost use Rattle.luks_rules.specs.Valued.{IsValueFault};

use crate::fault::MetaFault;
use crate::judging::judge;
use crate::nesting::nests_within;
use crate::place::Content;
use serde_json::Value;

/// The first fault of a value that is to be in an area of `len` bytes. One that nests deeper than 127
/// levels is `BadJson`, since its text isn't read.
#[tactic(auto, using(crate::proofs::ValueFacts::above, crate::proofs::ValueFacts::deep_least, crate::proofs::ValueFacts::judged_held, crate::proofs::ValueFacts::judged_fault, crate::proofs::ValueFacts::judged_only))]
pub fn judge_value(len: usize, value: &Value) -> Result<(), MetaFault>
    ensures held { OnOk result (IsHeld len (view value.now)) }
    ensures fault { IfErr result (λ f. IsLeast meta_key (IsValueFault len (view value.now)) f) }
    ensures only { IsHeld len (view value.now) → IfErr result (λ f. ⊥) }
{
    if !nests_within(value, 127) {
        return Err(MetaFault::BadJson);
    }
    judge(Content { len, value })
}
