//! The metadata that a JSON area holds, by the rules of what is under way.

ghost use Rattle.std.specs.Prelude.{◌≡◌, ◌≢◌, ℕ, List, length, IfOk, IfErr};
ghost use Rattle.serde_json.specs.Data.{Data};
ghost use Rattle.serde_json.specs.View.{view};
ghost use Rattle.luks_area.specs.First.{IsLeast};
ghost use Rattle.luks_json.specs.AreaText.{JsonText};
ghost use Rattle.luks_rules.specs.MetaFault.{meta_key};
ghost use Rattle.luks_wider.specs.Accepted.{IsWideArea};
ghost use Rattle.luks_wider.specs.WideFaults.{IsWideHeld, IsWideMetaFault};

use crate::judging::{Content, judge_members};
use luks_json::read_json;
use luks_rules::MetaFault;
use serde_json::Value;
use std::alloc::Global;

/// The metadata of a JSON area, by the rules of what is under way. What contradicts itself isn't judged.
///
/// Takes memory for the value alone. `Memory` is answered only where it was refused; every other
/// fault is the first of the area.
pub fn read_members(alloc: Global, area: &[u8]) -> Result<Value, MetaFault>
    ensures found { IfOk result (λ v. IsWideArea area.now (view v)) }
    ensures held { IfOk result (λ v. IsWideHeld (length area.now) (view v)) }
    ensures faultless { IfOk result (λ v. (f : MetaFault) → IsWideMetaFault area.now f → ⊥) }
    ensures fault { IfErr result (λ f. f ≢ MetaFault.Memory → IsLeast meta_key (IsWideMetaFault area.now) f) }
    ensures only { (j : Data) → IsWideArea area.now j → IfErr result (λ f. f ≡ MetaFault.Memory) }
    ensures memory { IfErr result (λ f. f ≡ MetaFault.Memory → (text : List ℕ) × JsonText area.now text) }
{
    let value = read_json(alloc, area)?;
    let content = Content {
        len: area.len(),
        value: &value,
    };
    judge_members(content)?;
    Ok(value)
}
