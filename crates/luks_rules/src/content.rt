//! The metadata that a JSON area holds.

ghost use Rattle.std.specs.Prelude.{◌≡◌, ◌≢◌, ◌≤◌, ℕ, List, length, IfOk, IfErr};
ghost use Rattle.serde_json.specs.Data.{Data};
ghost use Rattle.serde_json.specs.View.{view};
ghost use Rattle.luks_area.specs.First.{IsLeast};
ghost use Rattle.luks_json.specs.AreaText.{JsonText};
ghost use Rattle.luks_rules.specs.Accepted.{IsMeta};
ghost use Rattle.luks_rules.specs.Held.{IsHeld};
ghost use Rattle.luks_rules.specs.MetaFault.{IsMetaFault, meta_key};

use crate::fault::MetaFault;
use crate::judging::judge;
use crate::place::Content;
use luks_json::read_json;
use serde_json::Value;
use std::alloc::Global;

/// The metadata of a JSON area, which is a listed header size less 4096 bytes long (LUKS2 On-Disk
/// Format 1.1, section 3).
///
/// Takes memory for the value alone. `Memory` is answered only where it was refused; every other
/// fault is the first of the area.
pub fn read_content(alloc: Global, area: &[u8]) -> Result<Value, MetaFault>
    ensures found { IfOk result (λ v. IsMeta area.now (view v)) }
    ensures held { IfOk result (λ v. IsHeld (length area.now) (view v)) }
    ensures faultless { IfOk result (λ v. (f : MetaFault) → IsMetaFault area.now f → ⊥) }
    ensures fault { IfErr result (λ f. f ≢ MetaFault.Memory → IsLeast meta_key (IsMetaFault area.now) f) }
    ensures only { (j : Data) → IsMeta area.now j → IfErr result (λ f. f ≡ MetaFault.Memory) }
    ensures memory { IfErr result (λ f. f ≡ MetaFault.Memory → (text : List ℕ) × JsonText area.now text) }
{
    let value = read_json(alloc, area)?;
    let content = Content {
        len: area.len(),
        value: &value,
    };
    judge(content)?;
    Ok(value)
}
