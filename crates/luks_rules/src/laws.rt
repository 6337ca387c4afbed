//! Laws on the definitions of this crate. Each function does nothing; its contract is the law.

ghost use Rattle.std.specs.Prelude.{◌≡◌, ◌↔◌, ℕ, List};
ghost use Rattle.serde_json.specs.Data.{Data};
ghost use Rattle.luks_rules.specs.declared.fault.MetaFault.{MetaFault};
ghost use Rattle.luks_rules.specs.Accepted.{IsMeta};
ghost use Rattle.luks_rules.specs.MetaFault.{IsMetaFault};

/// An area has no fault exactly where it holds a value that is accepted.
pub fn metadata_without_faults()
    ensures { (area : List ℕ) → ((f : MetaFault) → IsMetaFault area f → ⊥) ↔ ((j : Data) × IsMeta area j) }
{}
