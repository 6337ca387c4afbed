//! Laws on the definitions of this crate. Each function does nothing; its contract is the law.

ghost use Rattle.std.specs.Prelude.{ℕ};
ghost use Rattle.serde_json.specs.Data.{Data};
ghost use Rattle.luks_rules.specs.Accepted.{IsContent};
ghost use Rattle.luks_underway.specs.Kinds.{IsUnderWay};

/// Nothing is under way in metadata that the rules of `luks_rules` accept: so the wider reading changes
/// nothing of it.
pub fn accepted_is_not_under_way()
    ensures { (len : ℕ) (j : Data) → IsContent len j → IsUnderWay j → ⊥ }
{}
