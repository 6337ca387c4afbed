//! Laws on the definitions of this crate. Each function does nothing; its contract is the law.

ghost use Rattle.std.specs.Prelude.{◌≡◌, ℕ, List};
ghost use Rattle.serde_json.specs.Data.{Data};
ghost use Rattle.luks_rules.specs.Accepted.{IsMeta};
ghost use Rattle.luks_meta.specs.Naming.{IsDigestOf};

/// At most one digest of accepted metadata names a keyslot.
pub fn one_digest()
    ensures { (area : List ℕ) (j : Data) → IsMeta area j
        → (n m k : ℕ) → IsDigestOf j n m → IsDigestOf j n k → m ≡ k }
{}
