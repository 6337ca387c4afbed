//! A law on the definitions of this crate. The function does nothing; its contract is the law.
ghost use Rattle.std.specs.Prelude.{◌≡◌, ℕ, List, Option};
ghost use Rattle.luks_signatures.specs.Signatures.{Finds, table};

use crate::other_use::OtherUse;

/// The table finds one thing in the same bytes: one first use, or none.
pub fn one_first_use()
    ensures { (v : List ℕ) (a b : Option OtherUse) → Finds table v a → Finds table v b → a ≡ b }
{}
