//! Laws on the definitions of this crate. Each function does nothing; its contract is the law.

ghost use Rattle.std.specs.Prelude.{◌≡◌, false};
ghost use Rattle.serde_json.specs.Data.{Data};
ghost use Rattle.luks_contradictions.specs.Consistent.{IsConsistent};
ghost use Rattle.luks_contradictions.specs.Contradicted.{AreWideSegments, contradicts};

use crate::contradiction::Contradiction;

/// If the segments of metadata have the members that they have to have, what is under way
/// contradicts itself nowhere exactly if it is consistent.
pub fn consistent_without_contradictions()
    ensures consistent { (j : Data) → AreWideSegments j → ((p : Contradiction) → contradicts j p ≡ false) → IsConsistent j }
    ensures nowhere { (j : Data) → AreWideSegments j → IsConsistent j → (p : Contradiction) → contradicts j p ≡ false }
{}
