//! Laws on which keyslots are kept. Each function does nothing; its contract is the law.
ghost use Rattle.std.specs.Prelude.{◌≡◌, ◌≢◌, ◌⊎◌, ◌↔◌, ℕ, Bool, List};
ghost use Rattle.luks_area.specs.Area.{Meet};
ghost use Rattle.luks1_mending.specs.Areas.{own_area};
ghost use Rattle.luks1_mending.specs.Kept.{AreKept, IsBeforeAndMeets, IsKept, IsSound};
ghost use Rattle.luks1_mending.specs.MeetsNone.{MeetsNoneBefore};

/// There is exactly one set of kept keyslots for any bytes.
pub fn kept_keyslots_are_one_set()
    ensures there { (h : List ℕ) (k total : ℕ) → (kept : ℕ → Bool) × AreKept h k total kept }
    ensures one { (h : List ℕ) (k total : ℕ) (a b : ℕ → Bool) → AreKept h k total a → AreKept h k total b
        → (n : ℕ) → a n ≡ b n }
{}

/// The areas of keyslots that are kept are apart; each sound keyslot that isn't kept meets one before it that
/// is. So a keyslot is kept exactly where it is sound and yields to none that is kept.
pub fn kept_keyslots_are_apart()
    ensures apart { (h : List ℕ) (k total m n : ℕ) → m ≢ n → IsKept h k total m → IsKept h k total n
        → Meet (own_area h k m) (own_area h k n) → ⊥ }
    ensures rest { (h : List ℕ) (k total n : ℕ) → IsSound h k total n
        → IsKept h k total n ⊎ ((m : ℕ) × (IsKept h k total m × IsBeforeAndMeets h k m n)) }
    ensures exactly { (h : List ℕ) (k total n : ℕ) → IsKept h k total n
        ↔ (IsSound h k total n × ((m : ℕ) → IsKept h k total m → IsBeforeAndMeets h k m n → ⊥)) }
{}

/// A keyslot is kept that meets no sound one before it: nothing is lost that would be kept if each yielded to
/// every sound one before it.
pub fn keyslot_that_meets_none_is_kept()
    ensures { (h : List ℕ) (k total n : ℕ) → MeetsNoneBefore h k total n → IsKept h k total n }
{}
