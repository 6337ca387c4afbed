//! Laws on the definitions of this crate. Each function does nothing; its contract is the law.
ghost use Rattle.std.specs.Prelude.{◌≡◌, List, ℕ};
ghost use Rattle.luks1_header.specs.Header1.{HasMagic};
ghost use Rattle.luks2_header.specs.Header2.{IsSound};
ghost use Rattle.luks_writing.specs.Cleared.{IsCleared};

/// No header counts whose first sector is cleared: no copy of LUKS2 is sound there, and at the start
/// of the volume there is no LUKS1 header.
pub fn cleared_counts_no_more()
    ensures copy { (v : List ℕ) (at : ℕ) → IsCleared v at → IsSound v at → ⊥ }
    ensures luks1 { (v : List ℕ) → IsCleared v 0 → HasMagic v → ⊥ }
{}
