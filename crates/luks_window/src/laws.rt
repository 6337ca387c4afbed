//! Laws on the definitions of this crate. Each function does nothing; its contract is the law.
ghost use Rattle.std.specs.Prelude.{ℕ, List};
ghost use Rattle.luks_area.specs.Ranges.{part, IsAt, IsOfEither, SameBut, SameOutside};
ghost use Rattle.luks_window.specs.Cut.{places_behind, StaysInside};

use crate::disk::Disk;

/// Some places of a window, for a law on any.
pub trait Places {
    /// The places, in bytes from the window's start.
    ghost places: { ℕ → Type 0 };
}

/// If a disk had no place unsettled when a window of it was taken, no byte outside the window has
/// changed. If only some places of the window have changed, only these places of the disk have. So
/// what is said of a volume in a window holds of the disk.
pub fn nothing_beside_changes<K: Disk, P: Places>()
    ensures taken { StaysInside K.bytes K.unsettled K.start K.len K.bytes K.unsettled }
    ensures beside { (now : List ℕ) → ((p : ℕ) → K.unsettled p → ⊥)
        → SameBut (IsOfEither K.unsettled (IsAt K.start K.len)) K.bytes now
        → SameOutside K.bytes now K.start K.len }
    ensures named { (now : List ℕ) → ((p : ℕ) → K.unsettled p → ⊥)
        → SameBut (IsOfEither K.unsettled (IsAt K.start K.len)) K.bytes now
        → SameBut P.places (part K.bytes K.start K.len) (part now K.start K.len)
        → SameBut (places_behind K.start P.places) K.bytes now }
{}
