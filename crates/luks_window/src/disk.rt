ghost use Rattle.std.specs.Prelude.{ℕ, List, []};

use std::marker::Brand;

/// A disk as it is when a window of it is taken, and where the window lies. No code holds these: a
/// type of windows says by them, for as long as one lives, that nothing beside it has changed.
///
/// Who takes a window picks them: a function that is generic over `K: Disk` makes a `Window<D, K>`,
/// is called with `Brand`, and the proof of that call names the device's own bytes.
pub trait Disk {
    /// The bytes of the disk.
    ghost bytes: { List ℕ };

    /// The places of the disk that are unsettled.
    ghost unsettled: { ℕ → Type 0 };

    /// Where the window begins, in bytes from the disk's start.
    ghost start: { ℕ };

    /// The length of the window in bytes.
    ghost len: { ℕ };
}

impl Disk for Brand {
    ghost bytes = { [] };

    ghost unsettled = { λ _. ⊥ };

    ghost start = { 0 };

    ghost len = { 0 };
}
