//! How far a search is, what of the file it couldn't read, and which volumes have one uuid.
ghost use Rattle.std.specs.Prelude.{◌≡◌, ◌∷◌, [], List, Option};
ghost use Rattle.luks_find_command.specs.Unreads.{Hears};
ghost use Rattle.luks_find_command.specs.declared.same_uuid.SameUuid.{SameUuid};
ghost use Rattle.luks_find_command.specs.declared.unread.Unread.{Unread};

use crate::same_uuid::SameUuid;
use crate::unread::Unread;

/// Who is told how far a search is, what it passes over, and which volumes that it found have one uuid.
pub trait Progress {
    /// What it was told that was passed over, where that is known.
    ghost heard: { Self → Option (List Unread) };

    /// Which volumes it was told have one uuid, where that is known.
    ghost paired: { Self → Option (List SameUuid) };

    /// The first `at` of the `total` bytes have been looked at.
    fn looked(&mut self, at: u64, total: u64)
        ensures heard { heard self.new ≡ heard self.old }
        ensures paired { paired self.new ≡ paired self.old };

    /// A line is about to be printed: what was shown of the search makes room.
    fn clear(&mut self)
        ensures heard { heard self.new ≡ heard self.old }
        ensures paired { paired self.new ≡ paired self.old };

    /// The search passes these bytes of the file over.
    fn pass(&mut self, unread: Unread)
        ensures heard { Hears (heard self.old) (heard self.new) (unread ∷ []) }
        ensures paired { paired self.new ≡ paired self.old };

    /// The line of the second of these two has been printed.
    fn pair(&mut self, pair: SameUuid)
        ensures heard { heard self.new ≡ heard self.old }
        ensures paired { Hears (paired self.old) (paired self.new) (pair ∷ []) };
}

/// Tells nobody.
#[derive(Clone, Copy)]
pub struct Untold;

impl Progress for Untold {
    ghost use Rattle.std.specs.Prelude.{None};

    ghost heard = { λ _. None };

    ghost paired = { λ _. None };

    fn looked(&mut self, _at: u64, _total: u64) {}

    fn clear(&mut self) {}

    fn pass(&mut self, _unread: Unread) {}

    fn pair(&mut self, _pair: SameUuid) {}
}
