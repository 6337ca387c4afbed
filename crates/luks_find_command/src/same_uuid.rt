//! Two volumes of one uuid.
use std::fmt;

/// Two volumes of one uuid: the bytes of the file where they begin.
#[derive(Clone, Copy, PartialEq, Eq)]
pub struct SameUuid {
    /// Of the one that was found first.
    pub first: u128,
    /// Of the other one.
    pub second: u128,
}

impl fmt::Display for SameUuid {
    ghost use Rattle.std.specs.Prelude.{Some};
    ghost use Rattle.luks_find_command.specs.SameUuids.{same_uuid_text};

    ghost output = { λ t. Some (same_uuid_text t) };

    fn fmt<W: fmt::Write>(&self, f: &mut fmt::Formatter<W>) -> fmt::Result {
        write!(
            f,
            "the volumes at bytes {} and {} have the same uuid: a move broke off, or one is a copy of the header",
            self.first, self.second
        )
    }
}
