//! What of a file a search couldn't read.
ghost use Rattle.std.specs.Prelude.{◌≡◌, ◌<◌, ◌*◌};
ghost use Rattle.luks_find_command.specs.Unreads.{named};

use luks_finding::Passed;
use std::fmt;

/// Bytes of a file of which a search tells nothing.
#[derive(Clone, Copy, PartialEq, Eq)]
pub struct Unread {
    /// The first of them.
    pub first: u128,
    /// The last one.
    pub last: u128,
    /// Whether they themselves were read: a sign may begin there, but not all that it needs could be read.
    pub is_read: bool,
}

impl fmt::Display for Unread {
    ghost use Rattle.std.specs.Prelude.{Some};
    ghost use Rattle.luks_find_command.specs.Unreads.{unread_text};

    ghost output = { λ u. Some (unread_text u) };

    fn fmt<W: fmt::Write>(&self, f: &mut fmt::Formatter<W>) -> fmt::Result {
        if self.is_read {
            write!(
                f,
                "what may begin at byte {} can't be judged, since not all of it can be read",
                self.first
            )
        } else {
            write!(
                f,
                "bytes {} to {} couldn't be read, the search goes on behind them",
                self.first, self.last
            )
        }
    }
}

/// The bytes of the sectors that were passed over, of a device of `total` bytes that begins at the byte
/// `offset` of its file.
pub(crate) fn unread_of(passed: Passed, offset: u64, total: u64) -> Unread
    requires some { passed.from < passed.to }
    requires inside { 512 * passed.from < total }
    ensures { result ≡ named offset total passed }
{
    let start = u128::from(offset);
    let end = (512 * u128::from(passed.to)).min(u128::from(total));
    Unread {
        first: start + 512 * u128::from(passed.from),
        last: start + (end - 1),
        is_read: passed.is_read,
    }
}
