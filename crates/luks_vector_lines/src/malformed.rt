//! Why a line is malformed.
ghost use Rattle.std.specs.Prelude.{IsTrue, OnOk};

use std::alloc::AllocError;
use thiserror::Error;

/// Why a line is none that can be answered.
#[derive(Debug, Clone, Copy, PartialEq, Eq, Error)]
pub enum Malformed {
    /// The first word is the name of no function.
    #[error("no such function")]
    Function,
    /// The function takes more words.
    #[error("a word is missing")]
    WordMissing,
    /// The function takes fewer words.
    #[error("a word too many")]
    WordLeft,
    /// A word stands for no bytes.
    #[error("a word stands for no bytes")]
    Bytes,
    /// A word is no number, or one that is too large.
    #[error("a word is no number in range")]
    Number,
    /// A word is none of the names that may stand there.
    #[error("no such name")]
    Name,
    /// The function's contract doesn't allow what it is given.
    #[error("outside of what the function takes")]
    Outside,
    /// There is no memory for the line.
    #[error("no memory")]
    Memory,
}

impl From<AllocError> for Malformed {
    ghost use Rattle.std.specs.Prelude.{◌≡◌};
    ghost use Rattle.luks_vector_lines.specs.declared.malformed.Malformed.{Malformed};

    ghost from_gives = { λ _ outer. outer ≡ Malformed.Memory };

    fn from(_: AllocError) -> Malformed {
        Malformed::Memory
    }
}

/// `Outside` where a condition of a function doesn't hold.
pub fn demand(holds: bool) -> Result<(), Malformed>
    ensures { OnOk result (IsTrue holds) }
{
    if holds {
        Ok(())
    } else {
        Err(Malformed::Outside)
    }
}
