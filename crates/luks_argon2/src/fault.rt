//! Why no tag is made.

ghost use Rattle.std.specs.Prelude.{◌≡◌};

use std::alloc::AllocError;
use thiserror::Error;

/// Why no tag is made.
#[derive(Debug, Clone, Copy, PartialEq, Eq, Drop, Error)]
pub enum Argon2Fault {
    /// The memory that was asked for was refused.
    #[error("Memory")]
    Memory,
}

impl From<AllocError> for Argon2Fault {
    ghost use Rattle.luks_argon2.specs.declared.fault.Argon2Fault.{Argon2Fault};

    ghost from_gives = { λ _ outer. outer ≡ Argon2Fault.Memory };

    fn from(_: AllocError) -> Argon2Fault {
        Argon2Fault::Memory
    }
}
