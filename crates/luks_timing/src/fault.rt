//! Why no cost is found.
ghost use Rattle.std.specs.Prelude.{◌≡◌};

use luks_argon2::Argon2Fault;
use std::io;
use thiserror::Error;

/// Why no cost is found.
#[derive(Debug, Drop, Error)]
pub enum CostFault {
    /// The clock can't be read.
    #[error("the clock can't be read: {0}")]
    Clock(io::Error),
    /// The memory that Argon2 was to take was refused.
    #[error("Memory")]
    Memory,
}

impl From<io::Error> for CostFault {
    ghost use Rattle.luks_timing.specs.declared.fault.CostFault.{CostFault};

    ghost from_gives = { λ error fault. fault ≡ CostFault.Clock error };

    fn from(error: io::Error) -> CostFault {
        CostFault::Clock(error)
    }
}

impl From<Argon2Fault> for CostFault {
    fn from(_: Argon2Fault) -> CostFault {
        CostFault::Memory
    }
}
