//! Why a search is broken off.
use crate::tally::Spent;
use luks_area::DeviceFault;
use std::alloc::AllocError;

/// Why a search is broken off.
#[derive(Debug, Clone, Copy, PartialEq, Eq)]
pub enum SearchFault {
    /// Memory was refused.
    Memory,
    /// A device call failed.
    Device,
    /// As many derivations were made as may be, and not all was tried.
    Spent,
}

impl From<DeviceFault> for SearchFault {
    ghost use Rattle.std.specs.Prelude.{◌≡◌};
    ghost use Rattle.luks_trials.specs.declared.fault.SearchFault.{SearchFault};

    ghost from_gives = { λ _ fault. fault ≡ SearchFault.Device };

    fn from(_: DeviceFault) -> SearchFault {
        SearchFault::Device
    }
}

impl From<Spent> for SearchFault {
    ghost use Rattle.std.specs.Prelude.{◌≡◌};
    ghost use Rattle.luks_trials.specs.declared.fault.SearchFault.{SearchFault};

    ghost from_gives = { λ _ fault. fault ≡ SearchFault.Spent };

    fn from(_: Spent) -> SearchFault {
        SearchFault::Spent
    }
}

impl From<AllocError> for SearchFault {
    ghost use Rattle.std.specs.Prelude.{◌≡◌};
    ghost use Rattle.luks_trials.specs.declared.fault.SearchFault.{SearchFault};

    ghost from_gives = { λ _ fault. fault ≡ SearchFault.Memory };

    fn from(_: AllocError) -> SearchFault {
        SearchFault::Memory
    }
}
