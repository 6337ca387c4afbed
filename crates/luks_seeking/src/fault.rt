//! Why a step of the search for fragments isn't made.
use luks_area::DeviceFault;
use std::alloc::AllocError;

/// Why a step of the search for fragments isn't made.
#[derive(Debug, Clone, Copy, PartialEq, Eq)]
pub enum SeekFault {
    /// Memory was refused.
    Memory,
    /// A device call failed.
    Device,
}

impl From<DeviceFault> for SeekFault {
    ghost use Rattle.std.specs.Prelude.{◌≡◌};
    ghost use Rattle.luks_seeking.specs.declared.fault.SeekFault.{SeekFault};

    ghost from_gives = { λ _ fault. fault ≡ SeekFault.Device };

    fn from(_: DeviceFault) -> SeekFault {
        SeekFault::Device
    }
}

impl From<AllocError> for SeekFault {
    ghost use Rattle.std.specs.Prelude.{◌≡◌};
    ghost use Rattle.luks_seeking.specs.declared.fault.SeekFault.{SeekFault};

    ghost from_gives = { λ _ fault. fault ≡ SeekFault.Memory };

    fn from(_: AllocError) -> SeekFault {
        SeekFault::Memory
    }
}
