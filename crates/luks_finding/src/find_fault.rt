//! Why a search ends before the disk does.
ghost use Rattle.std.specs.Prelude.{◌≡◌};

use luks_area::DeviceFault;
use std::alloc::AllocError;
use std::error::Error;
use std::fmt;

/// Why a search ends before the disk does.
#[derive(Debug, Clone, Copy, PartialEq, Eq)]
pub enum FindFault {
    /// Memory was refused.
    Memory,
    /// A device call failed.
    Device,
}

impl fmt::Display for FindFault {
    ghost use Rattle.std.specs.Prelude.{Some};
    ghost use Rattle.luks_finding.specs.Faults.{find_fault_text};

    ghost output = { λ f. Some (find_fault_text f) };

    fn fmt<W: fmt::Write>(&self, f: &mut fmt::Formatter<W>) -> fmt::Result {
        match self {
            FindFault::Memory => f.write_str("Memory"),
            FindFault::Device => f.write_str("Device"),
        }
    }
}

impl Error for FindFault {}

impl From<DeviceFault> for FindFault {
    ghost use Rattle.luks_finding.specs.declared.find_fault.FindFault.{FindFault};

    ghost from_gives = { λ _ fault. fault ≡ FindFault.Device };

    fn from(_: DeviceFault) -> FindFault {
        FindFault::Device
    }
}

impl From<AllocError> for FindFault {
    ghost use Rattle.luks_finding.specs.declared.find_fault.FindFault.{FindFault};

    ghost from_gives = { λ _ fault. fault ≡ FindFault.Memory };

    fn from(_: AllocError) -> FindFault {
        FindFault::Memory
    }
}
