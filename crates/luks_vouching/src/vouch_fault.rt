//! Why the search for what a checksum vouches for is broken off.
ghost use Rattle.std.specs.Prelude.{◌≡◌};

use luks_area::DeviceFault;
use std::alloc::AllocError;
use std::error::Error;
use std::fmt;

/// Why the search for what a checksum vouches for is broken off.
#[derive(Debug, Clone, Copy, PartialEq, Eq)]
pub enum VouchFault {
    /// Memory was refused.
    Memory,
    /// A device call failed.
    Device,
}

impl fmt::Display for VouchFault {
    ghost use Rattle.std.specs.Prelude.{Some};
    ghost use Rattle.luks_vouching.specs.Faults.{vouch_fault_text};

    ghost output = { λ f. Some (vouch_fault_text f) };

    fn fmt<W: fmt::Write>(&self, f: &mut fmt::Formatter<W>) -> fmt::Result {
        match self {
            VouchFault::Memory => f.write_str("Memory"),
            VouchFault::Device => f.write_str("Device"),
        }
    }
}

impl Error for VouchFault {}

impl From<DeviceFault> for VouchFault {
    ghost use Rattle.luks_vouching.specs.declared.vouch_fault.VouchFault.{VouchFault};

    ghost from_gives = { λ _ fault. fault ≡ VouchFault.Device };

    fn from(_: DeviceFault) -> VouchFault {
        VouchFault::Device
    }
}

impl From<AllocError> for VouchFault {
    ghost use Rattle.luks_vouching.specs.declared.vouch_fault.VouchFault.{VouchFault};

    ghost from_gives = { λ _ fault. fault ≡ VouchFault.Memory };

    fn from(_: AllocError) -> VouchFault {
        VouchFault::Memory
    }
}
