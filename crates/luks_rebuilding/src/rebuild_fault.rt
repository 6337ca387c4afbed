//! Why no header is made of a volume's metadata.
ghost use Rattle.std.specs.Prelude.{◌≡◌};

use luks_area::{AreaFault, DeviceFault};
use std::alloc::AllocError;
use std::error::Error;
use std::fmt;

/// Why no header is made of a volume's metadata: the first in this order, except for a failed allocation and
/// a device's failure.
///
/// All but a device's failure leave every byte of the target as it was. None changes the source.
#[derive(Debug, Clone, Copy, Drop)]
pub enum RebuildFault {
    /// A header of the source counts, and neither the second copy nor a size is asked for.
    Counts,
    /// The source has no metadata that is whole at a place that is asked for.
    NoMetadata,
    /// The areas of the header and its keyslots don't fit into the source.
    Area(AreaFault),
    /// The target ends before the region of the key areas does.
    TooSmall,
    /// The uuid that is given isn't one.
    Uuid,
    /// The random bytes aren't exactly 144.
    RandomLength,
    /// Memory was refused.
    Memory,
    /// A call of one of the two devices failed.
    Device,
}

impl fmt::Display for RebuildFault {
    ghost use Rattle.std.specs.Prelude.{Some};
    ghost use Rattle.luks_rebuilding.specs.FaultTexts.{rebuild_fault_text};

    ghost output = { λ f. Some (rebuild_fault_text f) };

    fn fmt<W: fmt::Write>(&self, f: &mut fmt::Formatter<W>) -> fmt::Result {
        match self {
            RebuildFault::Counts => f.write_str("Counts"),
            RebuildFault::NoMetadata => f.write_str("NoMetadata"),
            RebuildFault::Area(fault) => write!(f, "{fault}"),
            RebuildFault::TooSmall => f.write_str("TooSmall"),
            RebuildFault::Uuid => f.write_str("Uuid"),
            RebuildFault::RandomLength => f.write_str("RandomLength"),
            RebuildFault::Memory => f.write_str("Memory"),
            RebuildFault::Device => f.write_str("Device"),
        }
    }
}

impl Error for RebuildFault {}

impl From<DeviceFault> for RebuildFault {
    ghost use Rattle.luks_rebuilding.specs.declared.rebuild_fault.RebuildFault.{RebuildFault};

    ghost from_gives = { λ _ fault. fault ≡ RebuildFault.Device };

    fn from(_: DeviceFault) -> RebuildFault {
        RebuildFault::Device
    }
}

impl From<AllocError> for RebuildFault {
    ghost use Rattle.luks_rebuilding.specs.declared.rebuild_fault.RebuildFault.{RebuildFault};

    ghost from_gives = { λ _ fault. fault ≡ RebuildFault.Memory };

    fn from(_: AllocError) -> RebuildFault {
        RebuildFault::Memory
    }
}

impl From<AreaFault> for RebuildFault {
    ghost use Rattle.luks_rebuilding.specs.declared.rebuild_fault.RebuildFault.{RebuildFault};

    ghost from_gives = { λ fault outer. outer ≡ RebuildFault.Area fault };

    fn from(fault: AreaFault) -> RebuildFault {
        RebuildFault::Area(fault)
    }
}
