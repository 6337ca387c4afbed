ghost use Rattle.std.specs.Prelude.{◌≡◌, Some};
ghost use Rattle.luks_reading.specs.Conversions.{head_unread, unread_checked};
ghost use Rattle.luks_reading.specs.FaultTexts.{check_fault_text};

use crate::read_fault::ReadFault;
use luks_area::AreaFault;
use luks_meta::MetaFault;
use luks2_header::HeadFault;
use std::error::Error;
use std::fmt;

/// Why a volume isn't accepted.
///
/// The faults of the header come first, then those of the metadata, then those of the areas. The
/// device's failure and a failed allocation are answered as such, wherever they were met.
#[derive(Debug, Clone, Copy, Drop)]
pub enum CheckFault {
    /// The header breaks a rule.
    Head(HeadFault),
    /// The metadata breaks a rule, or a segment begins before the end of the key areas' region.
    Meta(MetaFault),
    /// The areas don't fit into the volume.
    Area(AreaFault),
    /// A device call failed.
    Device,
    /// Memory was refused.
    Memory,
}

impl fmt::Display for CheckFault {
    ghost output = { λ f. Some (check_fault_text f) };

    fn fmt<W: fmt::Write>(&self, f: &mut fmt::Formatter<W>) -> fmt::Result {
        match self {
            CheckFault::Head(fault) => write!(f, "{fault}"),
            CheckFault::Meta(fault) => write!(f, "{fault}"),
            CheckFault::Area(fault) => write!(f, "{fault}"),
            CheckFault::Device => f.write_str("Device"),
            CheckFault::Memory => f.write_str("Memory"),
        }
    }
}

impl Error for CheckFault {}

impl From<ReadFault> for CheckFault {
    ghost from_gives = { λ fault outer. outer ≡ unread_checked fault };

    fn from(fault: ReadFault) -> CheckFault {
        match fault {
            ReadFault::Head(fault) => CheckFault::Head(fault),
            ReadFault::Meta(fault) => CheckFault::Meta(fault),
            ReadFault::Device => CheckFault::Device,
            ReadFault::Memory => CheckFault::Memory,
        }
    }
}

impl From<HeadFault> for CheckFault {
    ghost from_gives = { λ fault outer. outer ≡ unread_checked (head_unread fault) };

    fn from(fault: HeadFault) -> CheckFault {
        CheckFault::from(ReadFault::from(fault))
    }
}

impl From<AreaFault> for CheckFault {
    ghost use Rattle.luks_reading.specs.declared.check_fault.CheckFault.{CheckFault};

    ghost from_gives = { λ fault outer. outer ≡ CheckFault.Area fault };

    fn from(fault: AreaFault) -> CheckFault {
        CheckFault::Area(fault)
    }
}
