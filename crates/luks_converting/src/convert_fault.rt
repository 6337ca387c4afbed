//! Why a volume isn't converted.
ghost use Rattle.std.specs.Prelude.{◌≡◌};
ghost use Rattle.luks_reading.specs.Conversions.{unread_checked};
ghost use Rattle.luks_converting.specs.ConvertFaults.{checked_convert};

use luks_area::DeviceFault;
use luks_reading::{CheckFault, ReadFault};
use std::error::Error;
use std::fmt;

/// Why a volume isn't converted: the first in this order, except for a failed allocation and a device's
/// failure.
///
/// All but a device's failure leave every byte of the target as it was. None changes the source.
#[derive(Debug, Clone, Copy, Drop)]
pub enum ConvertFault {
    /// `check` refuses the source.
    NotAccepted(CheckFault),
    /// The source is a LUKS2 volume.
    NotLuks1,
    /// The target has fewer than 16777216 bytes.
    TooSmall,
    /// The new key areas would end past 16777216.
    NoRoom,
    /// The metadata is longer than the JSON area holds: by a law that never comes.
    MetadataFull,
    /// The random bytes aren't exactly 128.
    RandomLength,
    /// Memory was refused.
    Memory,
    /// A call of one of the two devices failed.
    Device,
}

impl fmt::Display for ConvertFault {
    ghost use Rattle.std.specs.Prelude.{Some};
    ghost use Rattle.luks_converting.specs.FaultTexts.{convert_fault_text};

    ghost output = { λ f. Some (convert_fault_text f) };

    fn fmt<W: fmt::Write>(&self, f: &mut fmt::Formatter<W>) -> fmt::Result {
        match self {
            ConvertFault::NotAccepted(fault) => write!(f, "{fault}"),
            ConvertFault::NotLuks1 => f.write_str("NotLuks1"),
            ConvertFault::TooSmall => f.write_str("TooSmall"),
            ConvertFault::NoRoom => f.write_str("NoRoom"),
            ConvertFault::MetadataFull => f.write_str("MetadataFull"),
            ConvertFault::RandomLength => f.write_str("RandomLength"),
            ConvertFault::Memory => f.write_str("Memory"),
            ConvertFault::Device => f.write_str("Device"),
        }
    }
}

impl Error for ConvertFault {}

impl From<DeviceFault> for ConvertFault {
    ghost use Rattle.luks_converting.specs.declared.convert_fault.ConvertFault.{ConvertFault};

    ghost from_gives = { λ _ fault. fault ≡ ConvertFault.Device };

    fn from(_: DeviceFault) -> ConvertFault {
        ConvertFault::Device
    }
}

impl From<CheckFault> for ConvertFault {
    ghost from_gives = { λ fault outer. outer ≡ checked_convert fault };

    fn from(fault: CheckFault) -> ConvertFault {
        match fault {
            CheckFault::Head(_) | CheckFault::Meta(_) | CheckFault::Area(_) => {
                ConvertFault::NotAccepted(fault)
            }
            CheckFault::Device => ConvertFault::Device,
            CheckFault::Memory => ConvertFault::Memory,
        }
    }
}

impl From<ReadFault> for ConvertFault {
    ghost from_gives = { λ fault outer. outer ≡ checked_convert (unread_checked fault) };

    fn from(fault: ReadFault) -> ConvertFault {
        ConvertFault::from(CheckFault::from(fault))
    }
}
