ghost use Rattle.std.specs.Prelude.{◌≡◌, Some};
ghost use Rattle.luks_reading.specs.Conversions.{head_unread, meta_unread};
ghost use Rattle.luks_reading.specs.FaultTexts.{read_fault_text};

use luks_area::DeviceFault;
use luks_meta::MetaFault;
use luks2_header::HeadFault;
use std::alloc::AllocError;
use std::error::Error;
use std::fmt;

/// Why the header that counts isn't read.
///
/// The faults of the selection and of the chosen copy's uuid come first, then those of its
/// metadata. The device's failure and a failed allocation are answered as such, wherever they were met.
#[derive(Debug, Clone, Copy, Drop)]
pub enum ReadFault {
    /// Nothing counts, or the uuid of the chosen copy breaks a rule.
    Head(HeadFault),
    /// The metadata of the chosen copy breaks a rule.
    Meta(MetaFault),
    /// A device call failed.
    Device,
    /// Memory was refused.
    Memory,
}

impl fmt::Display for ReadFault {
    ghost output = { λ f. Some (read_fault_text f) };

    fn fmt<W: fmt::Write>(&self, f: &mut fmt::Formatter<W>) -> fmt::Result {
        match self {
            ReadFault::Head(fault) => write!(f, "{fault}"),
            ReadFault::Meta(fault) => write!(f, "{fault}"),
            ReadFault::Device => f.write_str("Device"),
            ReadFault::Memory => f.write_str("Memory"),
        }
    }
}

impl Error for ReadFault {}

impl From<HeadFault> for ReadFault {
    ghost from_gives = { λ fault outer. outer ≡ head_unread fault };

    fn from(fault: HeadFault) -> ReadFault {
        match fault {
            HeadFault::Device => ReadFault::Device,
            HeadFault::Memory => ReadFault::Memory,
            other => ReadFault::Head(other),
        }
    }
}

impl From<MetaFault> for ReadFault {
    ghost from_gives = { λ fault outer. outer ≡ meta_unread fault };

    fn from(fault: MetaFault) -> ReadFault {
        match fault {
            MetaFault::Memory => ReadFault::Memory,
            other => ReadFault::Meta(other),
        }
    }
}

impl From<DeviceFault> for ReadFault {
    ghost use Rattle.luks_reading.specs.declared.read_fault.ReadFault.{ReadFault};

    ghost from_gives = { λ _ outer. outer ≡ ReadFault.Device };

    fn from(_: DeviceFault) -> ReadFault {
        ReadFault::Device
    }
}

impl From<AllocError> for ReadFault {
    ghost use Rattle.luks_reading.specs.declared.read_fault.ReadFault.{ReadFault};

    ghost from_gives = { λ _ outer. outer ≡ ReadFault.Memory };

    fn from(_: AllocError) -> ReadFault {
        ReadFault::Memory
    }
}
