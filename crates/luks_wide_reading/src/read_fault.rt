//! Why the header that counts isn't read by the wider reading.

ghost use Rattle.std.specs.Prelude.{◌≡◌, Some};
ghost use Rattle.luks_reading.specs.Conversions.{head_unread};
ghost use Rattle.luks_wide_reading.specs.declared.read_fault.WideReadFault.{WideReadFault};
ghost use Rattle.luks_wide_reading.specs.Faults.{wide_read_text};

use luks_reading::{DeviceFault, HeadFault, MetaFault, ReadFault};
use luks_wider::WideFault;
use std::alloc::AllocError;
use std::error::Error;
use std::fmt;

/// Why the header that counts isn't read by the wider reading.
#[derive(Debug, Clone, Copy, Drop)]
pub enum WideReadFault {
    /// What `read_header` answers: nothing is under way, or the metadata wasn't read.
    Read(ReadFault),
    /// Something is under way in the metadata of the chosen copy, and it breaks a rule of that.
    Underway {
        /// The first fault by the rules of what is under way. It is never a failed allocation.
        fault: WideFault,
        /// The fault by which `read_header` refuses it.
        narrow_fault: MetaFault,
    },
}

impl fmt::Display for WideReadFault {
    ghost output = { λ f. Some (wide_read_text f) };

    fn fmt<W: fmt::Write>(&self, f: &mut fmt::Formatter<W>) -> fmt::Result {
        match self {
            WideReadFault::Read(fault) => write!(f, "{fault}"),
            WideReadFault::Underway { fault, .. } => write!(f, "{fault}"),
        }
    }
}

impl Error for WideReadFault {}

impl From<ReadFault> for WideReadFault {
    ghost from_gives = { λ fault outer. outer ≡ WideReadFault.Read fault };

    fn from(fault: ReadFault) -> WideReadFault {
        WideReadFault::Read(fault)
    }
}

impl From<HeadFault> for WideReadFault {
    ghost from_gives = { λ fault outer. outer ≡ WideReadFault.Read (head_unread fault) };

    fn from(fault: HeadFault) -> WideReadFault {
        WideReadFault::Read(ReadFault::from(fault))
    }
}

impl From<DeviceFault> for WideReadFault {
    ghost use Rattle.luks_reading.specs.declared.read_fault.ReadFault.TheVariants.{Device};

    ghost from_gives = { λ _ outer. outer ≡ WideReadFault.Read Device };

    fn from(_: DeviceFault) -> WideReadFault {
        WideReadFault::Read(ReadFault::Device)
    }
}

impl From<AllocError> for WideReadFault {
    ghost use Rattle.luks_reading.specs.declared.read_fault.ReadFault.TheVariants.{Memory};

    ghost from_gives = { λ _ outer. outer ≡ WideReadFault.Read Memory };

    fn from(_: AllocError) -> WideReadFault {
        WideReadFault::Read(ReadFault::Memory)
    }
}
