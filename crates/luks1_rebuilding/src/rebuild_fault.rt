//! Why no LUKS1 header is made of what stands of one.
ghost use Rattle.std.specs.Prelude.{◌≡◌};

use luks_area::{AreaFault, DeviceFault};
use luks2_header::{HeadFault, TextField};
use std::error::Error;
use std::fmt;

/// Why no LUKS1 header is made of what stands of one: the first in this order, except for a device's
/// failure.
///
/// All but a device's failure leave every byte of the target as it was. None changes the source.
#[derive(Debug, Clone, Copy, PartialEq, Eq, Drop)]
pub enum Rebuild1Fault {
    /// The source is accepted, with its payload elsewhere, and nothing is given.
    Counts,
    /// cryptsetup is in the midst of reencrypting the source: the magic of its header says so.
    Reencrypting,
    /// The source has fewer than 592 bytes, or no signs of a LUKS1 header.
    NoHeader,
    /// No usable text of the field stands, or what is given isn't usable.
    Text(TextField),
    /// No length of the key from 1 to 128 stands, or what is given isn't one.
    KeyBytes,
    /// The digest has no iterations.
    Iterations,
    /// The target ends before 16896 bytes, or before an area of the header that is made.
    TooSmall,
    /// Two areas of the header that is made meet.
    Area(AreaFault),
    /// A call of one of the two devices failed.
    Device,
}

impl fmt::Display for Rebuild1Fault {
    ghost use Rattle.std.specs.Prelude.{Some};
    ghost use Rattle.luks1_rebuilding.specs.FaultTexts.{rebuild_fault_text};

    ghost output = { λ f. Some (rebuild_fault_text f) };

    fn fmt<W: fmt::Write>(&self, f: &mut fmt::Formatter<W>) -> fmt::Result {
        match self {
            Rebuild1Fault::Counts => f.write_str("Counts"),
            Rebuild1Fault::Reencrypting => f.write_str("Reencrypting"),
            Rebuild1Fault::NoHeader => f.write_str("NoHeader"),
            Rebuild1Fault::Text(field) => write!(f, "Text({field})"),
            Rebuild1Fault::KeyBytes => f.write_str("KeyBytes"),
            Rebuild1Fault::Iterations => f.write_str("Iterations(Digest)"),
            Rebuild1Fault::TooSmall => f.write_str("TooSmall"),
            Rebuild1Fault::Area(fault) => write!(f, "{fault}"),
            Rebuild1Fault::Device => f.write_str("Device"),
        }
    }
}

impl Error for Rebuild1Fault {}

impl From<DeviceFault> for Rebuild1Fault {
    ghost use Rattle.luks1_rebuilding.specs.declared.rebuild_fault.Rebuild1Fault.{Rebuild1Fault};

    ghost from_gives = { λ _ fault. fault ≡ Rebuild1Fault.Device };

    fn from(_: DeviceFault) -> Rebuild1Fault {
        Rebuild1Fault::Device
    }
}

impl From<HeadFault> for Rebuild1Fault {
    ghost use Rattle.luks1_rebuilding.specs.RebuildFaults.{field_fault};

    ghost from_gives = { λ head fault. fault ≡ field_fault head };

    /// The fault of a field of the header that is made.
    fn from(fault: HeadFault) -> Rebuild1Fault {
        match fault {
            HeadFault::Text(field) => Rebuild1Fault::Text(field),
            HeadFault::KeyBytes => Rebuild1Fault::KeyBytes,
            _ => Rebuild1Fault::Iterations,
        }
    }
}
