ghost use Rattle.std.specs.Prelude.{◌≡◌, Some};
ghost use Rattle.luks_reading.specs.Conversions.{head_unread, slot_opened, unread_opened};
ghost use Rattle.luks_reading.specs.FaultTexts.{open_fault_text};

use crate::read_fault::ReadFault;
use luks_meta::MetaFault;
use luks_slot::SlotFault;
use luks2_header::HeadFault;
use std::error::Error;
use std::fmt;

/// Why a keyslot isn't opened; the first in this order is answered, except for the device and memory.
///
/// Of a LUKS1 header, the faults of the fields before the keyslots come before `NoSuchSlot`, and
/// those of the keyslot's own entry after it. The device's failure and a failed allocation are answered
/// as such, wherever they were met.
#[derive(Debug, Clone, Copy, Drop)]
pub enum OpenFault {
    /// The header breaks a rule.
    Head(HeadFault),
    /// LUKS2: the metadata breaks a rule.
    Meta(MetaFault),
    /// There is no keyslot of this number: in LUKS1 it is above 7, in LUKS2 the metadata has none.
    NoSuchSlot,
    /// LUKS1: the keyslot isn't in use.
    SlotFree,
    /// The keyslot's area isn't inside the volume.
    Outside,
    /// The keyslot can't be opened by what it says.
    Slot(SlotFault),
    /// A device call failed.
    Device,
    /// Memory was refused.
    Memory,
}

impl fmt::Display for OpenFault {
    ghost output = { λ f. Some (open_fault_text f) };

    fn fmt<W: fmt::Write>(&self, f: &mut fmt::Formatter<W>) -> fmt::Result {
        match self {
            OpenFault::Head(fault) => write!(f, "{fault}"),
            OpenFault::Meta(fault) => write!(f, "{fault}"),
            OpenFault::NoSuchSlot => f.write_str("NoSuchSlot"),
            OpenFault::SlotFree => f.write_str("SlotFree"),
            OpenFault::Outside => f.write_str("Outside"),
            OpenFault::Slot(fault) => write!(f, "{fault}"),
            OpenFault::Device => f.write_str("Device"),
            OpenFault::Memory => f.write_str("Memory"),
        }
    }
}

impl Error for OpenFault {}

impl From<ReadFault> for OpenFault {
    ghost from_gives = { λ fault outer. outer ≡ unread_opened fault };

    fn from(fault: ReadFault) -> OpenFault {
        match fault {
            ReadFault::Head(fault) => OpenFault::Head(fault),
            ReadFault::Meta(fault) => OpenFault::Meta(fault),
            ReadFault::Device => OpenFault::Device,
            ReadFault::Memory => OpenFault::Memory,
        }
    }
}

impl From<HeadFault> for OpenFault {
    ghost from_gives = { λ fault outer. outer ≡ unread_opened (head_unread fault) };

    fn from(fault: HeadFault) -> OpenFault {
        OpenFault::from(ReadFault::from(fault))
    }
}

impl From<SlotFault> for OpenFault {
    ghost from_gives = { λ fault outer. outer ≡ slot_opened fault };

    fn from(fault: SlotFault) -> OpenFault {
        match fault {
            SlotFault::Device => OpenFault::Device,
            SlotFault::Memory => OpenFault::Memory,
            other => OpenFault::Slot(other),
        }
    }
}
