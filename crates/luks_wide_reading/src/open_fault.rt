//! Why a keyslot of metadata in which something is under way isn't opened.

ghost use Rattle.std.specs.Prelude.{◌≡◌, Some};
ghost use Rattle.luks_wide_reading.specs.declared.open_fault.WideOpenFault.{WideOpenFault};
ghost use Rattle.luks_wide_reading.specs.Faults.{wide_open_text};

use luks_reading::OpenFault;
use std::error::Error;
use std::fmt;

/// Why a keyslot isn't opened where something is under way. The first in this order is answered, except for the
/// device and memory: `Open(NoSuchSlot)`, `NoKey`, `Open(Outside)`, `Open(Slot)`.
#[derive(Debug, Clone, Copy, Drop)]
pub enum WideOpenFault {
    /// What `open_slot` answers of a keyslot that is refused.
    Open(OpenFault),
    /// The keyslot is of the type `reencrypt`: it keeps no key.
    NoKey,
}

impl fmt::Display for WideOpenFault {
    ghost output = { λ f. Some (wide_open_text f) };

    fn fmt<W: fmt::Write>(&self, f: &mut fmt::Formatter<W>) -> fmt::Result {
        match self {
            WideOpenFault::Open(fault) => write!(f, "{fault}"),
            WideOpenFault::NoKey => f.write_str("NoKey"),
        }
    }
}

impl Error for WideOpenFault {}

impl From<OpenFault> for WideOpenFault {
    ghost from_gives = { λ fault outer. outer ≡ WideOpenFault.Open fault };

    fn from(fault: OpenFault) -> WideOpenFault {
        WideOpenFault::Open(fault)
    }
}
