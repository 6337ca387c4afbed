//! Why a backup that was made while something was under way isn't restored.
ghost use Rattle.std.specs.Prelude.{◌≡◌};
ghost use Rattle.luks_keeping.specs.declared.restore_fault.RestoreFault.TheVariants.{Device as OfDevice};
ghost use Rattle.luks_wide_keeping.specs.declared.restore_fault.UnderwayRestoreFault.TheVariants.{Restore as OfRestore};

use luks_area::DeviceFault;
use luks_keeping::RestoreFault;
use std::error::Error;
use std::fmt;

/// Why a backup that was made while something was under way isn't restored.
///
/// All but a device's failure leave every byte of the target as it was. None changes the backup.
#[derive(Debug, Clone, Copy, Drop)]
pub enum UnderwayRestoreFault {
    /// What is said of other backups, too. `NotAccepted` comes first, then `DoesNotFit`, then `OtherVolume`.
    Restore(RestoreFault),
    /// The header that counts on the target has the backup's uuid, and isn't of the very same state: what is under
    /// way went on since, or has ended.
    Progressed,
}

impl fmt::Display for UnderwayRestoreFault {
    ghost use Rattle.std.specs.Prelude.{Some};
    ghost use Rattle.luks_wide_keeping.specs.FaultTexts.{underway_restore_text};

    ghost output = { λ f. Some (underway_restore_text f) };

    fn fmt<W: fmt::Write>(&self, f: &mut fmt::Formatter<W>) -> fmt::Result {
        match self {
            UnderwayRestoreFault::Restore(fault) => write!(f, "{fault}"),
            UnderwayRestoreFault::Progressed => f.write_str("Progressed"),
        }
    }
}

impl Error for UnderwayRestoreFault {}

impl From<DeviceFault> for UnderwayRestoreFault {
    ghost from_gives = { λ _ fault. fault ≡ OfRestore OfDevice };

    fn from(_: DeviceFault) -> UnderwayRestoreFault {
        UnderwayRestoreFault::Restore(RestoreFault::Device)
    }
}
