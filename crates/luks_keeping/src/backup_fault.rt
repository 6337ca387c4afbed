//! Why no backup is made.
ghost use Rattle.std.specs.Prelude.{◌≡◌};
ghost use Rattle.luks_keeping.specs.BackupFaults.{checked_backup};

use luks_area::DeviceFault;
use luks_reading::CheckFault;
use std::error::Error;
use std::fmt;

/// Why no backup of a volume's header is made: the first in this order, except for a failed allocation and a
/// device's failure.
///
/// All but a device's failure leave every byte of the target as it was. None changes the source.
#[derive(Debug, Clone, Copy, Drop)]
pub enum BackupFault {
    /// `check` refuses the source.
    NotAccepted(CheckFault),
    /// The target is shorter than the backup.
    TooSmall,
    /// Memory was refused.
    Memory,
    /// A call of one of the two devices failed.
    Device,
}

impl fmt::Display for BackupFault {
    ghost use Rattle.std.specs.Prelude.{Some};
    ghost use Rattle.luks_keeping.specs.FaultTexts.{backup_fault_text};

    ghost output = { λ f. Some (backup_fault_text f) };

    fn fmt<W: fmt::Write>(&self, f: &mut fmt::Formatter<W>) -> fmt::Result {
        match self {
            BackupFault::NotAccepted(fault) => write!(f, "{fault}"),
            BackupFault::TooSmall => f.write_str("TooSmall"),
            BackupFault::Memory => f.write_str("Memory"),
            BackupFault::Device => f.write_str("Device"),
        }
    }
}

impl Error for BackupFault {}

impl From<DeviceFault> for BackupFault {
    ghost use Rattle.luks_keeping.specs.declared.backup_fault.BackupFault.{BackupFault};

    ghost from_gives = { λ _ fault. fault ≡ BackupFault.Device };

    fn from(_: DeviceFault) -> BackupFault {
        BackupFault::Device
    }
}

impl From<CheckFault> for BackupFault {
    ghost from_gives = { λ fault outer. outer ≡ checked_backup fault };

    fn from(fault: CheckFault) -> BackupFault {
        match fault {
            CheckFault::Head(_) | CheckFault::Meta(_) | CheckFault::Area(_) => {
                BackupFault::NotAccepted(fault)
            }
            CheckFault::Device => BackupFault::Device,
            CheckFault::Memory => BackupFault::Memory,
        }
    }
}
