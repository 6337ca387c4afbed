//! Why a command refuses a volume in whose metadata something is under way.
ghost use Rattle.std.specs.Prelude.{Some};
ghost use Rattle.luks_commands.specs.UnderwayTexts.{underway_refusal_text};

use luks_wide_reading::WideFault;
use std::fmt;

/// Why a command refuses a volume in whose metadata something is under way.
#[derive(Clone, Copy, Drop)]
pub enum UnderwayRefusal {
    /// The metadata breaks a rule of what is under way.
    Metadata(WideFault),
    /// The keyslot is the reencryption's own, and keeps no key.
    NoKey,
    /// What is under way went on, or has ended, since the backup was made.
    Progressed,
}

impl fmt::Display for UnderwayRefusal {
    ghost output = { λ r. Some (underway_refusal_text r) };

    fn fmt<W: fmt::Write>(&self, f: &mut fmt::Formatter<W>) -> fmt::Result {
        match self {
            UnderwayRefusal::Metadata(fault) => write!(f, "{fault}"),
            UnderwayRefusal::NoKey => f.write_str("NoKey"),
            UnderwayRefusal::Progressed => f.write_str("Progressed"),
        }
    }
}
