//! What a JSON area in which something is under way may be refused for.

ghost use Rattle.std.specs.Prelude.{◌≡◌};

use arrayvec::ArrayString;
use luks_json::JsonFault;
use luks_rules::MetaFault;
use std::error::Error;
use std::fmt;

/// Why a JSON area was refused by the wider reading. The first of the faults that apply is answered: those
/// of `MetaFault` by its order, then `UnderWay` with the least path.
#[derive(Debug, Clone, Copy, PartialEq, Eq, Drop)]
pub enum WideFault {
    /// A fault that the rules of other metadata have, too.
    Meta(MetaFault),
    /// What is under way contradicts itself at the path.
    UnderWay(ArrayString<32>),
}

impl fmt::Display for WideFault {
    ghost use Rattle.std.specs.Prelude.{Some};
    ghost use Rattle.luks_wider.specs.WideFaults.{wide_fault_text};

    ghost output = { λ f. Some (wide_fault_text f) };

    fn fmt<W: fmt::Write>(&self, f: &mut fmt::Formatter<W>) -> fmt::Result {
        match self {
            WideFault::Meta(fault) => write!(f, "{fault}"),
            WideFault::UnderWay(path) => write!(f, "UnderWay({path})"),
        }
    }
}

impl Error for WideFault {}

impl From<JsonFault> for WideFault {
    ghost use Rattle.luks_rules.specs.MetaFault.{of_json};
    ghost use Rattle.luks_wider.specs.declared.fault.WideFault.TheVariants.{Meta};

    ghost from_gives = { λ fault f. f ≡ Meta (of_json fault) };

    fn from(fault: JsonFault) -> WideFault {
        WideFault::Meta(MetaFault::from(fault))
    }
}

impl From<MetaFault> for WideFault {
    ghost use Rattle.luks_wider.specs.declared.fault.WideFault.TheVariants.{Meta};

    ghost from_gives = { λ fault f. f ≡ Meta fault };

    fn from(fault: MetaFault) -> WideFault {
        WideFault::Meta(fault)
    }
}
