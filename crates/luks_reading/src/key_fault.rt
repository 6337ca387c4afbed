ghost use Rattle.std.specs.Prelude.{◌≡◌, Some};
ghost use Rattle.luks_reading.specs.Conversions.{head_unread, unread_key};
ghost use Rattle.luks_reading.specs.FaultTexts.{key_fault_text};

use crate::read_fault::ReadFault;
use luks_meta::MetaFault;
use luks2_header::HeadFault;
use std::error::Error;
use std::fmt;

/// Why it isn't told whether a key is a volume's; the first in this order is answered, except for the
/// device and memory, which are answered as such, wherever they were met.
#[derive(Debug, Clone, Copy, Drop)]
pub enum KeyFault {
    /// The header breaks a rule; of LUKS1 the fields before the keyslots alone are judged.
    Head(HeadFault),
    /// LUKS2: the metadata breaks a rule.
    Meta(MetaFault),
    /// There is no digest of the number that is asked for, or with none asked for segment 0 has none.
    NoSuchDigest,
    /// The key hasn't the length of the header's.
    KeyLength,
    /// The digest's hash isn't known, or is an older one that isn't allowed.
    Hash,
    /// A device call failed.
    Device,
    /// Memory was refused.
    Memory,
}

impl fmt::Display for KeyFault {
    ghost output = { λ f. Some (key_fault_text f) };

    fn fmt<W: fmt::Write>(&self, f: &mut fmt::Formatter<W>) -> fmt::Result {
        match self {
            KeyFault::Head(fault) => write!(f, "{fault}"),
            KeyFault::Meta(fault) => write!(f, "{fault}"),
            KeyFault::NoSuchDigest => f.write_str("NoSuchDigest"),
            KeyFault::KeyLength => f.write_str("KeyLength"),
            KeyFault::Hash => f.write_str("Hash"),
            KeyFault::Device => f.write_str("Device"),
            KeyFault::Memory => f.write_str("Memory"),
        }
    }
}

impl Error for KeyFault {}

impl From<ReadFault> for KeyFault {
    ghost from_gives = { λ fault outer. outer ≡ unread_key fault };

    fn from(fault: ReadFault) -> KeyFault {
        match fault {
            ReadFault::Head(fault) => KeyFault::Head(fault),
            ReadFault::Meta(fault) => KeyFault::Meta(fault),
            ReadFault::Device => KeyFault::Device,
            ReadFault::Memory => KeyFault::Memory,
        }
    }
}

impl From<HeadFault> for KeyFault {
    ghost from_gives = { λ fault outer. outer ≡ unread_key (head_unread fault) };

    fn from(fault: HeadFault) -> KeyFault {
        KeyFault::from(ReadFault::from(fault))
    }
}
