//! Why a header is refused.

use luks_area::DeviceFault;
use std::error::Error;
use std::fmt;

/// A field of a header that holds a text.
#[derive(Debug, Clone, Copy, PartialEq, Eq)]
pub enum TextField {
    /// LUKS1: the name of the cipher.
    CipherName,
    /// LUKS1: the cipher's mode.
    CipherMode,
    /// LUKS1: the hash of the key derivation, the splitter and the digest.
    HashSpec,
    /// The volume's uuid, in both versions.
    Uuid,
}

/// Whose number of iterations is meant.
#[derive(Debug, Clone, Copy, PartialEq, Eq)]
pub enum IterationsOf {
    /// Those of the keyslot of this number.
    Slot(u8),
    /// Those of the digest of the volume key.
    Digest,
}

/// Why a header is refused.
///
/// The variants are in the order in which they are judged: of several faults the first is
/// answered, and within a variant the least text field or keyslot number.
#[derive(Debug, Clone, Copy, PartialEq, Eq)]
pub enum HeadFault {
    /// The volume has fewer than 592 bytes.
    TooShort,
    /// The LUKS magic isn't there, and no sound second copy of a LUKS2 header.
    NotLuks,
    /// The version is neither 1 nor, in a LUKS2 header, 2.
    Version,
    /// It is a LUKS2 volume, and neither copy of its header is sound.
    NoSoundCopy,
    /// The text of the field holds a byte outside 0x20 to 0x7E before its first zero byte.
    Text(TextField),
    /// The uuid's text isn't 32 hexadecimal digits with hyphens at places 8, 13, 18 and 23.
    Uuid,
    /// LUKS1: the keyslot's active word is neither that of an enabled nor of a disabled one.
    SlotState(u8),
    /// LUKS1: the key has no byte, or more than 128.
    KeyBytes,
    /// LUKS1: the keyslot, enabled or not, has no stripes.
    Stripes(u8),
    /// LUKS1: an enabled keyslot, or the digest, has no iterations.
    Iterations(IterationsOf),
    /// The device failed.
    Device,
    /// Memory was refused.
    Memory,
}

impl fmt::Display for TextField {
    ghost use Rattle.std.specs.Prelude.{Some};
    ghost use Rattle.luks1_header.specs.FaultTexts.{field_text};

    ghost output = { λ t. Some (field_text t) };

    fn fmt<W: fmt::Write>(&self, f: &mut fmt::Formatter<W>) -> fmt::Result {
        match self {
            TextField::CipherName => f.write_str("cipher-name"),
            TextField::CipherMode => f.write_str("cipher-mode"),
            TextField::HashSpec => f.write_str("hash-spec"),
            TextField::Uuid => f.write_str("uuid"),
        }
    }
}

impl fmt::Display for IterationsOf {
    ghost use Rattle.std.specs.Prelude.{Some};
    ghost use Rattle.luks1_header.specs.FaultTexts.{of_text};

    ghost output = { λ o. Some (of_text o) };

    fn fmt<W: fmt::Write>(&self, f: &mut fmt::Formatter<W>) -> fmt::Result {
        match self {
            IterationsOf::Slot(n) => write!(f, "Slot({n})"),
            IterationsOf::Digest => f.write_str("Digest"),
        }
    }
}

impl fmt::Display for HeadFault {
    ghost use Rattle.std.specs.Prelude.{Some};
    ghost use Rattle.luks1_header.specs.FaultTexts.{fault_text};

    ghost output = { λ f. Some (fault_text f) };

    fn fmt<W: fmt::Write>(&self, f: &mut fmt::Formatter<W>) -> fmt::Result {
        match self {
            HeadFault::TooShort => f.write_str("TooShort"),
            HeadFault::NotLuks => f.write_str("NotLuks"),
            HeadFault::Version => f.write_str("Version"),
            HeadFault::NoSoundCopy => f.write_str("NoSoundCopy"),
            HeadFault::Text(field) => write!(f, "Text({field})"),
            HeadFault::Uuid => f.write_str("Uuid"),
            HeadFault::SlotState(n) => write!(f, "SlotState({n})"),
            HeadFault::KeyBytes => f.write_str("KeyBytes"),
            HeadFault::Stripes(n) => write!(f, "Stripes({n})"),
            HeadFault::Iterations(of) => write!(f, "Iterations({of})"),
            HeadFault::Device => f.write_str("Device"),
            HeadFault::Memory => f.write_str("Memory"),
        }
    }
}

impl Error for HeadFault {}

impl From<DeviceFault> for HeadFault {
    ghost use Rattle.std.specs.Prelude.{◌≡◌};
    ghost use Rattle.luks1_header.specs.declared.fault.HeadFault.TheVariants as variant;

    ghost from_gives = { λ _ outer. outer ≡ variant.Device };

    fn from(_fault: DeviceFault) -> HeadFault {
        HeadFault::Device
    }
}
