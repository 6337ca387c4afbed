//! Why a keyslot can't be opened or sealed.

use luks_area::DeviceFault;
use luks_argon2::Argon2Fault;
use std::error::Error;
use std::fmt;

/// Why a keyslot can't be opened or sealed; the first in this order is answered.
#[derive(Debug, Clone, Copy, PartialEq, Eq)]
pub enum SlotFault {
    /// The area's key is derived by Argon2, whose memory isn't allowed or whose costs are outside its
    /// limits.
    Argon2,
    /// The area's cipher is another than aes with `xts-plain64` or `xts-plain`, or, where older ones
    /// are allowed, with `cbc-essiv:sha256`, `cbc-plain` or `cbc-plain64`.
    Cipher,
    /// The hash of the derivation, of the splitter or of the digest isn't known, or is an older one
    /// that isn't allowed.
    Hash,
    /// The area's key hasn't a length of its cipher's keys: 32 or 64 bytes for xts, and 16, 24 or 32
    /// for cbc.
    KeySize,
    /// The device failed; its count of failures rose.
    Device,
    /// Memory was refused.
    Memory,
}

impl fmt::Display for SlotFault {
    ghost use Rattle.std.specs.Prelude.{Some};
    ghost use Rattle.luks_slot.specs.Fault.{fault_text};

    ghost output = { λ f. Some (fault_text f) };

    fn fmt<W: fmt::Write>(&self, f: &mut fmt::Formatter<W>) -> fmt::Result {
        match self {
            SlotFault::Argon2 => f.write_str("Argon2"),
            SlotFault::Cipher => f.write_str("Cipher"),
            SlotFault::Hash => f.write_str("Hash"),
            SlotFault::KeySize => f.write_str("KeySize"),
            SlotFault::Device => f.write_str("Device"),
            SlotFault::Memory => f.write_str("Memory"),
        }
    }
}

impl Error for SlotFault {}

impl From<DeviceFault> for SlotFault {
    ghost use Rattle.std.specs.Prelude.{◌≡◌};
    ghost use Rattle.luks_slot.specs.declared.fault.SlotFault.{SlotFault};

    ghost from_gives = { λ _ fault. fault ≡ SlotFault.Device };

    fn from(_: DeviceFault) -> SlotFault {
        SlotFault::Device
    }
}

impl From<Argon2Fault> for SlotFault {
    ghost use Rattle.std.specs.Prelude.{◌≡◌};
    ghost use Rattle.luks_slot.specs.declared.fault.SlotFault.{SlotFault};

    ghost from_gives = { λ _ fault. fault ≡ SlotFault.Memory };

    fn from(_: Argon2Fault) -> SlotFault {
        SlotFault::Memory
    }
}
