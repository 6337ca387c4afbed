//! The fields of a LUKS1 header before its keyslots, and those of one keyslot.
ghost use Rattle.std.specs.Prelude.{◌≡◌, ◌≤◌, ◌+◌, length, IfOk, IfErr};
ghost use Rattle.luks_area.specs.First.{IsLeast};
ghost use Rattle.luks_area.specs.Ranges.{part};
ghost use Rattle.luks1_header.specs.declared.fault.HeadFault.{HeadFault as TheFault};
ghost use Rattle.luks1_header.specs.Faults.{head_key, IsCommonFault};
ghost use Rattle.luks1_header.specs.Header1.{IsCommon};
ghost use Rattle.luks_reading.specs.Luks1Keyslots.{EntryRefused, IsEnabled};

use crate::open_fault::OpenFault;
use luks2_header::{HeadFault, Luks1, Luks1Common, Luks1Slot, SlotState};

/// The bytes of a LUKS1 header before its keyslots.
const COMMON_SIZE: usize = 208;

/// The bytes of a keyslot's entry.
const ENTRY_SIZE: usize = 48;

/// The fields before the keyslots, of the header's 592 bytes.
pub(crate) fn luks1_common(header: &[u8]) -> Result<Luks1Common, HeadFault>
    requires { length header.now ≡ 592 }
    ensures found { IfOk result (IsCommon header.now) }
    ensures faultless { IfOk result (λ _. (f : TheFault) → IsCommonFault header.now f → ⊥) }
    ensures fault { IfErr result (IsLeast head_key (IsCommonFault header.now)) }
{
    Luks1::common(bytes_at(header, 0, COMMON_SIZE))
}

/// The keyslot `n`, which has to be there, fit for use and in use. No other keyslot is looked at.
pub(crate) fn luks1_entry(header: &[u8], n: u8) -> Result<Luks1Slot, OpenFault>
    requires { length header.now ≡ 592 }
    ensures found { IfOk result (IsEnabled header.now n) }
    ensures refused { IfErr result (EntryRefused header.now n) }
{
    if n > 7 {
        return Err(OpenFault::NoSuchSlot);
    }
    let at = COMMON_SIZE + ENTRY_SIZE * n as usize;
    let slot = Luks1::slot(bytes_at(header, at, ENTRY_SIZE), n)?;
    match slot.state {
        SlotState::Enabled => Ok(slot),
        SlotState::Disabled => Err(OpenFault::SlotFree),
    }
}

/// The `len` bytes at the place `at`.
fn bytes_at(bytes: &[u8], at: usize, len: usize) -> &[u8]
    requires { at + len ≤ length bytes.now }
    ensures value { result.now ≡ part bytes.now at len }
    ensures length { length result.now ≡ len }
{
    &bytes[at..at + len]
}
