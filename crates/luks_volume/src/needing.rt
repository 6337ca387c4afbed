//! How many random bytes an edit of a volume takes.
ghost use Rattle.std.specs.Prelude.{◌≡◌, ◌≢◌, ◌+◌, ◌^◌, ◌<◌, ℕ, List, false, length, IfErr};
ghost use Rattle.luks_area.specs.Device.{CountsFailure, IsUnchanged};
ghost use Rattle.luks_edit.specs.EditFaults.{is_edit_failure};
ghost use Rattle.luks_reading.specs.Header.{IsAcceptedHeader, IsHeader, TakesNoMemory};
ghost use Rattle.luks_volume.specs.Needed.{TellsNeed};

use crate::header::edited_header;
use luks_edit::{Edit, EditFault};
use luks_reading::{Data, Device, Header};
use luks1_edits::needed_luks1;
use luks2_judging::needed_luks2;
use std::alloc::Global;

/// How many random bytes `apply` takes for the edit, or the first of the faults that are seen
/// without opening a keyslot: `NotAccepted`, `Requirements`, `NoSuchSlot`, `SameSlot`, `SlotTaken`
/// and `NoFreeSlot`; before these last two of `AddByKey` to LUKS2 `KeyLength`, `WrongKey` and `Slot`.
///
/// `payload` says where the payload lies. `Device` comes exactly where a device call failed. Memory
/// is taken for the metadata of LUKS2 alone.
pub fn needed<D: Device>(
    alloc: Global,
    device: &mut D,
    payload: Data,
    edit: &Edit<'_>,
) -> Result<u64, EditFault>
    requires { D.failed device.old + 1 < 2 ^ 64 }
    ensures unchanged { IsUnchanged D.tells D.size D.bytes D.unsettled device.old device.new }
    ensures count { CountsFailure is_edit_failure result
        (D.failed device.old) (D.failed device.new) }
    ensures tells { D.tells → TellsNeed payload (D.bytes device.old) edit.now result }
    ensures memory { D.tells → TakesNoMemory (D.bytes device.old)
        → IfErr result (λ f. f ≢ EditFault.Memory) }
{
    let header = edited_header(alloc, device)?;
    needed_of_header(&header, payload, device.len(), edit)
}

/// What `needed` answers of a volume of `total` bytes with this header. It takes no memory.
pub fn needed_of_header(
    header: &Header,
    payload: Data,
    total: u64,
    edit: &Edit<'_>,
) -> Result<u64, EditFault>
    requires { IsAcceptedHeader header.now }
    ensures own { IfErr result (λ f. is_edit_failure f ≡ false) }
    ensures memory { IfErr result (λ f. f ≢ EditFault.Memory) }
    ensures tells { (v : List ℕ) → IsHeader v header.now → length v ≡ total
        → TellsNeed payload v edit.now result }
{
    match header {
        Header::Luks1(bytes) => needed_luks1(bytes, payload, total, edit),
        Header::Luks2(copy) => needed_luks2(copy, payload, total, edit),
    }
}
