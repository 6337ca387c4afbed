//! The header that counts of a volume that is to be edited.
ghost use Rattle.std.specs.Prelude.{◌≡◌, ◌+◌, ◌^◌, ◌<◌, IfOk, IfErr};
ghost use Rattle.luks_area.specs.Device.{CountsFailure, IsUnchanged};
ghost use Rattle.luks_edit.specs.EditFaults.{is_edit_failure};
ghost use Rattle.luks_reading.specs.Header.{IsAcceptedHeader, IsHeader};
ghost use Rattle.luks_reading.specs.declared.report.Data.{Data as Payload};
ghost use Rattle.luks_edit.specs.declared.edit.Edit.{Edit as TheEdit};
ghost use Rattle.luks_volume.specs.Needed.{IsUntold};
ghost use Rattle.luks_volume.specs.Unread.{IsHeaderRefused, unread_edit};

use luks_edit::EditFault;
use luks_reading::{CheckFault, Device, Header, ReadFault, read_header};
use std::alloc::Global;

/// The header that counts of a volume that is to be edited, or why no edit of it is begun.
///
/// `Device` comes exactly where a device call failed. Memory is taken for the metadata of LUKS2
/// alone.
pub fn edited_header<D: Device>(alloc: Global, device: &mut D) -> Result<Header, EditFault>
    requires { D.failed device.old + 1 < 2 ^ 64 }
    ensures unchanged { IsUnchanged D.tells D.size D.bytes D.unsettled device.old device.new }
    ensures count { CountsFailure is_edit_failure result
        (D.failed device.old) (D.failed device.new) }
    ensures accepted { IfOk result IsAcceptedHeader }
    ensures read { D.tells → IfOk result (IsHeader (D.bytes device.old)) }
    ensures refused { D.tells → (payload : Payload)
        → IfErr result (IsHeaderRefused (D.bytes device.old) payload) }
    ensures untold { D.tells → (payload : Payload) (edit : TheEdit)
        → IfErr result (IsUntold (D.bytes device.old) payload edit) }
{
    match read_header(alloc, device) {
        Ok(header) => Ok(header),
        Err(fault) => Err(unread(fault)),
    }
}

/// The fault of reading the header as that of an edit.
fn unread(fault: ReadFault) -> EditFault
    ensures { result ≡ unread_edit fault }
{
    match fault {
        ReadFault::Head(fault) => EditFault::NotAccepted(CheckFault::Head(fault)),
        ReadFault::Meta(fault) => EditFault::NotAccepted(CheckFault::Meta(fault)),
        ReadFault::Device => EditFault::Device,
        ReadFault::Memory => EditFault::Memory,
    }
}
