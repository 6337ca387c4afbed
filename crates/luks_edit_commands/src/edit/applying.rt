//! Applying an edit that was seen.
ghost use Rattle.std.specs.Prelude.{◌≡◌, ◌+◌, ◌<◌, ◌^◌};
ghost use Rattle.luks_area.specs.Device.{CountsFailure, IsSettled};
ghost use Rattle.luks_reading.specs.Header.{IsAcceptedHeader, IsHeader};
ghost use Rattle.luks_edit.specs.EditFaults.{is_edit_failure};
ghost use Rattle.luks_volume.specs.Outcome.{IsApplied};

use luks_volume::{Data, Device, Done, Edit, EditFault, Header};
use std::alloc::Global;

/// The call of `luks_volume`, not inlined: what an edit takes of the stack isn't taken then while its header
/// is read, which takes the most.
#[inline(never)]
pub(super) fn apply_of_header<D: Device>(
    alloc: Global,
    device: &mut D,
    header: Header,
    payload: Data,
    edit: &Edit<'_>,
    random: &[u8],
) -> Result<Done, EditFault>
    requires room { D.failed device.old + 1 < 2 ^ 64 }
    requires settled { D.tells → IsSettled D.unsettled device.old }
    requires accepted { IsAcceptedHeader header }
    requires read { D.tells → IsHeader (D.bytes device.old) header }
    ensures size { D.size device.new ≡ D.size device.old }
    ensures settled { D.tells → D.failed device.new ≡ D.failed device.old
        → IsSettled D.unsettled device.new }
    ensures count { CountsFailure is_edit_failure result
        (D.failed device.old) (D.failed device.new) }
    ensures applied { D.tells → IsApplied payload (D.bytes device.old) edit.now random.now result
        (D.bytes device.new) }
{
    luks_volume::apply_of_header(alloc, device, header, payload, edit, random)
}
