//! Edits of LUKS1 volumes.
ghost use Rattle.std.specs.Prelude.{◌≡◌, ◌≢◌, ◌+◌, ◌^◌, ◌<◌, IfErr};
ghost use Rattle.luks_area.specs.Device.{CountsFailure, IsSettled};
ghost use Rattle.luks_edit.specs.EditFaults.{is_edit_failure};
ghost use Rattle.luks_reading.specs.Header.{IsHeader};
ghost use Rattle.luks_reading.specs.declared.header.Header.TheVariants.{Luks1 as OfLuks1};
ghost use Rattle.luks1_edits.specs.Replies.{Replies1};

use crate::accepted::judge_without_key;
use crate::erasing::erase;
use crate::removing::remove;
use crate::rewriting::rewrite;
use crate::sealing::seal;
use luks_area::Device;
use luks_edit::{Deed, Done, Edit, EditFault};
use luks_reading::Data;
use std::alloc::Global;

/// Applies the edit to the LUKS1 volume whose header has these 592 bytes, with as many random bytes
/// as `needed_luks1` tells: the new keyslot's salt, then its stripes but the last; or those of a new uuid.
///
/// The first refusal is answered, and then no byte changes. What is written is written in this
/// order, each range with a flush: the area of a new keyslot, its entry, the entry of a keyslot that
/// is removed, its area, or so of all keyslots, one after the other; or the 40 bytes of the uuid's field.
/// `Device` comes exactly where a device call failed. No memory is taken.
pub fn apply_luks1<D: Device>(
    alloc: Global,
    device: &mut D,
    header: &[u8; 592],
    payload: Data,
    edit: &Edit<'_>,
    random: &[u8],
) -> Result<Done, EditFault>
    requires room { D.failed device.old + 1 < 2 ^ 64 }
    requires settled { D.tells → IsSettled D.unsettled device.old }
    ensures size { D.size device.new ≡ D.size device.old }
    ensures settled { D.tells → D.failed device.new ≡ D.failed device.old → IsSettled D.unsettled device.new }
    ensures count { CountsFailure is_edit_failure result
        (D.failed device.old) (D.failed device.new) }
    ensures memory { IfErr result (λ f. f ≢ EditFault.Memory) }
    ensures replies { D.tells → IsHeader (D.bytes device.old) (OfLuks1 header.now)
        → Replies1 payload (D.bytes device.old) edit.now random.now result (D.bytes device.new) }
{
    let header = match judge_without_key(header, payload, device.len(), edit) {
        Ok(header) => header,
        Err(fault) => return Err(fault),
    };
    match edit.deed() {
        Deed::Seal(sealed) => seal(alloc, device, &header, &sealed, random),
        Deed::Remove(removed) => remove(alloc, device, &header, &removed, random),
        Deed::Rewrite(rewritten) => rewrite(device, &header, &rewritten, random),
        Deed::Erase => erase(device, &header, random),
    }
}
