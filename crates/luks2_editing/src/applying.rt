//! Edits of LUKS2 volumes.
ghost use Rattle.std.specs.Prelude.{◌≡◌, ◌+◌, ◌^◌, ◌<◌};
ghost use Rattle.luks_area.specs.Device.{CountsFailure, IsSettled};
ghost use Rattle.luks_edit.specs.EditFaults.{is_edit_failure};
ghost use Rattle.luks_reading.specs.Header.{IsAcceptedCopy, IsChosenCopy};
ghost use Rattle.luks2_editing.specs.Replies.{Replies2};

use crate::adding::add;
use crate::changing::change;
use crate::erasing::erase;
use crate::removing::remove;
use crate::repairing::repair;
use crate::secrets::Secrets;
use luks_area::Device;
use luks_edit::{Done, Edit, EditFault};
use luks_reading::{ChosenCopy, Data};
use luks2_judging::{JudgedEdit, JudgedPlace, judge_luks2};
use std::alloc::Global;

/// Applies the edit to the LUKS2 volume with this copy, with as many random bytes as
/// `needed_luks2` tells: the salts of both copies of the header, 64 bytes each, for a keyslot that is
/// sealed its salt, 32 bytes, and its stripes but the last, and for a random uuid 16 bytes.
///
/// The first refusal is answered, or `Memory`, and then no byte changes: all memory is taken before
/// the first write, that of Argon2 too. The copy is given up, so that the old metadata doesn't live
/// beside the new. What is written is written in this order, each range with a flush: the area of the
/// keyslot that is made or sealed again, the copy of the header that didn't count, the one that did, and
/// zeros over each area that a keyslot lost, by the keyslots' numbers. `Device` comes exactly where a
/// device call failed; what that leaves, the volume as it was or one torn in that range, keeps every
/// other keyslot, unless bytes of a torn write are taken for a header.
#[tactic(auto, using(luks_area::proofs::DeviceFacts::settled_unchanged))]
pub fn apply_luks2<D: Device>(
    alloc: Global,
    device: &mut D,
    copy: ChosenCopy,
    payload: Data,
    edit: &Edit<'_>,
    random: &[u8],
) -> Result<Done, EditFault>
    requires room { D.failed device.old + 1 < 2 ^ 64 }
    requires settled { D.tells → IsSettled D.unsettled device.old }
    requires accepted { IsAcceptedCopy copy }
    ensures size { D.size device.new ≡ D.size device.old }
    ensures settled { D.tells → D.failed device.new ≡ D.failed device.old
        → IsSettled D.unsettled device.new }
    ensures count { CountsFailure is_edit_failure result
        (D.failed device.old) (D.failed device.new) }
    ensures replies { D.tells → IsChosenCopy (D.bytes device.old) copy
        → Replies2 payload (D.bytes device.old) edit.now random.now result (D.bytes device.new) }
{
    let allowed = edit.allowed();
    let judged = judge_luks2(alloc, device, copy, payload, edit)?;
    let copy = judged.copy;
    match judged.edit {
        JudgedEdit::Seal {
            place,
            key,
            passphrase,
        } => {
            let secrets = Secrets::new(&key, passphrase, allowed, random);
            match place {
                JudgedPlace::New(addition) => add(alloc, device, copy, &addition, &secrets),
                JudgedPlace::Opened(renewal) => change(alloc, device, copy, &renewal, &secrets),
            }
        }
        JudgedEdit::Remove { slot, area } => remove(alloc, device, copy, slot, area, random),
        JudgedEdit::Erase => erase(alloc, device, copy, random),
        JudgedEdit::Rewrite {
            uuid,
            fields,
            change,
        } => repair(alloc, device, copy, uuid, fields, change, random),
    }
}
