//! Repairing a LUKS2 volume, setting its uuid, its label and its subsystem, and changing its metadata.
ghost use Rattle.std.specs.Prelude.{◌≡◌, ◌+◌, ◌^◌, ◌<◌, IfSome};
ghost use Rattle.luks_area.specs.Device.{CountsFailure, IsSettled};
ghost use Rattle.luks_meta.specs.Content.{content};
ghost use Rattle.luks_reading.specs.Checked.{WellFormed};
ghost use Rattle.luks_reading.specs.Header.{IsChosenCopy};
ghost use Rattle.luks_reading.specs.declared.report.Data.{Data as Payload};
ghost use Rattle.luks_edit.specs.EditFaults.{is_edit_failure};
ghost use Rattle.luks_edit.specs.NewUuids.{IsBadUuid};
ghost use Rattle.luks_edit.specs.declared.edit.Edit.{Edit};
ghost use Rattle.luks2_judging.specs.Judging.{IsRewriting};
ghost use Rattle.luks2_judging.specs.Rows.{HasNoFaultBefore};
ghost use Rattle.luks2_judging.specs.Texts.{texts_of};
ghost use Rattle.luks2_editing.specs.Amending.{IsNumbered};
ghost use Rattle.luks2_editing.specs.Replies.{Replies2};

use crate::amending::amended;
use crate::rewriting::rewrite;
use luks_area::Device;
use luks_edit::{Done, EditFault, NewUuid};
use luks_reading::ChosenCopy;
use luks2_judging::{JudgedChange, TextFields};
use std::alloc::Global;

/// Writes both copies of the header anew from the one that counts, with the uuid, if one is given, with
/// these fields for its texts and with the change of its metadata, if there is one: the other copy first,
/// each with a flush. The rows of the faults up to `BadUuid` were judged. The old metadata is given up for
/// the new.
///
/// Refused by `BadToken`, `SeqExhausted`, `MetadataFull` or `RandomLength`; 128 random bytes are needed,
/// the salts of the copies, and 16 more for a random uuid. Takes memory for the change and for the JSON
/// area, before the first write.
pub(crate) fn repair<D: Device>(
    alloc: Global,
    device: &mut D,
    copy: ChosenCopy,
    uuid: Option<NewUuid<'_>>,
    texts: TextFields,
    change: Option<JudgedChange<'_>>,
    random: &[u8],
) -> Result<Done, EditFault>
    requires numbered { IfSome change IsNumbered }
    requires good { IsBadUuid uuid → ⊥ }
    requires room { D.failed device.old + 1 < 2 ^ 64 }
    requires settled { D.tells → IsSettled D.unsettled device.old }
    ensures size { D.size device.new ≡ D.size device.old }
    ensures settled { D.tells → D.failed device.new ≡ D.failed device.old
        → IsSettled D.unsettled device.new }
    ensures count { CountsFailure is_edit_failure result
        (D.failed device.old) (D.failed device.new) }
    ensures replies { D.tells → (payload : Payload) (e : Edit)
        → IsRewriting (content copy.meta) (texts_of copy.header) e uuid.entry texts change.entry
        → IsChosenCopy (D.bytes device.old) copy → WellFormed (D.bytes device.old) payload
        → HasNoFaultBefore 20 (D.bytes device.old) payload e random.now
        → Replies2 payload (D.bytes device.old) e random.now result (D.bytes device.new) }
{
    let header = copy.header;
    let meta = amended(alloc, copy.meta, change)?;
    rewrite(alloc, device, &header, &meta, uuid, texts, random)?;
    Ok(Done { slot: None })
}
