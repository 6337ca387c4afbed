//! Adding a keyslot to a LUKS2 volume.
ghost use Rattle.std.specs.Prelude.{◌≡◌, ℕ, ◌+◌, ◌^◌, ◌<◌, ◌≤◌, List, Option, length};
ghost use Rattle.luks_area.specs.Device.{CountsFailure, IsSettled};
ghost use Rattle.luks2_header.specs.Header2.{hdr_size, header_at};
ghost use Rattle.luks_making.specs.Conditions.{IsFree};
ghost use Rattle.luks_meta.specs.Content.{area_len, content};
ghost use Rattle.luks_reading.specs.Checked.{WellFormed};
ghost use Rattle.luks_reading.specs.Header.{IsChosenCopy};
ghost use Rattle.luks_reading.specs.declared.report.Data.{Data as Payload};
ghost use Rattle.luks_edit.specs.Asked.{allowed_for, deed_of};
ghost use Rattle.luks_edit.specs.EditFaults.{is_edit_failure};
ghost use Rattle.luks_edit.specs.declared.deed.Deed.TheVariants.{Seal};
ghost use Rattle.luks_edit.specs.declared.deed.Place.TheVariants.{New};
ghost use Rattle.luks_edit.specs.declared.edit.Edit.{Edit};
ghost use Rattle.luks_edit.specs.declared.edit.Opener.{Opener};
ghost use Rattle.luks2_edit_laws.specs.Edited.{Gives2};
ghost use Rattle.luks2_edit_laws.specs.Likes.{IsLike};
ghost use Rattle.luks2_edit_laws.specs.Metadata.{IsNewKeyslot};
ghost use Rattle.luks2_edit_laws.specs.Places.{IsNewArea};
ghost use Rattle.luks2_judging.specs.Judging.{sealing};
ghost use Rattle.luks2_judging.specs.Opened.{HasKeyBytesLike};
ghost use Rattle.luks2_judging.specs.Room.{IsAllowed, IsPlaced};
ghost use Rattle.luks2_judging.specs.Rows.{HasNoFaultBefore};
ghost use Rattle.luks2_editing.specs.Replies.{Replies2};

use crate::sealed_metadata::{SealedSlot, Sealing, new_metadata};
use crate::sealed_plan::write_keyslot;
use crate::secrets::Secrets;
use luks_area::Device;
use luks_edit::{Done, EditFault};
use luks_reading::ChosenCopy;
use luks2_judging::Addition;
use std::alloc::Global;

/// Seals the key, which the opener gives, under the new passphrase in the area of the new keyslot, and then
/// writes both copies of the header anew with it, the other copy first. A flush follows each. The old
/// metadata is given up for the new.
///
/// Refused by `SeqExhausted`, `MetadataFull` or `RandomLength`. Takes memory for the new keyslot,
/// the JSON area and Argon2, before the first write.
pub(crate) fn add<D: Device>(
    alloc: Global,
    device: &mut D,
    copy: ChosenCopy,
    addition: &Addition,
    secrets: &Secrets<'_>,
) -> Result<Done, EditFault>
    requires room { D.failed device.old + 1 < 2 ^ 64 }
    requires settled { D.tells → IsSettled D.unsettled device.old }
    requires free { IsFree (content copy.meta) addition.now.made }
    requires passphrase { 0 < secrets.now.allowed.memory → length secrets.now.passphrase.now < 2 ^ 32 }
    requires allowed { IsAllowed secrets.now.allowed.memory addition.now.derivation }
    requires key_length { HasKeyBytesLike (content copy.meta) addition.now.like
        (length secrets.now.key.now) }
    requires placed { IsPlaced (area_len copy.meta) (content copy.meta)
        (D.size device.old) addition.now.like addition.now.area }
    ensures size { D.size device.new ≡ D.size device.old }
    ensures settled { D.tells → D.failed device.new ≡ D.failed device.old
        → IsSettled D.unsettled device.new }
    ensures count { CountsFailure is_edit_failure result
        (D.failed device.old) (D.failed device.new) }
    ensures replies { D.tells → (payload : Payload) (e : Edit) (o : Opener) (to : Option ℕ)
        → deed_of e ≡ Seal (sealing (New o to) secrets.now.passphrase addition.now.derivation)
        → IsChosenCopy (D.bytes device.old) copy → WellFormed (D.bytes device.old) payload
        → HasNoFaultBefore 20 (D.bytes device.old) payload e secrets.now.random.now
        → allowed_for o secrets.now.passphrase.now ≡ secrets.now.allowed
        → Gives2 (allowed_for o secrets.now.passphrase.now) (D.bytes device.old) o secrets.now.key.now
        → IsLike (content copy.meta) o addition.now.like
        → IsNewKeyslot (content copy.meta) to addition.now.made
        → IsNewArea (hdr_size (header_at (D.bytes device.old) copy.header.hdr_offset))
        (length (D.bytes device.old)) payload (content copy.meta) addition.now.like
        addition.now.area
        → Replies2 payload (D.bytes device.old) e secrets.now.random.now result (D.bytes device.new) }
{
    let keyslot = SealedSlot::Made {
        slot: addition.made,
        like: addition.like,
    };
    let sealing = Sealing {
        keyslot,
        derivation: addition.derivation,
        area: addition.area,
    };
    let header = copy.header;
    let made = new_metadata(alloc, copy, &sealing, secrets.random, device.len())?;
    write_keyslot(alloc, device, &header, &made, addition.made, secrets)?;
    Ok(Done {
        slot: Some(addition.made),
    })
}
