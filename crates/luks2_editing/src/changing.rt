//! Changing the passphrase of a keyslot of a LUKS2 volume.
ghost use Rattle.std.specs.Prelude.{◌≡◌, ◌+◌, ◌^◌, ◌<◌, ◌≤◌, ℕ, List, length};
ghost use Rattle.luks_area.specs.Device.{CountsFailure, IsSettled};
ghost use Rattle.luks2_header.specs.Header2.{hdr_size, header_at};
ghost use Rattle.luks_meta.specs.Content.{area_len, content};
ghost use Rattle.luks_reading.specs.declared.report.Data.{Data as Payload};
ghost use Rattle.luks_reading.specs.Checked.{WellFormed};
ghost use Rattle.luks_reading.specs.Header.{IsChosenCopy};
ghost use Rattle.luks_reading.specs.Plans.{HasLuks2KeyBytes};
ghost use Rattle.luks_edit.specs.Asked.{allowed_for, deed_of};
ghost use Rattle.luks_edit.specs.EditFaults.{is_edit_failure};
ghost use Rattle.luks_edit.specs.declared.deed.Deed.TheVariants.{Seal};
ghost use Rattle.luks_edit.specs.declared.deed.Place.TheVariants.{Opened};
ghost use Rattle.luks_edit.specs.declared.edit.Edit.{Edit};
ghost use Rattle.luks_edit.specs.declared.edit.Opener.TheVariants.{Keyslot as ByKeyslot};
ghost use Rattle.luks_edit.specs.declared.edit.Secret.{Secret};
ghost use Rattle.luks2_edit_laws.specs.declared.like.Like.TheVariants.{Keyslot as LikeKeyslot};
ghost use Rattle.luks2_edit_laws.specs.Edited.{Gives2};
ghost use Rattle.luks2_edit_laws.specs.Metadata.{IsInUse};
ghost use Rattle.luks2_edit_laws.specs.Places.{IsNewArea};
ghost use Rattle.luks2_judging.specs.Judging.{IsLostArea, sealing};
ghost use Rattle.luks2_judging.specs.Room.{IsAllowed, IsPlaced};
ghost use Rattle.luks2_judging.specs.Rows.{HasNoFaultBefore};
ghost use Rattle.luks2_editing.specs.Replies.{Replies2};

use crate::sealed_metadata::{SealedSlot, Sealing, new_metadata};
use crate::sealed_plan::write_keyslot;
use crate::secrets::Secrets;
use luks_area::Device;
use luks_edit::{Done, EditFault};
use luks_reading::ChosenCopy;
use luks_writing::wipe_area;
use luks2_judging::Renewal;
use std::alloc::Global;

/// Seals the key, which the secret gives in the keyslot, under the new one in the keyslot's
/// new area; writes both copies of the header anew, the other copy first; and then overwrites the
/// keyslot's old area with zeros. A flush follows each. The old metadata is given up for the new.
///
/// Refused by `SeqExhausted`, `MetadataFull` or `RandomLength`. Takes memory for the new members,
/// the JSON area and Argon2, before the first write.
pub(crate) fn change<D: Device>(
    alloc: Global,
    device: &mut D,
    copy: ChosenCopy,
    renewal: &Renewal,
    secrets: &Secrets<'_>,
) -> Result<Done, EditFault>
    requires room { D.failed device.old + 1 < 2 ^ 64 }
    requires settled { D.tells → IsSettled D.unsettled device.old }
    requires there { IsInUse (content copy.meta) renewal.now.slot }
    requires passphrase { 0 < secrets.now.allowed.memory → length secrets.now.passphrase.now < 2 ^ 32 }
    requires allowed { IsAllowed secrets.now.allowed.memory renewal.now.derivation }
    requires key_length { HasLuks2KeyBytes (content copy.meta) renewal.now.slot
        (length secrets.now.key.now) }
    requires placed { IsPlaced (area_len copy.meta) (content copy.meta)
        (D.size device.old) (LikeKeyslot renewal.now.slot) renewal.now.area }
    requires lost { IsLostArea (content copy.meta) (D.size device.old) renewal.now.slot
        renewal.now.lost }
    ensures size { D.size device.new ≡ D.size device.old }
    ensures settled { D.tells → D.failed device.new ≡ D.failed device.old
        → IsSettled D.unsettled device.new }
    ensures count { CountsFailure is_edit_failure result
        (D.failed device.old) (D.failed device.new) }
    ensures replies { D.tells → (payload : Payload) (e : Edit) (old : Secret)
        → deed_of e ≡ Seal (sealing (Opened renewal.now.slot old) secrets.now.passphrase
        renewal.now.derivation)
        → IsChosenCopy (D.bytes device.old) copy → WellFormed (D.bytes device.old) payload
        → HasNoFaultBefore 20 (D.bytes device.old) payload e secrets.now.random.now
        → allowed_for (ByKeyslot renewal.now.slot old) secrets.now.passphrase.now ≡ secrets.now.allowed
        → Gives2 (allowed_for (ByKeyslot renewal.now.slot old) secrets.now.passphrase.now)
        (D.bytes device.old) (ByKeyslot renewal.now.slot old) secrets.now.key.now
        → IsNewArea (hdr_size (header_at (D.bytes device.old) copy.header.hdr_offset))
        (length (D.bytes device.old)) payload (content copy.meta) (LikeKeyslot renewal.now.slot)
        renewal.now.area
        → Replies2 payload (D.bytes device.old) e secrets.now.random.now result
        (D.bytes device.new) }
{
    let sealing = Sealing {
        keyslot: SealedSlot::Renewed { slot: renewal.slot },
        derivation: renewal.derivation,
        area: renewal.area,
    };
    let header = copy.header;
    let made = new_metadata(alloc, copy, &sealing, secrets.random, device.len())?;
    write_keyslot(alloc, device, &header, &made, renewal.slot, secrets)?;
    match wipe_area(device, renewal.lost) {
        Ok(()) => Ok(Done {
            slot: Some(renewal.slot),
        }),
        Err(_) => Err(EditFault::Device),
    }
}
