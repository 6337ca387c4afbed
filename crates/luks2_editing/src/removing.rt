//! Removing a keyslot of a LUKS2 volume.
ghost use Rattle.std.specs.Prelude.{◌≡◌, ◌+◌, ◌^◌, ◌<◌, ℕ, List, Option, IfErr, IfOk};
ghost use Rattle.luks_area.specs.Device.{CountsFailure, IsSettled};
ghost use Rattle.luks_meta.specs.Content.{area_len, content};
ghost use Rattle.luks_making.specs.Without.{without_slot};
ghost use Rattle.luks_reading.specs.Checked.{WellFormed};
ghost use Rattle.luks_reading.specs.Header.{IsChosenCopy};
ghost use Rattle.luks_reading.specs.declared.report.Data.{Data as Payload};
ghost use Rattle.luks_edit.specs.Asked.{deed_of};
ghost use Rattle.luks_edit.specs.EditFaults.{is_edit_failure};
ghost use Rattle.luks_edit.specs.declared.deed.Deed.TheVariants.{Remove};
ghost use Rattle.luks_edit.specs.declared.edit.Edit.{Edit};
ghost use Rattle.luks_edit.specs.declared.edit.Secret.{Secret};
ghost use Rattle.luks2_judging.specs.Judging.{IsLostArea, removing};
ghost use Rattle.luks2_judging.specs.Rows.{HasNoFaultBefore};
ghost use Rattle.luks2_editing.specs.Replies.{Replies2};

use crate::rewriting::rewrite;
use luks_area::{Area, Device};
use luks_edit::{Done, EditFault};
use luks_meta::Meta;
use luks_reading::ChosenCopy;
use luks_writing::wipe_area;
use luks2_judging::TextFields;
use std::alloc::Global;

/// Removes the keyslot from the metadata, writes both copies of the header anew, the other copy first,
/// and then overwrites the keyslot's area, which is `area`, with zeros; each with a flush. The rows of
/// the faults up to `BadUuid` were judged. The old metadata is given up for the new.
///
/// Refused by `SeqExhausted`, `MetadataFull` or `RandomLength`; 128 random bytes are needed, the salts
/// of the copies. Takes memory for the maps of tokens and digests and for the JSON area, before the
/// first write.
pub(crate) fn remove<D: Device>(
    alloc: Global,
    device: &mut D,
    copy: ChosenCopy,
    slot: u8,
    area: Area,
    random: &[u8],
) -> Result<Done, EditFault>
    requires numbered { slot < 32 }
    requires lost { IsLostArea (content copy.meta) (D.size device.old) slot area }
    requires room { D.failed device.old + 1 < 2 ^ 64 }
    requires settled { D.tells → IsSettled D.unsettled device.old }
    ensures size { D.size device.new ≡ D.size device.old }
    ensures settled { D.tells → D.failed device.new ≡ D.failed device.old
        → IsSettled D.unsettled device.new }
    ensures count { CountsFailure is_edit_failure result
        (D.failed device.old) (D.failed device.new) }
    ensures replies { D.tells → (payload : Payload) (e : Edit) (by_ : Option ℕ)
        (passphrase : Secret) → deed_of e ≡ Remove (removing slot by_ passphrase)
        → IsChosenCopy (D.bytes device.old) copy → WellFormed (D.bytes device.old) payload
        → HasNoFaultBefore 20 (D.bytes device.old) payload e random.now
        → Replies2 payload (D.bytes device.old) e random.now result (D.bytes device.new) }
{
    let header = copy.header;
    let meta = without_slot(alloc, copy.meta, slot)?;
    let texts = TextFields::of(&header);
    rewrite(alloc, device, &header, &meta, None, texts, random)?;
    match wipe_area(device, area) {
        Ok(()) => Ok(Done { slot: None }),
        Err(_) => Err(EditFault::Device),
    }
}

/// The metadata without the keyslot, or `Memory`.
fn without_slot(alloc: Global, meta: Meta, slot: u8) -> Result<Meta, EditFault>
    requires { slot < 32 }
    ensures value { IfOk result (λ m. content m ≡ without_slot slot (content meta)) }
    ensures length { IfOk result (λ m. area_len m ≡ area_len meta) }
    ensures memory { IfErr result (λ f. f ≡ EditFault.Memory) }
{
    match luks_new_meta::without_slot(alloc, meta, slot) {
        Ok(made) => Ok(made),
        Err(_) => Err(EditFault::Memory),
    }
}
