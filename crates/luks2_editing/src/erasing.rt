//! Erasing all keyslots of a LUKS2 volume.
ghost use Rattle.std.specs.Prelude.{◌≡◌, ◌+◌, ◌^◌, ◌<◌, ℕ, List, IfErr, IfOk};
ghost use Rattle.luks_area.specs.declared.area.Area.{Area as TheArea};
ghost use Rattle.luks_area.specs.Area.{IsInside};
ghost use Rattle.luks_area.specs.Device.{CountsFailure, IsSettled};
ghost use Rattle.luks_meta.specs.Content.{area_len, content};
ghost use Rattle.luks_making.specs.Without.{without_slots};
ghost use Rattle.luks_reading.specs.Checked.{WellFormed};
ghost use Rattle.luks_reading.specs.Header.{IsChosenCopy};
ghost use Rattle.luks_reading.specs.declared.report.Data.{Data as Payload};
ghost use Rattle.luks_edit.specs.EditFaults.{is_edit_failure};
ghost use Rattle.luks_edit.specs.declared.edit.Edit.TheVariants.{Erase};
ghost use Rattle.luks2_edit_laws.specs.Metadata.{IsKeyArea};
ghost use Rattle.luks2_judging.specs.Rows.{HasNoFaultBefore};
ghost use Rattle.luks2_editing.specs.Replies.{Replies2};

use crate::rewriting::rewrite;
use crate::wiping::wipe_keyslots;
use luks_area::Device;
use luks_edit::{Done, EditFault};
use luks_meta::Meta;
use luks_reading::{ChosenCopy, Data, luks2_areas};
use luks2_judging::TextFields;
use std::alloc::Global;

/// Removes every keyslot from the metadata, writes both copies of the header anew, the other copy first,
/// and then overwrites the area of each keyslot with zeros, by their numbers; each with a flush. The rows
/// of the faults up to `BadUuid` were judged. The old metadata is given up for the new.
///
/// Refused by `SeqExhausted`, `MetadataFull` or `RandomLength`; 128 random bytes are needed, the salts
/// of the copies. Takes memory for the maps of tokens and digests and for the JSON area, before the
/// first write.
pub(crate) fn erase<D: Device>(
    alloc: Global,
    device: &mut D,
    copy: ChosenCopy,
    random: &[u8],
) -> Result<Done, EditFault>
    requires inside { (n : ℕ) (a : TheArea) → IsKeyArea (content copy.meta) n a
        → IsInside a (D.size device.old) }
    requires room { D.failed device.old + 1 < 2 ^ 64 }
    requires settled { D.tells → IsSettled D.unsettled device.old }
    ensures size { D.size device.new ≡ D.size device.old }
    ensures settled { D.tells → D.failed device.new ≡ D.failed device.old
        → IsSettled D.unsettled device.new }
    ensures count { CountsFailure is_edit_failure result
        (D.failed device.old) (D.failed device.new) }
    ensures replies { D.tells → (payload : Payload)
        → IsChosenCopy (D.bytes device.old) copy → WellFormed (D.bytes device.old) payload
        → HasNoFaultBefore 20 (D.bytes device.old) payload Erase random.now
        → Replies2 payload (D.bytes device.old) Erase random.now result (D.bytes device.new) }
{
    let header = copy.header;
    let areas = luks2_areas(&copy.meta, header.hdr_size, Data::Elsewhere, device.len());
    let meta = without_slots(alloc, copy.meta)?;
    let texts = TextFields::of(&header);
    rewrite(alloc, device, &header, &meta, None, texts, random)?;
    match wipe_keyslots(device, areas.as_slice()) {
        Ok(()) => Ok(Done { slot: None }),
        Err(_) => Err(EditFault::Device),
    }
}

/// The metadata without any keyslot, or `Memory`.
fn without_slots(alloc: Global, meta: Meta) -> Result<Meta, EditFault>
    ensures value { IfOk result (λ m. content m ≡ without_slots (content meta)) }
    ensures length { IfOk result (λ m. area_len m ≡ area_len meta) }
    ensures memory { IfErr result (λ f. f ≡ EditFault.Memory) }
{
    match luks_new_meta::without_slots(alloc, meta) {
        Ok(made) => Ok(made),
        Err(_) => Err(EditFault::Memory),
    }
}
