//! Writing the header of a LUKS2 volume anew with new metadata.
ghost use Rattle.std.specs.Prelude.{◌≡◌, ◌≢◌, ◌+◌, ◌^◌, ◌<◌, ◌≤◌, ℕ, List, length, IfErr, OnOk};
ghost use Rattle.luks_area.specs.Device.{CountsFailure, IsSettled};
ghost use Rattle.luks_area.specs.Ranges.{SameBut};
ghost use Rattle.luks_meta.specs.Content.{area_len, content};
ghost use Rattle.luks_edit.specs.EditFaults.{is_edit_failure};
ghost use Rattle.luks_edit.specs.NewUuids.{uuid_need, IsBadUuid};
ghost use Rattle.luks_edit.specs.declared.edit.Edit.{Edit as TheEdit};
ghost use Rattle.luks2_edit_laws.specs.Places.{IsOfCopies};
ghost use Rattle.luks2_editing.specs.Prepared.{AreCopiesWithin, IsPrepared, IsUnwritten};
ghost use Rattle.luks2_editing.specs.Rewriting.{with_uuid, AreWrittenAnew, IsRenewing, MayBeHalfWritten};

use crate::preparing::prepared;
use crate::random::uuid_random;
use crate::writing::write_copies;
use luks_area::Device;
use luks_edit::{EditFault, NewUuid, uuid_field_after, uuid_need};
use luks_meta::Meta;
use luks2_header::Bin2;
use luks2_judging::TextFields;
use std::alloc::Global;

/// The random bytes that an edit takes that seals no keyslot, beside those of its uuid: the salts of both
/// copies.
const SALTS: usize = 128;

/// Writes both copies anew from the chosen one's binary header, with this uuid, if one is given, these texts
/// and this metadata; where the number of random bytes or the metadata's length is refused, or memory, no
/// byte changes.
///
/// Takes memory for the JSON area, before the first write.
pub(crate) fn rewrite<D: Device>(
    alloc: Global,
    device: &mut D,
    header: &Bin2,
    meta: &Meta,
    uuid: Option<NewUuid<'_>>,
    texts: TextFields,
    random: &[u8],
) -> Result<(), EditFault>
    requires good { IsBadUuid uuid → ⊥ }
    requires room { D.failed device.old + 1 < 2 ^ 64 }
    requires settled { D.tells → IsSettled D.unsettled device.old }
    ensures size { D.size device.new ≡ D.size device.old }
    ensures settled { D.tells → D.failed device.new ≡ D.failed device.old
        → IsSettled D.unsettled device.new }
    ensures count { CountsFailure is_edit_failure result
        (D.failed device.old) (D.failed device.new) }
    ensures ready { OnOk result (IsPrepared header.now.seqid
        (area_len meta.now) (content meta.now) random.now (128 + uuid_need uuid.entry)) }
    ensures refused { AreCopiesWithin header.now (area_len meta.now) (D.size device.old)
        → IfErr result (IsUnwritten header.now.seqid
        (area_len meta.now) (content meta.now) random.now (128 + uuid_need uuid.entry)) }
    ensures same { D.tells → IfErr result (λ f. f ≢ EditFault.Device
        → D.bytes device.new ≡ D.bytes device.old) }
    ensures anew { D.tells → (v : List ℕ) (e : TheEdit)
        → IsRenewing v e random.now header.now (with_uuid uuid.entry random.now texts)
        (area_len meta.now) → OnOk result
        (AreWrittenAnew v header.now.hdr_offset e random.now (content meta.now)
        (D.bytes device.new)) }
    ensures torn { D.tells → (v : List ℕ) (e : TheEdit)
        → IsRenewing v e random.now header.now (with_uuid uuid.entry random.now texts)
        (area_len meta.now)
        → MayBeHalfWritten v header.now.hdr_offset e random.now (content meta.now)
        (D.bytes device.old) (D.bytes device.new) }
    ensures rest { D.tells
        → SameBut (IsOfCopies header.now.hdr_size) (D.bytes device.old) (D.bytes device.new) }
{
    let need = SALTS + uuid_need(uuid);
    let json = prepared(alloc, header, meta, random, need, device.len())?;
    let texts = with_uuid(texts, uuid, random);
    match write_copies(device, header, texts, random, json.as_slice()) {
        Ok(()) => Ok(()),
        Err(_) => Err(EditFault::Device),
    }
}

/// The texts with the uuid, if one is given: of the random bytes those behind the salts of the copies are its
/// own.
fn with_uuid(texts: TextFields, uuid: Option<NewUuid<'_>>, random: &[u8]) -> TextFields
    requires good { IsBadUuid uuid → ⊥ }
    requires counted { 128 + uuid_need uuid ≤ length random.now }
    ensures { result ≡ with_uuid uuid.entry random.now texts }
{
    let uuid = uuid_field_after(uuid, uuid_random(random), texts.uuid);
    TextFields { uuid, ..texts }
}
