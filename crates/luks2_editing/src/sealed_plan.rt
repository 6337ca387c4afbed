//! Sealing a keyslot of new metadata, and writing that metadata.
ghost use Rattle.std.specs.Prelude.{◌≡◌, ◌≢◌, ◌+◌, ◌^◌, ◌<◌, length, IfErr, OnOk};
ghost use Rattle.serde_json.specs.Data.{Data as Value};
ghost use Rattle.luks_area.specs.Device.{CountsFailure, IsSettled};
ghost use Rattle.luks_making.specs.WrittenArea.{IsWrittenArea};
ghost use Rattle.luks_meta.specs.Content.{area_len, content};
ghost use Rattle.luks_reading.specs.declared.report.Data.{Data as Payload};
ghost use Rattle.luks_edit.specs.EditFaults.{is_edit_failure};
ghost use Rattle.luks_edit.specs.declared.edit.Edit.{Edit as TheEdit};
ghost use Rattle.luks2_edit_laws.specs.Leftovers.{IsTornAt};
ghost use Rattle.luks2_judging.specs.Texts.{texts_of};
ghost use Rattle.luks2_editing.specs.Prepared.{AreCopiesWithin};
ghost use Rattle.luks2_editing.specs.Rewriting.{IsRenewing};
ghost use Rattle.luks2_editing.specs.SealedKeyslot.{IsKeyslotWritten, IsSealable};
ghost use Rattle.luks2_editing.specs.SealedKeyslot.{IsSealing, IsUnsealed};

use crate::sealed_metadata::NewMetadata;
use crate::sealing::write_sealed;
use crate::secrets::Secrets;
use luks_area::Device;
use luks_edit::EditFault;
use luks_reading::luks2_plan;
use luks2_header::Bin2;
use std::alloc::Global;

/// Seals the key in the area of the keyslot `n` of the new metadata, and then writes both copies
/// anew with that metadata from the chosen one's binary header: the other one first. A flush follows
/// each. If the keyslot's plan is refused, the answer is `Slot`. No byte changes then, nor with
/// `Memory`.
///
/// The first 128 random bytes are the salts of the copies. Those from place 160 on are all stripes
/// of the keyslot but the last.
pub(crate) fn write_keyslot<D: Device>(
    alloc: Global,
    device: &mut D,
    chosen: &Bin2,
    made: &NewMetadata,
    n: u8,
    secrets: &Secrets<'_>,
) -> Result<(), EditFault>
    requires room { D.failed device.old + 1 < 2 ^ 64 }
    requires settled { D.tells → IsSettled D.unsettled device.old }
    requires passphrase { 0 < secrets.now.allowed.memory → length secrets.now.passphrase.now < 2 ^ 32 }
    requires numbered { chosen.now.seqid + 1 < 2 ^ 64 }
    requires json { IsWrittenArea (area_len made.now.meta) (content made.now.meta)
        made.now.json.items }
    requires within { AreCopiesWithin chosen.now (area_len made.now.meta) (D.size device.old) }
    requires sealable { IsSealable chosen.now.hdr_size (content made.now.meta) n secrets.now.key.now
        secrets.now.random.now (D.size device.old) }
    ensures size { D.size device.new ≡ D.size device.old }
    ensures settled { D.tells → D.failed device.new ≡ D.failed device.old
        → IsSettled D.unsettled device.new }
    ensures count { CountsFailure is_edit_failure result
        (D.failed device.old) (D.failed device.new) }
    ensures fault { IfErr result (IsUnsealed secrets.now.allowed (content made.now.meta) n) }
    ensures same { D.tells → IfErr result (λ f. f ≢ EditFault.Device
        → D.bytes device.new ≡ D.bytes device.old) }
    ensures written { D.tells → (e : TheEdit)
        → IsRenewing (D.bytes device.old) e secrets.now.random.now chosen.now (texts_of chosen.now)
        (area_len made.now.meta)
        → OnOk result (IsKeyslotWritten (D.bytes device.old) chosen.now.hdr_offset e
        secrets.now.random.now (content made.now.meta) n secrets.now.passphrase.now
        secrets.now.key.now (D.bytes device.new)) }
    ensures torn { D.tells → (payload : Payload) (e : TheEdit) (j : Value)
        → IsRenewing (D.bytes device.old) e secrets.now.random.now chosen.now (texts_of chosen.now)
        (area_len made.now.meta)
        → IsSealing (D.bytes device.old) payload e secrets.now.random.now chosen.now.hdr_offset j
        (content made.now.meta) n secrets.now.passphrase.now secrets.now.key.now
        → IsTornAt (D.bytes device.old) payload e secrets.now.random.now chosen.now.hdr_offset j
        (content made.now.meta) (D.bytes device.new) }
{
    let keyslot = made.meta.keyslot(n).unwrap();
    let number = made.meta.digest_of_keyslot(n).unwrap();
    let digest = made.meta.digest(number).unwrap();
    let plan = luks2_plan(&keyslot, &digest);
    write_sealed(alloc, device, chosen, &plan, secrets, made.json.as_slice())
}
