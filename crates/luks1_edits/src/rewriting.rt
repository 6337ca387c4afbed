//! Setting the uuid of a LUKS1 volume.
ghost use Rattle.std.specs.Prelude.{◌≡◌, ◌≢◌, ◌+◌, ◌^◌, ◌<◌, false, IfErr, MatchResult};
ghost use Rattle.luks_area.specs.Device.{CountsFailure, IsSettled};
ghost use Rattle.luks_edit.specs.Asked.{deed_of};
ghost use Rattle.luks_edit.specs.EditFaults.{is_edit_failure};
ghost use Rattle.luks_edit.specs.declared.deed.Deed.TheVariants.{Rewrite as Rewrites};
ghost use Rattle.luks_edit.specs.declared.edit.Edit.{Edit as TheEdit};
ghost use Rattle.luks1_edits.specs.Accepted.{IsAcceptedAt, IsHeaderOf, IsSettable, IsUnsettable};
ghost use Rattle.luks1_edits.specs.Replies.{Replies1};

use crate::accepted::AcceptedHeader;
use crate::steps::write_uuid;
use luks_area::Device;
use luks_edit::{Done, EditFault, Rewritten, judge_uuid, uuid_field_after, uuid_need};

/// The bytes of the uuid's field.
const UUID_BYTES: usize = 40;

/// Sets the uuid, where one is given. There is nothing else to set in a header of LUKS1, and nothing to
/// repair, since it has no copy.
pub(crate) fn rewrite<D: Device>(
    device: &mut D,
    header: &AcceptedHeader<'_>,
    rewritten: &Rewritten<'_>,
    random: &[u8],
) -> Result<Done, EditFault>
    requires room { D.failed device.old + 1 < 2 ^ 64 }
    requires settled { D.tells → IsSettled D.unsettled device.old }
    requires accepted { IsAcceptedAt header.now (D.size device.old) }
    ensures size { D.size device.new ≡ D.size device.old }
    ensures settled { D.tells → D.failed device.new ≡ D.failed device.old → IsSettled D.unsettled device.new }
    ensures count { CountsFailure is_edit_failure result
        (D.failed device.old) (D.failed device.new) }
    ensures memory { IfErr result (λ f. f ≢ EditFault.Memory) }
    ensures replies { D.tells → (e : TheEdit) → deed_of e ≡ Rewrites rewritten.now
        → IsHeaderOf header.now.bytes.now header.now.payload (D.bytes device.old)
        → Replies1 header.now.payload (D.bytes device.old) e random.now result (D.bytes device.new) }
{
    match judge_rewriting(rewritten, random) {
        Ok(()) => {}
        Err(fault) => return Err(fault),
    }
    match rewritten.uuid {
        Some(uuid) => {
            let field = uuid_field_after(Some(uuid), random, [0; UUID_BYTES]);
            match write_uuid(device, &field) {
                Ok(()) => Ok(Done { slot: None }),
                Err(_) => Err(EditFault::Device),
            }
        }
        None => Ok(Done { slot: None }),
    }
}

/// Whether nothing but a uuid is set, and the uuid can be. Refused by `BadLabel`, `BadUuid`,
/// `RandomLength`.
fn judge_rewriting(rewritten: &Rewritten<'_>, random: &[u8]) -> Result<(), EditFault>
    ensures own { IfErr result (λ f. is_edit_failure f ≡ false) }
    ensures memory { IfErr result (λ f. f ≢ EditFault.Memory) }
    ensures judged { MatchResult result (λ _. IsSettable rewritten.now random.now)
        (IsUnsettable rewritten.now random.now) }
{
    if !rewritten.sets_uuid_at_most() {
        return Err(EditFault::BadLabel);
    }
    match judge_uuid(rewritten.uuid) {
        Ok(()) => {}
        Err(fault) => return Err(fault),
    }
    if random.len() != uuid_need(rewritten.uuid) {
        return Err(EditFault::RandomLength);
    }
    Ok(())
}
