//! Whether the header that counts on a device is that of another volume.
ghost use Rattle.std.specs.Prelude.{◌≡◌, ◌↔◌, ◌+◌, ◌^◌, ◌<◌, List, ℕ, IfErr, IfOk, IsTrue, OnOk};
ghost use Rattle.luks_area.specs.Device.{CountsFailure, IsUnchanged};
ghost use Rattle.luks_keeping.specs.OtherHeaders.{IsOtherAnswer, IsUntoldSame, TellsOther, selected_uuid};
ghost use Rattle.luks_keeping.specs.Outlines.{Outlines};
ghost use Rattle.luks_keeping.specs.RestoreFaults.{IsKeptFrom, is_restore_failure};
ghost use Rattle.luks_keeping.specs.SameKeys.{Identifies};
ghost use Rattle.luks_keeping.specs.SameVolume.{CountsSameVolume, HasAnyHeader, IsOtherVolume};

use crate::identity::{Identity, UUID, UUID_END, has_uuid, has_uuid_of, shares_digest};
use crate::outline::Outline;
use crate::over::Over;
use crate::restore_fault::RestoreFault;
use crate::same_key::judge_key;
use luks_area::Device;
use luks_reading::{ReadFault, Selected, select};
use std::alloc::Global;

/// Whether the second of two headers, as `read_outline` answers them, is another volume's than the backup's: it
/// has another uuid, and no digest of its volume key.
pub fn is_other_volume(backup: &Outline, volume: &Outline) -> bool
    ensures { (b t : List ℕ) → Outlines b backup.now → Outlines t volume.now
        → (IsTrue result ↔ IsOtherVolume b t) }
{
    !has_uuid_of(&backup.identity, &volume.identity)
        && !shares_digest(&backup.identity, &volume.identity)
}

/// Whether a header counts on the device that is of the backup's volume: with the uuid of its header, as
/// `read_outline` answers it, or with a digest of its volume key.
///
/// Takes memory for the metadata of the device's header, where its uuid is another.
pub fn counts_same_volume<T: Device>(
    alloc: Global,
    backup: &Outline,
    device: &mut T,
) -> Result<bool, RestoreFault>
    requires { T.failed device.old + 1 < 2 ^ 64 }
    ensures unchanged { IsUnchanged T.tells T.size T.bytes T.unsettled device.old device.new }
    ensures count { CountsFailure is_restore_failure result
        (T.failed device.old) (T.failed device.new) }
    ensures counts { T.tells → (b : List ℕ) → Outlines b backup.now
        → IfOk result (λ counts. IsTrue counts ↔ CountsSameVolume b (T.bytes device.old)) }
    ensures fault { T.tells → (b : List ℕ) → Outlines b backup.now
        → IfErr result (IsUntoldSame b (T.bytes device.old)) }
{
    if !has_header(device)? {
        return Ok(false);
    }
    match judge_other(alloc, &backup.identity, device, Over::SameVolume) {
        Ok(()) => Ok(true),
        Err(fault) => match fault {
            RestoreFault::Device => Err(RestoreFault::Device),
            RestoreFault::Memory => Err(RestoreFault::Memory),
            RestoreFault::OtherVolume => Ok(false),
            RestoreFault::NotAccepted(_) => Ok(false),
            RestoreFault::DoesNotFit(_) => Ok(false),
        },
    }
}

/// Whether a header counts on the device.
fn has_header<T: Device>(device: &mut T) -> Result<bool, RestoreFault>
    requires { T.failed device.old + 1 < 2 ^ 64 }
    ensures unchanged { IsUnchanged T.tells T.size T.bytes T.unsettled device.old device.new }
    ensures count { CountsFailure is_restore_failure result
        (T.failed device.old) (T.failed device.new) }
    ensures has { T.tells → IfOk result (λ has. IsTrue has ↔ HasAnyHeader (T.bytes device.old)) }
    ensures device { IfErr result (λ f. f ≡ RestoreFault.Device) }
{
    match select(device) {
        Ok(_) => Ok(true),
        Err(fault) => match ReadFault::from(fault) {
            ReadFault::Device => Err(RestoreFault::Device),
            ReadFault::Head(_) | ReadFault::Meta(_) | ReadFault::Memory => Ok(false),
        },
    }
}

/// Refuses where the header that counts on the target is another volume's than the one of this identity,
/// unless it may be written over: one with another uuid whose volume key has no digest of this one's.
pub(crate) fn judge_other<T: Device>(
    alloc: Global,
    identity: &Identity,
    target: &mut T,
    over: Over,
) -> Result<(), RestoreFault>
    requires { T.failed target.old + 1 < 2 ^ 64 }
    ensures unchanged { IsUnchanged T.tells T.size T.bytes T.unsettled target.old target.new }
    ensures count { CountsFailure is_restore_failure result
        (T.failed target.old) (T.failed target.new) }
    ensures refused { T.tells → (b : List ℕ) → Identifies b identity.now
        → IfErr result (IsOtherAnswer b (T.bytes target.old) over) }
    ensures clear { T.tells → (b : List ℕ) → Identifies b identity.now
        → OnOk result (IsKeptFrom b (T.bytes target.old) over → ⊥) }
{
    match over {
        Over::AnyVolume => Ok(()),
        Over::SameVolume => {
            if has_other_uuid(identity, target)? {
                judge_key(alloc, identity, target)
            } else {
                Ok(())
            }
        }
    }
}

/// Whether a header counts on the target, and its uuid isn't this one's.
fn has_other_uuid<T: Device>(identity: &Identity, target: &mut T) -> Result<bool, RestoreFault>
    requires { T.failed target.old + 1 < 2 ^ 64 }
    ensures unchanged { IsUnchanged T.tells T.size T.bytes T.unsettled target.old target.new }
    ensures count { CountsFailure is_restore_failure result
        (T.failed target.old) (T.failed target.new) }
    ensures told { T.tells → (b : List ℕ) → Identifies b identity.now
        → IfOk result (TellsOther b (T.bytes target.old)) }
    ensures device { IfErr result (λ f. f ≡ RestoreFault.Device) }
{
    match select(target) {
        Ok(selected) => Ok(!has_selected_uuid(identity, &selected)),
        Err(fault) => match ReadFault::from(fault) {
            ReadFault::Device => Err(RestoreFault::Device),
            ReadFault::Head(_) | ReadFault::Meta(_) | ReadFault::Memory => Ok(false),
        },
    }
}

/// Whether the header that was selected has this uuid: the 40 bytes of its field.
fn has_selected_uuid(identity: &Identity, selected: &Selected) -> bool
    ensures { IsTrue result ↔ (selected_uuid selected.now ≡ identity.now.uuid) }
{
    match selected {
        Selected::V1(bytes) => has_uuid(identity, &bytes[UUID..UUID_END]),
        Selected::V2 { header: other, .. } => has_uuid(identity, other.uuid.as_slice()),
    }
}
