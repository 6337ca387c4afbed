//! Whether the volume keys of two headers have one digest.
ghost use Rattle.std.specs.Prelude.{◌≡◌, ◌+◌, ◌^◌, ◌<◌, List, ℕ, IfErr, OnOk};
ghost use Rattle.luks_area.specs.Device.{CountsFailure, IsUnchanged};
ghost use Rattle.luks_keeping.specs.RestoreFaults.{is_restore_failure};
ghost use Rattle.luks_keeping.specs.SameKey.{SharesDigest};
ghost use Rattle.luks_keeping.specs.SameKeys.{Identifies, IsKeyAnswer, unread_key};

use crate::identity::{Identity, identity_of, shares_digest};
use crate::restore_fault::RestoreFault;
use luks_area::Device;
use luks_reading::{ReadFault, read_header};
use std::alloc::Global;

/// Refuses where the header that counts on the target has no digest in common with the one of this identity,
/// or isn't accepted, so that none can be compared.
pub(crate) fn judge_key<T: Device>(
    alloc: Global,
    identity: &Identity,
    target: &mut T,
) -> Result<(), RestoreFault>
    requires { T.failed target.old + 1 < 2 ^ 64 }
    ensures unchanged { IsUnchanged T.tells T.size T.bytes T.unsettled target.old target.new }
    ensures count { CountsFailure is_restore_failure result
        (T.failed target.old) (T.failed target.new) }
    ensures refused { T.tells → (b : List ℕ) → Identifies b identity.now
        → IfErr result (IsKeyAnswer b (T.bytes target.old)) }
    ensures clear { T.tells → (b : List ℕ) → Identifies b identity.now
        → OnOk result (SharesDigest b (T.bytes target.old)) }
{
    match read_header(alloc, target) {
        Ok(other) => {
            if shares_digest(identity, &identity_of(&other)) {
                Ok(())
            } else {
                Err(RestoreFault::OtherVolume)
            }
        }
        Err(fault) => Err(key_fault(fault)),
    }
}

/// Why the keys aren't told to be the same, where the target's header isn't read.
fn key_fault(fault: ReadFault) -> RestoreFault
    ensures { result ≡ unread_key fault }
{
    match fault {
        ReadFault::Head(_) | ReadFault::Meta(_) => RestoreFault::OtherVolume,
        ReadFault::Device => RestoreFault::Device,
        ReadFault::Memory => RestoreFault::Memory,
    }
}
