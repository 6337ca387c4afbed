//! What gives the key for an edit of a LUKS1 volume: a keyslot, by its passphrase or its key, or the
//! volume key.
ghost use Rattle.std.specs.Prelude.{◌≡◌, ◌≢◌, ◌+◌, ◌^◌, ◌<◌, ℕ, List, false, length, IfOk, IfErr};
ghost use Rattle.luks_area.specs.Device.{CountsFailure, IsUnchanged};
ghost use Rattle.luks1_header.specs.Header1.{key_bytes_of, HoldsSlots, IsLuks1};
ghost use Rattle.luks_edit.specs.EditFaults.{is_edit_failure};
ghost use Rattle.luks_edit.specs.declared.edit.Opener.TheVariants.{Key as ByKey, Keyslot};
ghost use Rattle.luks1_edits.specs.Accepted.{IsAcceptedAt, IsHeaderOf, IsOpenedBy, IsUnopened, IsUsable, keyslot_fault};
ghost use Rattle.luks1_edits.specs.Edited.{IsInUse};

use crate::accepted::AcceptedHeader;
use luks_area::Device;
use luks_edit::{
    EditFault, Opener, Secret, SecretKind, VolumeKey, give_within, lock_fault, own_key,
};
use luks_reading::luks1_plan;
use luks_slot::{Allowed, Key, SlotFault};
use std::alloc::Global;

/// The fault of a keyslot, opened or sealed, as that of an edit.
pub(crate) fn keyslot_fault(fault: SlotFault) -> EditFault
    ensures { result ≡ keyslot_fault fault }
{
    match fault {
        SlotFault::Device => EditFault::Device,
        SlotFault::Memory => EditFault::Memory,
        other => EditFault::Slot(other),
    }
}

/// The key that the opener gives, or why it gives none: `Locked`, `KeyLength`, `WrongKey`, `Slot`, or the
/// device's failure. Its keyslot, if it is of one, is in use. Ciphers and hashes of older disks are
/// accepted where it allows them.
pub(crate) fn unlock<D: Device>(
    alloc: Global,
    device: &mut D,
    header: &AcceptedHeader<'_>,
    opener: &Opener<'_>,
) -> Result<Key, EditFault>
    requires room { D.failed device.old + 1 < 2 ^ 64 }
    requires accepted { IsAcceptedAt header.now (D.size device.old) }
    requires usable { (v : List ℕ) → HoldsSlots v header.now.fields.slots → IsUsable v opener.now }
    ensures unchanged { IsUnchanged D.tells D.size D.bytes D.unsettled device.old device.new }
    ensures count { CountsFailure is_edit_failure result
        (D.failed device.old) (D.failed device.new) }
    ensures memory { IfErr result (λ f. f ≢ EditFault.Memory) }
    ensures length { IfOk result (λ key. length key ≡ key_bytes_of header.now.bytes.now) }
    ensures opened { D.tells
        → IsHeaderOf header.now.bytes.now header.now.payload (D.bytes device.old)
        → IfOk result (IsOpenedBy (D.bytes device.old) opener.now) }
    ensures refused { D.tells
        → IsHeaderOf header.now.bytes.now header.now.payload (D.bytes device.old)
        → IfErr result (IsUnopened (D.bytes device.old) opener.now) }
{
    match opener {
        Opener::Keyslot { slot, secret } => unlock_keyslot(alloc, device, header, *slot, secret),
        Opener::Key(key) => own_volume_key(header, key),
    }
}

/// The key that the keyslot `n`, which is in use, gives by the secret.
fn unlock_keyslot<D: Device>(
    alloc: Global,
    device: &mut D,
    header: &AcceptedHeader<'_>,
    n: u8,
    secret: &Secret<'_>,
) -> Result<Key, EditFault>
    requires room { D.failed device.old + 1 < 2 ^ 64 }
    requires accepted { IsAcceptedAt header.now (D.size device.old) }
    requires used { (v : List ℕ) → HoldsSlots v header.now.fields.slots → IsInUse v n }
    ensures unchanged { IsUnchanged D.tells D.size D.bytes D.unsettled device.old device.new }
    ensures count { CountsFailure is_edit_failure result
        (D.failed device.old) (D.failed device.new) }
    ensures memory { IfErr result (λ f. f ≢ EditFault.Memory) }
    ensures length { IfOk result (λ key. length key ≡ key_bytes_of header.now.bytes.now) }
    ensures opened { D.tells
        → IsHeaderOf header.now.bytes.now header.now.payload (D.bytes device.old)
        → IfOk result (IsOpenedBy (D.bytes device.old) (Keyslot n secret.now)) }
    ensures refused { D.tells
        → IsHeaderOf header.now.bytes.now header.now.payload (D.bytes device.old)
        → IfErr result (IsUnopened (D.bytes device.old) (Keyslot n secret.now)) }
{
    let slot = &header.fields.slots[n as usize];
    let plan = luks1_plan(&header.fields.common, slot);
    let allowed = Allowed {
        memory: 0,
        older: secret.allowed.older,
    };
    match give_within(alloc, device, &plan, secret, allowed) {
        Ok(found) => match found {
            Some(key) => Ok(key),
            None => Err(lock_fault(secret.kind, plan.key_bytes, secret.bytes)),
        },
        Err(fault) => Err(keyslot_fault(fault)),
    }
}

/// The key, where it is the volume's: its length, the digest, the cipher and the hash are those of the
/// header, whose keyslots needn't be in use.
fn own_volume_key(header: &AcceptedHeader<'_>, key: &VolumeKey<'_>) -> Result<Key, EditFault>
    requires { IsLuks1 header.now.bytes.now header.now.fields }
    ensures own { IfErr result (λ f. is_edit_failure f ≡ false) }
    ensures memory { IfErr result (λ f. f ≢ EditFault.Memory) }
    ensures length { IfOk result (λ key. length key ≡ key_bytes_of header.now.bytes.now) }
    ensures opened { (v : List ℕ) → IsHeaderOf header.now.bytes.now header.now.payload v
        → IfOk result (IsOpenedBy v (ByKey key.now)) }
    ensures refused { (v : List ℕ) → IsHeaderOf header.now.bytes.now header.now.payload v
        → IfErr result (IsUnopened v (ByKey key.now)) }
{
    let plan = luks1_plan(&header.fields.common, &header.fields.slots[0]);
    let allowed = Allowed {
        memory: 0,
        older: key.allowed.older,
    };
    match own_key(&plan, key.bytes, allowed) {
        Ok(found) => match found {
            Some(own) => Ok(own),
            None => Err(lock_fault(SecretKind::Key, plan.key_bytes, key.bytes)),
        },
        Err(fault) => Err(keyslot_fault(fault)),
    }
}
