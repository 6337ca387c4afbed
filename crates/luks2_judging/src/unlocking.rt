//! What gives the key for an edit of a LUKS2 volume: a keyslot, by its passphrase or its key, or the
//! volume key.
ghost use Rattle.std.specs.Prelude.{◌≡◌, ◌≢◌, ◌+◌, ◌^◌, ◌<◌, ℕ, List, Some, length, true, IfOk, IfErr, IfSome};
ghost use Rattle.luks_area.specs.Calls.{Reads};
ghost use Rattle.luks2_header.specs.Header2.{uuid_field};
ghost use Rattle.luks_edit.specs.Asked.{allowed_by, bytes_of, deed_of, opener_in};
ghost use Rattle.luks_edit.specs.EditFaults.{is_edit_failure};
ghost use Rattle.luks_edit.specs.declared.edit.Edit.{Edit as TheEdit};
ghost use Rattle.luks_edit.specs.declared.edit.Opener.TheVariants.{Keyslot};
ghost use Rattle.luks_reading.specs.Answer.{TakesMemory};
ghost use Rattle.luks_reading.specs.Checked.{WellFormed};
ghost use Rattle.luks_meta.specs.Content.{content};
ghost use Rattle.luks_reading.specs.ChosenCopies.{IsCleared};
ghost use Rattle.luks_reading.specs.Failures.{is_open_failure, is_own};
ghost use Rattle.luks_reading.specs.Header.{IsAcceptedCopy, IsChosenCopy};
ghost use Rattle.luks_reading.specs.Luks2Keyslots.{Luks2Refused};
ghost use Rattle.luks_reading.specs.PlanAnswers.{IsOpenable, PlanRefused};
ghost use Rattle.luks_reading.specs.Plans.{HasLuks2KeyBytes};
ghost use Rattle.luks_reading.specs.declared.report.Data.{Data as Payload};
ghost use Rattle.luks2_edit_laws.specs.Likes.{IsLike};
ghost use Rattle.luks2_edit_laws.specs.Metadata.{IsInUse};
ghost use Rattle.luks2_edit_laws.specs.Refused.{HasSaid, IsAbsent};
ghost use Rattle.luks2_judging.specs.Judged.{IsUsable};
ghost use Rattle.luks2_judging.specs.Opened.{HasKeyBytesLike, IsSecretAnswer, IsUnopened, Luks2Keeps, Opens, PlanKeeps, unopened};

use crate::keys::{Given, own_volume_key};
use luks_area::{AreaFault, AreaName, Device};
use luks_edit::{EditFault, Opener, Secret, SecretKind, lock_fault, own_key};
use luks_meta::Meta;
use luks_reading::{CheckFault, ChosenCopy, OpenFault, luks2_plan, try_copy_slot};
use luks_slot::{Allowed, Key, SlotPlan};
use luks2_edit_laws::Like;
use std::alloc::Global;

/// The fault of opening the keyslot `n` as that of an edit.
fn unopened(n: u8, fault: OpenFault) -> EditFault
    ensures { result ≡ unopened n fault }
{
    match fault {
        OpenFault::Head(fault) => EditFault::NotAccepted(CheckFault::Head(fault)),
        OpenFault::Meta(fault) => EditFault::NotAccepted(CheckFault::Meta(fault)),
        OpenFault::NoSuchSlot | OpenFault::SlotFree => EditFault::NoSuchSlot,
        OpenFault::Outside => {
            EditFault::NotAccepted(CheckFault::Area(AreaFault::Outside(AreaName::Slot(n))))
        }
        OpenFault::Slot(fault) => EditFault::Slot(fault),
        OpenFault::Device => EditFault::Device,
        OpenFault::Memory => EditFault::Memory,
    }
}

/// The key that the opener gives, with what a new keyslot is made like for it, or why it gives none:
/// `Locked`, `KeyLength`, `WrongKey`, `Slot`, or the device's failure. Its keyslot is there, if it is of one.
/// Argon2 may take as much memory as is allowed; else none is taken.
pub(crate) fn unlock<D: Device>(
    alloc: Global,
    device: &mut D,
    copy: &ChosenCopy,
    opener: &Opener<'_>,
    allowed: Allowed,
) -> Result<Given, EditFault>
    requires room { D.failed device.old + 1 < 2 ^ 64 }
    requires accepted { IsAcceptedCopy copy.now }
    requires usable { IsUsable (content copy.now.meta) opener.now }
    requires short { 0 < allowed.memory → length (bytes_of opener.now) < 2 ^ 32 }
    ensures reads { Reads D.Device is_edit_failure result device.old device.new }
    ensures no_memory { allowed.memory ≡ 0 → IfErr result (λ f. f ≢ EditFault.Memory) }
    ensures like { IfOk result (λ g. IsLike (content copy.now.meta) opener.now g.like) }
    ensures length { IfOk result (λ g. HasKeyBytesLike (content copy.now.meta) g.like (length g.key)) }
    ensures opened { D.tells → IsChosenCopy (D.bytes device.old) copy.now
        → (e : TheEdit) → allowed_by e ≡ allowed → opener_in (deed_of e) ≡ Some opener.now
        → IfOk result (λ g. Opens (D.bytes device.old) e g.key) }
    ensures refused { D.tells → IsChosenCopy (D.bytes device.old) copy.now
        → (payload : Payload) (e : TheEdit) → WellFormed (D.bytes device.old) payload
        → allowed_by e ≡ allowed → opener_in (deed_of e) ≡ Some opener.now
        → (HasSaid (D.bytes device.old) (λ o j. IsAbsent j e) → ⊥)
        → IfErr result (IsUnopened (D.bytes device.old) e) }
{
    match opener {
        Opener::Keyslot { slot, secret } => {
            let key = unlock_keyslot(alloc, device, copy, *slot, secret, allowed)?;
            Ok(Given {
                key,
                like: Like::Keyslot(*slot),
            })
        }
        Opener::Key(key) => own_volume_key(&copy.meta, key),
    }
}

/// The key that the keyslot `n` gives by the secret, which an edit opens; or why it gives none: `Locked`,
/// `KeyLength`, `WrongKey`, `Slot`, or the device's failure. Argon2 may take as much memory as is allowed;
/// else none is taken.
fn unlock_keyslot<D: Device>(
    alloc: Global,
    device: &mut D,
    copy: &ChosenCopy,
    n: u8,
    secret: &Secret<'_>,
    allowed: Allowed,
) -> Result<Key, EditFault>
    requires room { D.failed device.old + 1 < 2 ^ 64 }
    requires accepted { IsAcceptedCopy copy.now }
    requires there { IsInUse (content copy.now.meta) n }
    requires passphrase { 0 < allowed.memory → length secret.now.bytes.now < 2 ^ 32 }
    ensures reads { Reads D.Device is_edit_failure result device.old device.new }
    // Memory is refused only to a keyslot that takes it, and to none where none is allowed.
    ensures memory { D.tells → IsChosenCopy (D.bytes device.old) copy.now
        → IfErr result (λ f. f ≡ EditFault.Memory
        → TakesMemory allowed (D.bytes device.old) n) }
    ensures no_memory { allowed.memory ≡ 0 → IfErr result (λ f. f ≢ EditFault.Memory) }
    ensures length { IfOk result (λ key. HasLuks2KeyBytes (content copy.now.meta) n (length key)) }
    ensures opened { D.tells → IsChosenCopy (D.bytes device.old) copy.now
        → (e : TheEdit) → allowed_by e ≡ allowed → opener_in (deed_of e) ≡ Some (Keyslot n secret.now)
        → IfOk result (Opens (D.bytes device.old) e) }
    ensures refused { D.tells → IsChosenCopy (D.bytes device.old) copy.now
        → (payload : Payload) (e : TheEdit) → WellFormed (D.bytes device.old) payload
        → allowed_by e ≡ allowed → opener_in (deed_of e) ≡ Some (Keyslot n secret.now)
        → (HasSaid (D.bytes device.old) (λ o j. IsAbsent j e) → ⊥)
        → IfErr result (IsUnopened (D.bytes device.old) e) }
{
    match given(alloc, device, copy, n, secret, allowed) {
        Ok(found) => match found {
            Some(key) => Ok(key),
            None => Err(lock_fault(secret.kind, key_bytes(&copy.meta, n), secret.bytes)),
        },
        Err(fault) => Err(unopened(n, fault)),
    }
}

/// How many bytes the key of the keyslot has, which is there.
fn key_bytes(meta: &Meta, n: u8) -> usize
    requires { IsInUse (content meta.now) n }
    ensures { HasLuks2KeyBytes (content meta.now) n result }
{
    match meta.keyslot(n) {
        Some(keyslot) => usize::from(keyslot.key_size),
        None => unreachable!(),
    }
}

/// What the keyslot `n`, which is there, answers to the secret.
fn given<D: Device>(
    alloc: Global,
    device: &mut D,
    copy: &ChosenCopy,
    n: u8,
    secret: &Secret<'_>,
    allowed: Allowed,
) -> Result<Option<Key>, OpenFault>
    requires room { D.failed device.old + 1 < 2 ^ 64 }
    requires accepted { IsAcceptedCopy copy.now }
    requires there { IsInUse (content copy.now.meta) n }
    requires passphrase { 0 < allowed.memory → length secret.now.bytes.now < 2 ^ 32 }
    ensures reads { Reads D.Device is_open_failure result device.old device.new }
    ensures answers { IsSecretAnswer D.tells (D.bytes device.old) copy.now secret.now.kind allowed n
        secret.now.bytes.now result }
{
    match secret.kind {
        SecretKind::Passphrase => {
            let mut nearest = None;
            try_copy_slot(alloc, device, copy, n, secret.bytes, allowed, &mut nearest)
        }
        SecretKind::Key => own_key_in(copy, n, secret.bytes, allowed, device.len()),
    }
}

/// The key where it is that of the keyslot `n`, which is there, in a volume of `total` bytes.
fn own_key_in(
    copy: &ChosenCopy,
    n: u8,
    key: &[u8],
    allowed: Allowed,
    total: u64,
) -> Result<Option<Key>, OpenFault>
    requires accepted { IsAcceptedCopy copy.now }
    requires there { IsInUse (content copy.now.meta) n }
    ensures own { IfErr result (λ f. is_own f ≡ true) }
    ensures length { IfOk result (λ found. IfSome found
        (λ k. HasLuks2KeyBytes (content copy.now.meta) n (length k))) }
    ensures gives { (b json : List ℕ) → IsCleared (uuid_field b) json (content copy.now.meta)
        → IfOk result (Luks2Keeps allowed b json total n key.now) }
    ensures refused { (b json : List ℕ) → IsCleared (uuid_field b) json (content copy.now.meta)
        → IfErr result (Luks2Refused allowed b json total n) }
{
    match copy.meta.keyslot(n) {
        Some(keyslot) => {
            let number = copy.meta.digest_of_keyslot(n).unwrap();
            let digest = copy.meta.digest(number).unwrap();
            let plan = luks2_plan(&keyslot, &digest);
            own_key_by(&plan, key, allowed, total)
        }
        None => unreachable!(),
    }
}

/// The same by the plan of the keyslot.
fn own_key_by(
    plan: &SlotPlan<'_>,
    key: &[u8],
    allowed: Allowed,
    total: u64,
) -> Result<Option<Key>, OpenFault>
    requires judged { IsOpenable plan.now }
    ensures own { IfErr result (λ f. is_own f ≡ true) }
    ensures length { IfOk result (λ found. IfSome found (λ k. length k ≡ plan.now.key_bytes)) }
    ensures gives { IfOk result (PlanKeeps allowed plan.now total key.now) }
    ensures refused { IfErr result (PlanRefused allowed plan.now total) }
{
    if !plan.area.is_inside(total) {
        return Err(OpenFault::Outside);
    }
    match own_key(plan, key, allowed) {
        Ok(found) => Ok(found),
        Err(fault) => Err(OpenFault::Slot(fault)),
    }
}
