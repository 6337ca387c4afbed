//! Opening one keyslot of a volume.
ghost use Rattle.std.specs.Prelude.{◌≡◌, ◌≢◌, ◌+◌, ◌^◌, ◌<◌, ◌≤◌, ℕ, List, length, IfOk, IfErr, IfSome};
ghost use Rattle.luks_area.specs.Device.{CountsFailure, IsUnchanged};
ghost use Rattle.luks1_header.specs.declared.fault.HeadFault.{HeadFault as TheFault};
ghost use Rattle.luks1_header.specs.Bytes.{number_at};
ghost use Rattle.luks1_header.specs.Faults.{IsCommonFault};
ghost use Rattle.luks1_header.specs.Header1.{IsCommon};
ghost use Rattle.luks2_header.specs.Header2.{uuid_field};
ghost use Rattle.luks_meta.specs.Content.{content};
ghost use Rattle.luks_meta.specs.Objects.{IsAccepted};
ghost use Rattle.luks_reading.specs.declared.header.Header.TheVariants.{Luks2 as OfLuks2};
ghost use Rattle.luks_reading.specs.Agreement.{Agrees};
ghost use Rattle.luks_reading.specs.Answer.{AnswerWithin, IsRefusedByWithin, Opened, opened_to};
ghost use Rattle.luks_reading.specs.ChosenCopies.{IsCleared};
ghost use Rattle.luks_reading.specs.Luks1Keyslots.{Luks1Opens, Luks1Refused};
ghost use Rattle.luks_reading.specs.Luks2Keyslots.{Luks2Opens, Luks2Refused};
ghost use Rattle.luks_reading.specs.Failures.{is_open_failure};
ghost use Rattle.luks_reading.specs.Header.{IsAcceptedCopy, IsAcceptedHeader, TakesNoMemory};
ghost use Rattle.luks_reading.specs.HeaderAnswers.{IsSlotOpening};
ghost use Rattle.luks_reading.specs.PlanAnswers.{IsOpenable, PlanOpens, PlanRefused};
ghost use Rattle.luks_reading.specs.Plans.{HasLuks2KeyBytes};

use crate::header::{ChosenCopy, Header, read_header};
use crate::luks1_fields::{luks1_common, luks1_entry};
use crate::nearest::{Nearest, note_distance};
use crate::open_fault::OpenFault;
use crate::plan::{luks1_plan, luks2_plan};
use luks_area::Device;
use luks_meta::Meta;
use luks_slot::{Allowed, Key, SlotPlan, Tried, try_within};
use luks2_header::Luks1Common;
use std::alloc::Global;

/// Opens the keyslot `n` by the passphrase: its volume key, or None where the passphrase doesn't
/// give the key that meets the stored digest. An empty passphrase is a passphrase. LUKS1 On-Disk
/// Format 1.2.3, 4.3; LUKS2 On-Disk Format 1.1, 4.3.
///
/// It demands only what the keyslot needs: the volume may break other rules, and another keyslot of
/// LUKS1 may be damaged. The first refusal is answered: `Head` by the selection of the header and
/// the fields before the keyslots (LUKS2: the uuid), `Meta`, `NoSuchSlot`, of LUKS1 `Head` by the
/// keyslot's own entry and `SlotFree`, `Outside`, `Slot`. `Device` comes exactly where a device
/// call failed.
///
/// Argon2 may take `allowed.memory` KiB: with 0 every keyslot is refused that derives by it. Else
/// memory is taken for the metadata of LUKS2 alone. Older ciphers and hashes are refused where
/// `allowed.older` isn't set.
pub fn open_slot<D: Device>(
    alloc: Global,
    device: &mut D,
    n: u8,
    passphrase: &[u8],
    allowed: Allowed,
) -> Result<Option<Key>, OpenFault>
    requires room { D.failed device.old + 1 < 2 ^ 64 }
    requires passphrase { 0 < allowed.memory → length passphrase.now < 2 ^ 32 }
    ensures unchanged { IsUnchanged D.tells D.size D.bytes D.unsettled device.old device.new }
    ensures count { CountsFailure is_open_failure result
        (D.failed device.old) (D.failed device.new) }
    ensures opens { D.tells → IfOk result
        (λ found. AnswerWithin allowed (D.bytes device.old) n passphrase.now (opened_to found)) }
    ensures refused { D.tells
        → IfErr result (IsRefusedByWithin allowed (D.bytes device.old) n passphrase.now) }
    ensures memory { D.tells → TakesNoMemory (D.bytes device.old)
        → IfErr result (λ f. f ≢ OpenFault.Memory) }
    // There is no other answer.
    ensures only { D.tells → (a : Opened)
        → AnswerWithin allowed (D.bytes device.old) n passphrase.now a → Agrees a result }
{
    let header = read_header(alloc, device)?;
    open_header_slot(alloc, device, &header, n, passphrase, allowed)
}

/// What `open_slot` answers of a volume with this header. It takes memory for Argon2 alone, where it
/// is allowed.
pub fn open_header_slot<D: Device>(
    alloc: Global,
    device: &mut D,
    header: &Header,
    n: u8,
    passphrase: &[u8],
    allowed: Allowed,
) -> Result<Option<Key>, OpenFault>
    requires room { D.failed device.old + 1 < 2 ^ 64 }
    requires accepted { IsAcceptedHeader header.now }
    requires passphrase { 0 < allowed.memory → length passphrase.now < 2 ^ 32 }
    ensures unchanged { IsUnchanged D.tells D.size D.bytes D.unsettled device.old device.new }
    ensures count { CountsFailure is_open_failure result
        (D.failed device.old) (D.failed device.new) }
    ensures answers { IsSlotOpening D.tells (D.bytes device.old) header.now allowed n passphrase.now
        result }
{
    let mut nearest = None;
    try_header_slot(alloc, device, header, n, passphrase, allowed, &mut nearest)
}

/// What `open_header_slot` answers, which notes in `nearest` how near the passphrase came, where the
/// keyslot doesn't open. It derives nothing more for that. No clause speaks of `nearest`.
pub fn try_header_slot<D: Device>(
    alloc: Global,
    device: &mut D,
    header: &Header,
    n: u8,
    passphrase: &[u8],
    allowed: Allowed,
    nearest: &mut Option<Nearest>,
) -> Result<Option<Key>, OpenFault>
    requires room { D.failed device.old + 1 < 2 ^ 64 }
    requires accepted { IsAcceptedHeader header.now }
    requires passphrase { 0 < allowed.memory → length passphrase.now < 2 ^ 32 }
    ensures unchanged { IsUnchanged D.tells D.size D.bytes D.unsettled device.old device.new }
    ensures count { CountsFailure is_open_failure result
        (D.failed device.old) (D.failed device.new) }
    ensures answers { IsSlotOpening D.tells (D.bytes device.old) header.now allowed n passphrase.now
        result }
{
    match header {
        Header::Luks1(bytes) => open_luks1(
            alloc,
            device,
            bytes.as_slice(),
            n,
            passphrase,
            allowed.older,
            nearest,
        ),
        Header::Luks2(copy) => try_copy_slot(alloc, device, copy, n, passphrase, allowed, nearest),
    }
}

/// What `try_header_slot` answers of a volume with this LUKS2 copy.
pub fn try_copy_slot<D: Device>(
    alloc: Global,
    device: &mut D,
    copy: &ChosenCopy,
    n: u8,
    passphrase: &[u8],
    allowed: Allowed,
    nearest: &mut Option<Nearest>,
) -> Result<Option<Key>, OpenFault>
    requires room { D.failed device.old + 1 < 2 ^ 64 }
    requires accepted { IsAcceptedCopy copy.now }
    requires passphrase { 0 < allowed.memory → length passphrase.now < 2 ^ 32 }
    ensures unchanged { IsUnchanged D.tells D.size D.bytes D.unsettled device.old device.new }
    ensures count { CountsFailure is_open_failure result
        (D.failed device.old) (D.failed device.new) }
    ensures answers { IsSlotOpening D.tells (D.bytes device.old) (OfLuks2 copy.now) allowed n
        passphrase.now result }
{
    open_luks2(alloc, device, &copy.meta, n, passphrase, allowed, nearest)
}

/// What opening the keyslot `n` of a volume with these 592 bytes of a LUKS1 header gives.
fn open_luks1<D: Device>(
    alloc: Global,
    device: &mut D,
    header: &[u8],
    n: u8,
    passphrase: &[u8],
    older: bool,
    nearest: &mut Option<Nearest>,
) -> Result<Option<Key>, OpenFault>
    requires room { D.failed device.old + 1 < 2 ^ 64 }
    requires header { length header.now ≡ 592 }
    ensures unchanged { IsUnchanged D.tells D.size D.bytes D.unsettled device.old device.new }
    ensures count { CountsFailure is_open_failure result
        (D.failed device.old) (D.failed device.new) }
    ensures opens { D.tells
        → IfOk result (Luks1Opens older header.now (D.bytes device.old) n passphrase.now) }
    ensures refused { IfErr result (Luks1Refused older header.now (D.size device.old) n) }
    ensures length { IfOk result
        (λ found. IfSome found (λ key. length key ≡ number_at header.now 108 4)) }
{
    let common = luks1_common(header)?;
    open_luks1_slot(
        alloc, device, header, &common, n, passphrase, older, nearest,
    )
}

/// What opening the keyslot `n` gives where nothing is wrong with what precedes the keyslots.
pub(crate) fn open_luks1_slot<D: Device>(
    alloc: Global,
    device: &mut D,
    header: &[u8],
    common: &Luks1Common,
    n: u8,
    passphrase: &[u8],
    older: bool,
    nearest: &mut Option<Nearest>,
) -> Result<Option<Key>, OpenFault>
    requires room { D.failed device.old + 1 < 2 ^ 64 }
    requires header { length header.now ≡ 592 }
    requires common { IsCommon header.now common.now }
    requires faultless { (f : TheFault) → IsCommonFault header.now f → ⊥ }
    ensures unchanged { IsUnchanged D.tells D.size D.bytes D.unsettled device.old device.new }
    ensures count { CountsFailure is_open_failure result
        (D.failed device.old) (D.failed device.new) }
    ensures opens { D.tells
        → IfOk result (Luks1Opens older header.now (D.bytes device.old) n passphrase.now) }
    ensures refused { IfErr result (Luks1Refused older header.now (D.size device.old) n) }
    ensures length { IfOk result
        (λ found. IfSome found (λ key. length key ≡ number_at header.now 108 4)) }
{
    let slot = luks1_entry(header, n)?;
    let plan = luks1_plan(common, &slot);
    let allowed = Allowed { memory: 0, older };
    open_planned(alloc, device, &plan, n, passphrase, allowed, nearest)
}

/// What opening the keyslot `n` of a volume with this metadata gives.
pub(crate) fn open_luks2<D: Device>(
    alloc: Global,
    device: &mut D,
    meta: &Meta,
    n: u8,
    passphrase: &[u8],
    allowed: Allowed,
    nearest: &mut Option<Nearest>,
) -> Result<Option<Key>, OpenFault>
    requires room { D.failed device.old + 1 < 2 ^ 64 }
    requires accepted { IsAccepted (content meta.now) }
    requires passphrase { 0 < allowed.memory → length passphrase.now < 2 ^ 32 }
    ensures unchanged { IsUnchanged D.tells D.size D.bytes D.unsettled device.old device.new }
    ensures count { CountsFailure is_open_failure result
        (D.failed device.old) (D.failed device.new) }
    ensures opens { D.tells → (b json : List ℕ) → IsCleared (uuid_field b) json (content meta.now)
        → IfOk result (Luks2Opens allowed b json (D.bytes device.old) n passphrase.now) }
    ensures refused { (b json : List ℕ) → IsCleared (uuid_field b) json (content meta.now)
        → IfErr result (Luks2Refused allowed b json (D.size device.old) n) }
    ensures length { IfOk result
        (λ found. IfSome found (λ key. HasLuks2KeyBytes (content meta.now) n (length key))) }
    ensures no_memory { allowed.memory ≡ 0 → IfErr result (λ f. f ≢ OpenFault.Memory) }
{
    if n > 31 {
        return Err(OpenFault::NoSuchSlot);
    }
    let Some(keyslot) = meta.keyslot(n) else {
        return Err(OpenFault::NoSuchSlot);
    };
    let number = meta.digest_of_keyslot(n).unwrap();
    let digest = meta.digest(number).unwrap();
    let plan = luks2_plan(&keyslot, &digest);
    open_planned(alloc, device, &plan, n, passphrase, allowed, nearest)
}

/// What the plan of the keyslot `n` gives in the volume by the passphrase: its key, none, or why it is
/// refused.
fn open_planned<D: Device>(
    alloc: Global,
    device: &mut D,
    plan: &SlotPlan<'_>,
    n: u8,
    passphrase: &[u8],
    allowed: Allowed,
    nearest: &mut Option<Nearest>,
) -> Result<Option<Key>, OpenFault>
    requires room { D.failed device.old + 1 < 2 ^ 64 }
    requires judged { IsOpenable plan.now }
    requires passphrase { 0 < allowed.memory → length passphrase.now < 2 ^ 32 }
    ensures unchanged { IsUnchanged D.tells D.size D.bytes D.unsettled device.old device.new }
    ensures count { CountsFailure is_open_failure result
        (D.failed device.old) (D.failed device.new) }
    ensures opens { D.tells
        → IfOk result (PlanOpens allowed plan.now (D.bytes device.old) passphrase.now) }
    ensures refused { IfErr result (PlanRefused allowed plan.now (D.size device.old)) }
    ensures length { IfOk result (λ found. IfSome found (λ key. length key ≡ plan.now.key_bytes)) }
    ensures no_memory { allowed.memory ≡ 0 → IfErr result (λ f. f ≢ OpenFault.Memory) }
{
    if !plan.area.is_inside(device.len()) {
        return Err(OpenFault::Outside);
    }
    match try_within(alloc, device, plan, passphrase, allowed)? {
        Tried::Opens(key) => Ok(Some(key)),
        Tried::Differs(bits) => {
            note_distance(nearest, n, bits);
            Ok(None)
        }
    }
}
