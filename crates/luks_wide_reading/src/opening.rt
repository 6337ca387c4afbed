//! Opening one keyslot of a volume in whose metadata something is under way.
ghost use Rattle.std.specs.Prelude.{◌≡◌, ◌≢◌, ◌+◌, ◌^◌, ◌<◌, ℕ, List, length, IfOk, IfErr, IfSome};
ghost use Rattle.luks_area.specs.Device.{CountsFailure, IsUnchanged};
ghost use Rattle.luks_json.specs.AreaText.{Json};
ghost use Rattle.luks_rules.specs.declared.table.Section.TheVariants.{Keyslots};
ghost use Rattle.luks_meta.specs.Objects.{IsObject};
ghost use Rattle.luks_meta.specs.Says.{TellsKeyslot};
ghost use Rattle.luks_reading.specs.Failures.{is_open_failure};
ghost use Rattle.luks_reading.specs.declared.open_fault.OpenFault.TheVariants.{Memory as NoMemory};
ghost use Rattle.luks_reading.specs.Plans.{HasLuks2KeyBytes};
ghost use Rattle.luks_reading.specs.PlanAnswers.{IsOpenable, PlanOpens, PlanRefused};
ghost use Rattle.luks_wider.specs.Underways.{content};
ghost use Rattle.luks_wide_reading.specs.Faults.{is_wide_open_failure};
ghost use Rattle.luks_wide_reading.specs.Opening.{IsUnderwayOpening};

use crate::copy::UnderwayCopy;
use crate::open_fault::WideOpenFault;
use luks_meta::Keyslot;
use luks_reading::{Allowed, Device, Key, Nearest, OpenFault, luks2_plan};
use luks_slot::{SlotPlan, Tried, try_within};
use luks_underway::WideKeyslot;
use luks_wider::Underway;
use std::alloc::Global;

/// Opens the keyslot `n` of a volume with this copy by the passphrase: its volume key, or None where the
/// passphrase doesn't give the key that meets the digest that the keyslot is assigned to. LUKS2 On-Disk
/// Format 1.1, 4.3.
///
/// The first refusal is answered: `Open(NoSuchSlot)`, `NoKey` of a keyslot of the type `reencrypt`,
/// `Open(Outside)`, `Open(Slot)`. `Open(Device)` comes exactly where a device call failed. Memory is taken
/// for Argon2 alone, and refused where `allowed.memory`, in KiB, is 0. How near the passphrase came is noted
/// in `nearest`, where the keyslot doesn't open. No clause speaks of `nearest`.
pub fn try_underway_slot<D: Device>(
    alloc: Global,
    device: &mut D,
    copy: &UnderwayCopy,
    n: u8,
    passphrase: &[u8],
    allowed: Allowed,
    nearest: &mut Option<Nearest>,
) -> Result<Option<Key>, WideOpenFault>
    requires room { D.failed device.old + 1 < 2 ^ 64 }
    requires passphrase { 0 < allowed.memory → length passphrase.now < 2 ^ 32 }
    ensures unchanged { IsUnchanged D.tells D.size D.bytes D.unsettled device.old device.new }
    ensures count { CountsFailure is_wide_open_failure result
        (D.failed device.old) (D.failed device.new) }
    ensures answers { (json : List ℕ) → Json json (content copy.now.meta)
        → IsUnderwayOpening D.tells (D.size device.old) (D.bytes device.old) json
        allowed n passphrase.now result }
    ensures key_bytes { IfOk result
        (λ found. IfSome found (λ key. HasLuks2KeyBytes (content copy.now.meta) n (length key))) }
    ensures no_memory { allowed.memory ≡ 0 → IfErr result (λ f. f ≢ WideOpenFault.Open NoMemory) }
{
    if n > 31 {
        return Err(WideOpenFault::Open(OpenFault::NoSuchSlot));
    }
    match copy.meta.keyslot(n) {
        None => Err(WideOpenFault::Open(OpenFault::NoSuchSlot)),
        Some(WideKeyslot::Reencrypt(_)) => Err(WideOpenFault::NoKey),
        Some(WideKeyslot::Luks2(keyslot)) => open_keyslot(
            alloc, device, &copy.meta, &keyslot, n, passphrase, allowed, nearest,
        ),
    }
}

/// What opening the keyslot `n` gives, which holds a key and tells these members.
pub(crate) fn open_keyslot<D: Device>(
    alloc: Global,
    device: &mut D,
    meta: &Underway,
    keyslot: &Keyslot<'_>,
    n: u8,
    passphrase: &[u8],
    allowed: Allowed,
    nearest: &mut Option<Nearest>,
) -> Result<Option<Key>, WideOpenFault>
    requires room { D.failed device.old + 1 < 2 ^ 64 }
    requires keyslot { IsObject TellsKeyslot (content meta.now) Keyslots n keyslot.now }
    requires numbered { n < 32 }
    requires passphrase { 0 < allowed.memory → length passphrase.now < 2 ^ 32 }
    ensures unchanged { IsUnchanged D.tells D.size D.bytes D.unsettled device.old device.new }
    ensures count { CountsFailure is_wide_open_failure result
        (D.failed device.old) (D.failed device.new) }
    ensures answers { (json : List ℕ) → Json json (content meta.now)
        → IsUnderwayOpening D.tells (D.size device.old) (D.bytes device.old) json
        allowed n passphrase.now result }
    ensures key_bytes { IfOk result
        (λ found. IfSome found (λ key. HasLuks2KeyBytes (content meta.now) n (length key))) }
    ensures no_memory { allowed.memory ≡ 0 → IfErr result (λ f. f ≢ WideOpenFault.Open NoMemory) }
{
    meta.meets_the_rules();
    let number = meta.digest_of_keyslot(n).unwrap();
    let digest = meta.digest(number).unwrap();
    let plan = luks2_plan(keyslot, &digest);
    match open_planned(alloc, device, &plan, n, passphrase, allowed, nearest) {
        Ok(found) => Ok(found),
        Err(fault) => Err(WideOpenFault::Open(fault)),
    }
}

/// What the plan of the keyslot `n` gives in the volume by the passphrase: its key, none, or why it is
/// refused.
fn open_planned<D: Device>(
    alloc: Global,
    device: &mut D,
    plan: &SlotPlan<'_>,
    n: u8,
    passphrase: &[u8],
    allowed: Allowed,
    nearest: &mut Option<Nearest>,
) -> Result<Option<Key>, OpenFault>
    requires room { D.failed device.old + 1 < 2 ^ 64 }
    requires judged { IsOpenable plan.now }
    requires passphrase { 0 < allowed.memory → length passphrase.now < 2 ^ 32 }
    ensures unchanged { IsUnchanged D.tells D.size D.bytes D.unsettled device.old device.new }
    ensures count { CountsFailure is_open_failure result
        (D.failed device.old) (D.failed device.new) }
    ensures opens { D.tells
        → IfOk result (PlanOpens allowed plan.now (D.bytes device.old) passphrase.now) }
    ensures refused { IfErr result (PlanRefused allowed plan.now (D.size device.old)) }
    ensures length { IfOk result (λ found. IfSome found (λ key. length key ≡ plan.now.key_bytes)) }
    ensures no_memory { allowed.memory ≡ 0 → IfErr result (λ f. f ≢ OpenFault.Memory) }
{
    if !plan.area.is_inside(device.len()) {
        return Err(OpenFault::Outside);
    }
    match try_within(alloc, device, plan, passphrase, allowed)? {
        Tried::Opens(key) => Ok(Some(key)),
        Tried::Differs(bits) => {
            note_distance(nearest, n, bits);
            Ok(None)
        }
    }
}

/// Notes that the digest of a keyslot differed in so many bits.
fn note_distance(nearest: &mut Option<Nearest>, slot: u8, bits: u32) {
    let is_nearer = match nearest {
        Some(known) => bits < known.bits,
        None => true,
    };
    if is_nearer {
        *nearest = Some(Nearest { slot, bits });
    }
}
