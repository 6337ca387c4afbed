//! Why a keyslot is refused whatever the passphrase.
ghost use Rattle.std.specs.Prelude.{◌≡◌, ℕ, List, length, IfSome, IsNone};
ghost use Rattle.luks2_header.specs.Header2.{uuid_field};
ghost use Rattle.luks_meta.specs.Content.{content};
ghost use Rattle.luks_meta.specs.Objects.{IsAccepted};
ghost use Rattle.luks_reading.specs.Answer.{FirstRefusal, IsLuks1Refusal, IsLuks2RefusalWithin, IsRefusalWithin};
ghost use Rattle.luks_reading.specs.ChosenCopies.{IsCleared};
ghost use Rattle.luks_reading.specs.Header.{IsAcceptedHeader, IsHeader};
ghost use Rattle.luks_reading.specs.PlanAnswers.{IsPlanAccepted, IsPlanRefusal};

use crate::header::Header;
use crate::luks1_fields::{luks1_common, luks1_entry};
use crate::open_fault::OpenFault;
use crate::plan::{luks1_plan, luks2_plan};
use luks_meta::Meta;
use luks_slot::{Allowed, SlotPlan, refusal_within};

/// The fault for which `open_header_slot` refuses the keyslot `n` of a volume of `total` bytes with
/// this header if so much is allowed, or None if it tries the passphrase. It takes no memory.
pub fn refused_slot(header: &Header, n: u8, total: u64, allowed: Allowed) -> Option<OpenFault>
    requires accepted { IsAcceptedHeader header.now }
    ensures { (v : List ℕ) → IsHeader v header.now → length v ≡ total
        → FirstRefusal (IsRefusalWithin allowed v n) result }
{
    match header {
        Header::Luks1(bytes) => luks1_refusal(bytes.as_slice(), n, total, allowed.older),
        Header::Luks2(copy) => luks2_refusal(&copy.meta, n, total, allowed),
    }
}

/// The fault for which a LUKS1 header, these 592 bytes, refuses the keyslot `n` in a volume of `total`
/// bytes. `older` says whether older ciphers and hashes are allowed.
fn luks1_refusal(header: &[u8], n: u8, total: u64, older: bool) -> Option<OpenFault>
    requires { length header.now ≡ 592 }
    ensures { FirstRefusal (IsLuks1Refusal older header.now total n) result }
{
    let common = match luks1_common(header) {
        Ok(common) => common,
        Err(fault) => return Some(OpenFault::from(fault)),
    };
    match luks1_entry(header, n) {
        Ok(slot) => plan_refusal(
            &luks1_plan(&common, &slot),
            total,
            Allowed { memory: 0, older },
        ),
        Err(fault) => Some(fault),
    }
}

/// The fault for which this metadata refuses the keyslot `n` in a volume of `total` bytes if so much is
/// allowed.
fn luks2_refusal(meta: &Meta, n: u8, total: u64, allowed: Allowed) -> Option<OpenFault>
    requires { IsAccepted (content meta.now) }
    ensures { (b json : List ℕ) → IsCleared (uuid_field b) json (content meta.now)
        → FirstRefusal (IsLuks2RefusalWithin allowed b json total n) result }
{
    if n > 31 {
        return Some(OpenFault::NoSuchSlot);
    }
    let Some(keyslot) = meta.keyslot(n) else {
        return Some(OpenFault::NoSuchSlot);
    };
    let number = meta.digest_of_keyslot(n).unwrap();
    let digest = meta.digest(number).unwrap();
    plan_refusal(&luks2_plan(&keyslot, &digest), total, allowed)
}

/// The fault for which the plan is refused in a volume of `total` bytes: its area isn't inside, or
/// the plan itself is refused if so much is allowed.
fn plan_refusal(plan: &SlotPlan<'_>, total: u64, allowed: Allowed) -> Option<OpenFault>
    ensures refused { IfSome result (IsPlanRefusal allowed plan.now total) }
    ensures accepted { IsNone result → IsPlanAccepted allowed plan.now total }
{
    if !plan.area.is_inside(total) {
        return Some(OpenFault::Outside);
    }
    refusal_within(plan, allowed).map(OpenFault::Slot)
}
