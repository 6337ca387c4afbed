//! Laws on the definitions of this crate. Each function changes nothing; its contract is the law.

ghost use Rattle.std.specs.Prelude.{◌≡◌, ◌-◌, ◌*◌, ◌≤◌, ℕ, List, length, Some, None, true, if◌then◌else◌};
ghost use Rattle.luks_slot.specs.Allowance.{none_allowed};
ghost use Rattle.luks_slot.specs.declared.allowed.Allowed.{Allowed as WhatIsAllowed};
ghost use Rattle.luks_slot.specs.declared.plan.SlotPlan.{SlotPlan as ThePlan};
ghost use Rattle.luks_slot.specs.declared.fault.SlotFault.{SlotFault as TheFault};
ghost use Rattle.luks_slot.specs.Fault.{IsAnsweredFault, IsAnsweredWithin};
ghost use Rattle.luks_slot.specs.Distance.{differing_bits, slot_digest, slot_distance, IsButDigest};
ghost use Rattle.luks_slot.specs.Opening.{candidate, meets_digest, slot_key};
ghost use Rattle.luks_slot.specs.Refusal.{is_argon2, slot_refusal, slot_refusal_within};
ghost use Rattle.luks_slot.specs.Sealing.{IsSealed};

use luks_kdf::KeyslotHash;

/// If an area holds what sealing a key leaves, opening it by the same passphrase answers that
/// key where the key meets the plan's digest, and none where it doesn't.
pub fn sealed_area_opens()
    ensures { (plan : ThePlan) (area passphrase key random : List ℕ)
        → 1 ≤ plan.stripes → length key ≡ plan.key_bytes
        → length random ≡ (plan.stripes - 1) * plan.key_bytes
        → IsSealed plan area passphrase key random
        → slot_key plan area passphrase
        ≡ (if meets_digest plan.digest key then Some key else None) }
{
    KeyslotHash::merge_undoes_split();
}

/// If nothing is allowed, a keyslot is refused exactly as it is without Argon2 and without older
/// ciphers, hashes and lengths of keys, for the same reason, and what is answered then is the same.
pub fn nothing_allowed_is_as_before()
    ensures refusal { (plan : ThePlan) → slot_refusal_within none_allowed plan ≡ slot_refusal plan }
    ensures fault { (plan : ThePlan) (f : TheFault)
        → IsAnsweredWithin none_allowed plan f → IsAnsweredFault plan f }
    ensures argon2 { (plan : ThePlan) → is_argon2 plan.derivation ≡ true
        → slot_refusal_within none_allowed plan ≡ Some TheFault.Argon2 }
{}

/// A keyslot that isn't refused where less is allowed isn't refused where more is.
pub fn more_allowed_opens_as_much()
    ensures { (allowed more : WhatIsAllowed) (plan : ThePlan) → allowed.memory ≤ more.memory
        → (allowed.older ≡ true → more.older ≡ true)
        → slot_refusal_within allowed plan ≡ None → slot_refusal_within more plan ≡ None }
{}

/// What a keyslot opens to by a passphrase meets the plan's digest.
pub fn found_key_meets_digest()
    ensures { (plan : ThePlan) (area passphrase key : List ℕ)
        → slot_key plan area passphrase ≡ Some key → meets_digest plan.digest key ≡ true }
{}

/// A keyslot's distance is that of the digest that its stripes give; with that digest in the place of the stored
/// one, and nothing else changed, it opens.
pub fn digest_in_place_opens()
    ensures distance { (plan : ThePlan) (area passphrase : List ℕ)
        → slot_distance plan area passphrase
        ≡ differing_bits (slot_digest plan area passphrase) plan.digest.stored.now }
    ensures opens { (plan other : ThePlan) (area passphrase : List ℕ) → IsButDigest plan other
        → other.digest.stored.now ≡ slot_digest plan area passphrase
        → slot_key other area passphrase ≡ Some (candidate plan area passphrase) }
{}
