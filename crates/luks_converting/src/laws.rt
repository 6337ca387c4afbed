//! Laws on the definitions of this crate. Each function does nothing; its contract is the law.
ghost use Rattle.std.specs.Prelude.{◌≡◌, ◌≤◌, List, None, Option, ℕ, false, length, true};
ghost use Rattle.luks_area.specs.Ranges.{part};
ghost use Rattle.luks1_header.specs.Header1.{luks1_size};
ghost use Rattle.luks2_header.specs.Selection.{luks1, Chosen};
ghost use Rattle.luks_slot.specs.Opening.{slot_key};
ghost use Rattle.luks_slot.specs.Refusal.{slot_refusal, slot_refusal_within};
ghost use Rattle.luks_slot.specs.declared.allowed.Allowed.{Allowed};
ghost use Rattle.luks_slot.specs.declared.plan.SlotPlan.{SlotPlan as ThePlan};
ghost use Rattle.luks_reading.specs.Answer.{AnswerWithin, opened_to, refused};
ghost use Rattle.luks_reading.specs.Checked.{WellFormed};
ghost use Rattle.luks_reading.specs.declared.open_fault.OpenFault.TheVariants.{NoSuchSlot};
ghost use Rattle.luks_reading.specs.declared.report.Data.TheVariants.{Elsewhere};
ghost use Rattle.luks_converting.specs.Converted.{IsConverted};
ghost use Rattle.luks_converting.specs.Copied.{HasSameSectors, IsCopiedPlan};
ghost use Rattle.luks_converting.specs.Outcome.{IsFull};
ghost use Rattle.luks_converting.specs.Source.{is_enabled, IsSource};

/// A LUKS2 keyslot with the plan and the sectors of a LUKS1 keyslot gives the same key, or none, by
/// each passphrase; and it isn't refused where the LUKS1 keyslot isn't, whatever is allowed.
pub fn copied_keyslot_opens_alike()
    ensures key { (a b : ThePlan) (area copy passphrase : List ℕ) → IsCopiedPlan a b
        → HasSameSectors a area copy → slot_key a area passphrase ≡ slot_key b copy passphrase }
    ensures unrefused { (a b : ThePlan) → IsCopiedPlan a b → slot_refusal a ≡ None
        → slot_refusal b ≡ None }
    ensures allowed { (allowed : Allowed) (a b : ThePlan) → IsCopiedPlan a b
        → slot_refusal_within allowed a ≡ None → slot_refusal_within allowed b ≡ None }
{}

/// The header that is made from a LUKS1 volume is well formed where the payload is elsewhere; each
/// enabled keyslot of the volume, by its number and each passphrase, opens there to the key that it
/// opened to, or to none, whatever is allowed; and there is no other keyslot.
pub fn converted_volume_opens_alike()
    ensures well_formed { (v random old w : List ℕ) → IsSource (part v 0 luks1_size)
        → 16777216 ≤ length w → IsConverted v random old w → WellFormed w Elsewhere }
    ensures opens { (v random old w : List ℕ) → Chosen v luks1 → IsSource (part v 0 luks1_size)
        → 16777216 ≤ length w → IsConverted v random old w
        → (allowed : Allowed) (n : ℕ) (p : List ℕ) (found : Option (List ℕ))
        → is_enabled (part v 0 luks1_size) n ≡ true
        → AnswerWithin allowed v n p (opened_to found)
        → AnswerWithin allowed w n p (opened_to found) }
    ensures absent { (v random old w : List ℕ) → Chosen v luks1 → IsSource (part v 0 luks1_size)
        → 16777216 ≤ length w → IsConverted v random old w
        → (allowed : Allowed) (n : ℕ) (p : List ℕ) → is_enabled (part v 0 luks1_size) n ≡ false
        → AnswerWithin allowed w n p (refused NoSuchSlot) }
{}

/// The metadata that is made from a LUKS1 header is never longer than its area holds.
pub fn metadata_is_never_full()
    ensures { (h : List ℕ) → IsSource h → IsFull h → ⊥ }
{}
