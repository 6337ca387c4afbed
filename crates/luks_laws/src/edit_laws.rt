//! Laws on why an edit is refused.
ghost use Rattle.std.specs.Prelude.{◌≡◌, ◌↔◌, ◌⊎◌, ℕ, List, Some};
ghost use Rattle.luks2_header.specs.Selection.{luks1, Choice, Chosen};
ghost use Rattle.luks_slot.specs.Allowance.{none_allowed, without_memory};
ghost use Rattle.luks_slot.specs.Refusal.{slot_refusal};
ghost use Rattle.luks_slot.specs.declared.allowed.Allowed.{Allowed as TheAllowed};
ghost use Rattle.luks_slot.specs.declared.plan.SlotPlan.{SlotPlan as ThePlan};
ghost use Rattle.luks_reading.specs.Answer.{Answer, AnswerWithin, HasPlanAs, IsRefusalAs, Opened};
ghost use Rattle.luks_reading.specs.declared.open_fault.OpenFault.TheVariants.{Slot as SlotRefusal};
ghost use Rattle.luks_reading.specs.declared.report.Data.{Data as Payload};
ghost use Rattle.luks_edit.specs.Asked.{allowed_by, allowed_for, allowed_of};
ghost use Rattle.luks_edit.specs.declared.edit.Edit.{Edit as TheEdit};
ghost use Rattle.luks_edit.specs.declared.edit.Opener.{Opener as TheOpener};
ghost use Rattle.luks1_edits.specs.Refused.{IsUnrefused1, Refusal1};
ghost use Rattle.luks2_edit_laws.specs.Refused.{IsUnrefused2, Refusal2};
ghost use Rattle.luks2_judging.specs.Opened.{TakesMemoryToOpen};
ghost use Rattle.luks_volume.specs.Edits.{IsUnrefused, Refusal};

use crate::{every_keyslot_has_an_answer, first_fault_or_well_formed};
use luks_edit::EditFault;
use luks_reading::nothing_allowed_is_as_before;
use luks_slot::SlotFault;

/// An edit of a volume has a first refusal, or it is refused by nothing: by the rules of either
/// version, and by those of what counts of the volume.
pub fn first_refusal_or_unrefused()
    ensures luks1 { (v : List ℕ) (payload : Payload) (e : TheEdit) (random : List ℕ)
        → ((f : EditFault) × Refusal1 v payload e random f) ⊎ IsUnrefused1 v payload e random }
    ensures luks2 { (v : List ℕ) (payload : Payload) (e : TheEdit) (random : List ℕ)
        → ((f : EditFault) × Refusal2 v payload e random f) ⊎ IsUnrefused2 v payload e random }
    ensures volume { (v : List ℕ) (payload : Payload) (e : TheEdit) (random : List ℕ)
        → ((f : EditFault) × Refusal v payload e random f) ⊎ IsUnrefused v payload e random }
{
    first_fault_or_well_formed();
    every_keyslot_has_an_answer();
}

/// What opens without memory allows none to an edit, and what is allowed nothing allows nothing.
/// If no memory is allowed, a keyslot answers the edit exactly as it does without Argon2, and takes
/// none; where nothing is, the plan of a keyslot of either version is refused as it is without older
/// ciphers and hashes too. A keyslot of LUKS1 answers alike whatever memory is allowed.
pub fn nothing_allowed_edits_as_before()
    ensures memoryless { (old : TheOpener) (new : List ℕ) → (allowed_of old).memory ≡ 0
        → allowed_for old new ≡ without_memory (allowed_of old).older }
    ensures allowed { (old : TheOpener) (new : List ℕ) → allowed_of old ≡ none_allowed
        → allowed_for old new ≡ none_allowed }
    ensures answer { (v : List ℕ) (e : TheEdit) (n : ℕ) (p : List ℕ) (a : Opened)
        → (allowed_by e).memory ≡ 0
        → (AnswerWithin (allowed_by e) v n p a
        ↔ AnswerWithin (without_memory (allowed_by e).older) v n p a) }
    ensures as_before { (v : List ℕ) (e : TheEdit) (n : ℕ) (p : List ℕ) (a : Opened)
        → allowed_by e ≡ none_allowed
        → (AnswerWithin (allowed_by e) v n p a ↔ Answer v n p a) }
    ensures refused { (v : List ℕ) (n : ℕ) (c : Choice) (f : SlotFault)
        → (IsRefusalAs v n c (SlotRefusal f)
        ↔ ((plan : ThePlan) × (HasPlanAs v n c plan × (slot_refusal plan ≡ Some f)))) }
    ensures taken { (v : List ℕ) (e : TheEdit) → (allowed_by e).memory ≡ 0
        → TakesMemoryToOpen v e → ⊥ }
    ensures luks1 { (v : List ℕ) → Chosen v luks1 → (less more : TheAllowed) (n : ℕ)
        → less.older ≡ more.older → (p : List ℕ) (a : Opened)
        → AnswerWithin less v n p a → AnswerWithin more v n p a }
{
    nothing_allowed_is_as_before();
}
