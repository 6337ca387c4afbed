//! Laws that something always stands. The logic has no excluded middle: each fault that may stand is
//! decided, and so the one or the other is told.
ghost use Rattle.std.specs.Prelude.{◌⊎◌, ℕ, List};
ghost use Rattle.luks_slot.specs.declared.allowed.Allowed.{Allowed as TheAllowed};
ghost use Rattle.luks_reading.specs.declared.report.Data.{Data as Payload};
ghost use Rattle.luks_reading.specs.Answer.{AnswerWithin, Opened};
ghost use Rattle.luks_reading.specs.Checked.{First, WellFormed};

use luks_json::{names_say_numbers, one_kind_of_area, one_value};
use luks_meta::{metadata_without_faults, one_digest};
use luks_reading::{CheckFault, no_fault_is_well_formed};
use luks2_header::one_choice;

/// A volume has a first fault, or it is well formed.
pub fn first_fault_or_well_formed()
    ensures { (v : List ℕ) (payload : Payload)
        → ((f : CheckFault) × First v payload f) ⊎ WellFormed v payload }
{
    one_kind_of_area();
    one_value();
    one_choice();
    no_fault_is_well_formed();
}

/// Of each volume each keyslot has an answer by each passphrase, whatever is allowed: a
/// key, none, or the first refusal.
pub fn every_keyslot_has_an_answer()
    ensures { (allowed : TheAllowed) (v : List ℕ) (n : ℕ) (p : List ℕ)
        → (a : Opened) × AnswerWithin allowed v n p a }
{
    one_kind_of_area();
    one_value();
    one_choice();
    names_say_numbers();
    metadata_without_faults();
    one_digest();
}
