//! Laws on the definitions of this crate. Each function does nothing; its contract is the law.

ghost use Rattle.std.specs.Prelude.{◌≡◌, ◌↔◌, ◌⊎◌, ℕ, List, None, Some, replicate};
ghost use Rattle.luks_area.specs.declared.area.Area.{Area as TheArea};
ghost use Rattle.luks_area.specs.declared.area.AreaName.TheVariants.{Slot};
ghost use Rattle.luks_area.specs.Ranges.{part, SameBut};
ghost use Rattle.luks_area.specs.Text.{text_of};
ghost use Rattle.luks1_header.specs.Bytes.{IsUuid};
ghost use Rattle.luks2_header.specs.Header2.{hdr_size, header_at, uuid_field};
ghost use Rattle.luks2_header.specs.Selection.{luks2, Chosen};
ghost use Rattle.luks_slot.specs.declared.allowed.Allowed.{Allowed as TheAllowed};
ghost use Rattle.luks_reading.specs.Answer.{AnswerWithin, Opened};
ghost use Rattle.luks_reading.specs.Checked.{AreaOf, WellFormed};
ghost use Rattle.luks_reading.specs.declared.report.Data.{Data as Payload};
ghost use Rattle.luks_edit.specs.declared.edit.Edit.{Edit as TheEdit};
ghost use Rattle.luks_edit.specs.declared.edit.Edit.TheVariants.{Erase};
ghost use Rattle.luks_making.specs.declared.amended.Change.{Change as TheChange};
ghost use Rattle.luks_edit.specs.declared.new_uuid.NewUuid.{NewUuid as TheUuid};
ghost use Rattle.luks_edit.specs.Asked.{again_by, change_by, uuid_by, Loses};
ghost use Rattle.luks_edit.specs.Kept.{IsShut, Keeps, KeepsAnswers};
ghost use Rattle.luks_edit.specs.NewUuids.{new_uuid_text};
ghost use Rattle.luks2_edit_laws.specs.Copies.{uuid_random};
ghost use Rattle.luks2_edit_laws.specs.Derived.{IsDerivedBy};
ghost use Rattle.luks2_edit_laws.specs.Edited.{After2, HasRanges, NamedKeyslots2, OpensAfter2};
ghost use Rattle.luks2_edit_laws.specs.Kept.{HasSameKeyslot};
ghost use Rattle.luks2_edit_laws.specs.Leftovers.{CountsAsAfter, CountsAsBefore, IsNotStray, KeepsAllOrNone, Leftover2, OpensEither2};
ghost use Rattle.luks2_edit_laws.specs.Places.{IsTouchedIn};
ghost use Rattle.luks2_edit_laws.specs.Refused.{IsEditFault2, IsUnrefused2, Refusal2};
ghost use Rattle.luks_edit.specs.EditFaults.{edit_key};
ghost use Rattle.luks_edit.specs.declared.edit_fault.EditFault.{EditFault as TheFault};

use luks2_header::Copies;

/// A keyslot that a change of a LUKS2 volume leaves as it was has the same answer for every
/// passphrase, whatever is allowed: the same key, none, or the same refusals.
pub fn alike_slots_answer_alike()
    ensures { (v w : List ℕ) (m : ℕ) → HasSameKeyslot v w m
        → (allowed : TheAllowed) (p : List ℕ) (a : Opened)
        → AnswerWithin allowed v m p a ↔ AnswerWithin allowed w m p a }
{}

/// After an edit of a well formed LUKS2 volume that nothing refused, the volume is well formed, and
/// its copies are in step; the segments are as before, and so are the area, the value and the
/// answers of each keyslot that the edit didn't name. Each area that a keyslot loses is zeros, and a
/// keyslot that loses its area and isn't sealed again opens no more by any passphrase. If the
/// metadata changes in named members, each keyslot has its area and its answers, the one too whose
/// priority is set.
pub fn luks2_edit_keeps_volume()
    ensures keeps { (payload : Payload) (e : TheEdit) (v random w : List ℕ) → WellFormed v payload
        → HasRanges v e random → IsUnrefused2 v payload e random → After2 v payload e random w
        → Keeps payload (NamedKeyslots2 v e) v w }
    ensures chosen { (payload : Payload) (e : TheEdit) (v random w : List ℕ) → WellFormed v payload
        → HasRanges v e random → IsUnrefused2 v payload e random → After2 v payload e random w
        → Chosen w (luks2 0 Copies.InStep) }
    ensures lost { (payload : Payload) (e : TheEdit) (v random w : List ℕ) (n : ℕ) (a : TheArea)
        → WellFormed v payload → After2 v payload e random w → Loses e n
        → AreaOf v payload (Slot n) a → part w a.start a.len ≡ replicate a.len 0 }
    ensures shut { (payload : Payload) (e : TheEdit) (v random w : List ℕ) (n : ℕ)
        → WellFormed v payload → HasRanges v e random → IsUnrefused2 v payload e random
        → After2 v payload e random w → again_by e ≡ None → Loses e n → IsShut w n }
    ensures amended { (payload : Payload) (e : TheEdit) (v random w : List ℕ) (c : TheChange)
        → WellFormed v payload → HasRanges v e random → IsUnrefused2 v payload e random
        → After2 v payload e random w → change_by e ≡ Some c → (n : ℕ) → KeepsAnswers payload n v w }
{}

/// After an edit of a LUKS2 volume that nothing refused and that sets the uuid, the uuid of both copies of the
/// header is the text that was given, or made of the random bytes behind the salts of the copies, and it is
/// one of a uuid.
pub fn luks2_edit_sets_uuid()
    ensures text { (payload : Payload) (e : TheEdit) (v random w : List ℕ) (uuid : TheUuid)
        → IsUnrefused2 v payload e random → (a : After2 v payload e random w) → uuid_by e ≡ Some uuid
        → (q : ℕ) → (q ≡ 0) ⊎ (q ≡ hdr_size (header_at v a.place))
        → text_of (uuid_field (header_at w q)) ≡ new_uuid_text uuid (uuid_random random) }
    ensures good { (payload : Payload) (e : TheEdit) (v random w : List ℕ) (uuid : TheUuid)
        → IsUnrefused2 v payload e random → (a : After2 v payload e random w) → uuid_by e ≡ Some uuid
        → (q : ℕ) → (q ≡ 0) ⊎ (q ≡ hdr_size (header_at v a.place))
        → IsUuid (text_of (uuid_field (header_at w q))) }
{}

/// After an edit of a well formed LUKS2 volume that nothing refused, a keyslot that it made or sealed
/// again opens by its new passphrase to the key that the old one opened.
pub fn luks2_edit_opens()
    ensures { (payload : Payload) (e : TheEdit) (v random w : List ℕ) → WellFormed v payload
        → HasRanges v e random → IsUnrefused2 v payload e random → After2 v payload e random w
        → OpensAfter2 v e w }
{}

/// After an edit of a well formed LUKS2 volume that nothing refused, a keyslot that it made or sealed
/// again derives as is chosen, and says no more of it. If nothing is chosen, a new one derives as
/// the keyslot that was opened, and one that is sealed again as it did except for its salt and iterations.
pub fn luks2_edit_derives()
    ensures { (payload : Payload) (e : TheEdit) (v random w : List ℕ) → WellFormed v payload
        → HasRanges v e random → IsUnrefused2 v payload e random
        → (a : After2 v payload e random w) → IsDerivedBy v e random a.value a.new }
{}

/// What a failing device call leaves of a well formed LUKS2 volume is well formed, unless bytes of
/// the torn write are taken for a header; the segments are as before, and so is each keyslot that
/// the edit doesn't name; and what counts is the copy that counted before, or one that the edit
/// writes: its metadata, its uuid, its label and its subsystem. A keyslot that was to be sealed again
/// opens by the old passphrase or by the new one, to the same key. If all keyslots were to be erased,
/// each of them has its area and its answers, or none opens.
///
/// Whatever it leaves of any LUKS2 volume, no byte changed beside the copies, the keyslot's sectors
/// that the edit seals and the areas that keyslots lose by it; and none where a fault refuses the
/// edit.
pub fn luks2_failing_edit()
    ensures rest { (payload : Payload) (e : TheEdit) (v random w : List ℕ)
        → Leftover2 v payload e random w → SameBut (IsTouchedIn v payload e) v w }
    ensures refused { (payload : Payload) (e : TheEdit) (v random w : List ℕ) (f : TheFault)
        → IsEditFault2 v payload e random f → Leftover2 v payload e random w → w ≡ v }
    ensures keeps { (payload : Payload) (e : TheEdit) (v random w : List ℕ) → WellFormed v payload
        → HasRanges v e random → Leftover2 v payload e random w → IsNotStray v payload e random w
        → Keeps payload (NamedKeyslots2 v e) v w }
    ensures whole { (payload : Payload) (e : TheEdit) (v random w : List ℕ) → WellFormed v payload
        → HasRanges v e random → Leftover2 v payload e random w → IsNotStray v payload e random w
        → CountsAsBefore v w ⊎ CountsAsAfter v payload e random w }
    ensures opens { (payload : Payload) (e : TheEdit) (v random w : List ℕ) → WellFormed v payload
        → HasRanges v e random → Leftover2 v payload e random w → IsNotStray v payload e random w
        → OpensEither2 v e w }
    ensures erased { (payload : Payload) (v random w : List ℕ) → WellFormed v payload
        → HasRanges v Erase random → Leftover2 v payload Erase random w
        → IsNotStray v payload Erase random w → KeepsAllOrNone payload v w }
{}

/// An edit has one refusal at most.
pub fn luks2_edit_refused_once()
    ensures { (v : List ℕ) (payload : Payload) (e : TheEdit) (random : List ℕ) (f g : TheFault)
        → Refusal2 v payload e random f → Refusal2 v payload e random g → edit_key f ≡ edit_key g }
{}
