//! Laws on the definitions of this crate. Each function does nothing; its contract is the law.
ghost use Rattle.std.specs.Prelude.{◌≡◌, ◌↔◌, ℕ, List, replicate, Some};
ghost use Rattle.luks_area.specs.declared.area.Area.{Area as TheArea};
ghost use Rattle.luks_area.specs.declared.area.AreaName.TheVariants.{Slot};
ghost use Rattle.luks_area.specs.Ranges.{part, SameBut};
ghost use Rattle.luks1_header.specs.Bytes.{IsUuid};
ghost use Rattle.luks1_header.specs.Header1.{header_text};
ghost use Rattle.luks1_header.specs.declared.fault.TextField.TheVariants.{Uuid};
ghost use Rattle.luks2_header.specs.Selection.{Chosen, luks1};
ghost use Rattle.luks_slot.specs.declared.allowed.Allowed.{Allowed as TheAllowed};
ghost use Rattle.luks_reading.specs.Answer.{AnswerWithin, Opened};
ghost use Rattle.luks_reading.specs.Checked.{AreaOf, WellFormed};
ghost use Rattle.luks_reading.specs.declared.report.Data.{Data as Payload};
ghost use Rattle.luks_edit.specs.declared.edit.Edit.{Edit as TheEdit};
ghost use Rattle.luks_edit.specs.declared.edit_fault.EditFault.{EditFault as TheFault};
ghost use Rattle.luks_edit.specs.declared.new_uuid.NewUuid.{NewUuid as TheUuid};
ghost use Rattle.luks_edit.specs.Asked.{Loses, uuid_by};
ghost use Rattle.luks_edit.specs.EditFaults.{edit_key};
ghost use Rattle.luks_edit.specs.Kept.{IsShut, Keeps};
ghost use Rattle.luks_edit.specs.NewUuids.{new_uuid_text};
ghost use Rattle.luks1_edits.specs.Edited.{After1, IsTouched1, NamedKeyslots1, OpensAfter1};
ghost use Rattle.luks1_edits.specs.Kept.{HasSameKeyslot, KeepsEntries, KeepsOthers};
ghost use Rattle.luks1_edits.specs.Leftovers.{AnswersOrUuid, AreErasedInTurn, FaultsUuidAlone, IsUntorn, IsUuidUntorn, Leftover1, OpensEither1};
ghost use Rattle.luks1_edits.specs.Refused.{IsEditFault1, IsUnrefused1, Refusal1};

use luks_edit::Edit;

/// The answer of a keyslot of LUKS1 depends on the 168 bytes before the uuid, on the faults of the uuid's
/// field, on its entry, its area and the volume's length alone.
pub fn luks1_answer_is_local()
    ensures { (allowed : TheAllowed) (n : ℕ) (v w p : List ℕ) (a : Opened) → Chosen v luks1 → HasSameKeyslot n v w
        → AnswerWithin allowed v n p a ↔ AnswerWithin allowed w n p a }
{}

/// After an edit of a well formed LUKS1 volume that nothing refused, the volume is a well formed
/// LUKS1 volume; its length, its segments and their bytes are as before, and so are the answers, the
/// entry and the area of each keyslot that the edit didn't name: all of them, where it sets the uuid. No
/// byte changed except of the keyslots that it named, or of the uuid's field where it sets the uuid. The area
/// that a removed keyslot had is zeros.
pub fn luks1_edit_keeps_volume()
    ensures keeps { (payload : Payload) (e : TheEdit) (v random w : List ℕ)
        → Chosen v luks1 → WellFormed v payload → IsUnrefused1 v payload e random
        → After1 v e random w → Keeps payload (NamedKeyslots1 v e) v w }
    ensures chosen { (payload : Payload) (e : TheEdit) (v random w : List ℕ)
        → Chosen v luks1 → WellFormed v payload → IsUnrefused1 v payload e random
        → After1 v e random w → Chosen w luks1 }
    ensures rest { (payload : Payload) (e : TheEdit) (v random w : List ℕ)
        → Chosen v luks1 → WellFormed v payload → IsUnrefused1 v payload e random
        → After1 v e random w → SameBut (IsTouched1 v e) v w }
    ensures removed { (payload : Payload) (e : TheEdit) (v random w : List ℕ) (n : ℕ) (a : TheArea)
        → Chosen v luks1 → WellFormed v payload → After1 v e random w → Loses e n
        → AreaOf v payload (Slot n) a → part w a.start a.len ≡ replicate a.len 0 }
{}

/// After an edit of a well formed LUKS1 volume that nothing refused, a keyslot that it made opens
/// by its new passphrase to the key that the old one opened, whatever is allowed.
pub fn luks1_edit_opens()
    ensures { (payload : Payload) (e : TheEdit) (v random w : List ℕ)
        → Chosen v luks1 → WellFormed v payload → IsUnrefused1 v payload e random
        → After1 v e random w → OpensAfter1 v e w }
{}

/// After an edit of a well formed LUKS1 volume that nothing refused, a keyslot that it removed opens by
/// no passphrase; where it erased all, none does.
pub fn luks1_removed_keyslot_is_shut()
    ensures { (payload : Payload) (e : TheEdit) (v random w : List ℕ) (n : ℕ)
        → Chosen v luks1 → WellFormed v payload → IsUnrefused1 v payload e random
        → After1 v e random w → Loses e n → IsShut w n }
{}

/// After an edit of a well formed LUKS1 volume that nothing refused and that sets the uuid, the header's
/// uuid is the text that was given or made of the random bytes, and it is one of a uuid.
pub fn luks1_edit_sets_uuid()
    ensures text { (payload : Payload) (e : TheEdit) (v random w : List ℕ) (uuid : TheUuid)
        → IsUnrefused1 v payload e random → After1 v e random w → uuid_by e ≡ Some uuid
        → header_text w Uuid ≡ new_uuid_text uuid random }
    ensures good { (payload : Payload) (e : TheEdit) (v random w : List ℕ) (uuid : TheUuid)
        → IsUnrefused1 v payload e random → After1 v e random w → uuid_by e ≡ Some uuid
        → IsUuid (header_text w Uuid) }
{}

/// What a failing device call leaves of a well formed LUKS1 volume has its length and its segments'
/// bytes, and each keyslot that the edit didn't name has its entry and its area, and its answers too
/// where no uuid is torn. If no entry that it named is torn either, the volume is well formed still. A
/// keyslot that was changed opens by the old passphrase, or the new one by the new passphrase, to the same
/// key. If all keyslots were to be erased, they were so in turn. If a fault refuses the edit, no byte
/// changed.
///
/// If the edit sets the uuid, the volume has no fault but that the uuid's field holds none, and each
/// keyslot answers as before, or is refused for that fault.
pub fn luks1_failing_edit()
    ensures rest { (payload : Payload) (e : TheEdit) (v random w : List ℕ)
        → Chosen v luks1 → WellFormed v payload → Leftover1 v payload e random w
        → SameBut (IsTouched1 v e) v w }
    ensures entries { (payload : Payload) (e : TheEdit) (v random w : List ℕ)
        → Chosen v luks1 → WellFormed v payload → Leftover1 v payload e random w
        → KeepsEntries payload (NamedKeyslots1 v e) v w }
    ensures keeps { (payload : Payload) (e : TheEdit) (v random w : List ℕ)
        → Chosen v luks1 → WellFormed v payload → Leftover1 v payload e random w
        → IsUuidUntorn e w → KeepsOthers payload (NamedKeyslots1 v e) v w }
    ensures accepted { (payload : Payload) (e : TheEdit) (v random w : List ℕ)
        → Chosen v luks1 → WellFormed v payload → Leftover1 v payload e random w
        → ((n : ℕ) → NamedKeyslots1 v e n → IsUntorn v w n) → IsUuidUntorn e w
        → Keeps payload (NamedKeyslots1 v e) v w }
    ensures uuid { (payload : Payload) (e : TheEdit) (v random w : List ℕ)
        → Chosen v luks1 → WellFormed v payload → Leftover1 v payload e random w
        → FaultsUuidAlone payload e w }
    ensures answers { (payload : Payload) (e : TheEdit) (v random w : List ℕ)
        → Chosen v luks1 → WellFormed v payload → Leftover1 v payload e random w
        → AnswersOrUuid v e w }
    ensures opens { (payload : Payload) (e : TheEdit) (v random w : List ℕ)
        → Chosen v luks1 → WellFormed v payload → Leftover1 v payload e random w
        → OpensEither1 v e w }
    ensures erased { (payload : Payload) (v random w : List ℕ)
        → Chosen v luks1 → WellFormed v payload → Leftover1 v payload Edit.Erase random w
        → AreErasedInTurn payload v w }
    ensures refused { (payload : Payload) (e : TheEdit) (v random w : List ℕ) (f : TheFault)
        → IsEditFault1 v payload e random f → Leftover1 v payload e random w → w ≡ v }
{}

/// An edit has one refusal at most.
pub fn luks1_edit_refused_once()
    ensures { (v : List ℕ) (payload : Payload) (e : TheEdit) (random : List ℕ) (f g : TheFault)
        → Refusal1 v payload e random f → Refusal1 v payload e random g → edit_key f ≡ edit_key g }
{}
