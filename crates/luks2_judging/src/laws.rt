//! Laws on the definitions of this crate. Each function does nothing; its contract is the law.
ghost use Rattle.std.specs.Prelude.{◌≡◌, ℕ, List, Option, Some, length};
ghost use Rattle.base64.specs.GeneralPurpose.{IsBytes};
ghost use Rattle.serde_json.specs.Data.{Data as Value};
ghost use Rattle.serde_json.specs.Written.{compact_text};
ghost use Rattle.luks_making.specs.Conditions.{Between};
ghost use Rattle.luks_rules.specs.Reading.{number_in};
ghost use Rattle.luks_edit.specs.declared.edit.Edit.{Edit as TheEdit};
ghost use Rattle.luks_reading.specs.declared.report.Data.{Data as Payload};
ghost use Rattle.luks2_edit_laws.specs.Edited.{IsEdited};
ghost use Rattle.luks2_edit_laws.specs.Metadata.{HasStripes};
ghost use Rattle.luks2_edit_laws.specs.Refused.{Need2};
ghost use Rattle.luks2_judging.specs.Salts.{HasOneDigest};

/// The text of the metadata that an edit makes is as long with one salt as with another of as many
/// bytes.
pub fn salts_are_as_long()
    ensures { (h total : ℕ) (payload : Payload) (e : TheEdit) (a b : List ℕ) (j x y : Value)
        → IsBytes a → IsBytes b → length a ≡ length b → HasOneDigest j
        → IsEdited h total payload e a j x → IsEdited h total payload e b j y
        → length (compact_text x) ≡ length (compact_text y) }
{}

/// What the metadata tells is one thing: a number that is read lies in its range, a keyslot has one
/// length of its key and one number of stripes, and an edit takes one number of random bytes.
pub fn told_once()
    ensures range { (least most n : ℕ) (v : Option Value) → number_in least most v ≡ Some n
        → Between least most n }
    ensures stripes { (j : Value) (n a b x y : ℕ) → HasStripes j n a b → HasStripes j n x y
        → (a ≡ x) × (b ≡ y) }
    ensures need { (j : Value) (e : TheEdit) (a b : ℕ) → Need2 j e a → Need2 j e b → a ≡ b }
{}
