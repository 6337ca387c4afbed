//! Laws on the definitions of this crate. Each function does nothing; its contract is the law.
ghost use Rattle.std.specs.Prelude.{◌≡◌, ◌++◌, ℕ, List, replicate};
ghost use Rattle.luks_area.specs.Text.{text_of};
ghost use Rattle.luks1_header.specs.Bytes.{IsUuid};
ghost use Rattle.luks2_header.specs.Header2.{IsUuidField};
ghost use Rattle.luks2_header.specs.NewUuid.{uuid_text};

/// The text of a new uuid is that of a uuid; and the text of any uuid, with zeros to the end of its
/// field, is what the field holds.
pub fn uuids_fill_fields()
    ensures new { (random : List ℕ) → IsUuid (uuid_text random) }
    ensures text { (text : List ℕ) → IsUuid text → text_of (text ++ replicate 4 0) ≡ text }
    ensures field { (text : List ℕ) → IsUuid text → IsUuidField (text ++ replicate 4 0) }
{}
