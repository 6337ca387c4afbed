//! Laws on the definitions of this crate. Each function does nothing; its contract is the law.
ghost use Rattle.std.specs.Prelude.{◌≡◌, ◌≤◌, ℕ, List, true, false, length, Option, None, IfSome};
ghost use Rattle.luks_making.specs.Formatted.{formatted};
ghost use Rattle.luks_slot.specs.declared.allowed.Allowed.{Allowed};
ghost use Rattle.luks_reading.specs.Answer.{Answer, AnswerWithin, opens};
ghost use Rattle.luks_reading.specs.Checked.{WellFormed};
ghost use Rattle.luks_reading.specs.declared.report.Data.{Data as Payload};
ghost use Rattle.luks_formatting.specs.Formatted1.{IsFormatted1, IsFormatted1As};
ghost use Rattle.luks_formatting.specs.Formatted2.{IsFormatted2, IsFormatted2As, IsFormatted2By};
ghost use Rattle.luks_formatting.specs.NewHeader2.{FitsMetadata, FitsMetadataAs, FitsMetadataBy, new_members, new_metadata};
ghost use Rattle.luks_formatting.specs.Given.{key_of, IsSound1, IsSound2};
ghost use Rattle.luks_formatting.specs.declared.given.Given.{Given as TheGiven};
ghost use Rattle.luks_making.specs.Derivations.{IsMakeable, memory_by};
ghost use Rattle.luks_formatting.specs.Deriving.{slot_derivation};
ghost use Rattle.luks_making.specs.declared.derivation.NewDerivation.{NewDerivation as Chosen};
ghost use Rattle.luks_formatting.specs.Encrypting.{is_older};
ghost use Rattle.luks_formatting.specs.RandomBytes.{needed_bytes, volume_key};
ghost use Rattle.luks_reading.specs.declared.format.Format.{Format as TheFormat};

/// A volume that was formatted by LUKS1 is well formed, and its keyslot 0 opens by the passphrase
/// to the volume key.
pub fn formatted1_opens()
    ensures well_formed { (payload : Payload) (format : TheFormat)
        (passphrase random old new : List ℕ) → 1 ≤ format.iterations → 2097152 ≤ length new
        → IsFormatted1 payload format passphrase random old new → WellFormed new payload }
    ensures opens { (payload : Payload) (format : TheFormat)
        (passphrase random old new : List ℕ) → 1 ≤ format.iterations → 2097152 ≤ length new
        → length random ≡ 256080
        → IsFormatted1 payload format passphrase random old new
        → Answer new 0 passphrase (opens (volume_key 64 random)) }
{}

/// What was formatted with something sound that is given is well formed, and opens to the key that is given.
pub fn formatted1_as_opens()
    ensures well_formed { (given : TheGiven) (format : TheFormat)
        (passphrase random old new : List ℕ) → 1 ≤ format.iterations → 2097152 ≤ length new
        → IsSound1 given (length new)
        → IsFormatted1As given format passphrase random old new → WellFormed new given.payload }
    ensures opens { (given : TheGiven) (format : TheFormat)
        (passphrase random old new : List ℕ) → 1 ≤ format.iterations → 2097152 ≤ length new
        → length random ≡ needed_bytes false given.key_bytes → IsSound1 given (length new)
        → IsFormatted1As given format passphrase random old new
        → (allowed : Allowed) → (is_older given.cipher ≡ true → allowed.older ≡ true)
        → AnswerWithin allowed new 0 passphrase (opens (key_of given random)) }
{}

/// A volume that was formatted by LUKS2 is well formed, and its keyslot 0 opens by the passphrase
/// to the volume key.
pub fn formatted2_opens()
    ensures well_formed { (payload : Payload) (format : TheFormat)
        (passphrase random old new : List ℕ) → 1 ≤ format.iterations → 16777216 ≤ length new
        → length random ≡ 256208 → FitsMetadata payload format random
        → IsFormatted2 payload format passphrase random old new → WellFormed new payload }
    ensures opens { (payload : Payload) (format : TheFormat)
        (passphrase random old new : List ℕ) → 1 ≤ format.iterations → 16777216 ≤ length new
        → length random ≡ 256208 → FitsMetadata payload format random
        → IsFormatted2 payload format passphrase random old new
        → Answer new 0 passphrase (opens (volume_key 64 random)) }
{}

/// The same where a derivation was chosen: keyslot 0 opens wherever as much memory is allowed as it takes,
/// with older ciphers and hashes or without, if what was chosen may be made with some.
pub fn formatted2_by_opens()
    ensures well_formed { (payload : Payload) (format : TheFormat) (chosen : Option Chosen)
        (passphrase random old new : List ℕ) → 1 ≤ format.iterations → 16777216 ≤ length new
        → length random ≡ 256208 → FitsMetadataBy payload format chosen random
        → IsFormatted2By payload format chosen passphrase random old new → WellFormed new payload }
    ensures opens { (payload : Payload) (format : TheFormat) (chosen : Option Chosen)
        (passphrase random old new : List ℕ) → 1 ≤ format.iterations → 16777216 ≤ length new
        → length random ≡ 256208 → FitsMetadataBy payload format chosen random
        → IsFormatted2By payload format chosen passphrase random old new
        → (memory : ℕ) (allowed : Allowed) → IfSome chosen (IsMakeable memory)
        → memory_by (slot_derivation format chosen) ≤ allowed.memory
        → AnswerWithin allowed new 0 passphrase (opens (volume_key 64 random)) }
{}

/// What was formatted with something sound that is given is well formed, and opens to the key that is given.
pub fn formatted2_as_opens()
    ensures well_formed { (given : TheGiven) (format : TheFormat) (chosen : Option Chosen)
        (passphrase random old new : List ℕ) → 1 ≤ format.iterations → 16777216 ≤ length new
        → length random ≡ needed_bytes true given.key_bytes → IsSound2 given (length new) → FitsMetadataAs given format chosen random
        → IsFormatted2As given format chosen passphrase random old new → WellFormed new given.payload }
    ensures opens { (given : TheGiven) (format : TheFormat) (chosen : Option Chosen)
        (passphrase random old new : List ℕ) → 1 ≤ format.iterations → 16777216 ≤ length new
        → length random ≡ needed_bytes true given.key_bytes → IsSound2 given (length new) → FitsMetadataAs given format chosen random
        → IsFormatted2As given format chosen passphrase random old new
        → (memory : ℕ) (allowed : Allowed) → IfSome chosen (IsMakeable memory)
        → memory_by (slot_derivation format chosen) ≤ allowed.memory
        → (is_older given.cipher ≡ true → allowed.older ≡ true)
        → AnswerWithin allowed new 0 passphrase (opens (key_of given random)) }
{}

/// If no derivation is chosen and the key has 64 bytes, the metadata is that of a volume whose keyslot derives
/// by PBKDF2, as the digest.
pub fn none_chosen_is_as_the_digest()
    ensures { (given : TheGiven) (format : TheFormat) (random : List ℕ) → given.key_bytes ≡ 64
        → new_metadata given format None random ≡ formatted (new_members given format random) }
{}
