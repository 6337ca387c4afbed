//! Laws on the definitions of this crate. Each function does nothing; its contract is the law.

ghost use Rattle.std.specs.Prelude.{◌≡◌, ◌≤◌, ℕ, List, None, false, length};
ghost use Rattle.serde_json.specs.Data.{Data};
ghost use Rattle.serde_json.specs.Written.{compact_text};
ghost use Rattle.luks_json.specs.Number.{number_text};
ghost use Rattle.luks_rules.specs.Held.{IsHeld};
ghost use Rattle.luks_making.specs.Amended.{with_priority, with_token, without_token};
ghost use Rattle.luks_making.specs.Changed.{changed_slot, renewed_kdf, resalted_kdf};
ghost use Rattle.luks_making.specs.Conditions.{CanFormat, CanSeal, FitsNew, FitsSlot, FitsVolume, IsFree, IsRoom};
ghost use Rattle.luks_making.specs.Conversions.{CanConvert, FitsSource, SaysSource};
ghost use Rattle.luks_making.specs.Converted.{SourceMembers, converted};
ghost use Rattle.luks_making.specs.Derivations.{IsPositive, asked_beyond, asked_few_turns};
ghost use Rattle.luks_making.specs.declared.amended.Priority.{Priority};
ghost use Rattle.luks_making.specs.declared.derivation.AskedDerivation.{AskedDerivation};
ghost use Rattle.luks_making.specs.Formatted.{VolumeMembers, formatted};
ghost use Rattle.luks_making.specs.NewVolumes.{SaysVolume};
ghost use Rattle.luks_making.specs.Unchanged.{AddsToken, ChangesSlot, GainsSlot, LosesSlot, LosesSlots, LosesToken, SaysMembers, SetsPriority};
ghost use Rattle.luks_making.specs.Keyslots.{IsDerivedLike, IsMadeFrom, NewMembers, SlotMembers, slot_value};
ghost use Rattle.luks_making.specs.Naming.{HasUniqueDigests};
ghost use Rattle.luks_making.specs.With.{IsAdded, with_slot};
ghost use Rattle.luks_making.specs.Without.{without_slot, without_slots};

/// A name is that of one number alone.
pub fn names_are_apart()
    ensures { (m n : ℕ) → number_text m ≡ number_text n → m ≡ n }
{}

/// Metadata without a keyslot meets every rule that it met, and all else is as it was except for the
/// keyslot's name, which its digest and the tokens lose.
pub fn removal_keeps_the_rest()
    ensures held { (len n : ℕ) (j : Data) → IsHeld len j → IsHeld len (without_slot n j) }
    ensures rest { (n : ℕ) (j : Data) → LosesSlot n j (without_slot n j) }
{}

/// Metadata without any keyslot meets every rule that it met, and all else is as it was except for the
/// names of keyslots, of which digests and tokens have none.
pub fn erasure_keeps_the_rest()
    ensures held { (len : ℕ) (j : Data) → IsHeld len j → IsHeld len (without_slots j) }
    ensures rest { (j : Data) → LosesSlots j (without_slots j) }
{}

/// Metadata with one more keyslot meets every rule that it met, where there is room for the
/// keyslot, and all else is as it was except for its name, which its digest gains.
pub fn addition_keeps_the_rest()
    ensures held { (len n m : ℕ) (s : SlotMembers) (j d : Data) → IsHeld len j
        → IsRoom len n m s j d → IsHeld len (with_slot n m s j) }
    ensures rest { (len n m : ℕ) (s : SlotMembers) (j d : Data) → IsHeld len j
        → IsRoom len n m s j d → GainsSlot n m s j (with_slot n m s j) }
    ensures says { (s : SlotMembers) → FitsSlot s → SaysMembers s (slot_value s) }
{}

/// A keyslot that is made with the members of another has room where its number is free and what
/// is new suits the other; then metadata with it meets every rule, and all else is as it was.
pub fn made_keyslot_has_room()
    ensures room { (len to by : ℕ) (f : NewMembers) (old new : Data) → IsHeld len old
        → HasUniqueDigests old → IsFree old to → CanSeal len old by f → FitsNew f
        → (a : IsAdded to by f old new) → IsRoom len to a.digest a.slot old a.names.object }
    ensures held { (len to by : ℕ) (f : NewMembers) (old new : Data) → IsHeld len old
        → HasUniqueDigests old → IsFree old to → CanSeal len old by f → FitsNew f
        → IsAdded to by f old new → IsHeld len new }
    ensures rest { (len to by : ℕ) (f : NewMembers) (old new : Data) → IsHeld len old
        → HasUniqueDigests old → IsFree old to → CanSeal len old by f → FitsNew f
        → (a : IsAdded to by f old new) → GainsSlot to a.digest a.slot old new }
{}

/// Metadata with a changed keyslot meets every rule that it met, where what is new suits the
/// keyslot, and all but its derivation and its area's place and length is as it was; of the derivation
/// all but its iterations and its salt, where nothing else is chosen.
pub fn change_keeps_the_rest()
    ensures held { (len n : ℕ) (f : NewMembers) (j : Data) → IsHeld len j → CanSeal len j n f
        → FitsNew f → IsHeld len (changed_slot n f j) }
    ensures rest { (len n : ℕ) (f : NewMembers) (j : Data) → IsHeld len j → CanSeal len j n f
        → FitsNew f → ChangesSlot n f j (changed_slot n f j) }
{}

/// Metadata with another priority of a keyslot, with a token or without one is as it was except for that, and
/// a keyslot has the digest that it had. It meets every rule that it met; with a token it may break one.
pub fn amendment_keeps_the_rest()
    ensures held_prior { (len n : ℕ) (p : Priority) (j : Data) → IsHeld len j
        → IsHeld len (with_priority n p j) }
    ensures held_without { (len n : ℕ) (j : Data) → IsHeld len j → IsHeld len (without_token n j) }
    ensures prior { (len n : ℕ) (p : Priority) (j : Data) → IsHeld len j
        → SetsPriority n p j (with_priority n p j) }
    ensures added { (len n : ℕ) (t j : Data) → IsHeld len j → AddsToken n t j (with_token n t j) }
    ensures lost { (n : ℕ) (j : Data) → LosesToken n j (without_token n j) }
{}

/// If no derivation is chosen, a keyslot that is sealed again derives as it did except for its salt and
/// iterations, and one that is made with the members of another derives as that one.
pub fn unchosen_derives_alike()
    ensures changed { (f : NewMembers) (hash : List ℕ) (k : Data) → f.derivation.chosen ≡ None
        → renewed_kdf f hash k ≡ resalted_kdf f k }
    ensures made { (d : Data) (f : NewMembers) (s : SlotMembers) → f.derivation.chosen ≡ None
        → IsMadeFrom d f s → IsDerivedLike d f.derivation.iterations s.derivation }
{}

/// What has enough turns, and isn't refused where some memory is allowed, has no number that is 0.
pub fn unrefused_is_positive()
    ensures { (allowed : ℕ) (asked : AskedDerivation) → asked_few_turns asked ≡ false
        → asked_beyond allowed asked ≡ false → IsPositive asked }
{}

/// The metadata of a new volume meets every rule, and says one keyslot, one digest that names it,
/// and one segment.
pub fn new_volume_is_accepted()
    ensures held { (v : VolumeMembers) → FitsVolume v → CanFormat v
        → IsHeld 12288 (formatted v) }
    ensures says { (v : VolumeMembers) → FitsVolume v → CanFormat v
        → SaysVolume v (formatted v) }
{}

/// The metadata of a header that is made from a LUKS1 volume meets every rule, and says the source's
/// enabled keyslots, each under its number, its digest, that names them in order, and one segment. Its
/// text leaves room for a zero byte in an area of 12288 bytes.
pub fn converted_volume_is_accepted()
    ensures held { (v : SourceMembers) → FitsSource v → CanConvert v → IsHeld 12288 (converted v) }
    ensures says { (v : SourceMembers) → FitsSource v → CanConvert v → SaysSource v (converted v) }
    ensures short { (v : SourceMembers) → FitsSource v → CanConvert v
        → length (compact_text (converted v)) ≤ 12287 }
{}
