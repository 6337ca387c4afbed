//! Laws on the definitions of this crate. Each function does nothing; its contract is the law.

ghost use Rattle.std.specs.Prelude.{◌≡◌, ◌<◌, ◌⊎◌, ◌↔◌, ℕ, List, map, true, false, Option, Some, is_some, option_and_then};
ghost use Rattle.serde_json.specs.Data.{Data, Items};
ghost use Rattle.serde_json.specs.Find.{get};
ghost use Rattle.luks_json.specs.Arrays.{all_there, has_repeat, has_text};
ghost use Rattle.luks_json.specs.NameSets.{HasEachOnce, HasName};
ghost use Rattle.luks_json.specs.AreaText.{IsBadJson, Json, JsonText};
ghost use Rattle.luks_json.specs.Decimal.{IsDecimal, decimal_of};
ghost use Rattle.luks_json.specs.Encoded.{IsBase64, encoded_of};
ghost use Rattle.luks_json.specs.Names.{numbers_of_array};
ghost use Rattle.luks_json.specs.Number.{number_of, number_text};
ghost use Rattle.luks_json.specs.Values.{texts_of};

/// A JSON area holds one value at most.
pub fn one_value()
    ensures { (area : List ℕ) (i j : Data) → Json area i → Json area j → i ≡ j }
{}

/// A JSON area holds a value, or a text that is none, or no text, and only one of the three.
pub fn one_kind_of_area()
    ensures some { (area : List ℕ) → ((j : Data) × Json area j) ⊎ IsBadJson area
        ⊎ ((text : List ℕ) → JsonText area text → ⊥) }
    ensures good { (area : List ℕ) (j : Data) → Json area j → IsBadJson area → ⊥ }
{}

/// The number that a text says is the one whose decimal digits it is.
pub fn decimals_say_numbers()
    ensures says { (text : List ℕ) (n : ℕ) → decimal_of text ≡ Some n → IsDecimal text n }
    ensures told { (text : List ℕ) (n : ℕ) → IsDecimal text n → decimal_of text ≡ Some n }
{}

/// The bytes that a text says are those that it encodes.
pub fn encodings_say_bytes()
    ensures says { (text bytes : List ℕ) → encoded_of text ≡ Some bytes → IsBase64 text bytes }
    ensures told { (text bytes : List ℕ) → IsBase64 text bytes → encoded_of text ≡ Some bytes }
{}

/// A number below 32 has one name, and a name has one number; the numbers of an array are those of its texts.
pub fn names_say_numbers()
    ensures says { (text : List ℕ) (n : ℕ) → number_of text ≡ Some n → (text ≡ number_text n) × (n < 32) }
    ensures told { (n : ℕ) → n < 32 → number_of (number_text n) ≡ Some n }
    ensures lists { (v : Option Data) (ns : List ℕ) → numbers_of_array v ≡ Some ns
        → texts_of v ≡ Some (map number_text ns) }
{}

/// What the steps over an array of names find is said by the texts that the array has: it has a text,
/// each of its texts is the name of a member, each is in it once.
pub fn arrays_hold_texts()
    ensures has { (t : List ℕ) (items : Items) → (has_text t items ≡ true) ↔ HasName items t }
    ensures there { (map : Option Data) (items : Items) → (all_there map items ≡ true)
        ↔ ((t : List ℕ) → HasName items t → is_some (option_and_then (get t) map) ≡ true) }
    ensures once { (items : Items) → (has_repeat items ≡ false) ↔ HasEachOnce items }
{}
