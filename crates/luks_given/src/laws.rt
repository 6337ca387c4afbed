//! Laws on plans and on askings. Each function does nothing; its contract is the law.
ghost use Rattle.std.specs.Prelude.{◌≡◌, ◌≤◌, ◌+◌, ◌++◌, ◌⊎◌, List, ℕ, length};
ghost use Rattle.luks_area.specs.Ranges.{SameBut};
ghost use Rattle.luks_given.specs.Askings.{AreAskings, AreAskingsOfTwo, AreRanges, Asking};
ghost use Rattle.luks_given.specs.Parts.{HasPlace, parts_length};
ghost use Rattle.luks_given.specs.Plan.{WritesGiven, furthest, planned_length, played};
ghost use Rattle.luks_given.specs.declared.parts.Part.{Part as ThePart};
ghost use Rattle.luks_given.specs.declared.planned_writes.PlannedCall.{PlannedCall as TheCall};

/// A plan that writes the first bytes of a volume alone leaves all that follows them.
pub fn plan_leaves_the_rest()
    ensures { (calls : List TheCall) (bytes first rest : List ℕ) → furthest calls ≤ length first
        → planned_length calls ≤ length bytes
        → played calls bytes (first ++ rest) ≡ played calls bytes first ++ rest }
{}

/// A plan that writes given places alone leaves all others, whatever is there.
pub fn plan_keeps_the_others()
    ensures { (parts : List ThePart) (calls : List TheCall) (bytes v : List ℕ)
        → WritesGiven parts calls → furthest calls ≤ length v
        → planned_length calls ≤ length bytes
        → SameBut (HasPlace parts) v (played calls bytes v) }
{}

/// Who gives each range that is wanted, and keeps what was given, is asked at most once for each byte of
/// the volume that wasn't given at first.
pub fn askings_end()
    ensures { (parts : List ThePart) (total : ℕ) (askings : List Asking) → AreRanges parts total
        → AreAskings parts total askings → length askings + parts_length parts ≤ total }
{}

/// A call over two volumes, which wants a range of the one or of the other, is answered in the end too.
pub fn askings_of_two_end()
    ensures { (source : List ThePart) (n : ℕ) (parts : List ThePart) (total : ℕ) (askings : List (Asking ⊎ Asking))
        → AreRanges source n → AreRanges parts total → AreAskingsOfTwo source n parts total askings
        → length askings + (parts_length source + parts_length parts) ≤ n + total }
{}
