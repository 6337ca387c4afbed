//! Laws on the definitions of this crate. Each function does nothing; its contract is the law.
ghost use Rattle.std.specs.Prelude.{◌≡◌, ◌+◌, ◌<◌, ◌≤◌, ◌++◌, ◌∷◌, [], ℕ, List, Ok, Some, get_or, length, replicate};
ghost use Rattle.luks_area.specs.declared.area.Area.{Area as TheArea};
ghost use Rattle.luks_area.specs.declared.area.AreaName.TheVariants.{Slot};
ghost use Rattle.luks_area.specs.Ranges.{part};
ghost use Rattle.luks_edit.specs.declared.edit.Done.{Done as TheDone};
ghost use Rattle.luks_edit.specs.declared.edit.Edit.{Edit as TheEdit};
ghost use Rattle.luks_edit.specs.declared.edit.Edit.TheVariants.{Erase};
ghost use Rattle.luks_edit.specs.Asked.{removed_by};
ghost use Rattle.luks_edit.specs.declared.deed.Removed.{Removed as TheRemoved};
ghost use Rattle.luks_edit.specs.declared.edit.Step.{Step as TheStep};
ghost use Rattle.luks_edit.specs.Kept.{IsShut, Keeps, KeepsSlot};
ghost use Rattle.luks_edit.specs.Ran.{AreRun, HasNoFailure, IsFailure, IsNamedIn, Ran, Reply};
ghost use Rattle.luks_reading.specs.Checked.{AreaOf, WellFormed};
ghost use Rattle.luks_reading.specs.declared.report.Data.{Data as Payload};
ghost use Rattle.luks_volume.specs.Edits.{NamedSlots, Replies};
ghost use Rattle.luks_volume.specs.Running.{IsUnderWay};

/// After any list of edits of a well formed volume in which the device didn't fail, the volume is
/// well formed; its length and its segments' bytes are as before, and so are the answers, the entry
/// or value and the area of each keyslot that no completed edit named.
pub fn edits_keep_volume()
    ensures { (payload : Payload) (steps : List TheStep) (replies : List Reply)
        (volumes : List (List ℕ)) (v w : List ℕ) → WellFormed v payload
        → AreRun (Replies payload) v steps replies volumes w → HasNoFailure replies
        → Keeps payload (IsNamedIn NamedSlots v steps replies volumes) v w }
{}

/// A keyslot that the passphrase of another one removes leaves that one as it was: its area, its entry
/// or value, and its answer to every passphrase.
pub fn removal_keeps_opener()
    ensures { (payload : Payload) (v w : List ℕ) (e : TheEdit) (removed : TheRemoved) (by_ : ℕ)
        (random : List ℕ) (done : TheDone) → removed_by e ≡ Some removed → removed.by_ ≡ Some by_
        → WellFormed v payload → Replies payload v e random (Ok done) w
        → KeepsSlot payload by_ v w }
{}

/// A completed erasure of a well formed volume leaves a well formed one with its length and its segments'
/// bytes, of which no passphrase opens any keyslot, whatever is allowed; and each area that a keyslot had is
/// zeros.
pub fn erasure_shuts_volume()
    ensures keeps { (payload : Payload) (v random w : List ℕ) (done : TheDone)
        → WellFormed v payload → Replies payload v Erase random (Ok done) w
        → Keeps payload (NamedSlots v Erase) v w }
    ensures shut { (payload : Payload) (v random w : List ℕ) (done : TheDone)
        → WellFormed v payload → Replies payload v Erase random (Ok done) w
        → (n : ℕ) → IsShut w n }
    ensures wiped { (payload : Payload) (v random w : List ℕ) (done : TheDone) (n : ℕ) (a : TheArea)
        → WellFormed v payload → Replies payload v Erase random (Ok done) w
        → AreaOf v payload (Slot n) a → part w a.start a.len ≡ replicate a.len 0 }
{}

/// A list of edits is run step by step: a step that the device doesn't fail in is followed by the
/// next one, and the list ends with the last step or with the first failure.
pub fn list_runs_by_steps()
    ensures starts { (payload : Payload) (v : List ℕ) (steps : List TheStep) (before : List Reply)
        → IsUnderWay (Replies payload) v v steps 0 before before }
    ensures goes_on { (payload : Payload) (v u w : List ℕ) (steps : List TheStep) (k : ℕ)
        (before now : List Reply) (d : TheStep) (r : Reply) → k < length steps
        → Replies payload u (get_or steps k d).edit (get_or steps k d).random.now r w
        → (IsFailure r → ⊥) → IsUnderWay (Replies payload) v u steps k before now
        → IsUnderWay (Replies payload) v w steps (k + 1) before (now ++ r ∷ []) }
    ensures stops { (payload : Payload) (v u w : List ℕ) (steps : List TheStep) (k : ℕ)
        (before now : List Reply) (d : TheStep) (r : Reply) → k < length steps
        → Replies payload u (get_or steps k d).edit (get_or steps k d).random.now r w
        → IsFailure r → IsUnderWay (Replies payload) v u steps k before now
        → Ran (Replies payload) v steps before (now ++ r ∷ []) w }
    ensures ends { (payload : Payload) (v u : List ℕ) (steps : List TheStep) (k : ℕ)
        (before now : List Reply) → length steps ≤ k
        → IsUnderWay (Replies payload) v u steps k before now
        → Ran (Replies payload) v steps before now u }
{}
