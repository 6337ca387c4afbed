//! Laws on the definitions of this crate. Each function does nothing; its contract is the law.
ghost use Rattle.std.specs.Prelude.{◌↔◌, List, length, ℕ};
ghost use Rattle.luks2_header.specs.Header2.{IsSound};
ghost use Rattle.luks2_header.specs.Selection.{Choice, Chosen};
ghost use Rattle.luks2_header.specs.Sizes.{IsListed};
ghost use Rattle.luks_slot.specs.declared.allowed.Allowed.{Allowed as TheAllowed};
ghost use Rattle.luks_reading.specs.Answer.{AnswerWithin, Opened};
ghost use Rattle.luks_reading.specs.Checked.{WellFormed};
ghost use Rattle.luks_reading.specs.declared.report.Data.{Data as Payload};
ghost use Rattle.luks_keeping.specs.Backup.{IsBackup};
ghost use Rattle.luks_keeping.specs.Judged.{IsFormedOn};
ghost use Rattle.luks_keeping.specs.Kept.{HasKept};
ghost use Rattle.luks_keeping.specs.Restored.{IsRestored};
ghost use Rattle.luks_keeping.specs.SecondPlaces.{BeginsCopy};

/// If all that is kept of a well formed volume is on another device that is long enough, a
/// volume is well formed there, and each of its keyslots answers each passphrase, whatever is allowed,
/// as the volume's does.
pub fn kept_keyslots_answer_alike()
    ensures well_formed { (v w : List ℕ) (payload other : Payload) (c : Choice) → Chosen v c
        → HasKept v c w → WellFormed v payload → IsFormedOn v other (length w)
        → WellFormed w other }
    ensures answers { (v w : List ℕ) (payload other : Payload) (c : Choice) → Chosen v c
        → HasKept v c w → WellFormed v payload → IsFormedOn v other (length w)
        → (allowed : TheAllowed) (n : ℕ) (p : List ℕ) (a : Opened)
        → AnswerWithin allowed v n p a ↔ AnswerWithin allowed w n p a }
{}

/// What has all that is kept of a backup has all that is kept of the volume.
pub fn kept_of_kept_is_kept()
    ensures { (v b w : List ℕ) (c : Choice) → Chosen v c → HasKept v c b → HasKept b c w
        → HasKept v c w }
{}

/// A backup of a well formed volume that is restored, onto the volume or any other device, gives the
/// volume's header and the key areas of its keyslots that are in use back, byte by byte, whatever stood
/// there before.
pub fn restored_backup_gives_back()
    ensures { (v before b old w : List ℕ) (payload other : Payload) (c : Choice) → Chosen v c
        → WellFormed v payload → IsBackup v payload before b → IsRestored b other old w
        → HasKept v c w }
{}

/// A second copy that is sound begins at its place, so that `restore` clears it.
pub fn sound_copies_begin()
    ensures { (v : List ℕ) (place : ℕ) → IsListed place → IsSound v place → BeginsCopy v place }
{}
