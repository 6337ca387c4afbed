//! Laws on the definitions of this crate. Each function does nothing; its contract is the law.
ghost use Rattle.std.specs.Prelude.{◌≡◌, ◌↔◌, ◌+◌, ◌*◌, ◌≤◌, ℕ, List, Option, Some, length};
ghost use Rattle.serde_json.specs.Data.{Data as Value};
ghost use Rattle.luks_area.specs.Area.{Fit};
ghost use Rattle.luks1_header.specs.Bytes.{IsUuid};
ghost use Rattle.luks_meta.specs.Accepted.{IsMeta};
ghost use Rattle.luks_slot.specs.declared.allowed.Allowed.{Allowed};
ghost use Rattle.luks_reading.specs.Answer.{AnswerWithin, Opened};
ghost use Rattle.luks_reading.specs.Checked.{WellFormed};
ghost use Rattle.luks_reading.specs.Layout2.{Luks2Area};
ghost use Rattle.luks_reading.specs.declared.report.Data.TheVariants.{Elsewhere};
ghost use Rattle.luks_rebuilding.specs.Candidates.{Source, Taken};
ghost use Rattle.luks_rebuilding.specs.Found.{HasRegionInside};
ghost use Rattle.luks_rebuilding.specs.Gives.{Gives};
ghost use Rattle.luks_rebuilding.specs.Rebuilt.{IsMade};
ghost use Rattle.luks_rebuilding.specs.Shares.{copies, whole, Counts, IsShare, StandsAt};
ghost use Rattle.luks_rebuilding.specs.declared.place.Effort.{Effort as TheEffort};
ghost use Rattle.luks_rebuilding.specs.declared.place.Which.{Which as TheWhich};

/// A volume has one first candidate at most.
pub fn one_candidate()
    ensures { (v : List ℕ) (which : TheWhich) (a b : Source) → Taken v which a → Taken v which b
        → a ≡ b }
{}

/// What is sought for all copies whose binary header stands has at most as many bytes together as may be hashed:
/// so many copies, times what may be hashed for each (`work_is_bounded` of luks_vouching).
pub fn search_is_bounded()
    ensures { (v : List ℕ) (effort : TheEffort) (most count : ℕ) → IsShare v effort most
        → Counts (StandsAt v) copies count → count * most ≤ whole effort }
{}

/// The header that is made of the metadata at a place is well formed where the payload is elsewhere;
/// and each of its keyslots answers by each passphrase, whatever is allowed, as the metadata's
/// equations give of the bytes where its key areas are in the source.
pub fn rebuilt_header_opens_alike()
    ensures well_formed { (v random old w : List ℕ) (given : Option (List ℕ))
        (source : Source) (j : Value) → IsMeta source.json j → IsMade v given random old w source
        → ((text : List ℕ) → given ≡ Some text → IsUuid text)
        → Fit (Luks2Area j source.size Elsewhere (length v)) (length v)
        → HasRegionInside j source.size (length w) → WellFormed w Elsewhere }
    ensures opens { (v random old w : List ℕ) (given : Option (List ℕ))
        (source : Source) (j : Value) → IsMeta source.json j → IsMade v given random old w source
        → ((text : List ℕ) → given ≡ Some text → IsUuid text)
        → Fit (Luks2Area j source.size Elsewhere (length v)) (length v)
        → HasRegionInside j source.size (length w)
        → (allowed : Allowed) (n : ℕ) (p : List ℕ) (a : Opened)
        → Gives allowed source.json v n p a ↔ AnswerWithin allowed w n p a }
{}
