//! Laws on the definitions of this crate. Each function does nothing; its contract is the law.
ghost use Rattle.std.specs.Prelude.{◌↔◌, ℕ, List, length};
ghost use Rattle.luks_area.specs.Ranges.{part};
ghost use Rattle.luks1_header.specs.Header1.{luks1_size};
ghost use Rattle.luks1_mending.specs.declared.given.Given.{Given as TheGiven};
ghost use Rattle.luks_slot.specs.declared.allowed.Allowed.{Allowed as TheAllowed};
ghost use Rattle.luks_reading.specs.Answer.{AnswerWithin, Opened};
ghost use Rattle.luks_reading.specs.Checked.{IsLuks1Volume, WellFormed};
ghost use Rattle.luks_reading.specs.declared.report.Data.TheVariants.{Elsewhere};
ghost use Rattle.luks1_rebuilding.specs.Gives.{Gives};
ghost use Rattle.luks1_rebuilding.specs.KeyAreas.{IsKeptInUse};
ghost use Rattle.luks1_rebuilding.specs.Rebuilt.{IsRebuilt};

/// A LUKS1 header that was made of what is in a volume, and is accepted where it was written, is well formed
/// there; and each kept keyslot that is in use answers by each passphrase as the equations give for its entry, its
/// area and the digest in the volume, with what is taken of the texts and of the key's length, whatever is allowed.
pub fn rebuilt1_opens_alike()
    ensures well_formed { (v old w : List ℕ) (given : TheGiven) → IsRebuilt v given old w
        → IsLuks1Volume (part w 0 luks1_size) Elsewhere (length w) → WellFormed w Elsewhere }
    ensures opens { (v old w : List ℕ) (given : TheGiven) → IsRebuilt v given old w
        → IsLuks1Volume (part w 0 luks1_size) Elsewhere (length w)
        → (allowed : TheAllowed) (n : ℕ) (p : List ℕ) (a : Opened) → IsKeptInUse v given n
        → Gives allowed.older v given n p a ↔ AnswerWithin allowed w n p a }
{}
