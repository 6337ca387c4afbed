//! Laws on the definitions of this crate. Each function does nothing; its contract is the law.
ghost use Rattle.std.specs.Prelude.{◌↔◌, ℕ, Bool, List};
ghost use Rattle.luks1_mending.specs.declared.given.Given.{Given as TheGiven};
ghost use Rattle.luks_reading.specs.Answer.{Opened};
ghost use Rattle.luks1_rebuilding.specs.Gives.{Gives};
ghost use Rattle.luks1_rebuilding.specs.Alike.{TakesPlain};

/// A keyslot gives by `xts-plain` what it gives by `xts-plain64`, whether or not ciphers and hashes of older disks
/// are allowed. So that mode is never the first that opens one, and needn't be tried.
pub fn plain_gives_alike()
    ensures { (v : List ℕ) (whole low : TheGiven) → TakesPlain v whole low
        → (older : Bool) (n : ℕ) (p : List ℕ) (a : Opened)
        → Gives older v low n p a ↔ Gives older v whole n p a }
{}
