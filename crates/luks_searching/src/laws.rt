//! Laws on the definitions of this crate. Each function does nothing; its contract is the law.
ghost use Rattle.std.specs.Prelude.{◌≡◌, ℕ, List};
ghost use Rattle.luks_area.specs.Ranges.{IsAt, SameBut};
ghost use Rattle.luks1_header.specs.Header1.{mk_digest_of};
ghost use Rattle.luks_searching.specs.Found1.{IsBitTurned, IsDigestChanged};

/// If one bit of a field was turned, the digest is the one that the source has: the key that opens meets it. If the
/// digest was changed, nothing else was.
pub fn digest_stood()
    ensures bit { (h new : List ℕ) (n place bit : ℕ) → IsBitTurned h n place bit new
        → mk_digest_of new ≡ mk_digest_of h }
    ensures digest { (h new : List ℕ) (bits : ℕ) → IsDigestChanged h bits new
        → SameBut (IsAt 112 20) h new }
{}
