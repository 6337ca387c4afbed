//! Laws on the definitions of this crate. Each function does nothing; its contract is the law.
ghost use Rattle.std.specs.Prelude.{◌≡◌, ◌⊎◌, ℕ, List, length};
ghost use Rattle.luks2_header.specs.Header2.{hdr_size, header_at, IsSound};
ghost use Rattle.luks_vouching.specs.Composed.{IsComposed, IsWholeSectors};
ghost use Rattle.luks_vouching.specs.Cut.{IsCut};
ghost use Rattle.luks_vouching.specs.Pieces.{IsComposedOfPieces, IsOfPieces};
ghost use Rattle.luks_vouching.specs.Tried.{IsTried};
ghost use Rattle.luks_vouching.specs.Work.{HashesFew};
ghost use Rattle.luks_vouching.specs.Vouched.{area_at, IsVouched, Meets, VouchesForNone};

/// A copy's binary header vouches for one JSON area at most.
pub fn one_vouched()
    ensures one { (most : ℕ) (v : List ℕ) (size o : ℕ) (i j : List ℕ)
        → IsVouched most v size o i → IsVouched most v size o j → i ≡ j }
    ensures none { (most : ℕ) (v : List ℕ) (size o : ℕ) (j : List ℕ)
        → VouchesForNone most v size o → IsVouched most v size o j → ⊥ }
{}

/// What a binary header vouches for is one copy's JSON area, cut where its text ends, or composed of the
/// sectors of both, or of pieces of both; it is one of those that are tried, and meets the checksum.
pub fn vouched_is_composed()
    ensures composed { (most : ℕ) (v : List ℕ) (size o : ℕ) (j : List ℕ) → IsVouched most v size o j
        → IsCut (area_at v 0 size) (area_at v size size) j
        ⊎ (IsComposed (area_at v 0 size) (area_at v size size) j
        ⊎ IsOfPieces (area_at v 0 size) (area_at v size size) j) }
    ensures tried { (most : ℕ) (v : List ℕ) (size o : ℕ) (j : List ℕ) → IsVouched most v size o j
        → IsTried most (area_at v 0 size) (area_at v size size) j }
    ensures met { (most : ℕ) (v : List ℕ) (size o : ℕ) (j : List ℕ) → IsVouched most v size o j → Meets v o j }
{}

/// The JSON area of a sound copy meets the copy's checksum.
pub fn sound_copy_meets()
    ensures { (v : List ℕ) (o : ℕ) → IsSound v o
        → Meets v o (area_at v o (hdr_size (header_at v o))) }
{}

/// What is tried to find what one checksum vouches for has at most as many bytes together as may be hashed: so
/// many compositions, times the bytes of a JSON area.
pub fn work_is_bounded()
    ensures { (most : ℕ) (first second : List ℕ) → IsWholeSectors first
        → length second ≡ length first → HashesFew most first second }
{}

/// Each composition of pieces has a number: where both areas have another wrong digit in one sector, what is
/// right is tried.
pub fn pieces_are_all()
    ensures { (first second j : List ℕ) → IsWholeSectors first → length second ≡ length first
        → IsComposedOfPieces first second j → IsOfPieces first second j }
{}
