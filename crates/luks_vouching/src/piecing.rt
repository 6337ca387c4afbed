//! All compositions of pieces, tried by a checksum.
ghost use Rattle.std.specs.Prelude.{◌≡◌, ◌↔◌, ◌++◌, ◌+◌, ◌*◌, ◌^◌, ◌<◌, ◌≤◌, ℕ, List, IfSome, IsNone, IsTrue, length, true, false};
ghost use Rattle.sha2.specs.Hashers.{Holds256};
ghost use Rattle.sha2.specs.Sha256.{sha256};
ghost use Rattle.luks_vouching.specs.Composed.{IsWholeSectors};
ghost use Rattle.luks_vouching.specs.Pieces.{numbered, of_pieces, piece_count, pieces, with_piece, AreInside};
ghost use Rattle.luks_vouching.specs.Tried.{bytes_of_pieces, IsCutShort, IsFirstOfPieces, IsTriedOfPieces};

use crate::areas::differing;
use crate::bound::pieces_may;
use crate::pieces::{Piece, pieces};
use crate::progress::SearchProgress;
use crate::search::{fed, is_sum};
use arrayvec::ArrayVec;
use sha2::Sha256;

/// Whether a composition of pieces meets the checksum, by a hasher that was fed what precedes it, where
/// all of them may be hashed. Then `json` holds the first one.
pub(crate) fn compose_pieces<P: SearchProgress>(
    first: &[u8],
    second: &[u8],
    json: &mut [u8],
    hasher: &Sha256,
    sum: &[u8],
    most: usize,
    progress: &mut P,
) -> bool
    requires whole { IsWholeSectors first.now }
    requires long { length second.now ≡ length first.now }
    requires room { length json.old ≡ length first.now }
    requires most { most ≤ 2 ^ 40 }
    ensures found { (done : List ℕ) → Holds256 hasher.now done → result ≡ true
        → IsFirstOfPieces most first.now second.now (λ j. sum.now ≡ sha256 (done ++ j)) json.new }
    ensures none { (done : List ℕ) → Holds256 hasher.now done → result ≡ false
        → (j : List ℕ) → IsTriedOfPieces most first.now second.now j → sum.now ≡ sha256 (done ++ j) → ⊥ }
{
    match may_try_pieces(first, second, most) {
        Some(found) => try_pieces(first, second, json, &found, hasher, sum, progress),
        None => false,
    }
}

/// Whether not all compositions are tried.
pub(crate) fn are_cut_short(first: &[u8], second: &[u8], most: usize) -> bool
    requires whole { IsWholeSectors first.now }
    requires long { length second.now ≡ length first.now }
    requires most { most ≤ 2 ^ 40 }
    ensures { IsTrue result ↔ IsCutShort most first.now second.now }
{
    may_try_pieces(first, second, most).is_none()
}

/// The pieces of both areas, if all compositions of them may be hashed.
fn may_try_pieces(first: &[u8], second: &[u8], most: usize) -> Option<ArrayVec<Piece, 32>>
    requires whole { IsWholeSectors first.now }
    requires long { length second.now ≡ length first.now }
    requires most { most ≤ 2 ^ 40 }
    ensures some { IfSome result (λ found. found.items ≡ pieces first.now second.now) }
    ensures may { IfSome result (λ found. bytes_of_pieces first.now second.now ≤ most) }
    ensures none { IsNone result → IsCutShort most first.now second.now }
{
    let found = pieces(first, second)?;
    if pieces_may(differing(first, second), found.len(), first.len(), most) {
        Some(found)
    } else {
        None
    }
}

/// Whether a composition of these pieces meets the checksum. Then `json` holds the first one.
fn try_pieces<P: SearchProgress>(
    first: &[u8],
    second: &[u8],
    json: &mut [u8],
    found: &[Piece],
    hasher: &Sha256,
    sum: &[u8],
    progress: &mut P,
) -> bool
    requires inside { AreInside (length first.now) found.now }
    requires few { length found.now ≤ 32 }
    requires long { length second.now ≡ length first.now }
    requires room { length json.old ≡ length first.now }
    ensures found { (done : List ℕ) → Holds256 hasher.now done → result ≡ true → (n : ℕ)
        × (n < 2 ^ length found.now) × (json.new ≡ numbered second.now found.now n first.now)
        × (sum.now ≡ sha256 (done ++ json.new))
        × ((m : ℕ) → m < n → sum.now ≡ sha256 (done ++ numbered second.now found.now m first.now) → ⊥) }
    ensures none { (done : List ℕ) → Holds256 hasher.now done → result ≡ false → (n : ℕ)
        → n < 2 ^ length found.now → sum.now ≡ sha256 (done ++ numbered second.now found.now n first.now) → ⊥ }
{
    progress.seeks(found.len());
    for n in 0..1 << found.len() {
        progress.tried();
        json.copy_from_slice(first);
        put_numbered(json, second, found, n);
        if is_sum(fed(hasher, json), sum) {
            return true;
        }
    }
    false
}

/// Puts those pieces of the other area there that this number names.
fn put_numbered(json: &mut [u8], other: &[u8], found: &[Piece], n: usize)
    requires inside { AreInside (length other.now) found.now }
    requires long { length json.old ≡ length other.now }
    ensures { json.new ≡ numbered other.now found.now n json.old }
{
    let mut number = n;
    let mut left = found;
    while let [piece, later @ ..] = left {
        if number % 2 == 1 {
            put_piece(json, other, *piece);
        }
        number /= 2;
        left = later;
    }
}

/// Puts the piece of the other area there.
fn put_piece(json: &mut [u8], other: &[u8], piece: Piece)
    requires inside { piece.at + piece.len ≤ length other.now }
    requires long { length json.old ≡ length other.now }
    ensures { json.new ≡ with_piece other.now piece json.old }
{
    let end = piece.at + piece.len;
    json[piece.at..end].copy_from_slice(&other[piece.at..end]);
}
