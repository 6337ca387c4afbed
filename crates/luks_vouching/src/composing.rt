//! The first composition of two JSON areas that is tried and meets a checksum.
ghost use Rattle.std.specs.Prelude.{◌≡◌, ◌↔◌, ◌++◌, ◌*◌, ◌^◌, ◌<◌, ◌≤◌, ℕ, List, IsTrue, length, true, false};
ghost use Rattle.sha2.specs.Hashers.{Holds256};
ghost use Rattle.sha2.specs.Sha256.{sha256};
ghost use Rattle.luks_vouching.specs.Composed.{bordered, IsWholeSectors};
ghost use Rattle.luks_vouching.specs.Tried.{bytes_of_all, HasNoBorder, IsFirstOfBorders, IsFirstOfSectors, IsFirstTried, IsNoneTried, IsTriedOfSectors};

use crate::areas::{SECTOR, differing};
use crate::borders::least_border;
use crate::bound::{all_may, may_begin};
use crate::cutting::try_cut;
use crate::piecing::compose_pieces;
use crate::progress::SearchProgress;
use crate::search::{fed, search};
use sha2::Sha256;

/// Whether a composition that is tried meets the checksum, by a hasher that was fed what precedes
/// it, where at most `most` bytes of areas may be hashed. Then `json` holds the first one.
pub(crate) fn compose<P: SearchProgress>(
    first: &[u8],
    second: &[u8],
    json: &mut [u8],
    hasher: Sha256,
    sum: &[u8],
    most: usize,
    progress: &mut P,
) -> bool
    requires whole { IsWholeSectors first.now }
    requires long { length second.now ≡ length first.now }
    requires room { length json.old ≡ length first.now }
    requires most { most ≤ 2 ^ 40 }
    ensures found { (done : List ℕ) → Holds256 hasher done → result ≡ true
        → IsFirstTried most first.now second.now (λ j. sum.now ≡ sha256 (done ++ j)) json.new }
    ensures none { (done : List ℕ) → Holds256 hasher done → result ≡ false
        → IsNoneTried most first.now second.now (λ j. sum.now ≡ sha256 (done ++ j)) }
{
    if !may_begin(first.len(), most) {
        return false;
    }
    if try_cut(first, json, &hasher, sum) {
        return true;
    }
    if try_cut(second, json, &hasher, sum) {
        return true;
    }
    let again = fed(&hasher, &[]);
    if compose_sectors(first, second, json, hasher, sum, most, progress) {
        return true;
    }
    compose_pieces(first, second, json, &again, sum, most, progress)
}

/// Composes the two copies' sectors.
fn compose_sectors<P: SearchProgress>(
    first: &[u8],
    second: &[u8],
    json: &mut [u8],
    hasher: Sha256,
    sum: &[u8],
    most: usize,
    progress: &mut P,
) -> bool
    requires whole { IsWholeSectors first.now }
    requires long { length second.now ≡ length first.now }
    requires room { length json.old ≡ length first.now }
    requires most { most ≤ 2 ^ 40 }
    ensures found { (done : List ℕ) → Holds256 hasher done → result ≡ true
        → IsFirstOfSectors most first.now second.now (λ j. sum.now ≡ sha256 (done ++ j)) json.new }
    ensures none { (done : List ℕ) → Holds256 hasher done → result ≡ false
        → (j : List ℕ) → IsTriedOfSectors most first.now second.now j → sum.now ≡ sha256 (done ++ j) → ⊥ }
{
    if may_try_all(first, second, most) {
        progress.seeks(differing(first, second));
        search(first, second, json, hasher, sum, progress)
    } else {
        compose_by_border(first, second, json, &hasher, sum, most)
    }
}

/// Whether all compositions may be tried.
fn may_try_all(first: &[u8], second: &[u8], most: usize) -> bool
    requires whole { IsWholeSectors first.now }
    requires long { length second.now ≡ length first.now }
    requires most { most ≤ 2 ^ 40 }
    ensures { IsTrue result ↔ (bytes_of_all first.now second.now ≤ most) }
{
    all_may(differing(first, second), first.len(), most)
}

/// Composes the two copies by one border alone.
fn compose_by_border(
    first: &[u8],
    second: &[u8],
    json: &mut [u8],
    hasher: &Sha256,
    sum: &[u8],
    most: usize,
) -> bool
    requires whole { IsWholeSectors first.now }
    requires long { length second.now ≡ length first.now }
    requires room { length json.old ≡ length first.now }
    requires most { most ≤ 2 ^ 40 }
    ensures found { (done : List ℕ) → Holds256 hasher.now done → result ≡ true
        → IsFirstOfBorders most first.now second.now (λ j. sum.now ≡ sha256 (done ++ j)) json.new }
    ensures none_first { (done : List ℕ) → Holds256 hasher.now done → result ≡ false
        → HasNoBorder most first.now second.now (λ j. sum.now ≡ sha256 (done ++ j)) }
    ensures none_second { (done : List ℕ) → Holds256 hasher.now done → result ≡ false
        → HasNoBorder most second.now first.now (λ j. sum.now ≡ sha256 (done ++ j)) }
{
    if let Some(n) = least_border(first, second, hasher, sum, most) {
        join(json, first, second, n);
        return true;
    }
    if let Some(n) = least_border(second, first, hasher, sum, most) {
        join(json, second, first, n);
        return true;
    }
    false
}

/// Puts the first `n` sectors of one area and the rest of the other together.
fn join(json: &mut [u8], front: &[u8], rest: &[u8], n: usize)
    requires inside { 512 * n ≤ length front.now }
    requires long { length rest.now ≡ length front.now }
    requires room { length json.old ≡ length front.now }
    ensures { json.new ≡ bordered front.now rest.now n }
{
    let at = n * SECTOR;
    json[..at].copy_from_slice(&front[..at]);
    json[at..].copy_from_slice(&rest[at..]);
}
