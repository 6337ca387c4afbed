//! All compositions of two JSON areas, tried by a checksum.
ghost use Rattle.std.specs.Prelude.{◌≡◌, ◌++◌, ◌*◌, ◌<◌, ◌≤◌, ℕ, List, drop, length, true, false};
ghost use Rattle.sha2.specs.Hashers.{Holds256};
ghost use Rattle.sha2.specs.Sha256.{sha256};
ghost use Rattle.luks_vouching.specs.Composed.{IsComposed, IsWholeSectors};
ghost use Rattle.luks_vouching.specs.Tried.{IsFirstOfAll};

use crate::areas::{SECTOR, alike};
use crate::progress::SearchProgress;
use sha2::{Digest, Sha256};

/// Whether a composition meets the checksum, by a hasher that was fed what precedes it. Then
/// `json` holds the first one that does.
///
/// If two sectors differ, the first copy's is tried with all that follows, then the second's: each
/// of these doubles the work behind it. `progress` is told of each composition.
pub(crate) fn search<P: SearchProgress>(
    first: &[u8],
    second: &[u8],
    json: &mut [u8],
    mut hasher: Sha256,
    sum: &[u8],
    progress: &mut P,
) -> bool
    requires whole { IsWholeSectors first.now }
    requires long { length second.now ≡ length first.now }
    requires room { length json.old ≡ length first.now }
    ensures found { (done : List ℕ) → Holds256 hasher done → result ≡ true
        → IsFirstOfAll first.now second.now (λ j. sum.now ≡ sha256 (done ++ j)) json.new }
    ensures none { (done : List ℕ) → Holds256 hasher done → result ≡ false
        → (j : List ℕ) → IsComposed first.now second.now j → sum.now ≡ sha256 (done ++ j) → ⊥ }
{
    let at = alike(first, second) * SECTOR;
    hasher.update(&first[..at]);
    if at == first.len() {
        json.copy_from_slice(first);
        progress.tried();
        return is_sum(hasher, sum);
    }
    let after = at + SECTOR;
    let own = fed(&hasher, &first[at..after]);
    if search(
        &first[after..],
        &second[after..],
        &mut json[after..],
        own,
        sum,
        progress,
    ) {
        put_front(json, &first[..after]);
        return true;
    }
    let other = fed(&hasher, &second[at..after]);
    let found = search(
        &first[after..],
        &second[after..],
        &mut json[after..],
        other,
        sum,
        progress,
    );
    put_front(json, &second[..after]);
    found
}

/// Puts these bytes over the first ones.
fn put_front(json: &mut [u8], front: &[u8])
    requires { length front.now ≤ length json.old }
    ensures { json.new ≡ front.now ++ drop (length front.now) json.old }
{
    json[..front.len()].copy_from_slice(front);
}

/// Whether the hasher's digest is the checksum.
pub(crate) fn is_sum(hasher: Sha256, sum: &[u8]) -> bool
    ensures met { (done : List ℕ) → Holds256 hasher done → result ≡ true
        → sum.now ≡ sha256 done }
    ensures not_met { (done : List ℕ) → Holds256 hasher done → result ≡ false
        → sum.now ≡ sha256 done → ⊥ }
{
    hasher.finalize().as_slice() == sum
}

/// A hasher that was fed what this one was, and then these bytes.
pub(crate) fn fed(hasher: &Sha256, bytes: &[u8]) -> Sha256
    ensures { (done : List ℕ) → Holds256 hasher.now done → Holds256 result (done ++ bytes.now) }
{
    let mut after = hasher.clone().unwrap();
    after.update(bytes);
    after
}
