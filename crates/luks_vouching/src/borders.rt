//! The compositions of two JSON areas by one border, tried by a checksum.
ghost use Rattle.std.specs.Prelude.{◌≡◌, ◌++◌, ◌*◌, ◌^◌, ◌+◌, ◌<◌, ◌≤◌, ℕ, List, length, take, drop, IfSome, IsNone, Option, None, true, false};
ghost use Rattle.sha2.specs.Hashers.{Holds256};
ghost use Rattle.sha2.specs.Sha256.{sha256};
ghost use Rattle.luks_vouching.specs.Composed.{bordered, IsWholeSectors};
ghost use Rattle.luks_vouching.specs.Tried.{HasNoBorder, IsNear};

use crate::areas::{SECTOR, differ};
use crate::bound::borders_may;
use crate::search::{fed, is_sum};
use sha2::{Digest, Sha256};

/// The least number of sectors of the front that, with the rest of the other area, meet the checksum,
/// by a hasher that was fed what precedes them, if it is near enough. Behind each sector that differs
/// the rest is hashed once more.
pub(crate) fn least_border(
    front: &[u8],
    rest: &[u8],
    hasher: &Sha256,
    sum: &[u8],
    most: usize,
) -> Option<usize>
    requires whole { IsWholeSectors front.now }
    requires long { length rest.now ≡ length front.now }
    requires most { most ≤ 2 ^ 40 }
    ensures inside { IfSome result (λ n. 512 * n ≤ length front.now) }
    ensures near { IfSome result (IsNear most front.now rest.now) }
    ensures met { (done : List ℕ) → Holds256 hasher.now done → IfSome result
        (λ n. sum.now ≡ sha256 (done ++ bordered front.now rest.now n)) }
    ensures least { (done : List ℕ) → Holds256 hasher.now done → IfSome result
        (λ n. (m : ℕ) → sum.now ≡ sha256 (done ++ bordered front.now rest.now m) → n ≤ m) }
    ensures none { (done : List ℕ) → Holds256 hasher.now done → IsNone result
        → HasNoBorder most front.now rest.now (λ j. sum.now ≡ sha256 (done ++ j)) }
{
    let count = front.len() / SECTOR;
    let mut begun = fed(hasher, &[]);
    let mut passed = 0;
    let mut is_new = true;
    for n in 0..count {
        if !borders_may(passed, front.len(), most) {
            return None;
        }
        let at = n * SECTOR;
        if is_met(is_new, &begun, &rest[at..], sum) {
            return Some(n);
        }
        begun.update(&front[at..at + SECTOR]);
        is_new = differ(front, rest, n);
        if is_new {
            passed += 1;
        }
    }
    if borders_may(passed, front.len(), most) && is_met(is_new, &begun, &[], sum) {
        Some(count)
    } else {
        None
    }
}

/// Whether the checksum is met by what the hasher was fed and these bytes. If they aren't new, it isn't.
fn is_met(is_new: bool, begun: &Sha256, bytes: &[u8], sum: &[u8]) -> bool
    ensures met { (done : List ℕ) → Holds256 begun.now done → result ≡ true
        → sum.now ≡ sha256 (done ++ bytes.now) }
    ensures not_met { (done : List ℕ) → Holds256 begun.now done → result ≡ false → is_new ≡ true
        → sum.now ≡ sha256 (done ++ bytes.now) → ⊥ }
{
    is_new && is_sum(fed(begun, bytes), sum)
}
