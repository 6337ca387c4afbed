//! A JSON area that is cut where its text ends, tried by a checksum.
ghost use Rattle.std.specs.Prelude.{◌≡◌, ◌==◌, ◌++◌, ◌≤◌, ℕ, List, length, position, true, false};
ghost use Rattle.sha2.specs.Hashers.{Holds256};
ghost use Rattle.sha2.specs.Sha256.{sha256};
ghost use Rattle.luks_vouching.specs.Cut.{cut, text_end};

use crate::search::{fed, is_sum};
use sha2::Sha256;

/// Whether the area, cut where its text ends, meets the checksum, by a hasher that was fed what precedes
/// it. `json` holds it then.
pub(crate) fn try_cut(area: &[u8], json: &mut [u8], hasher: &Sha256, sum: &[u8]) -> bool
    requires { length json.old ≡ length area.now }
    ensures cut { json.new ≡ cut area.now }
    ensures met { (done : List ℕ) → Holds256 hasher.now done → result ≡ true
        → sum.now ≡ sha256 (done ++ cut area.now) }
    ensures not_met { (done : List ℕ) → Holds256 hasher.now done → result ≡ false
        → sum.now ≡ sha256 (done ++ cut area.now) → ⊥ }
{
    put_cut(area, json);
    is_sum(fed(hasher, json), sum)
}

/// Puts the area there, cut where its text ends.
fn put_cut(area: &[u8], json: &mut [u8])
    requires { length json.old ≡ length area.now }
    ensures { json.new ≡ cut area.now }
{
    let end = text_end(area);
    json[..end].copy_from_slice(&area[..end]);
    json[end..].fill(0);
}

/// The end of the area's text: its first zero byte, or the area's end.
fn text_end(area: &[u8]) -> usize
    ensures end { result ≡ text_end area.now }
    ensures inside { result ≤ length area.now }
{
    match first_zero(area) {
        Some(end) => end,
        None => area.len(),
    }
}

fn first_zero(area: &[u8]) -> Option<usize>
    ensures { result ≡ position (λ c. c == 0) area.now }
{
    area.iter().position(|c| *c == 0)
}
