//! The faults of rebuilding that are judged by the candidate, before anything is made.
ghost use Rattle.std.specs.Prelude.{◌≡◌, ℕ, List, IfErr, OnOk, false, length, option_map, IsTrue, Some, true, ◌↔◌, ◌+◌, ◌*◌, ◌≤◌};
ghost use Rattle.luks_area.specs.First.{IsLeast};
ghost use Rattle.luks1_header.specs.Bytes.{IsUuid};
ghost use Rattle.luks_rebuilding.specs.Found.{source_of, IsReady, IsWhole};
ghost use Rattle.luks_rebuilding.specs.Making.{IsMakeable, IsMakingFault};
ghost use Rattle.luks_rebuilding.specs.Outcome.{IsNoUuid};
ghost use Rattle.luks_rebuilding.specs.RebuildFaults.{is_rebuild_failure, rebuild_key};

use crate::candidate::Candidate;
use crate::rebuild_fault::RebuildFault;
use crate::rebuilding::REBUILD_RANDOM;
use luks_area::fit;
use luks_reading::{Data, luks2_areas};
use luks2_header::is_uuid;

/// How many random bytes are taken.
const RANDOM: usize = REBUILD_RANDOM as usize;

/// The first fault of making a header of the candidate, found in a volume of `source_total` bytes, on
/// a target of `total` bytes.
pub(crate) fn judge(
    found: &Candidate,
    source_total: u64,
    total: u64,
    uuid: Option<&str>,
    random: &[u8],
) -> Result<(), RebuildFault>
    requires { IsWhole source_total found.now }
    ensures fault { (v : List ℕ) → length v ≡ source_total → IfErr result
        (IsLeast rebuild_key (IsMakingFault v (source_of found.now)
        (option_map (λ t. t.now) uuid.entry) total random.now)) }
    ensures own { IfErr result (λ f. is_rebuild_failure f ≡ false) }
    ensures faultless { (v : List ℕ) → length v ≡ source_total → OnOk result
        (IsMakeable v (source_of found.now) (option_map (λ t. t.now) uuid.entry) total random.now) }
    ensures ready { OnOk result
        (IsReady found.now source_total total (option_map (λ t. t.now) uuid.entry) random.now) }
{
    let areas = luks2_areas(&found.meta, found.place.size, Data::Elsewhere, source_total);
    fit(&areas, source_total)?;
    let region = found.meta.config().keyslots_size;
    if !ends_inside(found.place.size, region, total) {
        Err(RebuildFault::TooSmall)
    } else if is_no_uuid(uuid) {
        Err(RebuildFault::Uuid)
    } else if random.len() != RANDOM {
        Err(RebuildFault::RandomLength)
    } else {
        Ok(())
    }
}

/// Whether `region` bytes behind both copies of `size` bytes end inside a device of `total` bytes. No
/// sum is made that may wrap.
fn ends_inside(size: u64, region: u64, total: u64) -> bool
    requires { size ≤ 4194304 }
    ensures { IsTrue result ↔ (2 * size + region ≤ total) }
{
    region <= total && 2 * size <= total - region
}

/// Whether a uuid is given that isn't one.
fn is_no_uuid(uuid: Option<&str>) -> bool
    ensures bad { result ≡ true → IsNoUuid (option_map (λ t. t.now) uuid.entry) }
    ensures good { result ≡ false → (text : List ℕ)
        → option_map (λ t. t.now) uuid.entry ≡ Some text → IsUuid text }
{
    match uuid {
        Some(text) => !is_uuid(text),
        None => false,
    }
}
