//! The copies of which not all is tried that their checksums may vouch for.
ghost use Rattle.std.specs.Prelude.{◌≡◌, ◌↔◌, ◌+◌, ◌^◌, ◌<◌, ◌≤◌, ◌⊎◌, IfOk, IfErr, IsTrue};
ghost use Rattle.luks_area.specs.Device.{CountsFailure, IsUnchanged};
ghost use Rattle.luks2_header.specs.Sizes.{IsListed};
ghost use Rattle.luks_rebuilding.specs.Found.{BreaksVouched, BreaksVouchedAt, IsFromOutside};
ghost use Rattle.luks_rebuilding.specs.RebuildFaults.{is_rebuild_failure};
ghost use Rattle.luks_rebuilding.specs.Shares.{IsShare};
ghost use Rattle.luks_rebuilding.specs.Untried.{FindsUntried, IsUntried};

use crate::place::{Place, Which};
use crate::rebuild_fault::RebuildFault;
use crate::standing::{share, standing_copies, take_first};
use crate::vouching::is_asked;
use luks_area::Device;
use luks_vouching::{VouchFault, is_cut_short};
use std::alloc::Global;

/// A copy that is asked for of which `find_candidate` doesn't try all that its checksum may vouch for, since
/// that has more bytes together than may be hashed for it; if there is one. Takes memory for two JSON areas, of
/// the copies whose binary header stands. Nothing is hashed.
pub fn find_untried<D: Device>(
    alloc: Global,
    source: &mut D,
    which: Which,
) -> Result<Option<Place>, RebuildFault>
    requires { D.failed source.old + 1 < 2 ^ 64 }
    ensures unchanged { IsUnchanged D.tells D.size D.bytes D.unsettled source.old source.new }
    ensures count { CountsFailure is_rebuild_failure result
        (D.failed source.old) (D.failed source.new) }
    ensures kinds { IfErr result IsFromOutside }
    ensures found { D.tells → IfOk result (FindsUntried (D.bytes source.old) which) }
    ensures broken { D.tells → IfErr result (BreaksVouched (D.bytes source.old) which) }
{
    let mut left = standing_copies(source)?;
    let most = share(which.effort, left.len());
    while let Some(copy) = take_first(&mut left) {
        if is_untried(alloc, source, which, copy.place, most)? {
            return Ok(Some(copy.place));
        }
    }
    Ok(None)
}

/// Whether the copy at the place is one, where so many bytes may be hashed for it.
fn is_untried<D: Device>(
    alloc: Global,
    source: &mut D,
    which: Which,
    place: Place,
    most: usize,
) -> Result<bool, RebuildFault>
    requires listed { IsListed place.size }
    requires half { (place.at ≡ 0) ⊎ (place.at ≡ place.size) }
    requires most { most ≤ 2 ^ 40 }
    requires share { D.tells → IsShare (D.bytes source.old) which.effort most }
    requires room { D.failed source.old + 1 < 2 ^ 64 }
    ensures unchanged { IsUnchanged D.tells D.size D.bytes D.unsettled source.old source.new }
    ensures count { CountsFailure is_rebuild_failure result
        (D.failed source.old) (D.failed source.new) }
    ensures kinds { IfErr result IsFromOutside }
    ensures told { D.tells → IfOk result (λ is. IsTrue is ↔ IsUntried (D.bytes source.old) which place) }
    ensures broken { D.tells → IfErr result (BreaksVouchedAt (D.bytes source.old) which place) }
{
    if !is_asked(which.copies, place) {
        return Ok(false);
    }
    match is_cut_short(alloc, source, place.size, place.at, most) {
        Ok(is) => Ok(is),
        Err(VouchFault::Memory) => Err(RebuildFault::Memory),
        Err(VouchFault::Device) => Err(RebuildFault::Device),
    }
}
