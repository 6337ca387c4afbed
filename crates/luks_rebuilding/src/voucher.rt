//! Whose checksum vouches for metadata that is known.
ghost use Rattle.std.specs.Prelude.{◌≡◌, ◌↔◌, ◌+◌, ◌^◌, ◌<◌, ◌⊎◌, IfOk, IfErr, IsTrue};
ghost use Rattle.luks_area.specs.Device.{CountsFailure, IsUnchanged};
ghost use Rattle.luks2_header.specs.Sizes.{IsListed};
ghost use Rattle.luks_rebuilding.specs.RebuildFaults.{is_rebuild_failure};
ghost use Rattle.luks_rebuilding.specs.Vouchers.{FindsVoucher, IsVoucher};

use crate::place::{Copies, Place};
use crate::rebuild_fault::RebuildFault;
use crate::standing::{standing_copies, take_first};
use crate::vouching::is_asked;
use luks_area::Device;
use luks_vouching::meets;

/// The first of the copies that are asked for, in the order in which what they vouch for is taken, whose checksum
/// is met by this JSON area; if there is one. For each copy whose binary header stands the area is hashed once.
/// Takes no memory.
pub fn find_voucher<D: Device>(
    source: &mut D,
    copies: Copies,
    json: &[u8],
) -> Result<Option<Place>, RebuildFault>
    requires { D.failed source.old + 1 < 2 ^ 64 }
    ensures unchanged { IsUnchanged D.tells D.size D.bytes D.unsettled source.old source.new }
    ensures count { CountsFailure is_rebuild_failure result
        (D.failed source.old) (D.failed source.new) }
    ensures device { IfErr result (λ fault. fault ≡ RebuildFault.Device) }
    ensures found { D.tells → IfOk result (FindsVoucher (D.bytes source.old) copies json.now) }
{
    let mut left = standing_copies(source)?;
    while let Some(copy) = take_first(&mut left) {
        if is_voucher(source, copies, copy.place, json)? {
            return Ok(Some(copy.place));
        }
    }
    Ok(None)
}

/// Whether the copy at the place is one.
fn is_voucher<D: Device>(
    source: &mut D,
    copies: Copies,
    place: Place,
    json: &[u8],
) -> Result<bool, RebuildFault>
    requires listed { IsListed place.size }
    requires half { (place.at ≡ 0) ⊎ (place.at ≡ place.size) }
    requires room { D.failed source.old + 1 < 2 ^ 64 }
    ensures unchanged { IsUnchanged D.tells D.size D.bytes D.unsettled source.old source.new }
    ensures count { CountsFailure is_rebuild_failure result
        (D.failed source.old) (D.failed source.new) }
    ensures device { IfErr result (λ fault. fault ≡ RebuildFault.Device) }
    ensures told { D.tells → IfOk result (λ is. IsTrue is
        ↔ IsVoucher (D.bytes source.old) copies json.now place) }
{
    if !is_asked(copies, place) {
        return Ok(false);
    }
    match meets(source, place.size, place.at, json) {
        Ok(is) => Ok(is),
        Err(_) => Err(RebuildFault::Device),
    }
}
