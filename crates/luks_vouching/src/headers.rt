//! What the binary header of a copy says, where it stands.
ghost use Rattle.std.specs.Prelude.{◌≡◌, ◌↔◌, ◌+◌, ◌*◌, ◌^◌, ◌<◌, ◌≤◌, ◌⊎◌, length, IfOk, IfErr, IsTrue, true};
ghost use Rattle.luks_area.specs.Device.{CountsFailure, IsUnchanged};
ghost use Rattle.luks2_header.specs.Sizes.{IsListed};
ghost use Rattle.luks_vouching.specs.Faults.{is_vouch_failure};
ghost use Rattle.luks_vouching.specs.Vouched.{mended_header, FindsStanding, IsMetAt, MeetsSum, Stands};

use crate::search::{fed, is_sum};
use crate::standing::{HEADER, hasher_of, is_standing, mend, sum_of};
use crate::vouch_fault::VouchFault;
use luks_area::Device;
use luks2_header::Bin2;

/// The binary header of the copy at `at` of a header of `size` bytes, with the magic of its place, if it stands
/// there. Takes no memory, and hashes nothing.
pub fn standing_header<D: Device>(
    source: &mut D,
    size: u64,
    at: u64,
) -> Result<Option<Bin2>, VouchFault>
    requires listed { IsListed size }
    requires half { (at ≡ 0) ⊎ (at ≡ size) }
    requires room { D.failed source.old + 1 < 2 ^ 64 }
    ensures unchanged { IsUnchanged D.tells D.size D.bytes D.unsettled source.old source.new }
    ensures count { CountsFailure is_vouch_failure result
        (D.failed source.old) (D.failed source.new) }
    ensures found { D.tells → IfOk result (FindsStanding (D.bytes source.old) size at) }
    ensures device { IfErr result (λ fault. fault ≡ VouchFault.Device) }
{
    let mut head = [0; HEADER];
    if reads_standing(source, size, at, &mut head)? {
        Ok(Some(Bin2::read(&head)))
    } else {
        Ok(None)
    }
}

/// Whether the checksum of the copy at `at` is met by this JSON area: its binary header stands, and the checksum
/// is that of the header and these bytes. They alone are hashed.
pub fn meets<D: Device>(source: &mut D, size: u64, at: u64, json: &[u8]) -> Result<bool, VouchFault>
    requires listed { IsListed size }
    requires half { (at ≡ 0) ⊎ (at ≡ size) }
    requires room { D.failed source.old + 1 < 2 ^ 64 }
    ensures unchanged { IsUnchanged D.tells D.size D.bytes D.unsettled source.old source.new }
    ensures count { CountsFailure is_vouch_failure result
        (D.failed source.old) (D.failed source.new) }
    ensures met { D.tells → IfOk result (λ is. IsTrue is
        ↔ IsMetAt (D.bytes source.old) size at json.now) }
    ensures device { IfErr result (λ fault. fault ≡ VouchFault.Device) }
{
    let mut head = [0; HEADER];
    if !reads_standing(source, size, at, &mut head)? {
        return Ok(false);
    }
    Ok(is_met_by(&head, json))
}

/// Whether the JSON area meets the checksum of the binary header.
fn is_met_by(head: &[u8], json: &[u8]) -> bool
    requires { length head.now ≡ 4096 }
    ensures { IsTrue result ↔ MeetsSum head.now json.now }
{
    is_sum(fed(&hasher_of(head), json), sum_of(head))
}

/// Whether the binary header of the copy at `at` stands. Then `head` holds it, with the magic of its place.
pub(crate) fn reads_standing<D: Device>(
    source: &mut D,
    size: u64,
    at: u64,
    head: &mut [u8],
) -> Result<bool, VouchFault>
    requires listed { IsListed size }
    requires half { (at ≡ 0) ⊎ (at ≡ size) }
    requires long { length head.old ≡ 4096 }
    requires room { D.failed source.old + 1 < 2 ^ 64 }
    ensures unchanged { IsUnchanged D.tells D.size D.bytes D.unsettled source.old source.new }
    ensures count { CountsFailure is_vouch_failure result
        (D.failed source.old) (D.failed source.new) }
    ensures both { IfOk result (λ is. is ≡ true → 2 * size ≤ D.size source.old) }
    ensures stands { D.tells → IfOk result (λ is. IsTrue is ↔ Stands (D.bytes source.old) size at) }
    ensures head { D.tells → IfOk result (λ is. is ≡ true
        → head.new ≡ mended_header (D.bytes source.old) at) }
    ensures device { IfErr result (λ fault. fault ≡ VouchFault.Device) }
{
    let total = source.len();
    if !are_both_inside(size, total) {
        return Ok(false);
    }
    source.read_at(at, head)?;
    mend(head, at);
    Ok(is_standing(head, size, at, total))
}

/// Whether both copies of a header of `size` bytes lie inside a device of `total`. No sum is made.
fn are_both_inside(size: u64, total: u64) -> bool
    ensures { IsTrue result ↔ (2 * size ≤ total) }
{
    size <= total && size <= total - size
}
