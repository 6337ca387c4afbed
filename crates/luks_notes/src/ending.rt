//! Where the header ends that was made.
ghost use Rattle.std.specs.Prelude.{◌≡◌, ◌+◌, ◌≤◌, ◌<◌, ◌^◌, IfOk, IfSome};
ghost use Rattle.luks_area.specs.Device.{CountsFailure, IsUnchanged, is_failure};
ghost use Rattle.luks2_header.specs.Sizes.{IsListed};
ghost use Rattle.luks_notes.specs.HeaderEnd.{EndsAt};

use luks_area::{Device, DeviceFault};
use luks2_header::{HeadFault, Selected, select};

/// How many of a device's first bytes belong to the header that counts there: of LUKS1 its 592, of
/// LUKS2 both copies. None where no header counts.
pub fn header_end<D: Device>(device: &mut D) -> Result<Option<usize>, DeviceFault>
    requires { D.failed device.old + 1 < 2 ^ 64 }
    ensures unchanged { IsUnchanged D.tells D.size D.bytes D.unsettled device.old device.new }
    ensures count { CountsFailure is_failure result (D.failed device.old) (D.failed device.new) }
    ensures least { IfOk result (λ found. IfSome found (λ end. 592 ≤ end)) }
    ensures end { D.tells → IfOk result (EndsAt (D.bytes device.old)) }
{
    match select(device) {
        Ok(Selected::V1(_)) => Ok(Some(592)),
        Ok(Selected::V2 { header, .. }) => Ok(Some(both_copies(header.hdr_size))),
        Err(HeadFault::Device) => Err(DeviceFault),
        Err(_) => Ok(None),
    }
}

/// The bytes of two copies of this size.
#[tactic(auto, using(luks2_header::proofs::CopyFacts::listed_at_least, crate::proofs::EndFacts::listed_at_most))]
fn both_copies(size: u64) -> usize
    requires { IsListed size }
    ensures both { result ≡ size + size }
    ensures least { 592 ≤ result }
{
    (size + size) as usize
}
