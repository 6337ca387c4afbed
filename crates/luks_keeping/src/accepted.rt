//! The header of a volume that is accepted.
ghost use Rattle.std.specs.Prelude.{◌+◌, ◌^◌, ◌<◌, IfErr, IfOk, OnOk};
ghost use Rattle.luks_area.specs.Area.{Fit};
ghost use Rattle.luks_area.specs.Device.{CountsFailure, IsUnchanged};
ghost use Rattle.luks_reading.specs.Checked.{IsCheckRefusal, WellFormed};
ghost use Rattle.luks_reading.specs.Failures.{is_check_failure};
ghost use Rattle.luks_reading.specs.Header.{IsAcceptedHeader, IsHeader};
ghost use Rattle.luks_reading.specs.Reported.{HeaderArea};
ghost use Rattle.luks_keeping.specs.AreasCompared.{LiesWithin};
ghost use Rattle.luks_keeping.specs.Judged.{HasFields};

use crate::judging::judge_header;
use luks_area::Device;
use luks_reading::{CheckFault, Data, Header, read_header};
use std::alloc::Global;

/// The header of the volume, if `check` accepts that, or else why not. Takes memory for the metadata of
/// LUKS2 alone.
pub fn accepted_header<D: Device>(
    alloc: Global,
    device: &mut D,
    payload: Data,
) -> Result<Header, CheckFault>
    requires { D.failed device.old + 1 < 2 ^ 64 }
    ensures unchanged { IsUnchanged D.tells D.size D.bytes D.unsettled device.old device.new }
    ensures count { CountsFailure is_check_failure result
        (D.failed device.old) (D.failed device.new) }
    ensures accepted { IfOk result IsAcceptedHeader }
    ensures fields { IfOk result HasFields }
    ensures fits { IfOk result (λ h.
        Fit (HeaderArea h payload (D.size device.old)) (D.size device.old)) }
    ensures within { IfOk result (λ h. LiesWithin h (D.size device.new)) }
    ensures read { D.tells → IfOk result (IsHeader (D.bytes device.old)) }
    ensures formed { D.tells → OnOk result (WellFormed (D.bytes device.old) payload) }
    ensures refused { D.tells → IfErr result (IsCheckRefusal (D.bytes device.old) payload) }
{
    let header = read_header(alloc, device)?;
    judge_header(&header, payload, device.len())?;
    Ok(header)
}
