//! The faults of a conversion that are judged by the source's header, before anything is made.
ghost use Rattle.std.specs.Prelude.{◌≡◌, ◌≢◌, ℕ, List, IfErr, OnOk, false};
ghost use Rattle.luks_area.specs.First.{IsLeast};
ghost use Rattle.luks_reading.specs.declared.report.Data.{Data as Payload};
ghost use Rattle.luks_converting.specs.Accepted.{IsHeaderOf, IsRead, IsReady};
ghost use Rattle.luks_converting.specs.ConvertFaults.{convert_key, is_convert_failure};
ghost use Rattle.luks_converting.specs.Outcome.{IsConvertFault, IsConvertible};
ghost use Rattle.luks_converting.specs.Source.{IsSource};

use crate::convert_fault::ConvertFault;
use crate::converting::CONVERT_RANDOM;
use crate::places::areas_end;
use crate::source::{SourceHeader, are_bytes};

/// The least length of a target in bytes, and the last place at which its key areas may end.
const REGION_END: u64 = 16777216;

/// How many random bytes are taken.
const RANDOM: usize = CONVERT_RANDOM as usize;

/// The first fault of converting the volume with this header into a target of `total` bytes.
pub(crate) fn judge(header: &SourceHeader, total: u64, random: &[u8]) -> Result<(), ConvertFault>
    requires { IsRead header.now }
    ensures fault { (v : List ℕ) (payload : Payload) → IsHeaderOf header.now.bytes payload v
        → IfErr result (IsLeast convert_key (IsConvertFault v payload total random.now)) }
    ensures own { IfErr result (λ f. is_convert_failure f ≡ false) }
    ensures memory { IfErr result (λ f. f ≢ ConvertFault.Memory) }
    ensures faultless { (v : List ℕ) (payload : Payload) → IsHeaderOf header.now.bytes payload v
        → OnOk result (IsConvertible v payload total random.now) }
    ensures ready { OnOk result (IsReady header.now.bytes total random.now) }
    ensures source { OnOk result (IsSource header.now.bytes) }
{
    are_bytes(&header.bytes);
    if total < REGION_END {
        Err(ConvertFault::TooSmall)
    } else if areas_end(&header.fields) > REGION_END {
        Err(ConvertFault::NoRoom)
    } else if random.len() != RANDOM {
        Err(ConvertFault::RandomLength)
    } else {
        Ok(())
    }
}
