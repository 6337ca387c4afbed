//! Checking a volume by the header that counts.
ghost use Rattle.std.specs.Prelude.{◌≡◌, ◌≢◌, ◌+◌, ◌^◌, ◌<◌, ℕ, List, length, IfOk, IfErr, IsOk, OnOk, MatchResult, ⊤};
ghost use Rattle.luks_area.specs.Area.{Fit};
ghost use Rattle.luks_area.specs.Device.{CountsFailure, IsUnchanged};
ghost use Rattle.luks_area.specs.Names.{HasArea};
ghost use Rattle.luks_reading.specs.declared.header.Header.TheVariants.{Luks2 as OfLuks2};
ghost use Rattle.luks_reading.specs.Checked.{First, IsCheckRefusal, WellFormed};
ghost use Rattle.luks_reading.specs.Failures.{is_check_failure};
ghost use Rattle.luks_reading.specs.Header.{IsAcceptedHeader, IsChosenCopy, IsHeader, TakesNoMemory};
ghost use Rattle.luks_reading.specs.FitsAndResolves.{FitsAndResolves};
ghost use Rattle.luks_reading.specs.Listing.{Lists};
ghost use Rattle.luks_reading.specs.Reported.{HeaderArea, IsFromOutside, Reports};

use crate::check_fault::CheckFault;
use crate::header::{ChosenCopy, Header, read_header};
use crate::judging::{judge_layout, judge_luks1};
use crate::report::{Data, Report, Version};
use luks_area::Device;
use std::alloc::Global;

/// Whether the volume is well formed, with its areas, or else its first fault.
///
/// `payload` says where the payload lies. `Device` comes exactly where a device call failed. Memory
/// is taken for the metadata of LUKS2 alone.
pub fn check<D: Device>(alloc: Global, device: &mut D, payload: Data) -> Result<Report, CheckFault>
    requires { D.failed device.old + 1 < 2 ^ 64 }
    ensures unchanged { IsUnchanged D.tells D.size D.bytes D.unsettled device.old device.new }
    ensures count { CountsFailure is_check_failure result
        (D.failed device.old) (D.failed device.new) }
    ensures accepted { D.tells → OnOk result (WellFormed (D.bytes device.old) payload) }
    ensures report { D.tells → IfOk result (Reports (D.bytes device.old) payload) }
    ensures refused { D.tells → IfErr result (IsCheckRefusal (D.bytes device.old) payload) }
    ensures only { D.tells → WellFormed (D.bytes device.old) payload
        → MatchResult result (λ _. ⊤) IsFromOutside }
    ensures fits_and_resolves { D.tells → OnOk result (FitsAndResolves (D.bytes device.old) payload) }
    ensures memory { D.tells → TakesNoMemory (D.bytes device.old)
        → IfErr result (λ f. f ≢ CheckFault.Memory) }
{
    let header = read_header(alloc, device)?;
    check_header(&header, payload, device.len())
}

/// What `check` answers of a volume of `total` bytes with this header. It takes no memory.
pub fn check_header(header: &Header, payload: Data, total: u64) -> Result<Report, CheckFault>
    requires { IsAcceptedHeader header.now }
    ensures accepted { (v : List ℕ) → IsHeader v header.now → length v ≡ total
        → OnOk result (WellFormed v payload) }
    ensures fits { IfOk result (λ report. Fit (HasArea report.areas) total) }
    ensures listed { IfOk result (λ report. Lists report.areas (HeaderArea header.now payload total)) }
    ensures report { (v : List ℕ) → IsHeader v header.now → length v ≡ total
        → IfOk result (Reports v payload) }
    ensures refused { (v : List ℕ) → IsHeader v header.now → length v ≡ total
        → IfErr result (First v payload) }
    ensures device { IfErr result (λ f. f ≢ CheckFault.Device) }
    ensures memory { IfErr result (λ f. f ≢ CheckFault.Memory) }
{
    match header {
        Header::Luks1(bytes) => {
            let areas = judge_luks1(bytes.as_slice(), payload, total)?;
            Ok(Report {
                version: Version::Luks1,
                areas,
            })
        }
        Header::Luks2(copy) => check_copy(copy, payload, total),
    }
}

/// What `check_header` answers of a volume with this LUKS2 copy. It takes no memory.
pub fn check_copy(copy: &ChosenCopy, payload: Data, total: u64) -> Result<Report, CheckFault>
    ensures accepted { (v : List ℕ) → IsChosenCopy v copy.now → length v ≡ total
        → OnOk result (WellFormed v payload) }
    ensures fits { IfOk result (λ report. Fit (HasArea report.areas) total) }
    ensures listed { IfOk result (λ report.
        Lists report.areas (HeaderArea (OfLuks2 copy.now) payload total)) }
    ensures report { (v : List ℕ) → IsChosenCopy v copy.now → length v ≡ total
        → IfOk result (Reports v payload) }
    ensures refused { (v : List ℕ) → IsChosenCopy v copy.now → length v ≡ total
        → IfErr result (First v payload) }
    ensures device { IfErr result (λ f. f ≢ CheckFault.Device) }
    ensures memory { IfErr result (λ f. f ≢ CheckFault.Memory) }
{
    let areas = judge_layout(&copy.meta, &copy.header, payload, total)?;
    Ok(Report {
        version: Version::Luks2 {
            copies: copy.copies,
            seqid: copy.header.seqid,
        },
        areas,
    })
}
