//! The header that is made, or why none is: judged before anything is written.
ghost use Rattle.std.specs.Prelude.{◌≡◌, ◌↔◌, ◌<◌, ◌≤◌, ◌+◌, ◌^◌, ℕ, List, false, length, IfErr, IfOk, IsTrue, OnOk};
ghost use Rattle.luks_area.specs.Device.{CountsFailure, IsUnchanged};
ghost use Rattle.luks_area.specs.First.{IsLeast};
ghost use Rattle.luks1_header.specs.Header1.{luks1_size, IsLuks1};
ghost use Rattle.luks1_header.specs.Written.{WritesLuks1};
ghost use Rattle.luks1_mending.specs.Made.{IsMade};
ghost use Rattle.luks_reading.specs.Checked.{IsLuks1Volume};
ghost use Rattle.luks_reading.specs.declared.report.Data.TheVariants.{Elsewhere};
ghost use Rattle.luks1_rebuilding.specs.KeyAreas.{header_of};
ghost use Rattle.luks1_rebuilding.specs.Outcome.{least_target, HasNoMakingFault, IsMakingFault, IsWhole};
ghost use Rattle.luks1_rebuilding.specs.RebuildFaults.{is_rebuild_failure, rebuild_key};
ghost use Rattle.luks1_rebuilding.specs.Judged.{target_fault, IsShort, IsUnfit};

use crate::rebuild_fault::Rebuild1Fault;
use luks_area::{AreaFault, Device};
use luks_reading::{CheckFault, Data, judge_luks1};
use luks_signatures::is_reencrypting;
use luks1_mending::{Given, has_signs, mended_header};
use luks2_header::Luks1;

/// The bytes of a header.
const HEADER: u64 = 592;

/// The least target: the first sectors of both places of an older header are cleared.
const LEAST_TARGET: u64 = 16896;

/// A header that was made, with its bytes.
#[derive(Drop)]
pub(crate) struct MadeHeader {
    /// Its fields.
    pub(crate) fields: Luks1,
    /// Its 592 bytes.
    pub(crate) bytes: [u8; 592],
}

/// The first 592 bytes of the source. Refused by `NoHeader` where there are fewer.
pub fn first_bytes<D: Device>(source: &mut D) -> Result<[u8; 592], Rebuild1Fault>
    requires { D.failed source.old + 1 < 2 ^ 64 }
    ensures unchanged { IsUnchanged D.tells D.size D.bytes D.unsettled source.old source.new }
    ensures count { CountsFailure is_rebuild_failure result
        (D.failed source.old) (D.failed source.new) }
    ensures bytes { D.tells → IfOk result (λ b. b ≡ header_of (D.bytes source.old)) }
    ensures long { OnOk result (luks1_size ≤ D.size source.old) }
    ensures short { IfErr result (IsShort (D.size source.old)) }
{
    if source.len() < HEADER {
        return Err(Rebuild1Fault::NoHeader);
    }
    let mut bytes = [0; 592];
    source.read_at(0, &mut bytes)?;
    Ok(bytes)
}

/// The header that is made of these 592 bytes in place of the first ones of a volume of `source` bytes, and of what
/// is given, to be written to a target of `total` bytes.
pub(crate) fn judged_header(
    header: &[u8],
    source: u64,
    given: &Given,
    total: u64,
) -> Result<MadeHeader, Rebuild1Fault>
    requires long { length header.now ≡ luks1_size }
    requires room { luks1_size ≤ source }
    ensures made { IfOk result (λ m. IsMade header.now source given.now m.fields) }
    ensures written { IfOk result (λ m. WritesLuks1 m.bytes m.fields) }
    ensures fits { IfOk result (λ m. IsLuks1Volume m.bytes Elsewhere total) }
    ensures large { OnOk result (least_target ≤ total) }
    ensures own { IfErr result (λ f. is_rebuild_failure f ≡ false) }
    ensures fault { IfErr result
        (IsLeast rebuild_key (IsMakingFault header.now source given.now total)) }
    ensures faultless { OnOk result (HasNoMakingFault header.now source given.now total) }
{
    if is_reencrypting(header) {
        return Err(Rebuild1Fault::Reencrypting);
    }
    if !has_signs(header, source) {
        return Err(Rebuild1Fault::NoHeader);
    }
    match mended_header(header, source, given) {
        Ok(fields) => fitting_header(fields, total),
        Err(fault) => Err(Rebuild1Fault::from(fault)),
    }
}

/// Whether the source is accepted, with its payload elsewhere, and nothing is given.
pub(crate) fn is_whole(header: &[u8], source: u64, given: &Given) -> bool
    requires { length header.now ≡ luks1_size }
    ensures { IsTrue result ↔ IsWhole header.now source given.now }
{
    given.is_nothing() && judge_luks1(header, Data::Elsewhere, source).is_ok()
}

/// The header with its bytes, where it is accepted on a target of `total` bytes.
fn fitting_header(fields: Luks1, total: u64) -> Result<MadeHeader, Rebuild1Fault>
    requires { (b : List ℕ) → WritesLuks1 b fields → IsLuks1 b fields }
    ensures fields { IfOk result (λ m. m.fields ≡ fields) }
    ensures written { IfOk result (λ m. WritesLuks1 m.bytes m.fields) }
    ensures fits { IfOk result (λ m. IsLuks1Volume m.bytes Elsewhere total) }
    ensures large { OnOk result (least_target ≤ total) }
    ensures refused { IfErr result (IsUnfit fields total) }
{
    if total < LEAST_TARGET {
        return Err(Rebuild1Fault::TooSmall);
    }
    let bytes = fields.write();
    match judge_luks1(bytes.as_slice(), Data::Elsewhere, total) {
        Ok(_) => Ok(MadeHeader { fields, bytes }),
        Err(fault) => Err(target_fault(fault)),
    }
}

/// The fault of the areas. Areas outside come first.
fn target_fault(fault: CheckFault) -> Rebuild1Fault
    ensures { result ≡ target_fault fault }
{
    match fault {
        CheckFault::Area(AreaFault::Overlap(first, second)) => {
            Rebuild1Fault::Area(AreaFault::Overlap(first, second))
        }
        _ => Rebuild1Fault::TooSmall,
    }
}
