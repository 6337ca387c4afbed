//! The header of the volume that is converted.
ghost use Rattle.std.specs.Prelude.{◌≡◌, ◌+◌, ◌^◌, ◌<◌, ℕ, List, false, length, IfErr, IfOk};
ghost use Rattle.base64.specs.GeneralPurpose.{IsBytes};
ghost use Rattle.luks_area.specs.Device.{CountsFailure, IsUnchanged};
ghost use Rattle.luks_reading.specs.Header.{IsHeader};
ghost use Rattle.luks_reading.specs.declared.header.Header.TheVariants.{Luks1 as OfLuks1};
ghost use Rattle.luks_converting.specs.Accepted.{HasAreasInside, IsHeaderOf, IsRead, IsUnaccepted};
ghost use Rattle.luks_converting.specs.ConvertFaults.{is_convert_failure};

use crate::convert_fault::ConvertFault;
use luks_area::Device;
use luks_reading::{Data, Header, check_header, judge_luks1, read_header};
use luks2_header::Luks1;
use std::alloc::Global;

/// The header of a LUKS1 volume that was accepted.
#[derive(Drop)]
pub(crate) struct SourceHeader {
    /// Its 592 bytes.
    pub(crate) bytes: [u8; 592],
    /// Its fields.
    pub(crate) fields: Luks1,
}

/// The header of the source, or why it isn't a LUKS1 volume that is accepted.
pub(crate) fn accepted_source<D: Device>(
    alloc: Global,
    source: &mut D,
    payload: Data,
) -> Result<SourceHeader, ConvertFault>
    requires { D.failed source.old + 1 < 2 ^ 64 }
    ensures unchanged { IsUnchanged D.tells D.size D.bytes D.unsettled source.old source.new }
    ensures count { CountsFailure is_convert_failure result
        (D.failed source.old) (D.failed source.new) }
    ensures read { IfOk result IsRead }
    ensures inside { IfOk result (λ h. HasAreasInside h.bytes (D.size source.old)) }
    ensures header { D.tells → IfOk result (λ h.
        IsHeaderOf h.bytes payload (D.bytes source.old)) }
    ensures refused { D.tells → IfErr result (IsUnaccepted (D.bytes source.old) payload) }
{
    let header = read_header(alloc, source)?;
    let total = source.len();
    match &header {
        Header::Luks1(bytes) => accepted_header(bytes, payload, total),
        Header::Luks2(_) => {
            check_header(&header, payload, total)?;
            Err(ConvertFault::NotLuks1)
        }
    }
}

/// The header of a LUKS1 volume of `total` bytes, or why the volume isn't accepted.
fn accepted_header(
    bytes: &[u8; 592],
    payload: Data,
    total: u64,
) -> Result<SourceHeader, ConvertFault>
    ensures own { IfErr result (λ f. is_convert_failure f ≡ false) }
    ensures read { IfOk result IsRead }
    ensures inside { IfOk result (λ h. HasAreasInside h.bytes total) }
    ensures header { (v : List ℕ) → IsHeader v (OfLuks1 bytes.now) → length v ≡ total
        → IfOk result (λ h. IsHeaderOf h.bytes payload v) }
    ensures refused { (v : List ℕ) → IsHeader v (OfLuks1 bytes.now) → length v ≡ total
        → IfErr result (IsUnaccepted v payload) }
{
    match judge_luks1(bytes.as_slice(), payload, total) {
        Ok(_) => Ok(SourceHeader {
            bytes: *bytes,
            fields: Luks1::read(bytes.as_slice()).unwrap(),
        }),
        Err(fault) => Err(ConvertFault::NotAccepted(fault)),
    }
}

/// What a slice of bytes has is bytes.
pub(crate) fn are_bytes(bytes: &[u8])
    ensures { IsBytes bytes.now }
{}
