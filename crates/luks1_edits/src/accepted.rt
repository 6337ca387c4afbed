//! What is judged of an edit of a LUKS1 volume before a keyslot is opened.
ghost use Rattle.std.specs.Prelude.{◌≡◌, ◌≢◌, ◌<◌, ℕ, List, false, length, IfOk, IfErr};
ghost use Rattle.luks1_header.specs.Header1.{HoldsSlots};
ghost use Rattle.luks_edit.specs.EditFaults.{edit_row, is_edit_failure};
ghost use Rattle.luks_reading.specs.Header.{IsHeader};
ghost use Rattle.luks_reading.specs.declared.header.Header.TheVariants.{Luks1 as OfLuks1};
ghost use Rattle.luks1_edits.specs.Accepted.{AreAllThere, IsAcceptedAt, IsHeaderOf, IsUnaccepted};
ghost use Rattle.luks1_edits.specs.Refused.{Refusal1};

use crate::keyslots::judge_named;
use luks_edit::{Edit, EditFault};
use luks_reading::{Data, judge_luks1};
use luks2_header::Luks1;

/// The header of a LUKS1 volume that was accepted.
#[derive(Drop)]
pub(crate) struct AcceptedHeader<'a> {
    /// Its 592 bytes.
    pub(crate) bytes: &'a [u8; 592],
    /// Its fields.
    pub(crate) fields: Luks1,
    /// The place of the volume's payload.
    pub(crate) payload: Data,
}

/// The header of a volume of `total` bytes, or why the volume isn't accepted.
fn accepted_header(
    bytes: &[u8; 592],
    payload: Data,
    total: u64,
) -> Result<AcceptedHeader<'_>, EditFault>
    ensures accepted { IfOk result (λ a. IsAcceptedAt a total) }
    ensures payload { IfOk result (λ a. a.payload ≡ payload) }
    ensures header { (v : List ℕ) → IsHeader v (OfLuks1 bytes.now) → length v ≡ total
        → IfOk result (λ a. IsHeaderOf a.bytes.now payload v) }
    ensures own { IfErr result (λ f. is_edit_failure f ≡ false) }
    ensures memory { IfErr result (λ f. f ≢ EditFault.Memory) }
    ensures row { IfErr result (λ f. edit_row f ≡ 0) }
    ensures refused { (v : List ℕ) → IsHeader v (OfLuks1 bytes.now) → length v ≡ total
        → IfErr result (IsUnaccepted v payload) }
{
    match judge_luks1(bytes.as_slice(), payload, total) {
        Ok(_) => Ok(AcceptedHeader {
            bytes,
            fields: Luks1::read(bytes.as_slice()).unwrap(),
            payload,
        }),
        Err(fault) => Err(EditFault::NotAccepted(fault)),
    }
}

/// The header of a volume of `total` bytes, once the rows are judged that need no key: `NotAccepted`,
/// `NoSuchSlot` and `SameSlot`.
pub(crate) fn judge_without_key<'a>(
    bytes: &'a [u8; 592],
    payload: Data,
    total: u64,
    edit: &Edit<'_>,
) -> Result<AcceptedHeader<'a>, EditFault>
    ensures accepted { IfOk result (λ a. IsAcceptedAt a total) }
    ensures payload { IfOk result (λ a. a.payload ≡ payload) }
    ensures there { IfOk result (λ a.
        (v : List ℕ) → HoldsSlots v a.fields.slots → AreAllThere v edit.now) }
    ensures header { (v : List ℕ) → IsHeader v (OfLuks1 bytes.now) → length v ≡ total
        → IfOk result (λ a. IsHeaderOf a.bytes.now payload v) }
    ensures own { IfErr result (λ f. is_edit_failure f ≡ false) }
    ensures memory { IfErr result (λ f. f ≢ EditFault.Memory) }
    ensures early { IfErr result (λ f. edit_row f < 4) }
    ensures refused { (v random : List ℕ) → IsHeader v (OfLuks1 bytes.now) → length v ≡ total
        → IfErr result (Refusal1 v payload edit.now random) }
{
    let header = match accepted_header(bytes, payload, total) {
        Ok(header) => header,
        Err(fault) => return Err(fault),
    };
    match judge_named(&header.fields, edit) {
        Ok(()) => Ok(header),
        Err(fault) => Err(fault),
    }
}
