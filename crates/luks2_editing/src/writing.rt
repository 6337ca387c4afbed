//! Writing both copies of a LUKS2 header anew.
ghost use Rattle.std.specs.Prelude.{◌≡◌, ◌+◌, ◌*◌, ◌^◌, ◌<◌, ◌≤◌, ℕ, List, length, OnOk};
ghost use Rattle.luks_area.specs.Device.{CountsFailure, IsSettled, is_failure};
ghost use Rattle.luks_area.specs.Ranges.{SameBut};
ghost use Rattle.luks2_header.specs.Header2.{binary_header_size};
ghost use Rattle.serde_json.specs.Data.{Data as Value};
ghost use Rattle.luks_edit.specs.declared.edit.Edit.{Edit as TheEdit};
ghost use Rattle.luks2_edit_laws.specs.Copies.{copy_salt, other_place};
ghost use Rattle.luks2_edit_laws.specs.Places.{IsOfCopies};
ghost use Rattle.luks2_editing.specs.NewCopy.{IsNewSummed};
ghost use Rattle.luks2_editing.specs.Rewriting.{AreWrittenAnew, IsRewriting, MayBeHalfWritten};

use crate::new_copy::new_header;
use crate::random::copy_salt;
use luks_area::{Device, DeviceFault};
use luks_writing::{with_checksums, write_summed_copy};
use luks2_header::Bin2;
use luks2_judging::TextFields;

/// Writes both copies anew from the chosen one's binary header, with these texts, each with a flush: the other one
/// first, then the chosen one. Both checksums are taken before the first write. Of the random bytes
/// the first 128 are taken.
pub(crate) fn write_copies<D: Device>(
    device: &mut D,
    chosen: &Bin2,
    texts: TextFields,
    random: &[u8],
    json: &[u8],
) -> Result<(), DeviceFault>
    requires number { chosen.now.seqid + 1 < 2 ^ 64 }
    requires json { binary_header_size + length json.now ≡ chosen.now.hdr_size }
    requires place { chosen.now.hdr_offset ≤ chosen.now.hdr_size }
    requires within { 2 * chosen.now.hdr_size ≤ D.size device.old }
    requires random { 128 ≤ length random.now }
    requires room { D.failed device.old + 1 < 2 ^ 64 }
    requires settled { D.tells → IsSettled D.unsettled device.old }
    ensures count { CountsFailure is_failure result (D.failed device.old) (D.failed device.new) }
    ensures size { D.size device.new ≡ D.size device.old }
    ensures settled { D.tells → D.failed device.new ≡ D.failed device.old
        → IsSettled D.unsettled device.new }
    ensures anew { D.tells → (v : List ℕ) (e : TheEdit) (j : Value)
        → IsRewriting v e random.now chosen.now texts j json.now → OnOk result
        (AreWrittenAnew v chosen.now.hdr_offset e random.now j (D.bytes device.new)) }
    ensures torn { D.tells → (v : List ℕ) (e : TheEdit) (j : Value)
        → IsRewriting v e random.now chosen.now texts j json.now
        → MayBeHalfWritten v chosen.now.hdr_offset e random.now j
        (D.bytes device.old) (D.bytes device.new) }
    ensures rest { D.tells
        → SameBut (IsOfCopies chosen.now.hdr_size) (D.bytes device.old) (D.bytes device.new) }
{
    let other = other_place(chosen);
    let headers = new_headers(chosen, other, texts, random, json);
    write_summed_copy(device, &headers.0, json)?;
    write_summed_copy(device, &headers.1, json)?;
    Ok(())
}

/// The binary headers, with their checksums, of the copy at the place `other` and of that at the
/// chosen one's place.
fn new_headers(
    chosen: &Bin2,
    other: u64,
    texts: TextFields,
    random: &[u8],
    json: &[u8],
) -> (Bin2, Bin2)
    requires number { chosen.now.seqid + 1 < 2 ^ 64 }
    requires random { 128 ≤ length random.now }
    ensures other { IsNewSummed chosen.now other texts (copy_salt random.now other) json.now result.0 }
    ensures own { IsNewSummed chosen.now chosen.now.hdr_offset texts
        (copy_salt random.now chosen.now.hdr_offset) json.now result.1 }
{
    let place = chosen.hdr_offset;
    let first = new_header(chosen, other, texts, copy_salt(random, other));
    let second = new_header(chosen, place, texts, copy_salt(random, place));
    with_checksums(&first, &second, json)
}

/// The place of the copy that isn't the one with this binary header.
fn other_place(chosen: &Bin2) -> u64
    ensures { result ≡ other_place chosen.now.hdr_size chosen.now.hdr_offset }
{
    if chosen.hdr_offset == 0 {
        chosen.hdr_size
    } else {
        0
    }
}
