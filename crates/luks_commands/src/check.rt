//! The command `check`.
ghost use Rattle.std.specs.Prelude.{◌≡◌, ◌+◌, ◌<◌, ◌^◌, IfOk, IfErr};
ghost use Rattle.std.specs.Result.{ForOk};
ghost use Rattle.luks_area.specs.Device.{CountsFailure, IsUnchanged};
ghost use Rattle.luks_commands.specs.Answer.{answer_status};
ghost use Rattle.luks_commands.specs.CheckAnswers.{AnswersCheck, IsCheckAnswer};
ghost use Rattle.luks_commands.specs.Checked.{EndsCheck};
ghost use Rattle.luks_commands.specs.Files.{KeepsVolume};
ghost use Rattle.luks_reading.specs.Failures.{is_read_failure};
ghost use Rattle.luks_reading.specs.Header.{IsAcceptedHeader, IsHeader, IsUnread};

use crate::answers::{Answer, Status, refused, unread};
use crate::inputs::InputFault;
use luks_reading::{AreaName, Areas, CheckFault, Data, Device, Header, ReadFault, check_header};
use luks_underway_said::note_under_way;
use luks_wide_reading::{WideHeader, WideReadFault, read_wide_header};
use std::alloc::Global;
use std::io::Write;

/// Answers whether the volume of this name is accepted, its payload lying at `payload`; `err` gets what
/// standard error says.
pub fn run<D: Device, E: Write>(
    alloc: Global,
    volume: &mut Result<D, InputFault>,
    name: &str,
    payload: Data,
    err: &mut E,
) -> Answer
    requires { ForOk volume.old (λ d. D.failed d + 1 < 2 ^ 64) }
    ensures unchanged { KeepsVolume D.tells D.size D.bytes D.unsettled volume.old volume.new }
    ensures ends { D.tells
        → IfOk volume.old (λ d. EndsCheck (D.bytes d) payload (answer_status result)) }
    ensures unread { IfErr volume.old (λ _. answer_status result ≡ Status.Fault) }
    ensures answers { AnswersCheck D.tells D.bytes D.failed payload volume.old volume.new result }
{
    match volume {
        Ok(device) => check_device(alloc, device, name, payload, err),
        Err(fault) => unread(*fault, name, err),
    }
}

fn check_device<D: Device, E: Write>(
    alloc: Global,
    device: &mut D,
    name: &str,
    payload: Data,
    err: &mut E,
) -> Answer
    requires { D.failed device.old + 1 < 2 ^ 64 }
    ensures unchanged { IsUnchanged D.tells D.size D.bytes D.unsettled device.old device.new }
    ensures status { D.tells → EndsCheck (D.bytes device.old) payload (answer_status result) }
    ensures answers { IsCheckAnswer D.tells (D.bytes device.old) payload
        (D.failed device.old) (D.failed device.new) result }
{
    let header = match read_noting(alloc, device, name, err) {
        Ok(header) => header,
        Err(fault) => return refused(CheckFault::from(fault), name, err),
    };
    let total = device.len();
    match check_header(&header, payload, total) {
        Ok(report) => {
            note_empty_segment(&report.areas, err);
            Answer::Accepted {
                version: report.version,
                areas: report.areas.len(),
            }
        }
        Err(fault) => {
            note_detached(&header, total, err);
            refused(fault, name, err)
        }
    }
}

/// Reads the header that counts of the volume of this name. `err` gets what a reencryption does that is under way
/// in it, for which it is refused.
fn read_noting<D: Device, E: Write>(
    alloc: Global,
    device: &mut D,
    name: &str,
    err: &mut E,
) -> Result<Header, ReadFault>
    requires { D.failed device.old + 1 < 2 ^ 64 }
    ensures unchanged { IsUnchanged D.tells D.size D.bytes D.unsettled device.old device.new }
    ensures count { CountsFailure is_read_failure result (D.failed device.old) (D.failed device.new) }
    ensures accepted { IfOk result IsAcceptedHeader }
    ensures read { D.tells → IfOk result (IsHeader (D.bytes device.old)) }
    ensures refused { D.tells → IfErr result (IsUnread (D.bytes device.old)) }
{
    match read_wide_header(alloc, device) {
        Ok(WideHeader::Narrow(header)) => Ok(header),
        Ok(WideHeader::Underway(copy)) => {
            let _ = note_under_way(&copy.meta, name, err);
            Err(ReadFault::Meta(copy.narrow_fault))
        }
        Err(WideReadFault::Read(fault)) => Err(fault),
        Err(WideReadFault::Underway { narrow_fault, .. }) => Err(ReadFault::Meta(narrow_fault)),
    }
}

/// Says of an accepted volume with these areas where its last segment has no byte.
fn note_empty_segment<E: Write>(areas: &Areas, err: &mut E) {
    let Some(last) = areas.as_slice().last() else {
        return;
    };
    if matches!(last.name, AreaName::Segment(_)) && last.area.len == 0 {
        let _ = writeln!(
            err,
            "luks: the last segment is empty: compare the partition's size"
        );
    }
}

/// Says of a refused volume of `total` bytes with this header where it is accepted without its
/// segments.
fn note_detached<E: Write>(header: &Header, total: u64, err: &mut E)
    requires { IsAcceptedHeader header.now }
{
    if check_header(header, Data::Elsewhere, total).is_ok() {
        let _ = writeln!(err, "luks: it is accepted as a detached header: --detached");
    }
}
