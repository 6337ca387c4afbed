//! A LUKS2 header that is made of metadata.
ghost use Rattle.std.specs.Prelude.{◌≡◌, ◌≢◌, ◌+◌, ◌<◌, ◌^◌};
ghost use Rattle.luks_area.specs.Device.{IsSettled, IsUnchanged};
ghost use Rattle.luks_commands.specs.Answer.{answer_status, rebuild_fault_answer};
ghost use Rattle.luks_header_commands.specs.Rebuilding.{copies_asked, effort_by, given_of, IsLuks2Answer, KeepsRest2};
ghost use Rattle.luks_header_commands.specs.Target.{pair_of};

use crate::header_work::{HeaderFiles, READING_FAILED, TARGET_FAILED};
use crate::rebuild::Making;
use luks_commands::{Answer, RandomBytes, Refusal, Status, device_fault, few_random_bytes};
use luks_reading::Device;
use luks_rebuilding::{Copies, Effort, RebuildFault, SearchProgress, Which, rebuild};
use luks_request::Rebuilding;
use std::alloc::Global;
use std::io::Write;

/// Makes a LUKS2 header of the volume's metadata on the target.
pub(crate) fn make_of_metadata<D: Device, E: Write, G: SearchProgress>(
    alloc: Global,
    volume: &mut D,
    target: &mut D,
    making: &Making<'_>,
    random: &[u8],
    err: &mut E,
    progress: &mut G,
) -> Answer
    requires volume_room { D.failed volume.old + 1 < 2 ^ 64 }
    requires target_room { D.failed target.old + 1 < 2 ^ 64 }
    requires settled { D.tells → IsSettled D.unsettled target.old }
    ensures unchanged { IsUnchanged D.tells D.size D.bytes D.unsettled volume.old volume.new }
    ensures size { D.size target.new ≡ D.size target.old }
    ensures rest { D.tells → KeepsRest2 (copies_asked making.now.rebuilding)
        (D.bytes volume.old) (D.bytes target.old) (D.bytes target.new) }
    ensures settled { D.tells → D.failed volume.new ≡ D.failed volume.old
        → D.failed target.new ≡ D.failed target.old → IsSettled D.unsettled target.new }
    ensures kinds { answer_status result ≢ Status.NotInStep }
    ensures answers { IsLuks2Answer D.tells (copies_asked making.now.rebuilding)
        (given_of making.now.rebuilding) random.now (pair_of D.size D.bytes D.failed
        volume.old volume.new target.old target.new) result }
{
    let files = making.files;
    let before = volume.failures();
    let which = copies_asked(&making.rebuilding);
    let uuid = making.rebuilding.uuid;
    match rebuild(alloc, volume, target, which, uuid, random, progress) {
        Ok(()) => {
            note_metadata(files, err);
            Answer::Done(None)
        }
        Err(fault) if volume.failures() != before => {
            not_of_metadata(fault, files.volume, READING_FAILED, making, random, err)
        }
        Err(fault) => not_of_metadata(fault, files.target, TARGET_FAILED, making, random, err),
    }
}

/// What is answered where this fault ended it by these random bytes. Where a device failed,
/// it is that of the file of this name.
pub(crate) fn not_of_metadata<E: Write>(
    fault: RebuildFault,
    file: &str,
    failed: &str,
    making: &Making<'_>,
    random: &[u8],
    err: &mut E,
) -> Answer
    ensures { result ≡ rebuild_fault_answer fault }
{
    let given = RandomBytes {
        file: Some(making.files.random),
        needed: making.files.needed,
        bytes: random,
    };
    match fault {
        RebuildFault::Device => device_fault(file, failed, err),
        RebuildFault::RandomLength => few_random_bytes(Refusal::Rebuild(fault), &given, err),
        fault => Answer::from(fault),
    }
}

/// Which copies the words of the command line ask for, and how much may be hashed for it.
pub fn copies_asked(rebuilding: &Rebuilding<'_>) -> Which
    ensures { result ≡ copies_asked rebuilding.now }
{
    let copies = match (rebuilding.second, rebuilding.size) {
        (false, None) => Copies::Any,
        (true, None) => Copies::Second,
        (false, Some(size)) => Copies::OfSize(size),
        (true, Some(size)) => Copies::SecondOfSize(size),
    };
    Which {
        copies,
        effort: effort_asked(rebuilding.thorough),
    }
}

/// How much may be hashed for it.
fn effort_asked(thorough: bool) -> Effort
    ensures { result ≡ effort_by thorough }
{
    if thorough {
        Effort::Thorough
    } else {
        Effort::Usual
    }
}

/// Says what lists the header, and how the payload is opened by it.
pub(crate) fn note_metadata<E: Write>(files: &HeaderFiles<'_>, err: &mut E) {
    let target = files.target;
    let _ = writeln!(
        err,
        "luks: luks show {target} lists its keyslots and its label"
    );
    note_opening(files, err);
}

/// Says how the payload is opened by the header.
pub(crate) fn note_opening<E: Write>(files: &HeaderFiles<'_>, err: &mut E) {
    let (device, target) = (files.payload_device(), files.target);
    let _ = writeln!(
        err,
        "luks: cryptsetup open --header {target} {device} NAME opens it"
    );
}
