//! A LUKS1 header that is made of its fields and keyslots, as far as they stand.
ghost use Rattle.std.specs.Prelude.{◌≡◌, ◌≢◌, ◌+◌, ◌<◌, ◌^◌};
ghost use Rattle.luks_area.specs.Device.{IsSettled, IsUnchanged};
ghost use Rattle.luks_commands.specs.Answer.{answer_status, rebuild1_fault_answer};
ghost use Rattle.luks_header_commands.specs.Rebuilding.{IsLuks1Answer, KeepsRest1};
ghost use Rattle.luks_header_commands.specs.Target.{pair_of};

use crate::header_work::{HeaderFiles, READING_FAILED, TARGET_FAILED};
use crate::of_metadata::note_opening;
use luks_commands::{Answer, Status, device_fault};
use luks_reading::Device;
use luks1_header::TextField;
use luks1_rebuilding::{Given, Rebuild1Fault, rebuild1};
use std::io::Write;

/// Makes a LUKS1 header of what is left of one in the volume, and of what is given, on the target.
pub(crate) fn make_of_fields<D: Device, E: Write>(
    volume: &mut D,
    target: &mut D,
    files: &HeaderFiles<'_>,
    given: &Given,
    err: &mut E,
) -> Answer
    requires volume_room { D.failed volume.old + 1 < 2 ^ 64 }
    requires target_room { D.failed target.old + 1 < 2 ^ 64 }
    requires settled { D.tells → IsSettled D.unsettled target.old }
    ensures unchanged { IsUnchanged D.tells D.size D.bytes D.unsettled volume.old volume.new }
    ensures size { D.size target.new ≡ D.size target.old }
    ensures rest { D.tells → KeepsRest1 given.now
        (D.bytes volume.old) (D.bytes target.old) (D.bytes target.new) }
    ensures settled { D.tells → D.failed volume.new ≡ D.failed volume.old
        → D.failed target.new ≡ D.failed target.old → IsSettled D.unsettled target.new }
    ensures kinds { answer_status result ≢ Status.NotInStep }
    ensures answers { IsLuks1Answer D.tells given.now (pair_of D.size D.bytes
        D.failed volume.old volume.new target.old target.new) result }
{
    let before = volume.failures();
    match rebuild1(volume, target, given) {
        Ok(()) => {
            note_fields(files, err);
            Answer::Done(None)
        }
        Err(fault) if volume.failures() != before => {
            not_of_fields(fault, files.volume, READING_FAILED, files, err)
        }
        Err(fault) => not_of_fields(fault, files.target, TARGET_FAILED, files, err),
    }
}

/// What is answered where this fault ended it. If a device failed, it is that of the file of this name.
pub(crate) fn not_of_fields<E: Write>(
    fault: Rebuild1Fault,
    file: &str,
    failed: &str,
    files: &HeaderFiles<'_>,
    err: &mut E,
) -> Answer
    ensures { result ≡ rebuild1_fault_answer fault }
{
    match fault {
        Rebuild1Fault::Device => device_fault(file, failed, err),
        fault => {
            note_missing(&fault, files.volume, err);
            Answer::from(fault)
        }
    }
}

/// Says what became of the keyslots, and how the payload is opened by the header.
pub(crate) fn note_fields<E: Write>(files: &HeaderFiles<'_>, err: &mut E) {
    let target = files.target;
    let _ = writeln!(
        err,
        "luks: made of a LUKS1 header; luks show {target} lists the keyslots: those that were damaged are disabled"
    );
    note_opening(files, err);
}

/// Says of a field of which nothing usable stands which option gives it.
fn note_missing<E: Write>(fault: &Rebuild1Fault, volume: &str, err: &mut E) {
    if let Some(option) = option_of(fault) {
        let _ = writeln!(
            err,
            "luks: {volume}: nothing usable stands in that field: {option} gives it"
        );
    }
}

/// The option that gives the field of which nothing usable stands.
fn option_of(fault: &Rebuild1Fault) -> Option<&'static str> {
    match fault {
        Rebuild1Fault::Text(TextField::CipherName | TextField::CipherMode) => {
            Some("--cipher NAME-MODE")
        }
        Rebuild1Fault::Text(TextField::HashSpec) => Some("--hash NAME"),
        Rebuild1Fault::Text(TextField::Uuid) => Some("--uuid TEXT"),
        Rebuild1Fault::KeyBytes => Some("--key-bytes N"),
        _ => None,
    }
}
