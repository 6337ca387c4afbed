//! A header of either version: of LUKS2's metadata, or else of LUKS1's fields.
ghost use Rattle.std.specs.Prelude.{◌≡◌, ◌≢◌, ◌↔◌, ◌+◌, ◌<◌, ◌^◌, IfOk, IsTrue, length};
ghost use Rattle.luks_area.specs.Device.{CountsFailure, IsSettled, IsUnchanged, is_failure};
ghost use Rattle.luks1_header.specs.Header1.{luks1_size};
ghost use Rattle.luks_commands.specs.Answer.{answer_status, rebuild_fault_answer};
ghost use Rattle.luks_header_commands.specs.Rebuilding.{IsAnswerOf, KeepsMeant, Leads, LeadsToLuks1};
ghost use Rattle.luks_header_commands.specs.Target.{pair_of};
ghost use Rattle.luks_header_commands.specs.Turned.{IsTurnedRest, MayLead, Turned};
ghost use Rattle.luks_request.specs.declared.rebuilding.Meant.TheVariants.{Either};

use crate::header_work::{READING_FAILED, TARGET_FAILED};
use crate::of_fields::make_of_fields;
use crate::of_metadata::{copies_asked, not_of_metadata, note_metadata};
use crate::rebuild::Making;
use luks_commands::{Answer, Refusal, Status, device_fault};
use luks_reading::{Device, DeviceFault};
use luks_rebuilding::{RebuildFault, SearchProgress, rebuild};
use luks1_header::fields::{field, u16_at};
use luks1_header::luks1_places::{MAGIC, SIZE, VERSION};
use luks1_rebuilding::{Given, Rebuild1Fault};
use std::alloc::Global;
use std::io::Write;

/// Makes a header on the target of the volume's metadata, or where that leads there of a LUKS1 header.
pub(crate) fn make_of_either<D: Device, E: Write, G: SearchProgress>(
    alloc: Global,
    volume: &mut D,
    target: &mut D,
    making: &Making<'_>,
    given: &Given,
    random: &[u8],
    err: &mut E,
    progress: &mut G,
) -> Answer
    requires volume_room { D.failed volume.old + 1 < 2 ^ 64 }
    requires target_room { D.failed target.old + 1 < 2 ^ 64 }
    requires settled { D.tells → IsSettled D.unsettled target.old }
    ensures unchanged { IsUnchanged D.tells D.size D.bytes D.unsettled volume.old volume.new }
    ensures size { D.size target.new ≡ D.size target.old }
    ensures rest { D.tells → KeepsMeant Either making.now.rebuilding given.now
        (D.bytes volume.old) (D.bytes target.old) (D.bytes target.new) }
    ensures settled { D.tells → D.failed volume.new ≡ D.failed volume.old
        → D.failed target.new ≡ D.failed target.old → IsSettled D.unsettled target.new }
    ensures kinds { answer_status result ≢ Status.NotInStep }
    ensures answers { IsAnswerOf Either D.tells making.now.rebuilding given.now random.now (pair_of
        D.size D.bytes D.failed volume.old volume.new target.old target.new) result }
{
    let files = making.files;
    let before = volume.failures();
    let which = copies_asked(&making.rebuilding);
    let uuid = making.rebuilding.uuid;
    match rebuild(alloc, volume, target, which, uuid, random, progress) {
        Ok(()) => {
            note_metadata(files, err);
            Answer::Done(None)
        }
        Err(fault) => match fault {
            RebuildFault::NoMetadata => {
                make_where_led(RebuildFault::NoMetadata, volume, target, making, given, err)
            }
            RebuildFault::Counts => {
                make_where_led(RebuildFault::Counts, volume, target, making, given, err)
            }
            _ => refused(fault, volume.failures() != before, making, random, err),
        },
    }
}

/// What is answered where LUKS2 is refused by another fault: where a device failed, it is the volume's or the
/// target's.
fn refused<E: Write>(
    fault: RebuildFault,
    is_source: bool,
    making: &Making<'_>,
    random: &[u8],
    err: &mut E,
) -> Answer
    ensures { result ≡ rebuild_fault_answer fault }
{
    let files = making.files;
    if is_source {
        not_of_metadata(fault, files.volume, READING_FAILED, making, random, err)
    } else {
        not_of_metadata(fault, files.target, TARGET_FAILED, making, random, err)
    }
}

/// Makes a LUKS1 header where LUKS2's fault leads there and the volume has signs of one; else that fault is
/// the answer.
fn make_where_led<D: Device, E: Write>(
    fault: RebuildFault,
    volume: &mut D,
    target: &mut D,
    making: &Making<'_>,
    given: &Given,
    err: &mut E,
) -> Answer
    requires volume_room { D.failed volume.old + 1 < 2 ^ 64 }
    requires target_room { D.failed target.old + 1 < 2 ^ 64 }
    requires settled { D.tells → IsSettled D.unsettled target.old }
    requires fault { MayLead fault }
    ensures unchanged { IsUnchanged D.tells D.size D.bytes D.unsettled volume.old volume.new }
    ensures size { D.size target.new ≡ D.size target.old }
    ensures rest { D.tells → IsTurnedRest given.now fault
        (D.bytes volume.old) (D.bytes target.old) (D.bytes target.new) }
    ensures settled { D.tells → D.failed volume.new ≡ D.failed volume.old
        → D.failed target.new ≡ D.failed target.old → IsSettled D.unsettled target.new }
    ensures kinds { answer_status result ≢ Status.NotInStep }
    ensures answers { Turned D.tells given.now fault (pair_of D.size D.bytes
        D.failed volume.old volume.new target.old target.new) result }
{
    match leads_to_luks1(fault, volume) {
        Ok(true) => make_luks1(fault, volume, target, making, given, err),
        Ok(false) => Answer::from(fault),
        Err(DeviceFault) => device_fault(making.files.volume, READING_FAILED, err),
    }
}

/// Makes a LUKS1 header; where the volume has no signs of one, LUKS2's fault is the answer.
fn make_luks1<D: Device, E: Write>(
    fault: RebuildFault,
    volume: &mut D,
    target: &mut D,
    making: &Making<'_>,
    given: &Given,
    err: &mut E,
) -> Answer
    requires volume_room { D.failed volume.old + 1 < 2 ^ 64 }
    requires target_room { D.failed target.old + 1 < 2 ^ 64 }
    requires settled { D.tells → IsSettled D.unsettled target.old }
    requires fault { MayLead fault }
    requires leads { D.tells → LeadsToLuks1 (D.bytes volume.old) fault }
    ensures unchanged { IsUnchanged D.tells D.size D.bytes D.unsettled volume.old volume.new }
    ensures size { D.size target.new ≡ D.size target.old }
    ensures rest { D.tells → IsTurnedRest given.now fault
        (D.bytes volume.old) (D.bytes target.old) (D.bytes target.new) }
    ensures settled { D.tells → D.failed volume.new ≡ D.failed volume.old
        → D.failed target.new ≡ D.failed target.old → IsSettled D.unsettled target.new }
    ensures kinds { answer_status result ≢ Status.NotInStep }
    ensures answers { Turned D.tells given.now fault (pair_of D.size D.bytes
        D.failed volume.old volume.new target.old target.new) result }
{
    match make_of_fields(volume, target, making.files, given, err) {
        Answer::Refused(Refusal::Rebuild1(Rebuild1Fault::NoHeader)) => Answer::from(fault),
        answer => answer,
    }
}

/// Whether LUKS2's fault leads to LUKS1, by the volume's first 592 bytes.
fn leads_to_luks1<D: Device>(fault: RebuildFault, volume: &mut D) -> Result<bool, DeviceFault>
    requires { D.failed volume.old + 1 < 2 ^ 64 }
    ensures unchanged { IsUnchanged D.tells D.size D.bytes D.unsettled volume.old volume.new }
    ensures count { CountsFailure is_failure result (D.failed volume.old) (D.failed volume.new) }
    ensures leads { D.tells → IfOk result
        (λ is. IsTrue is ↔ LeadsToLuks1 (D.bytes volume.old) fault) }
{
    if volume.len() < SIZE as u64 {
        return Ok(false);
    }
    let mut head = [0; 592];
    volume.read_at(0, &mut head)?;
    Ok(is_led(fault, head.as_slice()))
}

/// Whether it does, by these bytes.
fn is_led(fault: RebuildFault, head: &[u8]) -> bool
    requires { length head.now ≡ luks1_size }
    ensures { IsTrue result ↔ Leads head.now fault }
{
    match fault {
        RebuildFault::NoMetadata => u16_at(head, VERSION) != 2,
        RebuildFault::Counts => {
            field(head, 0, 6) == MAGIC.as_slice() && u16_at(head, VERSION) == 1
        }
        _ => false,
    }
}
