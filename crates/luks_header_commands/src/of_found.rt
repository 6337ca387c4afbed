//! A header that is made of a header or of metadata that was found near to what stands.
ghost use Rattle.std.specs.Prelude.{◌≡◌, ◌≢◌, ◌+◌, ◌<◌, ◌≤◌, ◌^◌, length};
ghost use Rattle.luks_area.specs.Device.{IsSettled, IsUnchanged};
ghost use Rattle.luks1_header.specs.Header1.{luks1_size};
ghost use Rattle.luks_rebuilding.specs.Candidates.{IsPlace};
ghost use Rattle.luks_commands.specs.Answer.{answer_status};
ghost use Rattle.luks_header_commands.specs.FoundHeader.{IsHeadedAnswer, KeepsHeaded};
ghost use Rattle.luks_header_commands.specs.FoundMetadata.{IsMadeAnswer2, KeepsMade2};
ghost use Rattle.luks_header_commands.specs.Rebuilding.{given_of};
ghost use Rattle.luks_header_commands.specs.Target.{pair_of};

use crate::header_work::{HeaderFiles, READING_FAILED, TARGET_FAILED};
use crate::of_fields::{not_of_fields, note_fields};
use crate::of_metadata::{not_of_metadata, note_metadata};
use crate::rebuild::Making;
use luks_commands::{Answer, Status};
use luks_reading::Device;
use luks_rebuilding::{Place, rebuild_from};
use luks1_rebuilding::{Given, rebuild1_from};
use std::alloc::Global;
use std::io::Write;

/// Makes a LUKS1 header of these 592 bytes in the place of the volume's, and of what is given, on the target.
pub(crate) fn make_of_header<D: Device, E: Write>(
    volume: &mut D,
    target: &mut D,
    files: &HeaderFiles<'_>,
    header: &[u8; 592],
    given: &Given,
    err: &mut E,
) -> Answer
    requires large { luks1_size ≤ D.size volume.old }
    requires volume_room { D.failed volume.old + 1 < 2 ^ 64 }
    requires target_room { D.failed target.old + 1 < 2 ^ 64 }
    requires settled { D.tells → IsSettled D.unsettled target.old }
    ensures unchanged { IsUnchanged D.tells D.size D.bytes D.unsettled volume.old volume.new }
    ensures size { D.size target.new ≡ D.size target.old }
    ensures rest { D.tells → KeepsHeaded header.now given.now
        (D.bytes volume.old) (D.bytes target.old) (D.bytes target.new) }
    ensures settled { D.tells → D.failed volume.new ≡ D.failed volume.old
        → D.failed target.new ≡ D.failed target.old → IsSettled D.unsettled target.new }
    ensures kinds { answer_status result ≢ Status.NotInStep }
    ensures answers { IsHeadedAnswer D.tells header.now given.now (pair_of D.size D.bytes
        D.failed volume.old volume.new target.old target.new) result }
{
    let before = volume.failures();
    match rebuild1_from(volume, target, header, given) {
        Ok(()) => {
            note_fields(files, err);
            Answer::Done(None)
        }
        Err(fault) if volume.failures() != before => {
            not_of_fields(fault, files.volume, READING_FAILED, files, err)
        }
        Err(fault) => not_of_fields(fault, files.target, TARGET_FAILED, files, err),
    }
}

/// Makes a LUKS2 header of this JSON area, as that of the copy at the place, on the target.
pub(crate) fn make_of_json<D: Device, E: Write>(
    alloc: Global,
    volume: &mut D,
    target: &mut D,
    making: &Making<'_>,
    json: Vec<u8>,
    place: Place,
    random: &[u8],
    err: &mut E,
) -> Answer
    requires place { IsPlace (D.size volume.old) place }
    requires long { 4096 + length json.items ≡ place.size }
    requires volume_room { D.failed volume.old + 1 < 2 ^ 64 }
    requires target_room { D.failed target.old + 1 < 2 ^ 64 }
    requires settled { D.tells → IsSettled D.unsettled target.old }
    ensures unchanged { IsUnchanged D.tells D.size D.bytes D.unsettled volume.old volume.new }
    ensures size { D.size target.new ≡ D.size target.old }
    ensures rest { D.tells → KeepsMade2 json.items place (D.bytes target.old) (D.bytes target.new) }
    ensures settled { D.tells → D.failed volume.new ≡ D.failed volume.old
        → D.failed target.new ≡ D.failed target.old → IsSettled D.unsettled target.new }
    ensures kinds { answer_status result ≢ Status.NotInStep }
    ensures answers { IsMadeAnswer2 D.tells json.items place (given_of making.now.rebuilding) random.now
        (pair_of D.size D.bytes D.failed volume.old volume.new target.old target.new) result }
{
    let files = making.files;
    let before = volume.failures();
    let uuid = making.rebuilding.uuid;
    match rebuild_from(alloc, volume, target, json, place, uuid, random) {
        Ok(()) => {
            note_metadata(files, err);
            Answer::Done(None)
        }
        Err(fault) if volume.failures() != before => {
            not_of_metadata(fault, files.volume, READING_FAILED, making, random, err)
        }
        Err(fault) => not_of_metadata(fault, files.target, TARGET_FAILED, making, random, err),
    }
}
