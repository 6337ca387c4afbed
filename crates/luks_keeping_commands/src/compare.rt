//! The command `compare`.
ghost use Rattle.std.specs.Prelude.{◌≡◌, ◌≢◌, ◌+◌, ◌<◌, ◌^◌, IfErr, IfOk};
ghost use Rattle.std.specs.Result.{ForOk};
ghost use Rattle.luks_area.specs.Device.{IsUnchanged};
ghost use Rattle.luks_commands.specs.Answer.{answer_status, restore_fault_answer};
ghost use Rattle.luks_commands.specs.Files.{KeepsVolume};
ghost use Rattle.luks_commands.specs.Beside.{AreOneFile, IsSameFile};
ghost use Rattle.luks_keeping.specs.RestoreFaults.{checked_restore};
ghost use Rattle.luks_area.specs.Device.{is_failure};
ghost use Rattle.luks_writing.specs.TwoDevices.{CountsEither};
ghost use Rattle.luks_reading.specs.Checked.{First};
ghost use Rattle.luks_reading.specs.declared.check_fault.CheckFault.TheVariants.{Meta as OfMeta};
ghost use Rattle.luks_reading.specs.declared.report.Data.TheVariants.{Elsewhere};
ghost use Rattle.luks_keeping.specs.SameVolume.{HasAnyHeader};
ghost use Rattle.luks_wider.specs.Underways.{content};
ghost use Rattle.luks_wide_reading.specs.Headers.{IsUnderwayCopy};
ghost use Rattle.luks_keeping_commands.specs.Comparing.{AnswersCompare, IsComparedAnswer};
ghost use Rattle.luks_keeping_commands.specs.ComparingUnderway.{IsMomentAnswer, IsUnderwayCompared};
ghost use Rattle.luks_keeping_commands.specs.TwoFiles.{pair_of};

use crate::underway::{refused_backup, underway_answer};
use luks_commands::{
    Answer, Inputs, Refusal, Status, UnderwayRefusal, are_one_file, device_fault, refused, unread,
};
use luks_keeping::{RestoreFault, compare_areas, is_other_volume, read_outline};
use luks_reading::{CheckFault, Data, Device, DeviceFault, MetaFault, ReadFault};
use luks_request::Comparing;
use luks_wide_keeping::{Standing, compare_underway, standing_of};
use luks_wide_reading::{UnderwayCopy, WideHeader, WideReadFault, read_wide_header};
use std::alloc::Global;
use std::io::{Read, Write};

/// Answers how the backup, which `inputs.target` is, stands to the volume of this name. Nothing is written.
///
/// It isn't inlined, so that it takes no stack where another command runs.
#[inline(never)]
#[tactic(auto, using(luks_commands::proofs::FileFacts::keeps_same))]
pub fn run<D: Device, R: Read, N: Read, E: Write>(
    alloc: Global,
    inputs: &mut Inputs<D, R, N>,
    name: &str,
    comparing: &Comparing<'_>,
    err: &mut E,
) -> Answer
    requires volume_room { ForOk inputs.old.volume (λ d. D.failed d + 1 < 2 ^ 64) }
    requires backup_room { ForOk inputs.old.target (λ d. D.failed d + 1 < 2 ^ 64) }
    ensures kept { KeepsVolume D.tells D.size D.bytes D.unsettled
        inputs.old.target inputs.new.target }
    ensures unchanged { KeepsVolume D.tells D.size D.bytes D.unsettled
        inputs.old.volume inputs.new.volume }
    ensures kinds { answer_status result ≢ Status.NotInStep }
    ensures unread { IfErr inputs.old.volume (λ _. answer_status result ≢ Status.Done) }
    ensures same { AreOneFile name.now comparing.now.backup.now inputs.old.target
        → (inputs.new ≡ inputs.old) × IsSameFile result }
    ensures answers { (AreOneFile name.now comparing.now.backup.now inputs.old.target → ⊥)
        → AnswersCompare D.tells D.size D.bytes D.failed comparing.now.payload
        inputs.old.volume inputs.new.volume inputs.old.target inputs.new.target result }
{
    if are_one_file(name, comparing.backup, &inputs.target) {
        return Answer::Refused(Refusal::SameFile);
    }
    let volume = match &mut inputs.volume {
        Ok(device) => device,
        Err(fault) => return unread(*fault, name, err),
    };
    match &mut inputs.target {
        Ok(backup) => compare_headers(alloc, backup, volume, name, comparing, err),
        Err(fault) => unread(*fault, comparing.backup, err),
    }
}

/// How the header of the backup and its key areas stand to those of the volume.
fn compare_headers<D: Device, E: Write>(
    alloc: Global,
    backup: &mut D,
    volume: &mut D,
    name: &str,
    comparing: &Comparing<'_>,
    err: &mut E,
) -> Answer
    requires backup_room { D.failed backup.old + 1 < 2 ^ 64 }
    requires volume_room { D.failed volume.old + 1 < 2 ^ 64 }
    ensures kept { IsUnchanged D.tells D.size D.bytes D.unsettled backup.old backup.new }
    ensures unchanged { IsUnchanged D.tells D.size D.bytes D.unsettled volume.old volume.new }
    ensures kinds { answer_status result ≢ Status.NotInStep }
    ensures answers { IsComparedAnswer D.tells comparing.now.payload (pair_of D.size D.bytes D.failed
        backup.old backup.new volume.old volume.new) result }
{
    let held = match read_outline(alloc, backup, Data::Elsewhere) {
        Ok(found) => found,
        Err(CheckFault::Meta(fault)) => {
            return compare_wide(alloc, backup, volume, name, comparing, fault, err);
        }
        Err(CheckFault::Head(fault)) => return refused_backup(CheckFault::Head(fault)),
        Err(CheckFault::Area(fault)) => return refused_backup(CheckFault::Area(fault)),
        Err(CheckFault::Device) => return device_fault(comparing.backup, "reading failed", err),
        Err(CheckFault::Memory) => return Answer::NoMemory,
    };
    let there = match read_outline(alloc, volume, comparing.payload) {
        Ok(found) => found,
        Err(fault) => return refused(fault, name, err),
    };
    if is_other_volume(&held, &there) {
        return Answer::Refused(Refusal::Restore(RestoreFault::OtherVolume));
    }
    let before = backup.failures();
    match compare_areas(backup, &held, volume, &there) {
        Ok(comparison) => Answer::Compared(comparison),
        Err(_) if backup.failures() != before => {
            device_fault(comparing.backup, "reading failed", err)
        }
        Err(_) => device_fault(name, "reading failed", err),
    }
}

/// What is answered of a backup whose metadata `check` refuses by this fault: where something is under way in it, how it
/// stands to the volume.
fn compare_wide<D: Device, E: Write>(
    alloc: Global,
    backup: &mut D,
    volume: &mut D,
    name: &str,
    comparing: &Comparing<'_>,
    fault: MetaFault,
    err: &mut E,
) -> Answer
    requires backup_room { D.failed backup.old + 1 < 2 ^ 64 }
    requires volume_room { D.failed volume.old + 1 < 2 ^ 64 }
    requires refused { D.tells → First (D.bytes backup.old) Elsewhere (OfMeta fault) }
    ensures kept { IsUnchanged D.tells D.size D.bytes D.unsettled backup.old backup.new }
    ensures unchanged { IsUnchanged D.tells D.size D.bytes D.unsettled volume.old volume.new }
    ensures kinds { answer_status result ≢ Status.NotInStep }
    ensures answers { IsComparedAnswer D.tells comparing.now.payload (pair_of D.size D.bytes D.failed
        backup.old backup.new volume.old volume.new) result }
{
    match read_wide_header(alloc, backup) {
        Ok(WideHeader::Underway(copy)) => {
            compare_copy(alloc, backup, &copy, volume, name, comparing, err)
        }
        Ok(WideHeader::Narrow(_)) => refused_backup(CheckFault::Meta(fault)),
        Err(WideReadFault::Underway { fault, .. }) => underway_answer(fault),
        Err(WideReadFault::Read(ReadFault::Head(_))) => refused_backup(CheckFault::Meta(fault)),
        Err(WideReadFault::Read(ReadFault::Meta(_))) => refused_backup(CheckFault::Meta(fault)),
        Err(WideReadFault::Read(ReadFault::Device)) => {
            device_fault(comparing.backup, "reading failed", err)
        }
        Err(WideReadFault::Read(ReadFault::Memory)) => Answer::NoMemory,
    }
}

/// How a backup that was made while something was under way stands to the volume.
fn compare_copy<D: Device, E: Write>(
    alloc: Global,
    backup: &mut D,
    copy: &UnderwayCopy,
    volume: &mut D,
    name: &str,
    comparing: &Comparing<'_>,
    err: &mut E,
) -> Answer
    requires backup_room { D.failed backup.old + 1 < 2 ^ 64 }
    requires volume_room { D.failed volume.old + 1 < 2 ^ 64 }
    requires of { D.tells → IsUnderwayCopy (D.bytes backup.old) copy.now }
    ensures kept { IsUnchanged D.tells D.size D.bytes D.unsettled backup.old backup.new }
    ensures unchanged { IsUnchanged D.tells D.size D.bytes D.unsettled volume.old volume.new }
    ensures kinds { answer_status result ≢ Status.NotInStep }
    ensures answers { IsUnderwayCompared D.tells (pair_of D.size D.bytes D.failed
        backup.old backup.new volume.old volume.new) result }
{
    match read_wide_header(alloc, volume) {
        Ok(_header) => compare_states(backup, copy, volume, name, comparing, err),
        Err(WideReadFault::Underway { fault, .. }) => underway_answer(fault),
        Err(WideReadFault::Read(fault)) => refused(CheckFault::from(fault), name, err),
    }
}

/// Compares with a volume whose header is accepted by either reading.
fn compare_states<D: Device, E: Write>(
    backup: &mut D,
    copy: &UnderwayCopy,
    volume: &mut D,
    name: &str,
    comparing: &Comparing<'_>,
    err: &mut E,
) -> Answer
    requires backup_room { D.failed backup.old + 1 < 2 ^ 64 }
    requires volume_room { D.failed volume.old + 1 < 2 ^ 64 }
    requires of { D.tells → IsUnderwayCopy (D.bytes backup.old) copy.now }
    requires counts { D.tells → HasAnyHeader (D.bytes volume.old) }
    ensures kept { IsUnchanged D.tells D.size D.bytes D.unsettled backup.old backup.new }
    ensures unchanged { IsUnchanged D.tells D.size D.bytes D.unsettled volume.old volume.new }
    ensures kinds { answer_status result ≢ Status.NotInStep }
    ensures answers { IsUnderwayCompared D.tells (pair_of D.size D.bytes D.failed
        backup.old backup.new volume.old volume.new) result }
{
    let before = backup.failures();
    match compare_moments(backup, copy, volume) {
        Ok(answer) => answer,
        Err(_) if backup.failures() != before => {
            device_fault(comparing.backup, "reading failed", err)
        }
        Err(_) => device_fault(name, "reading failed", err),
    }
}

/// The same; it fails where a call of one of the two does.
fn compare_moments<D: Device>(
    backup: &mut D,
    copy: &UnderwayCopy,
    volume: &mut D,
) -> Result<Answer, DeviceFault>
    requires backup_room { D.failed backup.old + 1 < 2 ^ 64 }
    requires volume_room { D.failed volume.old + 1 < 2 ^ 64 }
    ensures count { CountsEither is_failure result (D.failed backup.old) (D.failed backup.new)
        (D.failed volume.old) (D.failed volume.new) }
    ensures kept { IsUnchanged D.tells D.size D.bytes D.unsettled backup.old backup.new }
    ensures unchanged { IsUnchanged D.tells D.size D.bytes D.unsettled volume.old volume.new }
    ensures kinds { IfOk result (λ a. answer_status a ≢ Status.NotInStep) }
    ensures compared { IfOk result (IsMomentAnswer D.tells (D.bytes backup.old) (D.bytes volume.old)
        (content copy.now.meta)) }
{
    match standing_of(backup, volume)? {
        Standing::Same => Ok(Answer::Compared(compare_underway(backup, copy, volume)?)),
        Standing::Progressed => Ok(Answer::Refused(Refusal::Underway(UnderwayRefusal::Progressed))),
        Standing::Another | Standing::Nothing => Ok(Answer::Refused(Refusal::Restore(
            RestoreFault::OtherVolume,
        ))),
    }
}
