//! The command `restore`.
ghost use Rattle.std.specs.Prelude.{◌≡◌, ◌≢◌, ◌+◌, ◌<◌, ◌^◌, IfErr};
ghost use Rattle.std.specs.Result.{ForOk};
ghost use Rattle.luks_area.specs.Area.{Fit};
ghost use Rattle.luks_area.specs.Device.{IsSettled, IsUnchanged};
ghost use Rattle.luks_commands.specs.Answer.{answer_status, restore_fault_answer};
ghost use Rattle.luks_commands.specs.Files.{KeepsVolume};
ghost use Rattle.luks_commands.specs.Beside.{AreOneFile, IsSameFile, LeavesTarget, SettlesTarget};
ghost use Rattle.luks_reading.specs.Header.{IsAcceptedHeader};
ghost use Rattle.luks_reading.specs.Reported.{HeaderArea};
ghost use Rattle.luks_reading.specs.declared.report.Data.TheVariants.{Elsewhere};
ghost use Rattle.luks_keeping.specs.Judged.{HasFields, IsAcceptedOf};
ghost use Rattle.luks_keeping_commands.specs.Restoring.{AnswersBoth, AnswersRestore};
ghost use Rattle.luks_reading.specs.Checked.{First};
ghost use Rattle.luks_reading.specs.declared.check_fault.CheckFault.TheVariants.{Meta as OfMeta};
ghost use Rattle.luks_wide_reading.specs.Headers.{IsUnderwayCopy};
ghost use Rattle.luks_keeping_commands.specs.Restoring.{IsPutBackAnswer, IsRestoreAnswer, KeepsRest, over_of};
ghost use Rattle.luks_keeping_commands.specs.RestoringUnderway.{IsUnderwayPutBack, IsUnused, KeepsUnderway, over_underway, underway_restore_answer};
ghost use Rattle.luks_keeping_commands.specs.TwoFiles.{pair_of};

use crate::keyslots_note::{note_keyslots, outline_there};
use crate::underway::{refused_backup, underway_answer};
use crate::volume_use::{judge_use_underway, judge_volume};
use luks_commands::{
    Answer, Inputs, Refusal, Status, UnderwayRefusal, are_one_file, device_fault, held_back, unread,
};
use luks_keeping::{Over, RestoreFault, accepted_header, outline_of, restore_header};
use luks_reading::{CheckFault, Data, Device, Header, MetaFault, ReadFault};
use luks_request::Restoring;
use luks_wide_keeping::{OverUnderway, UnderwayRestoreFault, restore_underway};
use luks_wide_reading::{UnderwayCopy, WideHeader, WideReadFault, read_wide_header};
use std::alloc::Global;
use std::io::{Read, Write};

/// Puts the header and the key areas of the backup, which `inputs.target` is, onto the volume of this name.
/// Before all else a reencryption of the volume is asked for, and another use of its disk. Which keyslots of
/// the two differ is written to `err` before the first write; the program prints that once all has ended.
///
/// It isn't inlined, so that it takes no stack where another command runs.
#[inline(never)]
#[tactic(auto, using(luks_commands::proofs::FileFacts::keeps_same, luks_commands::proofs::BesideFacts::leaves_same, luks_commands::proofs::BesideFacts::settles_same))]
pub fn run<D: Device, R: Read, N: Read, E: Write>(
    alloc: Global,
    inputs: &mut Inputs<D, R, N>,
    name: &str,
    restoring: &Restoring<'_>,
    err: &mut E,
) -> Answer
    requires volume_room { ForOk inputs.old.volume (λ d. D.failed d + 1 < 2 ^ 64) }
    requires backup_room { ForOk inputs.old.target (λ d. D.failed d + 1 < 2 ^ 64) }
    requires settled { D.tells → ForOk inputs.old.volume (IsSettled D.unsettled) }
    ensures unchanged { KeepsVolume D.tells D.size D.bytes D.unsettled
        inputs.old.target inputs.new.target }
    ensures rest { LeavesTarget D.tells D.size D.bytes (KeepsRest restoring.now.payload)
        inputs.old.target inputs.old.volume inputs.new.volume }
    ensures settled { SettlesTarget D.tells D.failed D.unsettled
        inputs.old.target inputs.new.target inputs.old.volume inputs.new.volume }
    ensures kinds { answer_status result ≢ Status.NotInStep }
    ensures unread { IfErr inputs.old.volume (λ _. answer_status result ≢ Status.Done) }
    ensures same { AreOneFile name.now restoring.now.backup.now inputs.old.target
        → (inputs.new ≡ inputs.old) × IsSameFile result }
    ensures answers { (AreOneFile name.now restoring.now.backup.now inputs.old.target → ⊥)
        → AnswersRestore D.tells D.size D.bytes D.failed restoring.now
        inputs.old.volume inputs.new.volume inputs.old.target inputs.new.target result }
{
    if are_one_file(name, restoring.backup, &inputs.target) {
        return Answer::Refused(Refusal::SameFile);
    }
    let volume = match &mut inputs.volume {
        Ok(device) => device,
        Err(fault) => return unread(*fault, name, err),
    };
    match &mut inputs.target {
        Ok(backup) => put_unless(alloc, backup, volume, name, restoring, err),
        Err(fault) => unread(*fault, restoring.backup, err),
    }
}

/// Puts the backup back, unless what is on the volume isn't to be written over.
fn put_unless<D: Device, E: Write>(
    alloc: Global,
    backup: &mut D,
    volume: &mut D,
    name: &str,
    restoring: &Restoring<'_>,
    err: &mut E,
) -> Answer
    requires backup_room { D.failed backup.old + 1 < 2 ^ 64 }
    requires volume_room { D.failed volume.old + 1 < 2 ^ 64 }
    requires settled { D.tells → IsSettled D.unsettled volume.old }
    ensures unchanged { IsUnchanged D.tells D.size D.bytes D.unsettled backup.old backup.new }
    ensures size { D.size volume.new ≡ D.size volume.old }
    ensures rest { D.tells → KeepsRest restoring.now.payload (D.bytes backup.old)
        (D.bytes volume.old) (D.bytes volume.new) }
    ensures settled { D.tells → D.failed backup.new ≡ D.failed backup.old
        → D.failed volume.new ≡ D.failed volume.old → IsSettled D.unsettled volume.new }
    ensures kinds { answer_status result ≢ Status.NotInStep }
    ensures answers { AnswersBoth D.tells restoring.now
        (pair_of D.size D.bytes D.failed backup.old backup.new volume.old volume.new) result }
{
    let before = backup.failures();
    match judge_volume(alloc, backup, volume, restoring) {
        Ok(()) => put_back(alloc, backup, volume, name, restoring, err),
        Err(bar) if backup.failures() != before => held_back(bar, restoring.backup, err),
        Err(bar) => held_back(bar, name, err),
    }
}

/// Says how the keyslots stand, and puts the backup back. The metadata of both is read once for it, that of one after
/// the other.
fn put_back<D: Device, E: Write>(
    alloc: Global,
    backup: &mut D,
    volume: &mut D,
    name: &str,
    restoring: &Restoring<'_>,
    err: &mut E,
) -> Answer
    requires backup_room { D.failed backup.old + 1 < 2 ^ 64 }
    requires volume_room { D.failed volume.old + 1 < 2 ^ 64 }
    requires settled { D.tells → IsSettled D.unsettled volume.old }
    ensures unchanged { IsUnchanged D.tells D.size D.bytes D.unsettled backup.old backup.new }
    ensures size { D.size volume.new ≡ D.size volume.old }
    ensures rest { D.tells → KeepsRest restoring.now.payload (D.bytes backup.old)
        (D.bytes volume.old) (D.bytes volume.new) }
    ensures settled { D.tells → D.failed backup.new ≡ D.failed backup.old
        → D.failed volume.new ≡ D.failed volume.old → IsSettled D.unsettled volume.new }
    ensures kinds { answer_status result ≢ Status.NotInStep }
    ensures answers { IsPutBackAnswer D.tells restoring.now
        (pair_of D.size D.bytes D.failed backup.old backup.new volume.old volume.new) result }
{
    let Ok(there) = outline_there(alloc, volume) else {
        return device_fault(name, "reading failed", err);
    };
    match accepted_header(alloc, backup, Data::Elsewhere) {
        Ok(header) => {
            note_keyslots(&outline_of(&header), there, restoring.backup, name, err);
            put_over(alloc, header, backup, volume, name, restoring, err)
        }
        Err(CheckFault::Meta(fault)) => {
            put_back_wide(alloc, backup, volume, name, restoring, fault, err)
        }
        Err(CheckFault::Head(fault)) => refused_backup(CheckFault::Head(fault)),
        Err(CheckFault::Area(fault)) => refused_backup(CheckFault::Area(fault)),
        Err(CheckFault::Device) => device_fault(restoring.backup, "reading failed", err),
        Err(CheckFault::Memory) => Answer::NoMemory,
    }
}

/// What is answered of a backup whose metadata `check` refuses by this fault: where something is under way in it, it is put
/// back.
fn put_back_wide<D: Device, E: Write>(
    alloc: Global,
    backup: &mut D,
    volume: &mut D,
    name: &str,
    restoring: &Restoring<'_>,
    fault: MetaFault,
    err: &mut E,
) -> Answer
    requires backup_room { D.failed backup.old + 1 < 2 ^ 64 }
    requires volume_room { D.failed volume.old + 1 < 2 ^ 64 }
    requires settled { D.tells → IsSettled D.unsettled volume.old }
    requires refused { D.tells → First (D.bytes backup.old) Elsewhere (OfMeta fault) }
    ensures unchanged { IsUnchanged D.tells D.size D.bytes D.unsettled backup.old backup.new }
    ensures size { D.size volume.new ≡ D.size volume.old }
    ensures rest { D.tells → KeepsRest restoring.now.payload (D.bytes backup.old)
        (D.bytes volume.old) (D.bytes volume.new) }
    ensures settled { D.tells → D.failed backup.new ≡ D.failed backup.old
        → D.failed volume.new ≡ D.failed volume.old → IsSettled D.unsettled volume.new }
    ensures kinds { answer_status result ≢ Status.NotInStep }
    ensures answers { IsPutBackAnswer D.tells restoring.now
        (pair_of D.size D.bytes D.failed backup.old backup.new volume.old volume.new) result }
{
    match read_wide_header(alloc, backup) {
        Ok(WideHeader::Underway(copy)) => {
            put_unless_used(backup, &copy, volume, name, restoring, err)
        }
        Ok(WideHeader::Narrow(_)) => refused_backup(CheckFault::Meta(fault)),
        Err(WideReadFault::Underway { fault, .. }) => underway_answer(fault),
        Err(WideReadFault::Read(ReadFault::Head(_))) => refused_backup(CheckFault::Meta(fault)),
        Err(WideReadFault::Read(ReadFault::Meta(_))) => refused_backup(CheckFault::Meta(fault)),
        Err(WideReadFault::Read(ReadFault::Device)) => {
            device_fault(restoring.backup, "reading failed", err)
        }
        Err(WideReadFault::Read(ReadFault::Memory)) => Answer::NoMemory,
    }
}

/// Puts a backup back that was made while something was under way, unless the disk has another use.
fn put_unless_used<D: Device, E: Write>(
    backup: &mut D,
    copy: &UnderwayCopy,
    volume: &mut D,
    name: &str,
    restoring: &Restoring<'_>,
    err: &mut E,
) -> Answer
    requires backup_room { D.failed backup.old + 1 < 2 ^ 64 }
    requires volume_room { D.failed volume.old + 1 < 2 ^ 64 }
    requires settled { D.tells → IsSettled D.unsettled volume.old }
    requires of { D.tells → IsUnderwayCopy (D.bytes backup.old) copy.now }
    ensures unchanged { IsUnchanged D.tells D.size D.bytes D.unsettled backup.old backup.new }
    ensures size { D.size volume.new ≡ D.size volume.old }
    ensures rest { D.tells → KeepsUnderway restoring.now.payload (D.bytes backup.old)
        (D.bytes volume.old) (D.bytes volume.new) }
    ensures settled { D.tells → D.failed backup.new ≡ D.failed backup.old
        → D.failed volume.new ≡ D.failed volume.old → IsSettled D.unsettled volume.new }
    ensures kinds { answer_status result ≢ Status.NotInStep }
    ensures answers { IsUnderwayPutBack D.tells restoring.now
        (pair_of D.size D.bytes D.failed backup.old backup.new volume.old volume.new) result }
{
    let before = backup.failures();
    match judge_use_underway(backup, volume, restoring.over) {
        Ok(()) => put_copy(backup, copy, volume, name, restoring, err),
        Err(bar) if backup.failures() != before => held_back(bar, restoring.backup, err),
        Err(bar) => held_back(bar, name, err),
    }
}

/// Puts the backup back.
fn put_copy<D: Device, E: Write>(
    backup: &mut D,
    copy: &UnderwayCopy,
    volume: &mut D,
    name: &str,
    restoring: &Restoring<'_>,
    err: &mut E,
) -> Answer
    requires backup_room { D.failed backup.old + 1 < 2 ^ 64 }
    requires volume_room { D.failed volume.old + 1 < 2 ^ 64 }
    requires settled { D.tells → IsSettled D.unsettled volume.old }
    requires of { D.tells → IsUnderwayCopy (D.bytes backup.old) copy.now }
    requires unused { D.tells → IsUnused restoring.now.over (D.bytes backup.old) (D.bytes volume.old) }
    ensures unchanged { IsUnchanged D.tells D.size D.bytes D.unsettled backup.old backup.new }
    ensures size { D.size volume.new ≡ D.size volume.old }
    ensures rest { D.tells → KeepsUnderway restoring.now.payload (D.bytes backup.old)
        (D.bytes volume.old) (D.bytes volume.new) }
    ensures settled { D.tells → D.failed backup.new ≡ D.failed backup.old
        → D.failed volume.new ≡ D.failed volume.old → IsSettled D.unsettled volume.new }
    ensures kinds { answer_status result ≢ Status.NotInStep }
    ensures answers { IsUnderwayPutBack D.tells restoring.now
        (pair_of D.size D.bytes D.failed backup.old backup.new volume.old volume.new) result }
{
    let before = backup.failures();
    let over = over_underway(restoring);
    match restore_underway(backup, copy, volume, restoring.payload, over) {
        Ok(()) => Answer::Done(None),
        Err(fault) if backup.failures() != before => underway_not_restored(
            fault,
            restoring.backup,
            "reading failed, the volume's header may be unfinished",
            err,
        ),
        Err(fault) => underway_not_restored(
            fault,
            name,
            "reading or writing failed, its header may be unfinished",
            err,
        ),
    }
}

/// Which headers a backup that was made while something was under way may be put over.
fn over_underway(restoring: &Restoring<'_>) -> OverUnderway
    ensures { result ≡ over_underway restoring.now }
{
    OverUnderway {
        another: restoring.other || restoring.over,
        progressed: restoring.over,
    }
}

/// What is answered where this fault ended it. If a device failed, it is that of the file of this name.
fn underway_not_restored<E: Write>(
    fault: UnderwayRestoreFault,
    file: &str,
    failed: &str,
    err: &mut E,
) -> Answer
    ensures { result ≡ underway_restore_answer fault }
{
    match fault {
        UnderwayRestoreFault::Restore(fault) => not_restored(fault, file, failed, err),
        UnderwayRestoreFault::Progressed => {
            Answer::Refused(Refusal::Underway(UnderwayRefusal::Progressed))
        }
    }
}

/// Puts the backup back, whose header was read.
fn put_over<D: Device, E: Write>(
    alloc: Global,
    header: Header,
    backup: &mut D,
    volume: &mut D,
    name: &str,
    restoring: &Restoring<'_>,
    err: &mut E,
) -> Answer
    requires backup_room { D.failed backup.old + 1 < 2 ^ 64 }
    requires volume_room { D.failed volume.old + 1 < 2 ^ 64 }
    requires settled { D.tells → IsSettled D.unsettled volume.old }
    requires fields { HasFields header }
    requires accepted { IsAcceptedHeader header }
    requires fits { Fit (HeaderArea header Elsewhere (D.size backup.old)) (D.size backup.old) }
    requires of { D.tells → IsAcceptedOf (D.bytes backup.old) header }
    ensures unchanged { IsUnchanged D.tells D.size D.bytes D.unsettled backup.old backup.new }
    ensures size { D.size volume.new ≡ D.size volume.old }
    ensures rest { D.tells → KeepsRest restoring.now.payload (D.bytes backup.old)
        (D.bytes volume.old) (D.bytes volume.new) }
    ensures settled { D.tells → D.failed backup.new ≡ D.failed backup.old
        → D.failed volume.new ≡ D.failed volume.old → IsSettled D.unsettled volume.new }
    ensures kinds { answer_status result ≢ Status.NotInStep }
    ensures answers { IsRestoreAnswer D.tells restoring.now.payload (over_of restoring.now)
        (pair_of D.size D.bytes D.failed backup.old backup.new volume.old volume.new) result }
{
    let before = backup.failures();
    let over = over_of(restoring);
    match restore_header(alloc, header, backup, volume, restoring.payload, over) {
        Ok(()) => Answer::Done(None),
        Err(fault) if backup.failures() != before => not_restored(
            fault,
            restoring.backup,
            "reading failed, the volume's header may be unfinished",
            err,
        ),
        Err(fault) => not_restored(
            fault,
            name,
            "reading or writing failed, its header may be unfinished",
            err,
        ),
    }
}

/// What of LUKS may be written over.
fn over_of(restoring: &Restoring<'_>) -> Over
    ensures { result ≡ over_of restoring.now }
{
    match (restoring.other, restoring.over) {
        (true, _) | (false, true) => Over::AnyVolume,
        (false, false) => Over::SameVolume,
    }
}

/// What is answered where this fault ended it. If a device failed, it is that of the file of this
/// name.
fn not_restored<E: Write>(fault: RestoreFault, file: &str, failed: &str, err: &mut E) -> Answer
    ensures { result ≡ restore_fault_answer fault }
{
    match fault {
        RestoreFault::Device => device_fault(file, failed, err),
        fault => Answer::from(fault),
    }
}
