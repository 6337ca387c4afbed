//! The command `backup`.
ghost use Rattle.std.specs.Prelude.{◌≡◌, ◌≢◌, ◌↔◌, ◌+◌, ◌<◌, ◌^◌, Err, IfErr, IsTrue, false};
ghost use Rattle.std.specs.Result.{ForOk};
ghost use Rattle.luks_area.specs.Device.{IsSettled, IsUnchanged};
ghost use Rattle.luks_commands.specs.Answer.{answer_status, backup_fault_answer};
ghost use Rattle.luks_commands.specs.Files.{KeepsVolume};
ghost use Rattle.luks_commands.specs.declared.inputs.InputFault.TheVariants.{Unreadable};
ghost use Rattle.luks_commands.specs.declared.inputs.Reason.TheVariants as reason;
ghost use Rattle.luks_commands.specs.Beside.{AreOneFile, IsSameFile, LeavesTarget, SettlesTarget};
ghost use Rattle.luks_keeping.specs.BackupFaults.{IsAnsweredBackup};
ghost use Rattle.luks_keeping.specs.declared.backup_fault.BackupFault.TheVariants.{NotAccepted as OfCheck};
ghost use Rattle.luks_reading.specs.declared.check_fault.CheckFault.TheVariants.{Meta as OfMeta};
ghost use Rattle.luks_wide_reading.specs.Headers.{IsUnderwayCopy};
ghost use Rattle.luks_keeping_commands.specs.BackingUp.{AnswersBackup, IsMadeAnswer, IsRescueAnswer, IsUnderwayMade, IsUnmadeAnswer, KeepsRest};
ghost use Rattle.luks_keeping_commands.specs.TwoFiles.{pair_of};

use crate::underway::{note_moment, underway_answer};
use luks_commands::{
    Answer, InputFault, Inputs, Reason, Refusal, Status, are_one_file, device_fault, unread,
};
use luks_keeping::{BackupFault, backup, backup_length, rescue};
use luks_reading::{CheckFault, Data, Device, MetaFault, ReadFault};
use luks_request::BackingUp;
use luks_wide_keeping::{back_up_underway, underway_length};
use luks_wide_reading::{UnderwayCopy, WideHeader, WideReadFault, read_wide_header};
use std::alloc::Global;
use std::io::{Read, Write};

/// Writes a backup of the header of the volume of this name to the target. If the target isn't there, since
/// it isn't made for a volume that isn't accepted, that is what is answered.
///
/// It isn't inlined, so that it takes no stack where another command runs.
#[inline(never)]
#[tactic(auto, using(luks_commands::proofs::FileFacts::keeps_same, luks_commands::proofs::BesideFacts::leaves_same, luks_commands::proofs::BesideFacts::settles_same))]
pub fn run<D: Device, R: Read, N: Read, E: Write>(
    alloc: Global,
    inputs: &mut Inputs<D, R, N>,
    name: &str,
    backing_up: &BackingUp<'_>,
    err: &mut E,
) -> Answer
    requires volume_room { ForOk inputs.old.volume (λ d. D.failed d + 1 < 2 ^ 64) }
    requires target_room { ForOk inputs.old.target (λ d. D.failed d + 1 < 2 ^ 64) }
    requires settled { D.tells → ForOk inputs.old.target (IsSettled D.unsettled) }
    ensures unchanged { KeepsVolume D.tells D.size D.bytes D.unsettled
        inputs.old.volume inputs.new.volume }
    ensures rest { LeavesTarget D.tells D.size D.bytes (KeepsRest backing_up.now.payload)
        inputs.old.volume inputs.old.target inputs.new.target }
    ensures settled { SettlesTarget D.tells D.failed D.unsettled
        inputs.old.volume inputs.new.volume inputs.old.target inputs.new.target }
    ensures kinds { answer_status result ≢ Status.NotInStep }
    ensures unread { IfErr inputs.old.volume (λ _. answer_status result ≢ Status.Done) }
    ensures same { AreOneFile name.now backing_up.now.target.now inputs.old.target
        → (inputs.new ≡ inputs.old) × IsSameFile result }
    ensures answers { (AreOneFile name.now backing_up.now.target.now inputs.old.target → ⊥)
        → AnswersBackup D.tells D.size D.bytes D.failed backing_up.now.rescue backing_up.now.payload
        inputs.old.volume inputs.new.volume inputs.old.target inputs.new.target result }
{
    if are_one_file(name, backing_up.target, &inputs.target) {
        return Answer::Refused(Refusal::SameFile);
    }
    if is_kept_from(&inputs.target) {
        return Answer::Refused(Refusal::Exists);
    }
    let volume = match &mut inputs.volume {
        Ok(device) => device,
        Err(fault) => return unread(*fault, name, err),
    };
    match &mut inputs.target {
        Ok(target) => {
            if backing_up.rescue {
                back_up_readable(alloc, volume, name, target, backing_up, err)
            } else {
                back_up(alloc, volume, name, target, backing_up, err)
            }
        }
        Err(fault) => without_file(alloc, volume, name, *fault, backing_up, err),
    }
}

/// Whether the target was found to be there, and not empty.
pub(crate) fn is_kept_from<D>(target: &Result<D, InputFault>) -> bool
    ensures { IsTrue result ↔ (target.now ≡ Err (Unreadable reason.Exists)) }
{
    matches!(target, Err(InputFault::Unreadable(Reason::Exists)))
}

/// Makes the backup on a target that is there.
fn back_up<D: Device, E: Write>(
    alloc: Global,
    volume: &mut D,
    name: &str,
    target: &mut D,
    backing_up: &BackingUp<'_>,
    err: &mut E,
) -> Answer
    requires volume_room { D.failed volume.old + 1 < 2 ^ 64 }
    requires target_room { D.failed target.old + 1 < 2 ^ 64 }
    requires settled { D.tells → IsSettled D.unsettled target.old }
    ensures unchanged { IsUnchanged D.tells D.size D.bytes D.unsettled volume.old volume.new }
    ensures size { D.size target.new ≡ D.size target.old }
    ensures rest { D.tells → KeepsRest backing_up.now.payload (D.bytes volume.old)
        (D.bytes target.old) (D.bytes target.new) }
    ensures settled { D.tells → D.failed volume.new ≡ D.failed volume.old
        → D.failed target.new ≡ D.failed target.old → IsSettled D.unsettled target.new }
    ensures kinds { answer_status result ≢ Status.NotInStep }
    ensures answers { IsMadeAnswer false D.tells backing_up.now.payload (pair_of D.size D.bytes D.failed
        volume.old volume.new target.old target.new) result }
{
    let before = volume.failures();
    match backup(alloc, volume, backing_up.payload, target) {
        Ok(()) => Answer::Done(None),
        Err(BackupFault::NotAccepted(fault)) => {
            refused_volume(alloc, volume, name, target, backing_up, fault, err)
        }
        Err(BackupFault::TooSmall) => Answer::from(BackupFault::TooSmall),
        Err(BackupFault::Memory) => Answer::NoMemory,
        Err(BackupFault::Device) if volume.failures() != before => {
            device_fault(name, "reading failed, the backup may be unfinished", err)
        }
        Err(BackupFault::Device) => device_fault(
            backing_up.target,
            "reading or writing failed, the backup may be unfinished",
            err,
        ),
    }
}

/// What is answered of a volume that `check` refuses by this fault.
fn refused_volume<D: Device, E: Write>(
    alloc: Global,
    volume: &mut D,
    name: &str,
    target: &mut D,
    backing_up: &BackingUp<'_>,
    fault: CheckFault,
    err: &mut E,
) -> Answer
    requires volume_room { D.failed volume.old + 1 < 2 ^ 64 }
    requires target_room { D.failed target.old + 1 < 2 ^ 64 }
    requires settled { D.tells → IsSettled D.unsettled target.old }
    requires refused { D.tells → IsAnsweredBackup (D.bytes volume.old) backing_up.now.payload
        (D.size target.old) (OfCheck fault) }
    ensures unchanged { IsUnchanged D.tells D.size D.bytes D.unsettled volume.old volume.new }
    ensures size { D.size target.new ≡ D.size target.old }
    ensures rest { D.tells → KeepsRest backing_up.now.payload (D.bytes volume.old)
        (D.bytes target.old) (D.bytes target.new) }
    ensures settled { D.tells → D.failed volume.new ≡ D.failed volume.old
        → D.failed target.new ≡ D.failed target.old → IsSettled D.unsettled target.new }
    ensures kinds { answer_status result ≢ Status.NotInStep }
    ensures answers { IsMadeAnswer false D.tells backing_up.now.payload (pair_of D.size D.bytes D.failed
        volume.old volume.new target.old target.new) result }
{
    match fault {
        CheckFault::Meta(found) => {
            back_up_wide(alloc, volume, name, target, backing_up, found, err)
        }
        CheckFault::Head(_) => narrow_answer(fault),
        CheckFault::Area(_) => narrow_answer(fault),
        CheckFault::Device => narrow_answer(fault),
        CheckFault::Memory => narrow_answer(fault),
    }
}

/// What is answered of a volume whose metadata `check` refuses by this fault: where something is under way in it, a
/// backup of that.
fn back_up_wide<D: Device, E: Write>(
    alloc: Global,
    volume: &mut D,
    name: &str,
    target: &mut D,
    backing_up: &BackingUp<'_>,
    fault: MetaFault,
    err: &mut E,
) -> Answer
    requires volume_room { D.failed volume.old + 1 < 2 ^ 64 }
    requires target_room { D.failed target.old + 1 < 2 ^ 64 }
    requires settled { D.tells → IsSettled D.unsettled target.old }
    requires refused { D.tells → IsAnsweredBackup (D.bytes volume.old) backing_up.now.payload
        (D.size target.old) (OfCheck (OfMeta fault)) }
    ensures unchanged { IsUnchanged D.tells D.size D.bytes D.unsettled volume.old volume.new }
    ensures size { D.size target.new ≡ D.size target.old }
    ensures rest { D.tells → KeepsRest backing_up.now.payload (D.bytes volume.old)
        (D.bytes target.old) (D.bytes target.new) }
    ensures settled { D.tells → D.failed volume.new ≡ D.failed volume.old
        → D.failed target.new ≡ D.failed target.old → IsSettled D.unsettled target.new }
    ensures kinds { answer_status result ≢ Status.NotInStep }
    ensures answers { IsMadeAnswer false D.tells backing_up.now.payload (pair_of D.size D.bytes D.failed
        volume.old volume.new target.old target.new) result }
{
    match read_wide_header(alloc, volume) {
        Ok(WideHeader::Underway(copy)) => {
            back_up_copy(volume, name, &copy, target, backing_up, err)
        }
        Ok(WideHeader::Narrow(_)) => narrow_answer(CheckFault::Meta(fault)),
        Err(WideReadFault::Underway { fault, .. }) => underway_answer(fault),
        Err(WideReadFault::Read(ReadFault::Head(_))) => narrow_answer(CheckFault::Meta(fault)),
        Err(WideReadFault::Read(ReadFault::Meta(_))) => narrow_answer(CheckFault::Meta(fault)),
        Err(WideReadFault::Read(ReadFault::Device)) => device_fault(name, "reading failed", err),
        Err(WideReadFault::Read(ReadFault::Memory)) => Answer::NoMemory,
    }
}

/// Makes the backup of a volume in whose metadata something is under way, and says of a reencryption that the backup is
/// of one moment.
fn back_up_copy<D: Device, E: Write>(
    volume: &mut D,
    name: &str,
    copy: &UnderwayCopy,
    target: &mut D,
    backing_up: &BackingUp<'_>,
    err: &mut E,
) -> Answer
    requires volume_room { D.failed volume.old + 1 < 2 ^ 64 }
    requires target_room { D.failed target.old + 1 < 2 ^ 64 }
    requires settled { D.tells → IsSettled D.unsettled target.old }
    requires of { D.tells → IsUnderwayCopy (D.bytes volume.old) copy.now }
    ensures unchanged { IsUnchanged D.tells D.size D.bytes D.unsettled volume.old volume.new }
    ensures size { D.size target.new ≡ D.size target.old }
    ensures rest { D.tells → KeepsRest backing_up.now.payload (D.bytes volume.old)
        (D.bytes target.old) (D.bytes target.new) }
    ensures settled { D.tells → D.failed volume.new ≡ D.failed volume.old
        → D.failed target.new ≡ D.failed target.old → IsSettled D.unsettled target.new }
    ensures kinds { answer_status result ≢ Status.NotInStep }
    ensures answers { IsUnderwayMade D.tells (pair_of D.size D.bytes D.failed
        volume.old volume.new target.old target.new) result }
{
    let before = volume.failures();
    match back_up_underway(volume, copy, target) {
        Ok(()) => {
            let _ = note_moment(&copy.meta, name, err);
            Answer::Done(None)
        }
        Err(fault) if volume.failures() != before => not_kept(
            fault,
            name,
            "reading failed, the backup may be unfinished",
            err,
        ),
        Err(fault) => not_kept(
            fault,
            backing_up.target,
            "reading or writing failed, the backup may be unfinished",
            err,
        ),
    }
}

/// What is answered where `check` refuses the volume by this fault, and nothing is under way in its metadata.
fn narrow_answer(fault: CheckFault) -> Answer
    ensures { result ≡ backup_fault_answer (OfCheck fault) }
{
    Answer::from(BackupFault::NotAccepted(fault))
}

/// Backs up a volume whose key areas can't be read everywhere: what can be read.
fn back_up_readable<D: Device, E: Write>(
    alloc: Global,
    volume: &mut D,
    name: &str,
    target: &mut D,
    backing_up: &BackingUp<'_>,
    err: &mut E,
) -> Answer
    requires volume_room { D.failed volume.old + 1 < 2 ^ 64 }
    requires target_room { D.failed target.old + 1 < 2 ^ 64 }
    requires settled { D.tells → IsSettled D.unsettled target.old }
    ensures unchanged { IsUnchanged D.tells D.size D.bytes D.unsettled volume.old volume.new }
    ensures size { D.size target.new ≡ D.size target.old }
    ensures rest { D.tells → KeepsRest backing_up.now.payload (D.bytes volume.old)
        (D.bytes target.old) (D.bytes target.new) }
    ensures settled { D.tells → D.failed volume.new ≡ D.failed volume.old
        → D.failed target.new ≡ D.failed target.old → IsSettled D.unsettled target.new }
    ensures kinds { answer_status result ≢ Status.NotInStep }
    ensures answers { IsRescueAnswer D.tells backing_up.now.payload (pair_of D.size D.bytes D.failed
        volume.old volume.new target.old target.new) result }
{
    let before = target.failures();
    match rescue(alloc, volume, backing_up.payload, target) {
        Ok(None) => Answer::Done(None),
        Ok(Some(lost)) => Answer::Rescued(lost),
        Err(fault) if target.failures() != before => not_kept(
            fault,
            backing_up.target,
            "reading or writing failed, the backup may be unfinished",
            err,
        ),
        Err(fault) => not_kept(
            fault,
            name,
            "reading failed, the backup may be unfinished",
            err,
        ),
    }
}

/// What is answered where the target isn't there by this fault: why there is no backup of the volume, if
/// there is none on however large a target.
fn without_file<D: Device, E: Write>(
    alloc: Global,
    volume: &mut D,
    name: &str,
    missed: InputFault,
    backing_up: &BackingUp<'_>,
    err: &mut E,
) -> Answer
    requires { D.failed volume.old + 1 < 2 ^ 64 }
    ensures unchanged { IsUnchanged D.tells D.size D.bytes D.unsettled volume.old volume.new }
    ensures kinds { answer_status result ≢ Status.NotInStep }
    ensures answers { IsUnmadeAnswer backing_up.now.rescue D.tells backing_up.now.payload
        (D.bytes volume.old) (D.failed volume.old) (D.failed volume.new) missed result }
{
    match backup_length(alloc, volume, backing_up.payload) {
        Ok(_) => unread(missed, backing_up.target, err),
        Err(BackupFault::NotAccepted(fault)) => {
            if !backing_up.rescue {
                without_file_refused(alloc, volume, name, missed, backing_up, fault, err)
            } else {
                narrow_answer(fault)
            }
        }
        Err(BackupFault::TooSmall) => Answer::from(BackupFault::TooSmall),
        Err(BackupFault::Memory) => Answer::NoMemory,
        Err(BackupFault::Device) => device_fault(name, "reading failed", err),
    }
}

/// The answer for a volume that `check` refuses by this fault.
fn without_file_refused<D: Device, E: Write>(
    alloc: Global,
    volume: &mut D,
    name: &str,
    missed: InputFault,
    backing_up: &BackingUp<'_>,
    fault: CheckFault,
    err: &mut E,
) -> Answer
    requires room { D.failed volume.old + 1 < 2 ^ 64 }
    requires refused { D.tells → IsAnsweredBackup (D.bytes volume.old) backing_up.now.payload
        18446744073709551615 (OfCheck fault) }
    ensures unchanged { IsUnchanged D.tells D.size D.bytes D.unsettled volume.old volume.new }
    ensures kinds { answer_status result ≢ Status.NotInStep }
    ensures answers { IsUnmadeAnswer false D.tells backing_up.now.payload
        (D.bytes volume.old) (D.failed volume.old) (D.failed volume.new) missed result }
{
    match fault {
        CheckFault::Meta(found) => {
            without_file_wide(alloc, volume, name, missed, backing_up, found, err)
        }
        CheckFault::Head(_) => narrow_answer(fault),
        CheckFault::Area(_) => narrow_answer(fault),
        CheckFault::Device => narrow_answer(fault),
        CheckFault::Memory => narrow_answer(fault),
    }
}

/// The answer for a volume whose metadata `check` refuses by this fault.
fn without_file_wide<D: Device, E: Write>(
    alloc: Global,
    volume: &mut D,
    name: &str,
    missed: InputFault,
    backing_up: &BackingUp<'_>,
    fault: MetaFault,
    err: &mut E,
) -> Answer
    requires room { D.failed volume.old + 1 < 2 ^ 64 }
    requires refused { D.tells → IsAnsweredBackup (D.bytes volume.old) backing_up.now.payload
        18446744073709551615 (OfCheck (OfMeta fault)) }
    ensures unchanged { IsUnchanged D.tells D.size D.bytes D.unsettled volume.old volume.new }
    ensures kinds { answer_status result ≢ Status.NotInStep }
    ensures answers { IsUnmadeAnswer false D.tells backing_up.now.payload
        (D.bytes volume.old) (D.failed volume.old) (D.failed volume.new) missed result }
{
    match read_wide_header(alloc, volume) {
        Ok(WideHeader::Underway(copy)) => match underway_length(volume, &copy) {
            Ok(_length) => unread(missed, backing_up.target, err),
            Err(fault) => Answer::from(fault),
        },
        Ok(WideHeader::Narrow(_)) => narrow_answer(CheckFault::Meta(fault)),
        Err(WideReadFault::Underway { fault, .. }) => underway_answer(fault),
        Err(WideReadFault::Read(ReadFault::Head(_))) => narrow_answer(CheckFault::Meta(fault)),
        Err(WideReadFault::Read(ReadFault::Meta(_))) => narrow_answer(CheckFault::Meta(fault)),
        Err(WideReadFault::Read(ReadFault::Device)) => device_fault(name, "reading failed", err),
        Err(WideReadFault::Read(ReadFault::Memory)) => Answer::NoMemory,
    }
}

/// What is answered where this fault ended the backup. If a device failed, it is that of the file of
/// this name.
fn not_kept<E: Write>(fault: BackupFault, file: &str, failed: &str, err: &mut E) -> Answer
    ensures { result ≡ backup_fault_answer fault }
{
    match fault {
        BackupFault::Device => device_fault(file, failed, err),
        fault => Answer::from(fault),
    }
}
