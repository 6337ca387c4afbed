//! The command `open`.
ghost use Rattle.std.specs.Prelude.{◌≡◌, ◌≢◌, ◌+◌, ◌<◌, ◌^◌, IfErr, length};
ghost use Rattle.std.specs.Result.{ForOk};
ghost use Rattle.luks_area.specs.Device.{CountsFailure, IsUnchanged};
ghost use Rattle.luks_commands.specs.Answer.{answer_status};
ghost use Rattle.luks_commands.specs.Files.{IsLong, IsUnread, IsWhole, KeepsVolume};
ghost use Rattle.luks_reading.specs.Failures.{is_open_failure};
ghost use Rattle.luks_reading.specs.Header.{IsAcceptedHeader, IsHeader};
ghost use Rattle.luks_reading.specs.HeaderAnswers.{IsHeaderUnlocking, IsSlotOpening};
ghost use Rattle.luks_commands.specs.OpenAnswers.{any_answer, AnswersOpen, IsAnswerBeside, IsAnyAnswer, IsOneAnswer, IsOpenAnswer, IsWideAnswer, allowed_of, kib_of, one_answer, wide_read_answer};

mod almost_met;
mod searching;
mod underway;
mod underway_untried;

use crate::answers::{Answer, Refusal, Status, unread};
use crate::inputs::Inputs;
use crate::passphrase_file::{PassphraseFault, passphrase};
use crate::underway_refusal::UnderwayRefusal;
use almost_met::note_unopened;
use luks_notes::{note_all_wanting, note_passed_over, note_refused, note_unbound, note_wanting};
use luks_reading::{Allowed, Device, Header, Key, OpenFault, try_header, try_header_slot};
use luks_wide_reading::{WideHeader, WideReadFault, read_wide_header};
use searching::{Trial, search};
use std::alloc::Global;
use std::io::{Read, Write};
use underway::{UnderwayTrial, open_underway};

/// What is tried, by the words of the command line.
#[derive(Clone, Copy)]
pub struct Tried<'a> {
    /// The file of the volume.
    pub volume: &'a str,
    /// The file of the passphrase.
    pub passphrase: &'a str,
    /// The keyslot; without one all are tried.
    pub slot: Option<u8>,
    /// How many MiB of memory Argon2 may take for a keyslot.
    pub memory: u32,
    /// Whether ciphers and hashes of older disks are accepted.
    pub older: bool,
}

/// Answers whether the passphrase opens the keyslot that is tried, or without one which is the first that it
/// opens; `err` gets what standard error says. The passphrase is read before the volume.
#[tactic(auto, using(crate::proofs::FileFacts::keeps_same))]
pub fn run<D: Device, R: Read, N: Read, E: Write>(
    alloc: Global,
    inputs: &mut Inputs<D, R, N>,
    tried: &Tried<'_>,
    err: &mut E,
) -> Answer
    requires { ForOk inputs.old.volume (λ d. D.failed d + 1 < 2 ^ 64) }
    ensures unchanged { KeepsVolume D.tells D.size D.bytes D.unsettled inputs.old.volume inputs.new.volume }
    ensures target { inputs.new.target ≡ inputs.old.target }
    ensures kinds { answer_status result ≢ Status.NotInStep }
    ensures unread { IfErr inputs.old.volume (λ _. answer_status result ≢ Status.Done) }
    ensures answers { AnswersOpen D.tells D.bytes D.failed (allowed_of tried.now.memory tried.now.older) tried.now.slot
        (IsWhole R.remaining inputs.old.passphrase) (IsLong R.remaining inputs.old.passphrase)
        (IsUnread inputs.old.passphrase) inputs.old.volume inputs.new.volume result }
{
    let words = match passphrase(alloc, &mut inputs.passphrase) {
        Ok(words) => words,
        Err(PassphraseFault::TooLong) => return Answer::Refused(Refusal::LongPassphrase),
        Err(PassphraseFault::Input(fault)) => return unread(fault, tried.passphrase, err),
    };
    match &mut inputs.volume {
        Ok(device) => open_device(alloc, device, tried, words.as_slice(), err),
        Err(fault) => unread(*fault, tried.volume, err),
    }
}

fn open_device<D: Device, E: Write>(
    alloc: Global,
    device: &mut D,
    tried: &Tried<'_>,
    passphrase: &[u8],
    err: &mut E,
) -> Answer
    requires room { D.failed device.old + 1 < 2 ^ 64 }
    requires passphrase { length passphrase.now < 2 ^ 32 }
    ensures unchanged { IsUnchanged D.tells D.size D.bytes D.unsettled device.old device.new }
    ensures kinds { answer_status result ≢ Status.NotInStep }
    ensures answers { IsWideAnswer D.tells (allowed_of tried.now.memory tried.now.older) (D.bytes device.old)
        tried.now.slot passphrase.now (D.failed device.old) (D.failed device.new) result }
{
    let answer = open_read(alloc, device, tried, passphrase, err);
    note_failure(&answer, tried.volume, err);
    answer
}

/// What is answered by the header that counts, which is read.
fn open_read<D: Device, E: Write>(
    alloc: Global,
    device: &mut D,
    tried: &Tried<'_>,
    passphrase: &[u8],
    err: &mut E,
) -> Answer
    requires room { D.failed device.old + 1 < 2 ^ 64 }
    requires passphrase { length passphrase.now < 2 ^ 32 }
    ensures unchanged { IsUnchanged D.tells D.size D.bytes D.unsettled device.old device.new }
    ensures kinds { answer_status result ≢ Status.NotInStep }
    ensures answers { IsWideAnswer D.tells (allowed_of tried.now.memory tried.now.older) (D.bytes device.old)
        tried.now.slot passphrase.now (D.failed device.old) (D.failed device.new) result }
{
    let volume = tried.volume;
    let allowed = allowed_of(tried.memory, tried.older);
    match read_wide_header(alloc, device) {
        Ok(WideHeader::Narrow(header)) => {
            let trial = Trial {
                volume,
                header: &header,
                passphrase,
                allowed,
            };
            open_narrow(alloc, device, &trial, tried.slot, err)
        }
        Ok(WideHeader::Underway(copy)) => {
            let trial = UnderwayTrial {
                volume,
                copy: &copy,
                passphrase,
                allowed,
            };
            open_underway(alloc, device, &trial, tried.slot, err)
        }
        Err(fault) => unread_header(fault),
    }
}

/// What is answered where the header isn't read.
fn unread_header(fault: WideReadFault) -> Answer
    ensures { result ≡ wide_read_answer fault }
{
    match fault {
        WideReadFault::Read(fault) => Answer::from(OpenFault::from(fault)),
        WideReadFault::Underway { fault, .. } => {
            Answer::Refused(Refusal::Underway(UnderwayRefusal::Metadata(fault)))
        }
    }
}

/// What is answered of a volume whose header was read, in which nothing is under way.
fn open_narrow<D: Device, E: Write>(
    alloc: Global,
    device: &mut D,
    trial: &Trial<'_>,
    slot: Option<u8>,
    err: &mut E,
) -> Answer
    requires room { D.failed device.old + 1 < 2 ^ 64 }
    requires accepted { IsAcceptedHeader trial.now.header.now }
    requires passphrase { length trial.now.passphrase.now < 2 ^ 32 }
    ensures unchanged { IsUnchanged D.tells D.size D.bytes D.unsettled device.old device.new }
    ensures kinds { answer_status result ≢ Status.NotInStep }
    ensures answers { IsOpenAnswer (D.tells × IsHeader (D.bytes device.old) trial.now.header.now)
        trial.now.allowed (D.bytes device.old) slot trial.now.passphrase.now
        (D.failed device.old) (D.failed device.new) result }
{
    match slot {
        Some(n) => open_one(alloc, device, trial, n, err),
        None => open_any(alloc, device, trial, err),
    }
}

/// What a command line allows: so many MiB of memory for Argon2, and ciphers and hashes of older disks
/// or not.
pub fn allowed_of(mib: u32, older: bool) -> Allowed
    ensures { result ≡ allowed_of mib older }
{
    Allowed {
        memory: kib_of(mib),
        older,
    }
}

/// So many MiB in KiB, and no more than a header can name.
pub fn kib_of(mib: u32) -> u32
    ensures { result ≡ kib_of mib }
{
    mib.saturating_mul(1024)
}

fn open_one<D: Device, E: Write>(
    alloc: Global,
    device: &mut D,
    trial: &Trial<'_>,
    n: u8,
    err: &mut E,
) -> Answer
    requires room { D.failed device.old + 1 < 2 ^ 64 }
    requires accepted { IsAcceptedHeader trial.now.header.now }
    requires passphrase { length trial.now.passphrase.now < 2 ^ 32 }
    ensures unchanged { IsUnchanged D.tells D.size D.bytes D.unsettled device.old device.new }
    ensures kinds { answer_status result ≢ Status.NotInStep }
    ensures answers { IsOneAnswer (D.tells × IsHeader (D.bytes device.old) trial.now.header.now)
        trial.now.allowed (D.bytes device.old) n trial.now.passphrase.now
        (D.failed device.old) (D.failed device.new) result }
{
    let Trial {
        header,
        passphrase,
        allowed,
        ..
    } = *trial;
    let opened = try_one(alloc, device, header, n, passphrase, allowed, err);
    one_answer(n, &opened)
}

/// Tries the keyslot `n` of a volume with this header; `err` gets what is to be known of what that gave, but
/// not that a device call failed.
pub fn try_one<D: Device, E: Write>(
    alloc: Global,
    device: &mut D,
    header: &Header,
    n: u8,
    passphrase: &[u8],
    allowed: Allowed,
    err: &mut E,
) -> Result<Option<Key>, OpenFault>
    requires room { D.failed device.old + 1 < 2 ^ 64 }
    requires accepted { IsAcceptedHeader header.now }
    requires passphrase { 0 < allowed.memory → length passphrase.now < 2 ^ 32 }
    ensures unchanged { IsUnchanged D.tells D.size D.bytes D.unsettled device.old device.new }
    ensures count { CountsFailure is_open_failure result
        (D.failed device.old) (D.failed device.new) }
    ensures answers { IsSlotOpening D.tells (D.bytes device.old) header.now allowed n passphrase.now
        result }
{
    let mut nearest = None;
    let opened = try_header_slot(alloc, device, header, n, passphrase, allowed, &mut nearest);
    match &opened {
        Ok(Some(_)) => {
            let _ = note_unbound(header, n, err);
        }
        Ok(None) => note_unopened(nearest, passphrase, err),
        Err(OpenFault::Slot(_)) => note_refused(header, n, device.len(), allowed, err),
        Err(OpenFault::Memory) => note_wanting(header, n, device.len(), allowed, err),
        _ => {}
    }
    opened
}

/// Tries the keyslots of a volume with this header in their turn, likewise.
pub fn try_each<D: Device, E: Write>(
    alloc: Global,
    device: &mut D,
    header: &Header,
    passphrase: &[u8],
    allowed: Allowed,
    err: &mut E,
) -> Result<Option<(u8, Key)>, OpenFault>
    requires room { D.failed device.old + 1 < 2 ^ 64 }
    requires accepted { IsAcceptedHeader header.now }
    requires passphrase { 0 < allowed.memory → length passphrase.now < 2 ^ 32 }
    ensures unchanged { IsUnchanged D.tells D.size D.bytes D.unsettled device.old device.new }
    ensures count { CountsFailure is_open_failure result
        (D.failed device.old) (D.failed device.new) }
    ensures answers { IsHeaderUnlocking D.tells (D.bytes device.old) header.now allowed passphrase.now
        result }
{
    let mut nearest = None;
    let opened = try_header(alloc, device, header, passphrase, allowed, &mut nearest);
    match &opened {
        Ok(Some((n, _))) => {
            let _ = note_unbound(header, *n, err);
        }
        Ok(None) => {
            note_unopened(nearest, passphrase, err);
            note_passed_over(header, device.len(), allowed, err);
        }
        Err(OpenFault::Memory) => note_all_wanting(header, device.len(), allowed, err),
        _ => {}
    }
    opened
}

/// What is answered where opening the keyslot `n` gave this.
fn one_answer(n: u8, opened: &Result<Option<Key>, OpenFault>) -> Answer
    ensures { result ≡ one_answer n opened.now }
{
    match opened {
        Ok(Some(_)) => Answer::Opens(n),
        Ok(None) => Answer::Closed(n),
        Err(fault) => Answer::from(*fault),
    }
}

fn open_any<D: Device, E: Write>(
    alloc: Global,
    device: &mut D,
    trial: &Trial<'_>,
    err: &mut E,
) -> Answer
    requires room { D.failed device.old + 1 < 2 ^ 64 }
    requires accepted { IsAcceptedHeader trial.now.header.now }
    requires passphrase { length trial.now.passphrase.now < 2 ^ 32 }
    ensures unchanged { IsUnchanged D.tells D.size D.bytes D.unsettled device.old device.new }
    ensures kinds { answer_status result ≢ Status.NotInStep }
    ensures answers { IsAnyAnswer (D.tells × IsHeader (D.bytes device.old) trial.now.header.now)
        trial.now.allowed (D.bytes device.old) trial.now.passphrase.now
        (D.failed device.old) (D.failed device.new) result }
{
    let Trial {
        header,
        passphrase,
        allowed,
        ..
    } = *trial;
    let opened = try_each(alloc, device, header, passphrase, allowed, err);
    if let Err(OpenFault::Device) = &opened {
        return open_beside(alloc, device, trial, err);
    }
    any_answer(&opened)
}

/// What is answered once a call has failed as the keyslots were tried: they are tried one by one, while
/// fewer calls have failed than can be counted.
fn open_beside<D: Device, E: Write>(
    alloc: Global,
    device: &mut D,
    trial: &Trial<'_>,
    err: &mut E,
) -> Answer
    requires accepted { IsAcceptedHeader trial.now.header.now }
    requires passphrase { length trial.now.passphrase.now < 2 ^ 32 }
    ensures unchanged { IsUnchanged D.tells D.size D.bytes D.unsettled device.old device.new }
    ensures kinds { answer_status result ≢ Status.NotInStep }
    ensures answers { IsAnswerBeside (D.tells × IsHeader (D.bytes device.old) trial.now.header.now)
        trial.now.allowed (D.bytes device.old) trial.now.passphrase.now
        (D.failed device.old) (D.failed device.new) result }
{
    if device.failures() >= MOST_FAILURES {
        return Answer::DeviceFault;
    }
    match search(alloc, device, trial, err) {
        Some(n) => {
            let _ = note_unbound(trial.header, n, err);
            Answer::Opens(n)
        }
        None => Answer::DeviceFault,
    }
}

/// So many calls may have failed that a search, in which at most 64 do, isn't begun.
const MOST_FAILURES: u64 = u64::MAX - 64;

/// What is answered where opening the volume gave this.
fn any_answer(opened: &Result<Option<(u8, Key)>, OpenFault>) -> Answer
    ensures { result ≡ any_answer opened.now }
{
    match opened {
        Ok(Some((n, _))) => Answer::Opens(*n),
        Ok(None) => Answer::NoneOpens,
        Err(fault) => Answer::from(*fault),
    }
}

/// Says which volume it is, where a device call on it failed.
fn note_failure<E: Write>(answer: &Answer, volume: &str, err: &mut E) {
    if matches!(answer, Answer::DeviceFault) {
        let _ = writeln!(err, "luks: {volume}: reading failed");
    }
}
