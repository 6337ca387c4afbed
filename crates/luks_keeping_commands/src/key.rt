//! The command `key`.
ghost use Rattle.std.specs.Prelude.{◌≡◌, ◌≢◌, ◌⊎◌, ◌+◌, ◌<◌, ◌^◌, ◌↔◌, Err, IfErr, IsTrue, length};
ghost use Rattle.std.specs.Result.{ForOk};
ghost use Rattle.luks_area.specs.Device.{CountsFailure, IsUnchanged};
ghost use Rattle.luks_reading.specs.Failures.{is_open_failure};
ghost use Rattle.luks_commands.specs.Answer.{answer_status};
ghost use Rattle.luks_commands.specs.Beside.{IsSameFile};
ghost use Rattle.luks_commands.specs.Files.{IsLong, IsUnread, IsWhole, KeepsVolume};
ghost use Rattle.luks_commands.specs.OpenAnswers.{allowed_of};
ghost use Rattle.luks_keeping_commands.specs.KeepingKey.{AnswersKeyKept, AreNotThree, IsKeyFileAnswer};
ghost use Rattle.luks_keeping_commands.specs.KeepingKey.{IsKeyFound, IsKeyOpened, IsUnderwayFound};
ghost use Rattle.luks_keeping_commands.specs.KeepingKey.{is_key_failure, key_of, opened_by, shut_answer, wide_opened_by};
ghost use Rattle.luks_reading.specs.Header.{IsAcceptedHeader, IsHeader};
ghost use Rattle.luks_wide_reading.specs.Headers.{IsUnderwayCopy};
ghost use Rattle.luks_keeping_commands.specs.KeptFile.{IsExisting};

use crate::backup::is_kept_from;
use crate::kept_file::{Kept, keep_in};
use crate::key_refusal::KeyRefusal;
use crate::made_file::MakesFile;
use luks_commands::open::{allowed_of, try_each, try_one};
use luks_commands::{
    Answer, InputFault, Inputs, PassphraseFault, Refusal, Status, UnderwayRefusal, are_one_file,
    device_fault, passphrase, unread,
};
use luks_reading::{Device, Header, Key, OpenFault};
use luks_request::KeepingKey;
use luks_wide_reading::{
    UnderwayCopy, WideHeader, WideOpenFault, WideReadFault, read_wide_header, try_underway,
    try_underway_slot,
};
use std::alloc::Global;
use std::io::{Read, Write};

/// Writes the volume key that the passphrase opens to a file of its own, which `maker` makes once the key is
/// there; it is `inputs.target` then. The passphrase is read before the volume.
///
/// It isn't inlined, so that it takes no stack where another command runs.
#[inline(never)]
#[tactic(auto, using(luks_commands::proofs::FileFacts::keeps_same))]
pub fn run<D: Device, R: Read, N: Read, M: MakesFile<D>, E: Write>(
    alloc: Global,
    inputs: &mut Inputs<D, R, N>,
    name: &str,
    keeping: &KeepingKey<'_>,
    maker: &mut M,
    err: &mut E,
) -> Answer
    requires { ForOk inputs.old.volume (λ d. D.failed d + 1 < 2 ^ 64) }
    ensures unchanged { KeepsVolume D.tells D.size D.bytes D.unsettled
        inputs.old.volume inputs.new.volume }
    ensures kinds { answer_status result ≢ Status.NotInStep }
    ensures unread { IfErr inputs.old.volume (λ _. answer_status result ≢ Status.Done) }
    ensures same { AreNotThree name.now keeping.now inputs.old.target
        → (inputs.new ≡ inputs.old) × IsSameFile result }
    ensures exists { (AreNotThree name.now keeping.now inputs.old.target → ⊥)
        → IsExisting inputs.old.target
        → (inputs.new ≡ inputs.old) × (result ≡ Answer.Refused Refusal.Exists) }
    ensures answers { (AreNotThree name.now keeping.now inputs.old.target → ⊥)
        → (IsExisting inputs.old.target → ⊥)
        → AnswersKeyKept D.Device (allowed_of keeping.now.memory keeping.now.older) keeping.now.slot
        (IsWhole R.remaining inputs.old.passphrase) (IsLong R.remaining inputs.old.passphrase)
        (IsUnread inputs.old.passphrase) inputs.old.volume inputs.new.volume
        inputs.old.target inputs.new.target result }
{
    if are_not_three(name, keeping, &inputs.target) {
        return Answer::Refused(Refusal::SameFile);
    }
    if is_kept_from(&inputs.target) {
        return Answer::Refused(Refusal::Exists);
    }
    let words = match passphrase(alloc, &mut inputs.passphrase) {
        Ok(words) => words,
        Err(PassphraseFault::TooLong) => return Answer::Refused(Refusal::LongPassphrase),
        Err(PassphraseFault::Input(fault)) => return unread(fault, keeping.passphrase, err),
    };
    let opened = match &mut inputs.volume {
        Ok(device) => open_key(alloc, device, words.as_slice(), keeping, err),
        Err(fault) => return unread(*fault, name, err),
    };
    keep_opened(&opened, name, keeping, maker, &mut inputs.target, err)
}

/// Whether the file of the key is the volume or that of the passphrase, as far as their names say it or it
/// was found.
fn are_not_three<D>(name: &str, keeping: &KeepingKey<'_>, target: &Result<D, InputFault>) -> bool
    ensures { IsTrue result ↔ AreNotThree name.now keeping.now target.now }
{
    are_one_file(name, keeping.target, target) || keeping.passphrase == keeping.target
}

/// The key that the passphrase opens, of the keyslot that is named or else of the first that it opens; where something is
/// under way in the metadata, too.
fn open_key<D: Device, E: Write>(
    alloc: Global,
    device: &mut D,
    passphrase: &[u8],
    keeping: &KeepingKey<'_>,
    err: &mut E,
) -> Result<Option<Key>, KeyRefusal>
    requires room { D.failed device.old + 1 < 2 ^ 64 }
    requires passphrase { length passphrase.now < 2 ^ 32 }
    ensures unchanged { IsUnchanged D.tells D.size D.bytes D.unsettled device.old device.new }
    ensures count { CountsFailure is_key_failure result
        (D.failed device.old) (D.failed device.new) }
    ensures opened { D.tells → IsKeyFound (allowed_of keeping.now.memory keeping.now.older)
        (D.bytes device.old) keeping.now.slot passphrase.now result }
{
    match read_wide_header(alloc, device) {
        Ok(WideHeader::Narrow(header)) => {
            opened_by(open_narrow(alloc, device, &header, passphrase, keeping, err))
        }
        Ok(WideHeader::Underway(copy)) => {
            open_underway(alloc, device, &copy, passphrase, keeping)
        }
        Err(WideReadFault::Read(fault)) => Err(KeyRefusal::Open(OpenFault::from(fault))),
        Err(WideReadFault::Underway { fault, .. }) => {
            Err(KeyRefusal::Underway(UnderwayRefusal::Metadata(fault)))
        }
    }
}

/// Opens a volume in whose metadata nothing is under way.
fn open_narrow<D: Device, E: Write>(
    alloc: Global,
    device: &mut D,
    header: &Header,
    passphrase: &[u8],
    keeping: &KeepingKey<'_>,
    err: &mut E,
) -> Result<Option<Key>, OpenFault>
    requires room { D.failed device.old + 1 < 2 ^ 64 }
    requires passphrase { length passphrase.now < 2 ^ 32 }
    requires accepted { IsAcceptedHeader header.now }
    ensures unchanged { IsUnchanged D.tells D.size D.bytes D.unsettled device.old device.new }
    ensures count { CountsFailure is_open_failure result
        (D.failed device.old) (D.failed device.new) }
    ensures opened { D.tells → IsHeader (D.bytes device.old) header.now
        → IsKeyOpened (allowed_of keeping.now.memory keeping.now.older)
        (D.bytes device.old) keeping.now.slot passphrase.now result }
{
    let allowed = allowed_of(keeping.memory, keeping.older);
    match keeping.slot {
        Some(n) => try_one(alloc, device, header, n, passphrase, allowed, err),
        None => key_of(try_each(alloc, device, header, passphrase, allowed, err)),
    }
}

/// Opens a volume in whose metadata something is under way.
fn open_underway<D: Device>(
    alloc: Global,
    device: &mut D,
    copy: &UnderwayCopy,
    passphrase: &[u8],
    keeping: &KeepingKey<'_>,
) -> Result<Option<Key>, KeyRefusal>
    requires room { D.failed device.old + 1 < 2 ^ 64 }
    requires passphrase { length passphrase.now < 2 ^ 32 }
    ensures unchanged { IsUnchanged D.tells D.size D.bytes D.unsettled device.old device.new }
    ensures count { CountsFailure is_key_failure result
        (D.failed device.old) (D.failed device.new) }
    ensures opened { D.tells → IsUnderwayCopy (D.bytes device.old) copy.now
        → IsUnderwayFound (allowed_of keeping.now.memory keeping.now.older)
        (D.bytes device.old) keeping.now.slot passphrase.now result }
{
    let limits = allowed_of(keeping.memory, keeping.older);
    let mut nearest = None;
    match keeping.slot {
        Some(n) => wide_opened_by(try_underway_slot(
            alloc,
            device,
            copy,
            n,
            passphrase,
            limits,
            &mut nearest,
        )),
        None => opened_by(key_of(try_underway(
            alloc,
            device,
            copy,
            passphrase,
            limits,
            &mut nearest,
        ))),
    }
}

/// What opening gave, by the refusals of any volume.
fn opened_by(opened: Result<Option<Key>, OpenFault>) -> Result<Option<Key>, KeyRefusal>
    ensures { result ≡ opened_by opened }
{
    match opened {
        Ok(found) => Ok(found),
        Err(fault) => Err(KeyRefusal::Open(fault)),
    }
}

/// What opening a named keyslot came to if something is under way.
fn wide_opened_by(opened: Result<Option<Key>, WideOpenFault>) -> Result<Option<Key>, KeyRefusal>
    ensures { result ≡ wide_opened_by opened }
{
    match opened {
        Ok(found) => Ok(found),
        Err(WideOpenFault::Open(fault)) => Err(KeyRefusal::Open(fault)),
        Err(WideOpenFault::NoKey) => Err(KeyRefusal::Underway(UnderwayRefusal::NoKey)),
    }
}

/// The key without its keyslot's number.
fn key_of(opened: Result<Option<(u8, Key)>, OpenFault>) -> Result<Option<Key>, OpenFault>
    ensures { result ≡ key_of opened }
{
    match opened? {
        Some((_, key)) => Ok(Some(key)),
        None => Ok(None),
    }
}

/// Makes the file of the key that was opened, if one was, and writes it there.
fn keep_opened<D: Device, M: MakesFile<D>, E: Write>(
    opened: &Result<Option<Key>, KeyRefusal>,
    name: &str,
    keeping: &KeepingKey<'_>,
    maker: &mut M,
    target: &mut Result<D, InputFault>,
    err: &mut E,
) -> Answer
    ensures { IsKeyFileAnswer D.Device keeping.now.slot opened.now target.old target.new result }
{
    match opened {
        Ok(Some(key)) => {
            let bytes = key.as_bytes();
            *target = maker.make(bytes.len() as u64);
            keep_in(target, bytes, keeping.target, Kept::Key, err)
        }
        Ok(None) => shut_answer(keeping.slot),
        Err(KeyRefusal::Open(OpenFault::Device)) => device_fault(name, "reading failed", err),
        Err(KeyRefusal::Open(fault)) => Answer::from(*fault),
        Err(KeyRefusal::Underway(refusal)) => Answer::Refused(Refusal::Underway(*refusal)),
    }
}

/// What is answered where the passphrase opens nothing: of the keyslot that is named.
fn shut_answer(slot: Option<u8>) -> Answer
    ensures { result ≡ shut_answer slot }
{
    match slot {
        Some(n) => Answer::Closed(n),
        None => Answer::NoneOpens,
    }
}
