//! The command `open` of a key.
ghost use Rattle.std.specs.Prelude.{◌≡◌, ◌≢◌, ◌+◌, ◌<◌, ◌^◌, IfErr};
ghost use Rattle.std.specs.Result.{ForOk};
ghost use Rattle.luks_area.specs.Device.{CountsFailure, IsUnchanged};
ghost use Rattle.luks_commands.specs.Answer.{answer_status};
ghost use Rattle.luks_commands.specs.Files.{IsLong, IsUnread, IsWhole, KeepsVolume};
ghost use Rattle.luks_commands.specs.KeyAnswers.{AnswersKey, IsKeyAnswer, key_answer, matching_answer};
ghost use Rattle.luks_reading.specs.Header.{IsAcceptedHeader};
ghost use Rattle.luks_reading.specs.KeyAnswers.{is_key_failure, IsKeyAnswered};

use crate::answers::{Answer, Refusal, Status, device_fault, unread};
use crate::inputs::Inputs;
use crate::passphrase_file::{PassphraseFault, passphrase};
use luks_reading::{Device, Header, KeyFault, KeyMatch, match_header_key, read_header};
use luks_request::Matching;
use std::alloc::Global;
use std::io::{Read, Write};

/// Answers whether the key is the volume's; `err` gets what standard error says. The key is read before
/// the volume.
#[tactic(auto, using(crate::proofs::FileFacts::keeps_same))]
pub fn run<D: Device, R: Read, N: Read, E: Write>(
    alloc: Global,
    inputs: &mut Inputs<D, R, N>,
    volume: &str,
    matching: &Matching<'_>,
    err: &mut E,
) -> Answer
    requires { ForOk inputs.old.volume (λ d. D.failed d + 1 < 2 ^ 64) }
    ensures unchanged { KeepsVolume D.tells D.size D.bytes D.unsettled inputs.old.volume inputs.new.volume }
    ensures target { inputs.new.target ≡ inputs.old.target }
    ensures kinds { answer_status result ≢ Status.NotInStep }
    ensures unread { IfErr inputs.old.volume (λ _. answer_status result ≢ Status.Done) }
    ensures answers { AnswersKey D.tells D.bytes D.failed matching.now.digest matching.now.older
        (IsWhole R.remaining inputs.old.passphrase) (IsLong R.remaining inputs.old.passphrase)
        (IsUnread inputs.old.passphrase) inputs.old.volume inputs.new.volume result }
{
    let key = match passphrase(alloc, &mut inputs.passphrase) {
        Ok(key) => key,
        Err(PassphraseFault::TooLong) => return Answer::Refused(Refusal::LongPassphrase),
        Err(PassphraseFault::Input(fault)) => return unread(fault, matching.key, err),
    };
    match &mut inputs.volume {
        Ok(device) => match_device(alloc, device, volume, key.as_slice(), matching, err),
        Err(fault) => unread(*fault, volume, err),
    }
}

/// Judges the key by a volume that is there.
fn match_device<D: Device, E: Write>(
    alloc: Global,
    device: &mut D,
    volume: &str,
    key: &[u8],
    matching: &Matching<'_>,
    err: &mut E,
) -> Answer
    requires { D.failed device.old + 1 < 2 ^ 64 }
    ensures unchanged { IsUnchanged D.tells D.size D.bytes D.unsettled device.old device.new }
    ensures kinds { answer_status result ≢ Status.NotInStep }
    ensures answers { IsKeyAnswer D.tells (D.bytes device.old) matching.now.digest matching.now.older key.now
        (D.failed device.old) (D.failed device.new) result }
{
    let judged = judge(alloc, device, key, matching, err);
    answer_of(&judged, volume, err)
}

/// Judges the key, and notes what standard error says of that.
fn judge<D: Device, E: Write>(
    alloc: Global,
    device: &mut D,
    key: &[u8],
    matching: &Matching<'_>,
    err: &mut E,
) -> Result<KeyMatch, KeyFault>
    requires { D.failed device.old + 1 < 2 ^ 64 }
    ensures unchanged { IsUnchanged D.tells D.size D.bytes D.unsettled device.old device.new }
    ensures count { CountsFailure is_key_failure result (D.failed device.old) (D.failed device.new) }
    ensures told { D.tells → IsKeyAnswered (D.bytes device.old) matching.now.digest matching.now.older key.now
        result }
{
    let header = read_header(alloc, device)?;
    let judged = match_header_key(&header, key, matching.digest, matching.older);
    note_judged(&header, key, matching, &judged, err);
    judged
}

/// Says by which digest of LUKS2 the key was judged, or that with `--older` it isn't refused.
fn note_judged<E: Write>(
    header: &Header,
    key: &[u8],
    matching: &Matching<'_>,
    judged: &Result<KeyMatch, KeyFault>,
    err: &mut E,
)
    requires { IsAcceptedHeader header.now }
{
    match (header, judged) {
        (Header::Luks2(_), Ok(found)) => {
            let _ = writeln!(err, "luks: judged by digest {}", found.digest);
        }
        (_, Err(KeyFault::Hash)) if !matching.older && is_older(header, key, matching) => {
            let _ = writeln!(
                err,
                "luks: the digest's hash is of older disks: --older allows it"
            );
        }
        _ => {}
    }
}

/// Whether the key isn't refused where hashes of older disks are accepted.
fn is_older(header: &Header, key: &[u8], matching: &Matching<'_>) -> bool
    requires { IsAcceptedHeader header.now }
{
    match_header_key(header, key, matching.digest, true).is_ok()
}

/// What is answered where judging a key of the volume of this name gave this.
fn answer_of<E: Write>(judged: &Result<KeyMatch, KeyFault>, volume: &str, err: &mut E) -> Answer
    ensures { result ≡ key_answer judged.now }
{
    match judged {
        Ok(found) => matching_answer(found.matches),
        Err(KeyFault::Device) => device_fault(volume, "reading failed", err),
        Err(fault) => Answer::from(*fault),
    }
}

/// What is answered where the key is the volume's, or where it isn't.
fn matching_answer(matches: bool) -> Answer
    ensures { result ≡ matching_answer matches }
{
    if matches {
        Answer::Matches
    } else {
        Answer::Differs
    }
}
