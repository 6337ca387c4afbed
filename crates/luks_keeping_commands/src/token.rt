//! The command `token export` to a file.
ghost use Rattle.std.specs.Prelude.{◌≡◌, ◌≢◌, ◌+◌, ◌<◌, ◌^◌, IfErr, IfOk, string_bytes};
ghost use Rattle.std.specs.Result.{ForOk};
ghost use Rattle.luks_commands.specs.Answer.{answer_status};
ghost use Rattle.luks_commands.specs.Beside.{AreOneFile, IsSameFile};
ghost use Rattle.luks_commands.specs.Files.{KeepsVolume};
ghost use Rattle.luks_keeping_commands.specs.KeepingToken.{IsTokenFileAnswer, IsTokenKept, line_of};
ghost use Rattle.luks_keeping_commands.specs.KeptFile.{IsExisting};

use crate::backup::is_kept_from;
use crate::kept_file::{Kept, keep_in};
use crate::made_file::MakesFile;
use luks_commands::{Answer, InputFault, Inputs, Refusal, Status, are_one_file, show};
use luks_reading::Device;
use luks_request::{KeepingToken, ShowAs};
use std::alloc::{AllocError, Global};
use std::io::{Read, Write};

/// Writes the text of the token with this number, and a newline, to a file of its own, which `maker` makes once
/// the text is there; it is `inputs.target` then.
///
/// It isn't inlined, so that it takes no stack where another command runs.
#[inline(never)]
#[tactic(auto, using(luks_commands::proofs::FileFacts::keeps_same))]
pub fn run<D: Device, R: Read, N: Read, M: MakesFile<D>, E: Write>(
    alloc: Global,
    inputs: &mut Inputs<D, R, N>,
    name: &str,
    keeping: &KeepingToken<'_>,
    maker: &mut M,
    err: &mut E,
) -> Answer
    requires { ForOk inputs.old.volume (λ d. D.failed d + 1 < 2 ^ 64) }
    ensures unchanged { KeepsVolume D.tells D.size D.bytes D.unsettled
        inputs.old.volume inputs.new.volume }
    ensures kinds { answer_status result ≢ Status.NotInStep }
    ensures unread { IfErr inputs.old.volume (λ _. answer_status result ≢ Status.Done) }
    ensures same { AreOneFile name.now keeping.now.target.now inputs.old.target
        → (inputs.new ≡ inputs.old) × IsSameFile result }
    ensures exists { (AreOneFile name.now keeping.now.target.now inputs.old.target → ⊥)
        → IsExisting inputs.old.target
        → (inputs.new ≡ inputs.old) × (result ≡ Answer.Refused Refusal.Exists) }
    ensures answers { (AreOneFile name.now keeping.now.target.now inputs.old.target → ⊥)
        → (IsExisting inputs.old.target → ⊥)
        → IsTokenKept D.Device keeping.now.number inputs.old.volume inputs.new.volume
        inputs.old.target inputs.new.target result }
{
    if are_one_file(name, keeping.target, &inputs.target) {
        return Answer::Refused(Refusal::SameFile);
    }
    if is_kept_from(&inputs.target) {
        return Answer::Refused(Refusal::Exists);
    }
    let form = ShowAs::Token(keeping.number);
    let shown = show::run(alloc, &mut inputs.volume, name, form, err);
    keep_shown(shown, keeping.target, maker, &mut inputs.target, err)
}

/// Makes the file of the token that was shown, if one was, and writes it there.
fn keep_shown<D: Device, M: MakesFile<D>, E: Write>(
    shown: Answer,
    file: &str,
    maker: &mut M,
    target: &mut Result<D, InputFault>,
    err: &mut E,
) -> Answer
    ensures answers { IsTokenFileAnswer D.Device shown target.old target.new result }
    ensures kinds { answer_status shown ≢ Status.NotInStep
        → answer_status result ≢ Status.NotInStep }
    ensures done { answer_status shown ≢ Status.Done → answer_status result ≢ Status.Done }
{
    match shown {
        Answer::Json(text) => match line_of(text) {
            Ok(line) => {
                let bytes = line.as_bytes();
                *target = maker.make(bytes.len() as u64);
                keep_in(target, bytes, file, Kept::Token, err)
            }
            Err(AllocError) => Answer::NoMemory,
        },
        shown => shown,
    }
}

/// The text and a newline.
fn line_of(mut text: String) -> Result<String, AllocError>
    ensures { IfOk result (λ line. string_bytes line ≡ line_of (string_bytes text)) }
{
    text.push_str("\n")?;
    Ok(text)
}
