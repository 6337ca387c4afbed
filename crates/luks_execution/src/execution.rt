//! What runs a command.
ghost use Rattle.std.specs.Prelude.{◌≡◌, ◌≢◌, ◌+◌, ◌<◌, ◌^◌, IfErr};
ghost use Rattle.std.specs.Result.{ForOk};
ghost use Rattle.luks_area.specs.Device.{IsSettled};
ghost use Rattle.luks_commands.specs.Answer.{answer_status};
ghost use Rattle.luks_commands.specs.Files.{KeepsVolume, LeavesSettled};
ghost use Rattle.luks_commands.specs.declared.answers.Status.{Status as TheStatus};
ghost use Rattle.luks_execution.specs.Executed.{IsExecuted, UnlessBeside, UnlessRestore, UnlessWriter};

use luks_commands::open::Tried;
use luks_commands::{Answer, Inputs, Status, check, format, matching, open, show};
use luks_edit_commands::edit;
use luks_header_commands::{DerivationProgress, Progress, SearchProgress, convert, rebuild};
use luks_keeping_commands::{MakesFile, backup, compare, key, restore, token};
use luks_request::{Command, Line};
use luks_volume::Device;
use std::alloc::Global;
use std::io::{Read, Write};

/// Runs a command over its files, and gives its answer. What whoever reads that can't know, as which file
/// couldn't be read, is said by lines to `err`; that one of these can't be written changes no answer.
///
/// The passphrase is read before the volume, a new one after the old one, and the random bytes after the volume
/// and its target. A backup that is put back or compared is the target, too. The file of a key or a
/// token is made by `maker` once its bytes are there. `progress` is told of each combination that `rebuild` tries by a passphrase,
/// of each derivation of its search by one, and of its search for what checksums vouch for.
///
/// The volume is the bytes of its file that `line.place` names: who calls it has taken that window of
/// the file (`luks_window`), and gives it as the device. So all that is said here of the volume is said
/// of the window, and that no byte beside it ever changes is what every value of a window's type has.
#[tactic(auto, using(luks_commands::proofs::FileFacts::settled_kept))]
pub fn execute<
    D: Device,
    R: Read,
    N: Read,
    M: MakesFile<D>,
    E: Write,
    G: Progress + SearchProgress + DerivationProgress,
>(
    alloc: Global,
    line: &Line<'_>,
    inputs: &mut Inputs<D, R, N>,
    maker: &mut M,
    err: &mut E,
    progress: &mut G,
) -> Answer
    requires room { ForOk inputs.old.volume (λ d. D.failed d + 1 < 2 ^ 64) }
    requires target_room { ForOk inputs.old.target (λ d. D.failed d + 1 < 2 ^ 64) }
    requires settled { D.tells → ForOk inputs.old.volume (IsSettled D.unsettled) }
    requires target_settled { D.tells → ForOk inputs.old.target (IsSettled D.unsettled) }
    ensures settled { UnlessRestore line.now.command (LeavesSettled D.tells D.failed D.unsettled
        inputs.old.volume inputs.new.volume) }
    // No command changes its volume but those that edit, `format` and `restore`.
    ensures unchanged { UnlessWriter line.now.command
        (KeepsVolume D.tells D.size D.bytes D.unsettled inputs.old.volume inputs.new.volume) }
    // `convert`, `rebuild`, the commands on header backups, `key` and `token export` alone make calls on the target.
    ensures target { UnlessBeside line.now.command (inputs.new.target ≡ inputs.old.target) }
    // Without its volume no command succeeds.
    ensures unread { IfErr inputs.old.volume (λ _. (answer_status result ≢ Status.Done)
        × (answer_status result ≢ Status.NotInStep)) }
    ensures executes { IsExecuted D.Device R.Read.remaining N.Read.remaining line.now.command
        line.now.volume.now inputs.old inputs.new result }
{
    let name = line.volume;
    match line.command {
        Command::Check { payload } => check::run(alloc, &mut inputs.volume, name, payload, err),
        Command::Show(form) => show::run(alloc, &mut inputs.volume, name, form, err),
        Command::Open {
            passphrase,
            slot,
            memory,
            older,
        } => {
            let tried = Tried {
                volume: name,
                passphrase,
                slot,
                memory,
                older,
            };
            open::run(alloc, inputs, &tried, err)
        }
        Command::Match(asked) => matching::run(alloc, inputs, name, &asked, err),
        Command::Edit(editing) => edit::run(alloc, inputs, name, &editing, err),
        Command::Format(making) => format::run(alloc, inputs, name, &making, err),
        Command::Convert(converting) => {
            convert::run(alloc, inputs, name, line.place, &converting, err)
        }
        Command::Rebuild(rebuilding) => {
            let place = line.place;
            rebuild::run(alloc, inputs, name, place, &rebuilding, err, progress)
        }
        Command::Backup(backing_up) => backup::run(alloc, inputs, name, &backing_up, err),
        Command::Restore(restoring) => restore::run(alloc, inputs, name, &restoring, err),
        Command::Compare(comparing) => compare::run(alloc, inputs, name, &comparing, err),
        Command::KeepKey(keeping) => key::run(alloc, inputs, name, &keeping, maker, err),
        Command::KeepToken(keeping) => token::run(alloc, inputs, name, &keeping, maker, err),
    }
}
