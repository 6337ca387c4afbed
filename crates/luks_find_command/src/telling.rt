//! A volume that was found is told.
ghost use Rattle.std.specs.Prelude.{◌≡◌, ◌≢◌, ◌+◌, ◌<◌, ◌≤◌, ◌^◌, [], ◌∷◌, drop, IfErr, IfSome, OnOk};
ghost use Rattle.std.specs.Io.KnownBytes.{Appends};
ghost use Rattle.luks_area.specs.Device.{IsSettled, IsUnchanged};
ghost use Rattle.luks_commands.specs.declared.answers.Answer.{Answer};
ghost use Rattle.luks_find_command.specs.Lines.{start_line, IsVerdict};
ghost use Rattle.luks_find_command.specs.SameUuids.{HasUuid};
ghost use Rattle.luks_find_command.specs.Searches.{told_of, TellsStepBy};
ghost use Rattle.luks_find_command.specs.Stops.{StopsBy};
ghost use Rattle.luks_find_command.specs.declared.stop.Stop.{Stop};

use crate::check_at::{Checked, check_at};
use crate::lines::StartLine;
use crate::met::{MOST_MET, Met, tell_pair};
use crate::notes::{note_next, note_unread};
use crate::progress::Progress;
use crate::searched::Searched;
use crate::stop::Stop;
use arrayvec::ArrayVec;
use luks_commands::{Answer, Printer, Unprinted};
use luks_finding::begins_luks1;
use luks_reading::Device;
use std::alloc::Global;
use std::io::Write;

/// Prints the line of the volume that begins at `start`, and says what to do next with it. If not all
/// can be read that `check` needs, the line ends with `device fault`. Where a volume with its uuid was met
/// before, `progress` is told so.
pub(crate) fn tell<D: Device, P: Printer, E: Write, G: Progress>(
    alloc: Global,
    device: D,
    start: u64,
    met: &mut ArrayVec<Met, MOST_MET>,
    file: &Searched<'_>,
    out: &mut P,
    err: &mut E,
    progress: &mut G,
) -> (D, Result<(), Stop>)
    requires inside { start ≤ D.size device }
    requires room { D.failed device + 1 < 2 ^ 64 }
    requires settled { D.tells → IsSettled D.unsettled device }
    requires printer { P.failures out.old + 1 < 2 ^ 64 }
    ensures unchanged { IsUnchanged D.tells D.size D.bytes D.unsettled device result.0 }
    ensures failing { (D.failed device ≤ D.failed result.0) × (D.failed result.0 ≤ D.failed device + 1) }
    ensures counts { IfErr result.1 (λ stop. StopsBy stop (D.failed device) (D.failed result.0)
        (P.failures out.old) (P.failures out.new)) }
    ensures kinds { IfErr result.1 (λ stop. stop ≢ Stop.Device) }
    ensures count { OnOk result.1 (P.failures out.new ≡ P.failures out.old) }
    ensures heard { G.heard progress.new ≡ G.heard progress.old }
    ensures told { D.tells → TellsStepBy (D.failed device < D.failed result.0) file.now.offset (D.bytes device)
        (start ∷ []) (told_of (P.printed out.old) met.old.items (G.paired progress.old))
        (told_of (P.printed out.new) met.new.items (G.paired progress.new)) result.1 }
{
    let (checked, device) = check_at(alloc, device, start, file, err);
    match checked.verdict {
        Answer::DeviceFault => {
            let told = tell_unread(start, file, out, err);
            (device, told)
        }
        Answer::NoMemory => (device, Err(Stop::Memory)),
        verdict => {
            let checked = Checked {
                verdict,
                uuid: checked.uuid,
            };
            tell_verdict(device, start, checked, met, file, out, err, progress)
        }
    }
}

/// Tells a volume of which `check` needs bytes that can't be read, whoever found that.
pub(crate) fn tell_unread<P: Printer, E: Write>(
    start: u64,
    file: &Searched<'_>,
    out: &mut P,
    err: &mut E,
) -> Result<(), Stop>
    requires { P.failures out.old + 1 < 2 ^ 64 }
    ensures unprinted { IfErr result (λ stop. (stop ≡ Stop.Unprinted)
        × (P.failures out.new ≡ P.failures out.old + 1)) }
    ensures count { OnOk result (P.failures out.new ≡ P.failures out.old) }
    ensures told { OnOk result (IfSome (start_line (file.now.offset + start) Answer.DeviceFault)
        (Appends (P.printed out.old) (P.printed out.new))) }
{
    let line = StartLine {
        offset: u128::from(start) + u128::from(file.offset),
        verdict: Answer::DeviceFault,
    };
    match out.print(&line) {
        Ok(()) => {
            note_unread(file.name, line.offset, err);
            Ok(())
        }
        Err(Unprinted) => Err(Stop::Unprinted),
    }
}

/// Tells a volume for which `check` gives this answer.
fn tell_verdict<D: Device, P: Printer, E: Write, G: Progress>(
    device: D,
    start: u64,
    checked: Checked,
    met: &mut ArrayVec<Met, MOST_MET>,
    file: &Searched<'_>,
    out: &mut P,
    err: &mut E,
    progress: &mut G,
) -> (D, Result<(), Stop>)
    requires inside { start ≤ D.size device }
    requires room { D.failed device + 1 < 2 ^ 64 }
    requires says { D.tells → IsVerdict (drop start (D.bytes device)) checked.verdict }
    requires uuid { D.tells → HasUuid (drop start (D.bytes device)) checked.uuid }
    requires printer { P.failures out.old + 1 < 2 ^ 64 }
    ensures unchanged { IsUnchanged D.tells D.size D.bytes D.unsettled device result.0 }
    ensures failing { (D.failed device ≤ D.failed result.0) × (D.failed result.0 ≤ D.failed device + 1) }
    ensures counts { IfErr result.1 (λ stop. StopsBy stop (D.failed device) (D.failed result.0)
        (P.failures out.old) (P.failures out.new)) }
    ensures kinds { IfErr result.1 (λ stop. stop ≢ Stop.Device) }
    ensures count { OnOk result.1 (P.failures out.new ≡ P.failures out.old) }
    ensures heard { G.heard progress.new ≡ G.heard progress.old }
    ensures told { D.tells → TellsStepBy (D.failed device < D.failed result.0) file.now.offset (D.bytes device)
        (start ∷ []) (told_of (P.printed out.old) met.old.items (G.paired progress.old))
        (told_of (P.printed out.new) met.new.items (G.paired progress.new)) result.1 }
{
    let mut device = device;
    let luks1 = match begins_luks1(&mut device, start) {
        Ok(luks1) => luks1,
        Err(_) => false,
    };
    let line = StartLine {
        offset: u128::from(file.offset) + u128::from(start),
        verdict: checked.verdict,
    };
    match out.print(&line) {
        Ok(()) => {
            note_next(&line.verdict, luks1, file.name, line.offset, err);
            tell_pair(checked.uuid, line.offset, met, progress);
            (device, Ok(()))
        }
        Err(Unprinted) => (device, Err(Stop::Unprinted)),
    }
}
