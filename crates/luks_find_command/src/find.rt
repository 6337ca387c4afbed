//! The command `find`.
ghost use Rattle.std.specs.Prelude.{◌≡◌, ◌≢◌, ◌+◌, ◌<◌, ◌^◌, IfErr};
ghost use Rattle.std.specs.Result.{ForOk};
ghost use Rattle.luks_area.specs.Device.{IsSettled, IsUnchanged};
ghost use Rattle.luks_commands.specs.Exit.{IsExitStatus};
ghost use Rattle.luks_commands.specs.Files.{KeepsVolume};
ghost use Rattle.luks_find_command.specs.FindAnswers.{run_of, AnswersFind, IsFindRun};
ghost use Rattle.luks_find_command.specs.Searches.{EndsAll, EndsEarly, Finishes, MayEnd, MayPrint};

use crate::lines::NoneFound;
use crate::notes::note_found;
use crate::progress::Progress;
use crate::searched::Searched;
use crate::searching::search;
use crate::stop::Stop;
use luks_commands::{Answer, InputFault, Printer, Status, Unprinted, end, unread};
use luks_reading::Device;
use luks_request::Place;
use std::alloc::Global;
use std::io::Write;

/// Prints where volumes begin on the file of this name, and what `check` says of each, as soon as it is
/// found; answers the exit status. `volume` is the bytes of the file at this place. `progress` is told
/// after each step how far the search is, and what it passes over where reading fails: the search goes on
/// behind it, and ends with `device fault`. It is told, too, which volumes have one uuid, of the first 64
/// uuids, each with the first volume that has it.
pub fn run<D: Device, P: Printer, E: Write, G: Progress>(
    alloc: Global,
    volume: &mut Result<D, InputFault>,
    name: &str,
    place: Place,
    out: &mut P,
    err: &mut E,
    progress: &mut G,
) -> u8
    requires room { ForOk volume.old (λ d. D.failed d + 1 < 2 ^ 64) }
    requires settled { D.tells → ForOk volume.old (IsSettled D.unsettled) }
    requires printer { P.failures out.old + 1 < 2 ^ 64 }
    ensures unchanged { KeepsVolume D.tells D.size D.bytes D.unsettled volume.old volume.new }
    ensures status { IsExitStatus result }
    ensures kinds { result ≢ 3 }
    ensures unread { IfErr volume.old (λ _. result ≡ 4) }
    ensures answers { AnswersFind D.tells D.size D.bytes D.failed place.offset volume.old volume.new
        (P.failures out.old) (P.failures out.new) (P.printed out.old) (P.printed out.new)
        (G.heard progress.old) (G.heard progress.new) (G.paired progress.old) (G.paired progress.new) result }
{
    let file = Searched {
        name,
        offset: place.offset,
    };
    match std::mem::replace(volume, Err(InputFault::Absent)) {
        Ok(device) => {
            let (device, status) = find_on(alloc, device, &file, out, err, progress);
            *volume = Ok(device);
            status
        }
        Err(fault) => {
            *volume = Err(fault);
            end(&unread(fault, name, err), out)
        }
    }
}

/// Searches a device that is there, which is handed back.
fn find_on<D: Device, P: Printer, E: Write, G: Progress>(
    alloc: Global,
    device: D,
    file: &Searched<'_>,
    out: &mut P,
    err: &mut E,
    progress: &mut G,
) -> (D, u8)
    requires room { D.failed device + 1 < 2 ^ 64 }
    requires settled { D.tells → IsSettled D.unsettled device }
    requires printer { P.failures out.old + 1 < 2 ^ 64 }
    ensures unchanged { IsUnchanged D.tells D.size D.bytes D.unsettled device result.0 }
    ensures answers { IsFindRun D.tells file.now.offset (D.size device) (D.bytes device)
        (run_of (D.failed device) (D.failed result.0) (P.failures out.old) (P.failures out.new)
        (P.printed out.old) (P.printed out.new) (G.heard progress.old) (G.heard progress.new)
        (G.paired progress.old) (G.paired progress.new) result.1) }
{
    let (device, ended) = search(alloc, device, file, out, err, progress);
    let status = finish(ended, out, err);
    (device, status)
}

/// Prints the last line of a search that found so many volumes or stopped, where it has one; answers
/// the exit status.
fn finish<P: Printer, E: Write>(ended: Result<u64, Stop>, out: &mut P, err: &mut E) -> u8
    requires { MayEnd ended (P.failures out.old) }
    ensures { Finishes ended (P.failures out.old) (P.failures out.new)
        (P.printed out.old) (P.printed out.new) result }
{
    match ended {
        Ok(found) => end_all(found, out, err),
        Err(stop) => end_early(stop, out),
    }
}

/// Says how many volumes were found, and prints a line where there is none; answers the exit status.
fn end_all<P: Printer, E: Write>(found: u64, out: &mut P, err: &mut E) -> u8
    requires { P.failures out.old + 1 < 2 ^ 64 }
    ensures { EndsAll found (P.failures out.old) (P.failures out.new)
        (P.printed out.old) (P.printed out.new) result }
{
    note_found(found, err);
    if found > 0 {
        return Status::Done as u8;
    }
    match out.print(&NoneFound) {
        Ok(()) => Status::Refused as u8,
        Err(Unprinted) => Status::Fault as u8,
    }
}

/// Prints why the search stopped before the end of its device; answers the exit status.
fn end_early<P: Printer>(stop: Stop, out: &mut P) -> u8
    requires { MayPrint stop (P.failures out.old) }
    ensures { EndsEarly stop (P.failures out.old) (P.failures out.new)
        (P.printed out.old) (P.printed out.new) result }
{
    match stop {
        Stop::Device => end(&Answer::DeviceFault, out),
        Stop::Memory => end(&Answer::NoMemory, out),
        Stop::Unprinted => Status::Fault as u8,
    }
}
