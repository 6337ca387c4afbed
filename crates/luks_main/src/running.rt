//! The command line, and what is done for it.
ghost use Rattle.std.specs.Prelude.{◌≡◌, ◌↔◌, ◌+◌, ◌<◌, ◌^◌, IfOk, IfSome, IsNone, IsOk, IsSome, false};
ghost use Rattle.luks_guarded_files.specs.Cached.{cached_failures};
ghost use Rattle.luks_commands.specs.Exit.{IsExitStatus};
ghost use Rattle.luks_guarded_files.specs.Lazy.{file_name};
ghost use Rattle.luks_main.specs.Outcomes.{IsOutcome};
ghost use Rattle.luks_main.specs.Statuses.{IsProgramStatus, MayEnd};

use crate::hints::{Ended, tell, tell_ended, tell_overwritten, use_before};
use crate::new_passphrase::tell_new_passphrase;
use crate::outcome::{Outcome, outcome_of};
use crate::searching::search;
use crate::thorough::tell_search;
use crate::told::{device_fault, explain, list_faults, no_memory, tell_untimed, tell_usage};
use crate::tried::TriedLines;
use crate::{FAULT, USAGE};
use luks_execution::{
    CountingPrinter, DerivationProgress, InputFault, Inputs, Line, OtherUse, Printer, Progress,
    Reason, SearchProgress,
};
use luks_files::{
    KeptFile, Openings, Passphrases, Volume, Volumes, has_changed, open_volumes, reader, take_away,
};
use luks_guarded_files::{Found, LazyFile};
use luks_line::{Asked, Manner, parse};
use luks_timing::Timing;
use luks_wiping::wipe_stack;
use std::alloc::Global;
use std::cell::Cell;
use std::fs::File;
use std::io::{ErrorKind, Write};
use std::rc::Rc;
use std::rt::{Clock, Env, Files};
use std::{env, io};

/// Runs the command line, and answers the exit status: beside those of `luks_execution::execute` 2 where the words
/// are wrong, 0 where a help or an explanation was printed, and 4 where that can't be.
///
/// No clause can say what its files and streams give: the transcripts test it. What a value can say has a
/// clause where that value is made: which file is opened as what (`Openings`), and which status tells an answer.
pub fn run<R: AllocGlobal + Clock + Env + Files<File = File> + Input + Print + Eprint>(rt: &R) -> u8
    ensures { IsProgramStatus result }
{
    run_held(rt).unwrap_or(FAULT)
}

/// Runs the command line with the numbers of the standard streams taken. An error is that of the output.
fn run_held<R: AllocGlobal + Clock + Env + Files<File = File> + Input + Print + Eprint>(
    rt: &R,
) -> io::Result<u8>
    ensures { IfOk result IsProgramStatus }
{
    let Ok(_held) = hold_standard_numbers(rt) else {
        let _ = eprintln!(rt; "luks: the root folder can't be opened");
        return device_fault(rt);
    };
    run_args(rt)
}

fn run_args<R: AllocGlobal + Clock + Env + Files<File = File> + Input + Print + Eprint>(
    rt: &R,
) -> io::Result<u8>
    ensures { IfOk result IsProgramStatus }
{
    let args = match env::args(rt) {
        Ok(args) => args,
        Err(error) if error.kind() == ErrorKind::OutOfMemory => return no_memory(rt),
        Err(_) => {
            let _ = eprintln!(rt; "error: the command line is no text in UTF-8");
            return Ok(USAGE);
        }
    };
    let args: Vec<String> = args.collect(rt.alloc())?;
    let words: Vec<&str> = args.iter().map(|word| word.as_str()).collect(rt.alloc())?;
    run_words(rt, words.as_slice())
}

/// Runs the command that these words name, of which the first is the program's name.
fn run_words<R: AllocGlobal + Clock + Files<File = File> + Input + Print + Eprint>(
    rt: &R,
    words: &[&str],
) -> io::Result<u8>
    ensures { IfOk result IsProgramStatus }
{
    match &parse(rt.alloc(), words) {
        Ok(asked) => run_asked(rt, asked),
        Err(fault) => tell_usage(rt, fault),
    }
}

/// Does what the words ask for; gives the exit status.
fn run_asked<R: AllocGlobal + Clock + Files<File = File> + Input + Print + Eprint>(
    rt: &R,
    asked: &Asked<'_>,
) -> io::Result<u8>
    ensures { IfOk result IsProgramStatus }
{
    match asked {
        Asked::Volume(line, manner) => Ok(run_volume(rt, line, *manner)),
        Asked::Find(asked, manner) => Ok(search(rt, *asked, *manner)),
        Asked::Explain(Some(fault)) => explain(rt, fault),
        Asked::Explain(None) => list_faults(rt),
    }
}

/// Runs the command of this line, and writes over what the stack had of its passphrases.
fn run_volume<R: AllocGlobal + Clock + Files<File = File> + Input + Print + Eprint>(
    rt: &R,
    line: &Line<'_>,
    manner: Manner,
) -> u8
    ensures { IsProgramStatus result }
{
    let status = run_line(rt, line, manner);
    if line.passphrase().is_some() && !wipe_stack() {
        return FAULT;
    }
    status
}

/// Takes the numbers of standard streams that were closed when the program began, so that no volume
/// gets one and is printed into. The root folder stands for them: it can be neither read nor written
/// as a file, so that what is printed to such a stream fails.
fn hold_standard_numbers<R: Files<File = File>>(rt: &R) -> io::Result<[File; 3]> {
    Ok([
        File::open(rt, "/")?,
        File::open(rt, "/")?,
        File::open(rt, "/")?,
    ])
}

/// Runs the command of this line: reads its passphrases, and chooses costs where they are to take a wanted
/// time; gives the exit status, which is the answer's where that could be printed.
fn run_line<R: AllocGlobal + Clock + Files<File = File> + Input + Print + Eprint>(
    rt: &R,
    line: &Line<'_>,
    manner: Manner,
) -> u8
    ensures ends { MayEnd line.now.command result }
    ensures status { IsExitStatus result }
{
    let openings = Openings::of(line);
    let passphrases = Passphrases::read(rt, &openings, manner);
    if !manner.quiet && !passphrases.end_command() {
        tell_new_passphrase(rt, &line.command, &passphrases);
        tell_search(rt, &line.command);
    }
    let noticed = Vec::new(rt.alloc());
    match manner.iter_time {
        Some(milliseconds) if !passphrases.end_command() => {
            run_timed(
                rt,
                line,
                manner,
                milliseconds,
                &openings,
                &passphrases,
                noticed,
            )
        }
        _ => run_read(rt, line, manner, &openings, &passphrases, noticed),
    }
}

/// Runs it with costs that take that many milliseconds. It isn't inlined, so that what Argon2 takes of the
/// stack isn't taken from the command.
#[inline(never)]
fn run_timed<R: AllocGlobal + Clock + Files<File = File> + Input + Print + Eprint>(
    rt: &R,
    line: &Line<'_>,
    manner: Manner,
    milliseconds: u32,
    openings: &Openings<'_>,
    passphrases: &Passphrases,
    mut noticed: Vec<u8>,
) -> u8
    ensures ends { MayEnd line.now.command result }
    ensures status { IsExitStatus result }
{
    let timing = Timing {
        alloc: rt.alloc(),
        clock: rt,
        milliseconds,
    };
    match timing.line(line, &mut noticed) {
        Ok(timed) => run_read(rt, &timed, manner, openings, passphrases, noticed),
        Err(fault) => tell_untimed(rt, &fault, manner.quiet),
    }
}

/// Opens the files of a line whose passphrases were read, in their order, runs its command, prints the
/// answer, and says what is noted.
fn run_read<R: AllocGlobal + Clock + Files<File = File> + Input + Print + Eprint>(
    rt: &R,
    line: &Line<'_>,
    manner: Manner,
    openings: &Openings<'_>,
    passphrases: &Passphrases,
    mut noticed: Vec<u8>,
) -> u8
    ensures ends { MayEnd line.now.command result }
    ensures status { IsExitStatus result }
{
    let ended = passphrases.end_command();
    let standing = if ended { None } else { use_before(rt, line) };
    let volumes = open_volumes(rt, line, openings, ended, &mut noticed);
    let Volumes {
        volume,
        target,
        made,
        is_source,
    } = volumes;
    let mut inputs = inputs_of(rt, volume, target, passphrases, openings);
    let mut kept_file = KeptFile::of(rt, line);
    let mut outcome = outcome_told(rt, line, manner, &mut inputs, &mut kept_file, &is_source);
    let is_noted = outcome.is_noted(manner.quiet);
    if is_noted {
        tell(rt, noticed.as_slice());
        tell(rt, kept_file.notes.as_slice());
    }
    let mut out = CountingPrinter::new(io::writer(rt));
    let printed = print_lines(rt.alloc(), line, &outcome, manner, &mut out);
    take_unfinished(rt, line, made.or(kept_file.made), outcome.is_backup());
    let is_wanted = is_noted || manner.json;
    note_ended(
        rt.alloc(),
        line,
        standing,
        &mut inputs,
        &mut outcome,
        is_wanted,
    );
    drop(inputs);
    if is_noted {
        tell(rt, outcome.notes.as_slice());
    }
    match printed {
        Some(status) => status,
        None => outcome.print_object(rt.alloc(), noticed.as_slice(), &mut out),
    }
}

/// What the command comes to; on a terminal what `rebuild` tries is told meanwhile.
fn outcome_told<R: AllocGlobal + Clock + Files<File = File> + Eprint>(
    rt: &R,
    line: &Line<'_>,
    manner: Manner,
    inputs: &mut Inputs<Volume, &[u8], LazyFile<'_, R>>,
    kept_file: &mut KeptFile<'_, R>,
    is_source: &Option<Rc<Cell<bool>>>,
) -> Outcome
    requires volume { IfOk inputs.old.volume (λ device. cached_failures device ≡ 0) }
    requires target { IfOk inputs.old.target (λ device. cached_failures device ≡ 0) }
    ensures { IsOutcome line.now.command result }
{
    let mut lines = TriedLines::new(rt, line, manner.quiet);
    let outcome = outcome_beside(rt.alloc(), line, inputs, kept_file, &mut lines, is_source);
    lines.clear();
    outcome
}

/// What the command comes to: that both its files are one, where its target, or the file of its key or token, has
/// turned out to be its source.
fn outcome_beside<
    R: AllocGlobal + Clock + Files<File = File>,
    G: Progress + SearchProgress + DerivationProgress,
>(
    alloc: Global,
    line: &Line<'_>,
    inputs: &mut Inputs<Volume, &[u8], LazyFile<'_, R>>,
    kept_file: &mut KeptFile<'_, R>,
    progress: &mut G,
    is_source: &Option<Rc<Cell<bool>>>,
) -> Outcome
    requires volume { IfOk inputs.old.volume (λ device. cached_failures device ≡ 0) }
    requires target { IfOk inputs.old.target (λ device. cached_failures device ≡ 0) }
    ensures { IsOutcome line.now.command result }
{
    let outcome = outcome_of(alloc, line, inputs, kept_file, progress);
    if !has_turned_out(is_source) && !has_turned_out(&kept_file.is_source) {
        return outcome;
    }
    inputs.volume = Err(InputFault::Absent);
    inputs.target = Err(InputFault::Unreadable(Reason::SameFile));
    outcome_of(alloc, line, inputs, kept_file, progress)
}

/// Whether a target has turned out to be its source.
fn has_turned_out(is_source: &Option<Rc<Cell<bool>>>) -> bool {
    match is_source {
        Some(is_source) => is_source.get(),
        None => false,
    }
}

/// Takes away the file that was made for a backup, a key or a token, where that isn't there.
fn take_unfinished<R: Clock + Files<File = File>>(
    rt: &R,
    line: &Line<'_>,
    made: Option<Found>,
    is_backup: bool,
) {
    if let (Some(made), Some(name)) = (made, line.target()) {
        if !is_backup {
            take_away(rt, name, &made);
        }
    }
}

/// Prints the answer's lines, where they tell it; gives the exit status then.
fn print_lines<P: Printer>(
    alloc: Global,
    line: &Line<'_>,
    outcome: &Outcome,
    manner: Manner,
    out: &mut P,
) -> Option<u8>
    requires printer { P.failures out.old + 1 < 2 ^ 64 }
    requires outcome { IsOutcome line.now.command outcome.now }
    ensures ends { IfSome result (MayEnd line.now.command) }
    ensures status { IfSome result IsExitStatus }
    ensures object { IsNone result → out.new ≡ out.old }
{
    if manner.json {
        return None;
    }
    Some(outcome.print_lines(alloc, out))
}

/// Notes what is to be known of how the command has ended, beside what it noted itself, where that is wanted; else no
/// file is read for it.
fn note_ended<R: Files<File = File>>(
    alloc: Global,
    line: &Line<'_>,
    standing: Option<OtherUse>,
    inputs: &mut Inputs<Volume, &[u8], LazyFile<'_, R>>,
    outcome: &mut Outcome,
    is_wanted: bool,
)
    ensures answer { outcome.new.answer ≡ outcome.old.answer }
    ensures unasked { is_wanted ≡ false → inputs.new ≡ inputs.old }
{
    if !is_wanted {
        return;
    }
    let is_silent = outcome.notes.is_empty();
    if has_changed(&inputs.volume) {
        note_changed(line.volume, &mut outcome.notes);
    }
    let Outcome { answer, notes } = outcome;
    tell_overwritten(line.volume, standing, answer, notes);
    let ended = Ended { answer, is_silent };
    let (volume, target) = (&mut inputs.volume, &mut inputs.target);
    tell_ended(alloc, line, &ended, volume, target, notes);
}

/// Notes that an edit ended since another program had written the header, in place of what it noted.
fn note_changed(volume: &str, notes: &mut Vec<u8>) {
    notes.clear();
    let _ = writeln!(
        notes,
        "luks: {volume}: another program wrote it meanwhile, nothing was written"
    );
}

/// What the command is given: the volumes, the passphrase and the new one as they were read, and the file of
/// the random bytes, of any kind, which the command reads last, and opens then.
fn inputs_of<'a, R: Files<File = File>>(
    rt: &'a R,
    volume: Result<Volume, InputFault>,
    target: Result<Volume, InputFault>,
    passphrases: &'a Passphrases,
    openings: &Openings<'a>,
) -> Inputs<Volume, &'a [u8], LazyFile<'a, R>>
    requires volume_count { IfOk volume (λ device. cached_failures device ≡ 0) }
    requires target_count { IfOk target (λ device. cached_failures device ≡ 0) }
    ensures volume { result.volume ≡ volume }
    ensures target { result.target ≡ target }
    ensures volume_count { IfOk result.volume (λ device. cached_failures device ≡ 0) }
    ensures target_count { IfOk result.target (λ device. cached_failures device ≡ 0) }
    ensures passphrase { IsOk result.passphrase ↔ IsOk passphrases.now.old }
    ensures passphrase_bytes { IfOk passphrases.now.old (λ secret.
        IfOk result.passphrase (λ bytes. bytes.now ≡ secret)) }
    ensures new { IsOk result.new_passphrase ↔ IsOk passphrases.now.new }
    ensures new_bytes { IfOk passphrases.now.new (λ secret.
        IfOk result.new_passphrase (λ bytes. bytes.now ≡ secret)) }
    ensures random { IsOk result.random ↔ IsSome openings.now.random }
    ensures random_name { IfSome openings.now.random (λ opening.
        IfOk result.random (λ file. file_name file ≡ opening.name.now)) }
{
    Inputs {
        volume,
        target,
        passphrase: reader(&passphrases.old),
        new_passphrase: reader(&passphrases.new),
        random: match openings.random {
            Some(opening) => Ok(LazyFile::new(rt, opening.name)),
            None => Err(InputFault::Absent),
        },
    }
}
