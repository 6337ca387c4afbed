//! What a command has come to, and how its answer is told.
ghost use Rattle.std.specs.Prelude.{◌≡◌, ◌↔◌, ◌+◌, ◌<◌, ◌^◌, IfOk, IsTrue, string_bytes};
ghost use Rattle.luks_guarded_files.specs.Cached.{cached_failures};
ghost use Rattle.luks_commands.specs.Answer.{answer_status};
ghost use Rattle.luks_commands.specs.Exit.{exit_status};
ghost use Rattle.luks_main.specs.Outcomes.{EndsTold, IsLinesOf, IsMade, IsNoted, IsObjectOf, IsOutcome, MakesBackup};

use crate::FAULT;
use luks_execution::{
    Answer, DerivationProgress, Inputs, Line, Printer, Progress, SearchProgress, Unprinted,
    answer_json, end, execute,
};
use luks_files::{KeptFile, Volume};
use luks_guarded_files::LazyFile;
use std::alloc::{AllocError, Global};
use std::fs::File;
use std::io::Write;
use std::rt::{Clock, Files};

/// What a command has come to.
#[derive(Drop)]
pub(crate) struct Outcome {
    /// What it answers.
    pub(crate) answer: Answer,
    /// What is noted for standard error.
    pub(crate) notes: Vec<u8>,
}

impl Outcome {
    /// The exit status.
    pub(crate) fn status(&self) -> u8
        ensures { result ≡ exit_status (answer_status self.now.answer) }
    {
        self.answer.status() as u8
    }

    /// Whether standard error says what is noted: where that isn't wanted, why a file can't be read.
    pub(crate) fn is_noted(&self, quiet: bool) -> bool
        ensures { IsTrue result ↔ IsNoted quiet self.now.answer }
    {
        !quiet || matches!(self.answer, Answer::DeviceFault)
    }

    /// Whether a backup was made, whichever keyslots it costs, or a key kept: then its file stays.
    pub(crate) fn is_backup(&self) -> bool
        ensures { IsTrue result ↔ MakesBackup self.now.answer }
    {
        matches!(self.answer, Answer::Done(_) | Answer::Rescued(_))
    }

    /// Prints the answer's lines; gives the exit status. If memory for them is refused, that is the
    /// answer.
    pub(crate) fn print_lines<P: Printer>(&self, alloc: Global, out: &mut P) -> u8
        requires { P.failures out.old + 1 < 2 ^ 64 }
        ensures { EndsTold (IsLinesOf self.now.answer) (exit_status (answer_status self.now.answer))
            (P.failures out.old) (P.failures out.new) (P.printed out.old) (P.printed out.new) result }
    {
        let answer = &self.answer;
        print_text(self.status(), format!(in alloc; "{answer}"), out)
    }

    /// Prints the answer as an object, with what is noted before and after it; gives the exit status. Where
    /// memory for the object is refused, that is the answer.
    pub(crate) fn print_object<P: Printer>(&self, alloc: Global, noticed: &[u8], out: &mut P) -> u8
        requires { P.failures out.old + 1 < 2 ^ 64 }
        ensures { EndsTold (IsObjectOf self.now.answer) (exit_status (answer_status self.now.answer))
            (P.failures out.old) (P.failures out.new) (P.printed out.old) (P.printed out.new) result }
    {
        let text = object(alloc, &self.answer, noticed, self.notes.as_slice());
        print_text(self.status(), text, out)
    }
}

/// Prints the text of an answer that ends with this status; gives the exit status.
fn print_text<P: Printer>(status: u8, text: Result<String, AllocError>, out: &mut P) -> u8
    requires { P.failures out.old + 1 < 2 ^ 64 }
    ensures { EndsTold (IsMade string_bytes text) status (P.failures out.old) (P.failures out.new)
        (P.printed out.old) (P.printed out.new) result }
{
    match text {
        Ok(text) => match out.print(&text) {
            Ok(()) => status,
            Err(Unprinted) => FAULT,
        },
        Err(_) => end(&Answer::NoMemory, out),
    }
}

/// The object of the answer, with these lines as hints, and a newline.
fn object(
    alloc: Global,
    answer: &Answer,
    noticed: &[u8],
    notes: &[u8],
) -> Result<String, AllocError>
    ensures { IfOk result (λ text. IsObjectOf answer.now (string_bytes text)) }
{
    let noticed = str::from_utf8(noticed).unwrap_or("");
    let notes = str::from_utf8(notes).unwrap_or("");
    let hints: Vec<&str> = noticed.lines().chain(notes.lines()).collect(alloc)?;
    let text = answer_json(alloc, answer, hints.as_slice())?;
    format!(in alloc; "{text}\n")
}

/// Runs the command, of which nothing is printed yet but what `progress` is told. It isn't inlined, so that it
/// takes nothing of the stack where the answer is told.
#[inline(never)]
pub(crate) fn outcome_of<
    R: AllocGlobal + Clock + Files<File = File>,
    G: Progress + SearchProgress + DerivationProgress,
>(
    alloc: Global,
    line: &Line<'_>,
    inputs: &mut Inputs<Volume, &[u8], LazyFile<'_, R>>,
    kept_file: &mut KeptFile<'_, R>,
    progress: &mut G,
) -> Outcome
    requires volume { IfOk inputs.old.volume (λ device. cached_failures device ≡ 0) }
    requires target { IfOk inputs.old.target (λ device. cached_failures device ≡ 0) }
    ensures { IsOutcome line.now.command result }
{
    let mut notes = Vec::new(alloc);
    let answer = execute(alloc, line, inputs, kept_file, &mut notes, progress);
    Outcome { answer, notes }
}
