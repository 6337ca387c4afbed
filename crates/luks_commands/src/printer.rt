//! Where a command prints its answer.
ghost use Rattle.std.specs.Prelude.{◌≡◌, ◌+◌, ◌<◌, ◌^◌, ℕ, List, Option, OnOk, IfSome};
ghost use Rattle.std.specs.Io.KnownBytes.{Appends};
ghost use Rattle.luks_commands.specs.Printing.{CountsPrint};

use std::fmt::Display;
use std::io::Write;

/// A text wasn't printed, or not to its end.
#[derive(Clone, Copy)]
pub struct Unprinted;

/// What prints texts, and counts the prints that failed.
///
/// A writer of `std` can't tell that a write succeeded, so that a contract over one holds of a body
/// that always answers that it failed. Over a printer it doesn't.
pub trait Printer {
    /// What was printed, where it is known.
    ghost printed: { Self → Option (List ℕ) };

    /// How many prints have failed.
    ghost failures: { Self → ℕ };

    /// Prints the text as `{}` writes it. If it fails, a part of it may be printed.
    fn print<T: Display>(&mut self, text: &T) -> Result<(), Unprinted>
        requires { failures self.old + 1 < 2 ^ 64 }
        ensures count { CountsPrint result (failures self.old) (failures self.new) }
        ensures bytes { OnOk result (IfSome (T.output text.now)
            (Appends (printed self.old) (printed self.new))) };
}

/// A printer that prints to this writer.
#[derive(Drop)]
pub struct CountingPrinter<W> {
    /// The writer.
    pub writer: W,
    /// How many prints have failed.
    pub failures: u64,
}

impl<W> CountingPrinter<W> {
    /// Prints to this writer; no print has failed yet.
    pub fn new(writer: W) -> CountingPrinter<W>
        ensures writer { result.writer ≡ writer }
        ensures failures { result.failures ≡ 0 }
    {
        CountingPrinter {
            writer,
            failures: 0,
        }
    }
}

impl<W: Write> Printer for CountingPrinter<W> {
    ghost printed = { λ p. W.contents p.writer };

    ghost failures = { λ p. p.failures };

    fn print<T: Display>(&mut self, text: &T) -> Result<(), Unprinted> {
        match write!(self.writer, "{text}") {
            Ok(()) => Ok(()),
            Err(_) => {
                self.failures += 1;
                Err(Unprinted)
            }
        }
    }
}
