//! The passphrases of a command line.
ghost use Rattle.std.specs.Prelude.{◌≡◌, ◌≢◌, ◌⊎◌, ◌↔◌, Err, IfErr, IfOk, IfSome, IsOk, IsTrue, None, take};
ghost use Rattle.luks_commands.specs.FirstLine.{first_line};
ghost use Rattle.luks_files.specs.Passphrases.{EndsCommand};

use crate::openings::{Opening, Openings};
use crate::typing::tell_typing;
use luks_commands::{InputFault, first_bytes, first_line};
use luks_line::Manner;
use luks_wiping::Secret;
use std::alloc::Global;
use std::fs::File;
use std::io::Read;
use std::rt::Files;

/// The most bytes that a passphrase has; of a longer one `first_bytes` and `first_line` give one more.
const LONGEST_PASSPHRASE: usize = 65536;

/// What was read of the passphrases' files, before the volume is opened.
#[derive(Drop)]
pub struct Passphrases {
    /// The passphrase.
    pub old: Result<Secret, InputFault>,
    /// The new passphrase.
    pub new: Result<Secret, InputFault>,
}

impl Passphrases {
    /// Reads the file of the passphrase, and then that of the new one. Where the first ends the
    /// command, the second isn't opened.
    pub fn read<R: AllocGlobal + Files<File = File> + Input + Eprint>(
        rt: &R,
        openings: &Openings<'_>,
        manner: Manner,
    ) -> Self
        ensures unnamed { (result.old ≡ Err InputFault.Absent) ↔ (openings.now.passphrase ≡ None) }
        ensures ended { EndsCommand result.old → result.new ≡ Err InputFault.Absent }
        ensures new_unnamed { (EndsCommand result.old → ⊥) → ((result.new ≡ Err InputFault.Absent)
            ↔ (openings.now.new_passphrase ≡ None)) }
    {
        let part = Part::of(manner.passphrase_line);
        let old = passphrase(rt, openings.passphrase, part, manner.quiet);
        if ends_command(&old) {
            return Passphrases {
                old,
                new: Err(InputFault::Absent),
            };
        }
        let part = Part::of(manner.new_line);
        Passphrases {
            old,
            new: passphrase(rt, openings.new_passphrase, part, manner.quiet),
        }
    }

    /// Whether one of them ends the command, so that no volume is opened.
    pub fn end_command(&self) -> bool
        ensures { IsTrue result ↔ EndsCommand self.now.old ⊎ EndsCommand self.now.new }
    {
        ends_command(&self.old) || ends_command(&self.new)
    }
}

/// Whether the command ends by what was read: a passphrase that its file doesn't give, or that is too
/// long. One that the command line doesn't name ends nothing.
fn ends_command(read: &Result<Secret, InputFault>) -> bool
    ensures { IsTrue result ↔ EndsCommand read.now }
{
    match read {
        Ok(bytes) => bytes.as_slice().len() > LONGEST_PASSPHRASE,
        Err(InputFault::Absent) => false,
        Err(InputFault::Unreadable(_) | InputFault::NoMemory) => true,
    }
}

/// What of its file is a passphrase.
#[derive(Clone, Copy)]
enum Part {
    Whole,
    FirstLine,
}

impl Part {
    fn of(line: bool) -> Part
        ensures { result ≡ Part.FirstLine ↔ IsTrue line }
    {
        if line { Part::FirstLine } else { Part::Whole }
    }

    /// The bytes of the part, at most one more than a passphrase has: a last newline is one of the whole.
    fn read<F: Read>(self, alloc: Global, file: &mut F) -> Result<Secret, InputFault>
        ensures whole { self ≡ Part.Whole → IfOk result (λ p.
            IfSome (F.remaining file.old) (λ bytes. p ≡ take 65537 bytes)) }
        ensures line { self ≡ Part.FirstLine → IfOk result (λ p.
            IfSome (F.remaining file.old) (λ bytes. p ≡ first_line (take 65537 bytes))) }
        ensures kinds { IfErr result (λ f. f ≢ InputFault.Absent) }
    {
        match self {
            Part::Whole => first_bytes(alloc, file),
            Part::FirstLine => first_line(alloc, file),
        }
    }
}

/// What this file has of a passphrase; `-` is standard input.
fn passphrase<R: AllocGlobal + Files<File = File> + Input + Eprint>(
    rt: &R,
    opening: Option<Opening<'_>>,
    part: Part,
    quiet: bool,
) -> Result<Secret, InputFault>
    ensures { (result ≡ Err InputFault.Absent) ↔ (opening.entry ≡ None) }
{
    let Some(opening) = opening else {
        return Err(InputFault::Absent);
    };
    if opening.name == "-" {
        if !quiet {
            tell_typing(rt, part == Part::FirstLine);
        }
        return part.read(rt.alloc(), &mut rt.reader());
    }
    let mut file = File::open(rt, opening.name)?;
    part.read(rt.alloc(), &mut file)
}

/// What was read of a file, to be read once more.
pub fn reader(read: &Result<Secret, InputFault>) -> Result<&[u8], InputFault>
    ensures kind { IsOk result ↔ IsOk read.now }
    ensures bytes { IfOk read.now (λ secret. IfOk result (λ bytes. bytes.now ≡ secret)) }
    ensures fault { IfErr read.now (λ fault. IfErr result (λ f. f ≡ fault)) }
{
    match read {
        Ok(bytes) => Ok(bytes.as_slice()),
        Err(fault) => Err(*fault),
    }
}
