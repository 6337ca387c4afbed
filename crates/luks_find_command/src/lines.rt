//! The lines that `find` prints of its own.
ghost use Rattle.std.specs.Prelude.{◌≡◌, Some};
ghost use Rattle.luks_find_command.specs.FragmentLines.{kind_text, last_text};

use luks_commands::Answer;
use luks_seeking::Kind;
use std::fmt;

/// A volume that was found: where it begins in its file, in bytes, and what `check` answers of it.
#[derive(Drop)]
pub(crate) struct StartLine {
    pub(crate) offset: u128,
    pub(crate) verdict: Answer,
}

impl fmt::Display for StartLine {
    ghost use Rattle.luks_find_command.specs.Lines.{start_line};

    ghost output = { λ l. start_line l.offset l.verdict };

    fn fmt<W: fmt::Write>(&self, f: &mut fmt::Formatter<W>) -> fmt::Result {
        write!(f, "{} {}", self.offset, self.verdict)
    }
}

/// No volume was found.
#[derive(Clone, Copy)]
pub(crate) struct NoneFound;

impl fmt::Display for NoneFound {
    ghost use Rattle.luks_find_command.specs.Lines.{none_found};

    ghost output = { λ _. Some none_found };

    fn fmt<W: fmt::Write>(&self, f: &mut fmt::Formatter<W>) -> fmt::Result {
        writeln!(f, "none found")
    }
}

/// A fragment that was found: where it begins in its file, in bytes, what it is, and the number that comes before it;
/// as an object of JSON or as a line.
#[derive(Clone, Copy)]
pub(crate) struct FragmentLine {
    pub(crate) place: u128,
    pub(crate) kind: Kind,
    pub(crate) number: Option<u8>,
    pub(crate) as_json: bool,
}

impl fmt::Display for FragmentLine {
    ghost use Rattle.luks_find_command.specs.FragmentLines.{fragment_line};

    ghost output = { λ l. Some (fragment_line l.as_json l.place l.kind l.number) };

    fn fmt<W: fmt::Write>(&self, f: &mut fmt::Formatter<W>) -> fmt::Result {
        let place = self.place;
        let kind = kind_text(self.kind);
        match (self.as_json, self.number) {
            (true, Some(number)) => {
                writeln!(
                    f,
                    "{{\"offset\":{place},\"kind\":\"{kind}\",\"number\":{number}}}"
                )
            }
            (true, None) => {
                writeln!(
                    f,
                    "{{\"offset\":{place},\"kind\":\"{kind}\",\"number\":null}}"
                )
            }
            (false, Some(number)) => writeln!(f, "{place} {kind} {number}"),
            (false, None) => writeln!(f, "{place} {kind} -"),
        }
    }
}

/// What the lines call a kind of fragments.
fn kind_text(kind: Kind) -> &'static str
    ensures { result.now ≡ kind_text kind }
{
    match kind {
        Kind::Keyslot => "keyslot",
        Kind::Digest => "digest",
        Kind::Segment => "segment",
    }
}

/// How a search for fragments ends that found none, or stopped.
#[derive(Clone, Copy)]
pub(crate) enum Last {
    /// It found none.
    NoneFound,
    /// A file can't be read.
    DeviceFault,
    /// Memory was refused.
    NoMemory,
}

/// The last line of such a search, as an object of JSON or as a line.
#[derive(Clone, Copy)]
pub(crate) struct LastLine {
    pub(crate) last: Last,
    pub(crate) as_json: bool,
}

impl fmt::Display for LastLine {
    ghost use Rattle.luks_find_command.specs.FragmentLines.{last_line};

    ghost output = { λ l. Some (last_line l.as_json l.last) };

    fn fmt<W: fmt::Write>(&self, f: &mut fmt::Formatter<W>) -> fmt::Result {
        let text = last_text(self.last);
        if self.as_json {
            writeln!(f, "{{\"answer\":\"{text}\"}}")
        } else {
            writeln!(f, "{text}")
        }
    }
}

fn last_text(last: Last) -> &'static str
    ensures { result.now ≡ last_text last }
{
    match last {
        Last::NoneFound => "none found",
        Last::DeviceFault => "device fault",
        Last::NoMemory => "no memory",
    }
}
