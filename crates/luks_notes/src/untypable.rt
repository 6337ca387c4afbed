//! Passphrases that nobody types at a prompt, and what is said of them.
ghost use Rattle.std.specs.Prelude.{◌≡◌, ◌↔◌, ◌-◌, drop, length, IfSome, IsOk, IsTrue, None, OnOk};
ghost use Rattle.std.specs.Io.KnownBytes.{Appends};
ghost use Rattle.luks_notes.specs.Untypable.{EndsIn, IsUntypable, new_line, tried_line};

use std::fmt;
use std::io::{self, Write};

/// Why nobody types a passphrase at a prompt.
#[derive(Clone, Copy)]
pub enum Untypable {
    /// It has no byte.
    Empty,
    /// It ends in a newline (0x0A) alone, as `echo` and most editors end a file.
    Newline,
    /// It ends in a carriage return (0x0D), as the first line of a file of Windows.
    CarriageReturn,
    /// It ends in both, as such a file does.
    CarriageReturnNewline,
}

/// Why nobody types this passphrase at a prompt; none where it isn't empty and ends in neither a newline nor a
/// carriage return.
pub fn why_untypable(passphrase: &[u8]) -> Option<Untypable>
    ensures some { IfSome result (IsUntypable passphrase.now) }
    ensures none { result ≡ None → (found : Untypable) → IsUntypable passphrase.now found → ⊥ }
{
    if passphrase.is_empty() {
        return Some(Untypable::Empty);
    }
    if ends_in(passphrase, b"\r\n") {
        return Some(Untypable::CarriageReturnNewline);
    }
    if ends_in(passphrase, b"\n") {
        return Some(Untypable::Newline);
    }
    if ends_in(passphrase, b"\r") {
        return Some(Untypable::CarriageReturn);
    }
    None
}

/// Whether the passphrase's last bytes are these.
fn ends_in(passphrase: &[u8], end: &[u8]) -> bool
    ensures { IsTrue result ↔ EndsIn passphrase.now end.now }
{
    last_bytes(passphrase, end.len()) == end
}

/// So many of the passphrase's last bytes, or as many as it has.
fn last_bytes(passphrase: &[u8], count: usize) -> &[u8]
    ensures { result.now ≡ drop (length passphrase.now - count) passphrase.now }
{
    let start = passphrase.len().saturating_sub(count);
    &passphrase[start..]
}

/// If nobody can type a new passphrase at a prompt, says to `err` why. The option of this name takes only the
/// first line of its file.
pub fn note_new_passphrase<E: Write>(
    passphrase: &[u8],
    line_option: &str,
    err: &mut E,
) -> io::Result<()>
    ensures said { (found : Untypable) → IsUntypable passphrase.now found → OnOk result
        (Appends (E.contents err.old) (E.contents err.new) (new_line line_option.now found)) }
    ensures unsaid { ((found : Untypable) → IsUntypable passphrase.now found → ⊥)
        → (err.new ≡ err.old) × IsOk result }
{
    match why_untypable(passphrase) {
        Some(found) => say_new(found, line_option, err),
        None => Ok(()),
    }
}

fn say_new<E: Write>(found: Untypable, line_option: &str, err: &mut E) -> io::Result<()>
    ensures { OnOk result
        (Appends (E.contents err.old) (E.contents err.new) (new_line line_option.now found)) }
{
    match found {
        Untypable::Empty => writeln!(
            err,
            "luks: the new passphrase is empty: it keeps nobody out"
        ),
        Untypable::Newline => say_newline(line_option, err),
        Untypable::CarriageReturn => writeln!(
            err,
            "luks: the new passphrase ends in a carriage return: a prompt at boot can't type it; tr -d '\\r' leaves it out"
        ),
        Untypable::CarriageReturnNewline => writeln!(
            err,
            "luks: the new passphrase ends in a carriage return and a newline: a prompt at boot can't type them; tr -d '\\r\\n' leaves them out"
        ),
    }
}

fn say_newline<E: Write>(line_option: &str, err: &mut E) -> io::Result<()>
    ensures { OnOk result (Appends (E.contents err.old) (E.contents err.new)
        (new_line line_option.now Untypable.Newline)) }
{
    let line_alone = LineAlone { line_option };
    writeln!(
        err,
        "luks: the new passphrase ends in a newline: a prompt at boot can't type it; {line_alone}"
    )
}

/// The option that takes only the first line of a file.
#[derive(Clone, Copy)]
struct LineAlone<'a> {
    line_option: &'a str,
}

impl fmt::Display for LineAlone<'_> {
    ghost use Rattle.std.specs.Prelude.{Some};
    ghost use Rattle.luks_notes.specs.Untypable.{line_alone_text};

    ghost output = { λ line_alone. Some (line_alone_text line_alone.line_option.now) };

    fn fmt<W: fmt::Write>(&self, f: &mut fmt::Formatter<W>) -> fmt::Result {
        let line_option = self.line_option;
        write!(f, "{line_option} FILE takes the line alone")
    }
}

/// Says to `err` if a passphrase that opened nothing is empty, or what of its file's end was taken as part of it.
pub fn note_tried_passphrase<E: Write>(passphrase: &[u8], err: &mut E) -> io::Result<()>
    ensures said { (found : Untypable) → IsUntypable passphrase.now found → OnOk result
        (Appends (E.contents err.old) (E.contents err.new) (tried_line found)) }
    ensures unsaid { ((found : Untypable) → IsUntypable passphrase.now found → ⊥)
        → (err.new ≡ err.old) × IsOk result }
{
    match why_untypable(passphrase) {
        Some(found) => say_tried(found, err),
        None => Ok(()),
    }
}

fn say_tried<E: Write>(found: Untypable, err: &mut E) -> io::Result<()>
    ensures { OnOk result
        (Appends (E.contents err.old) (E.contents err.new) (tried_line found)) }
{
    match found {
        Untypable::Empty => writeln!(err, "luks: the passphrase is empty"),
        Untypable::Newline => writeln!(
            err,
            "luks: the passphrase's file ends in a newline, which was taken as part of it; --passphrase-line leaves it out"
        ),
        Untypable::CarriageReturn => writeln!(
            err,
            "luks: the passphrase ends in a carriage return, which was taken as part of it; tr -d '\\r' leaves it out"
        ),
        Untypable::CarriageReturnNewline => writeln!(
            err,
            "luks: the passphrase's file ends in a carriage return and a newline, which were taken as part of it; tr -d '\\r\\n' leaves them out"
        ),
    }
}
