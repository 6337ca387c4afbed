//! A JSON text without the characters by which a terminal is steered.
ghost use Rattle.std.specs.Prelude.{◌≡◌, ◌++◌, IfOk, OnOk, Some, string_bytes};
ghost use Rattle.luks_show.specs.Steering.{steers, unsteering, unsteering_letter};

use crate::digits::TwoDigits;
use std::alloc::{AllocError, Global};
use std::fmt;

/// The JSON text with each character that steers a terminal as its escape, `\u` and four lower hexadecimal
/// digits. A JSON text has such characters in its texts alone, so it stays one of the same value.
///
/// Takes memory for the text.
pub fn unsteering(alloc: Global, text: &str) -> Result<String, AllocError>
    ensures { IfOk result (λ made. string_bytes made ≡ unsteering text.now) }
{
    let mut made = String::with_capacity(alloc, text.len())?;
    for letter in text.chars() {
        push_letter(alloc, letter, &mut made)?;
    }
    Ok(made)
}

fn push_letter(alloc: Global, letter: char, made: &mut String) -> Result<(), AllocError>
    ensures { OnOk result (string_bytes made.new ≡ string_bytes made.old ++ unsteering_letter letter) }
{
    if !steers(letter) {
        return made.push(letter);
    }
    let shown = SteerlessLetter(letter);
    let shown = format!(in alloc; "{shown}")?;
    made.push_str(shown.as_str())
}

/// A character of the text as it is shown.
#[derive(Clone, Copy)]
struct SteerlessLetter(char);

impl fmt::Display for SteerlessLetter {
    ghost output = { λ letter. Some (unsteering_letter letter.0) };

    fn fmt<W: fmt::Write>(&self, f: &mut fmt::Formatter<W>) -> fmt::Result {
        if !steers(self.0) {
            return f.write_char(self.0);
        }
        let code = self.0 as u32;
        let high = TwoDigits((code / 256 % 256) as u8);
        let low = TwoDigits((code % 256) as u8);
        write!(f, "\\u{high}{low}")
    }
}

/// Whether a terminal obeys the character, or shows others in another order for it: the delete character and the
/// controls behind it, and the marks of Unicode's bidirectional algorithm that open or close a stretch.
fn steers(letter: char) -> bool
    ensures { result ≡ steers letter }
{
    matches!(
        letter,
        '\u{7F}'..='\u{9F}' | '\u{202A}'..='\u{202E}' | '\u{2066}'..='\u{2069}'
    )
}
