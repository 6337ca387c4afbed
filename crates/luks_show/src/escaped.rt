//! How texts of a header are shown.
ghost use Rattle.std.specs.Prelude.{◌≡◌, ◌==◌, position, Some};
ghost use Rattle.luks_area.specs.Text.{text_of};
ghost use Rattle.luks_show.specs.Texts.{escaped, escaped_byte};

use std::fmt;

/// A text of which each byte outside 0x20 to 0x7E, and the backslash, is shown as a backslash and
/// two lower hexadecimal digits.
#[derive(Clone, Copy)]
pub struct Escaped<'a>(pub &'a [u8]);

impl fmt::Display for Escaped<'_> {
    ghost output = { λ text. Some (escaped text.0.now) };

    fn fmt<W: fmt::Write>(&self, f: &mut fmt::Formatter<W>) -> fmt::Result {
        for byte in self.0.iter() {
            f.write(EscapedByte(*byte))?;
        }
        Ok(())
    }
}

/// One byte of such a text.
#[derive(Clone, Copy)]
struct EscapedByte(u8);

impl fmt::Display for EscapedByte {
    ghost output = { λ byte. Some (escaped_byte byte.0) };

    fn fmt<W: fmt::Write>(&self, f: &mut fmt::Formatter<W>) -> fmt::Result {
        match self.0 {
            b'\\' => f.write_str("\\5c"),
            plain @ 0x20..=0x7E => f.write_char(plain as char),
            other => write!(f, "\\{other:02x}"),
        }
    }
}

/// The text of a field: what precedes its first zero byte, or the whole field.
pub fn before_zero(field: &[u8]) -> &[u8]
    ensures { result.now ≡ text_of field.now }
{
    match first_zero(field) {
        Some(end) => &field[..end],
        None => field,
    }
}

fn first_zero(field: &[u8]) -> Option<usize>
    ensures { result ≡ position (λ c. c == 0) field.now }
{
    field.iter().position(|byte| *byte == 0)
}
