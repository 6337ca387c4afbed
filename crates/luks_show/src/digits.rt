//! Bytes by hexadecimal digits.
ghost use Rattle.std.specs.Prelude.{Some};
ghost use Rattle.luks_show.specs.Digits.{hex, two_digits};

use std::fmt;

/// A byte by two lower hexadecimal digits.
#[derive(Clone, Copy)]
pub(crate) struct TwoDigits(pub(crate) u8);

impl fmt::Display for TwoDigits {
    ghost output = { λ byte. Some (two_digits byte.0) };

    fn fmt<W: fmt::Write>(&self, f: &mut fmt::Formatter<W>) -> fmt::Result {
        let byte = self.0;
        write!(f, "{byte:02x}")
    }
}

/// Bytes so, one behind the other.
#[derive(Clone, Copy)]
pub(crate) struct Hex<'a>(pub(crate) &'a [u8]);

impl fmt::Display for Hex<'_> {
    ghost output = { λ bytes. Some (hex bytes.0.now) };

    fn fmt<W: fmt::Write>(&self, f: &mut fmt::Formatter<W>) -> fmt::Result {
        for byte in self.0.iter() {
            f.write(TwoDigits(*byte))?;
        }
        Ok(())
    }
}
