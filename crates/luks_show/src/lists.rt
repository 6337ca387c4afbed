//! How lists of numbers are shown.
ghost use Rattle.std.specs.Prelude.{Some};
ghost use Rattle.std.specs.List.{flat_map};
ghost use Rattle.luks_show.specs.Luks2Lines.{number_behind, numbers_text};

use std::fmt;

/// Numbers joined by commas, or a hyphen where there is none.
#[derive(Clone, Copy)]
pub struct Numbers<'a>(pub &'a [u8]);

impl fmt::Display for Numbers<'_> {
    ghost output = { λ numbers. Some (numbers_text numbers.0.now) };

    fn fmt<W: fmt::Write>(&self, f: &mut fmt::Formatter<W>) -> fmt::Result {
        let [first, later @ ..] = self.0 else {
            return f.write_str("-");
        };
        let later = Later(later);
        write!(f, "{first}{later}")
    }
}

/// The numbers behind the first.
#[derive(Clone, Copy)]
struct Later<'a>(&'a [u8]);

impl fmt::Display for Later<'_> {
    ghost output = { λ later. Some (flat_map number_behind later.0.now) };

    fn fmt<W: fmt::Write>(&self, f: &mut fmt::Formatter<W>) -> fmt::Result {
        for number in self.0.iter() {
            write!(f, ",{number}")?;
        }
        Ok(())
    }
}
