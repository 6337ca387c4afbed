ghost use Rattle.std.specs.Prelude.{◌≡◌, Some};
ghost use Rattle.luks_explain.specs.Printed.{explanation_text};

use std::fmt;

/// What is said of a fault. Each text stands as it is printed: where it goes on, on a line of its own
/// behind seven spaces, so that no line has more than 80 columns.
#[derive(Clone, Copy)]
pub struct Explanation {
    /// The fault's name, without what it prints in brackets.
    pub name: &'static str,
    /// What the fault says, in one line.
    pub means: &'static str,
    /// Where it can stand, and what the brackets hold.
    pub place: &'static str,
    /// What is still safe.
    pub safe: &'static str,
    /// What to try next.
    pub next: &'static str,
}

impl fmt::Display for Explanation {
    ghost output = { λ e. Some (explanation_text e) };

    fn fmt<W: fmt::Write>(&self, f: &mut fmt::Formatter<W>) -> fmt::Result {
        let Explanation {
            name,
            means,
            place,
            safe,
            next,
        } = *self;
        write!(
            f,
            "{name}\nmeans  {means}\nwhere  {place}\nsafe   {safe}\nnext   {next}"
        )
    }
}
