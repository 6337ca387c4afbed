//! The copy that is shown.

ghost use Rattle.std.specs.Prelude.{Some};
ghost use Rattle.luks_wider.specs.Underways.{content};
ghost use Rattle.luks_underway_show.specs.UnderwayLines.{underway_lines};

use crate::header::list_header;
use crate::keyslots::list_keyslots;
use crate::lines::Lines;
use crate::segments::list_segments;
use crate::tokens::{list_digests, list_tokens};
use luks_reading::{Bin2, Copies};
use luks_wider::Underway;
use std::fmt;

/// The copy of a LUKS2 header that is shown, in whose metadata something is under way; it prints as its lines.
#[derive(Drop)]
pub struct UnderwayListing {
    /// Its binary header.
    pub header: Bin2,
    /// How the two copies stand to each other.
    pub copies: Copies,
    /// Its metadata.
    pub meta: Underway,
    /// Which lines are listed.
    pub lines: Lines,
}

impl fmt::Display for UnderwayListing {
    ghost output = { λ l. Some (underway_lines l.lines l.header l.copies (content l.meta)) };

    fn fmt<W: fmt::Write>(&self, f: &mut fmt::Formatter<W>) -> fmt::Result {
        list_header(&self.header, self.copies, &self.meta, self.lines, f)?;
        list_keyslots(&self.meta, self.lines, f)?;
        list_tokens(&self.meta, f)?;
        list_segments(&self.meta, self.lines, f)?;
        list_digests(&self.meta, f)
    }
}
