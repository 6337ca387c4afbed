//! The lines of a LUKS2 header.
ghost use Rattle.std.specs.Prelude.{Some};
ghost use Rattle.luks_show.specs.AllLines.{subsystem_line};

use crate::copies::copies_name;
use crate::escaped::{Escaped, before_zero};
use crate::objects::{Lines, list_digests, list_keyslots, list_segments, list_tokens};
use luks_reading::{Bin2, ChosenCopy};
use std::fmt;

/// Lists the chosen copy of a LUKS2 header, with a line for each object of its metadata.
pub(crate) fn list_luks2<W: fmt::Write>(
    copy: &ChosenCopy,
    f: &mut fmt::Formatter<W>,
) -> fmt::Result {
    list_with(copy, Lines::Few, f)
}

/// Lists the header with its subsystem, the costs and salts of its keyslots and the encryption of its segments.
pub(crate) fn list_luks2_fully<W: fmt::Write>(
    copy: &ChosenCopy,
    f: &mut fmt::Formatter<W>,
) -> fmt::Result {
    list_with(copy, Lines::All, f)
}

fn list_with<W: fmt::Write>(
    copy: &ChosenCopy,
    lines: Lines,
    f: &mut fmt::Formatter<W>,
) -> fmt::Result {
    list_header(copy, lines, f)?;
    list_keyslots(&copy.meta, lines, f)?;
    list_tokens(&copy.meta, f)?;
    list_segments(&copy.meta, lines, f)?;
    list_digests(&copy.meta, f)
}

fn list_header<W: fmt::Write>(
    copy: &ChosenCopy,
    lines: Lines,
    f: &mut fmt::Formatter<W>,
) -> fmt::Result {
    let header = &copy.header;
    let uuid = Escaped(before_zero(&header.uuid));
    let label = Escaped(before_zero(&header.label));
    let copies = copies_name(copy.copies);
    let seqid = header.seqid;
    let header_size = header.hdr_size;
    let keyslots_size = copy.meta.config().keyslots_size;
    writeln!(f, "luks2")?;
    writeln!(f, "uuid {uuid}")?;
    writeln!(f, "label {label}")?;
    if let Lines::All = lines {
        write!(f, "{}", SubsystemLine(header))?;
    }
    writeln!(f, "copies {copies} seqid {seqid}")?;
    writeln!(f, "header-size {header_size} keyslots-size {keyslots_size}")
}

/// The subsystem of a copy with this binary header; it prints as its line.
#[derive(Clone, Copy)]
pub struct SubsystemLine<'a>(pub &'a Bin2);

impl fmt::Display for SubsystemLine<'_> {
    ghost output = { λ l. Some (subsystem_line l.0.now) };

    fn fmt<W: fmt::Write>(&self, f: &mut fmt::Formatter<W>) -> fmt::Result {
        let subsystem = Escaped(before_zero(&self.0.subsystem));
        writeln!(f, "subsystem {subsystem}")
    }
}
