//! The lines before those of the objects.

ghost use Rattle.std.specs.Prelude.{◌≡◌, Some};
ghost use Rattle.std.specs.Fmt.{WritesOnOk};
ghost use Rattle.luks_rules.specs.Sizes.{keyslots_size};
ghost use Rattle.luks_wider.specs.Underways.{content};
ghost use Rattle.luks_underway_show.specs.UnderwayLines.{copy_lines, header_lines, metadata_lines, name_lines, size_line, subsystem_listed};

use crate::lines::Lines;
use crate::shown::Texts;
use luks_reading::{Bin2, Copies};
use luks_show::{Escaped, SubsystemLine, before_zero, copies_name};
use luks_underway::mandatory_in;
use luks_wider::Underway;
use std::fmt;

/// Lists what the header says of itself.
pub(crate) fn list_header<W: fmt::Write>(
    header: &Bin2,
    copies: Copies,
    meta: &Underway,
    lines: Lines,
    f: &mut fmt::Formatter<W>,
) -> fmt::Result
    ensures { WritesOnOk W.write_str_gives f.old result (header_lines lines header.now copies (content meta.now)) f.new }
{
    list_names(header, f)?;
    list_subsystem(header, lines, f)?;
    list_copy(header, copies, f)?;
    list_metadata(header, meta, f)
}

fn list_names<W: fmt::Write>(header: &Bin2, f: &mut fmt::Formatter<W>) -> fmt::Result
    ensures { WritesOnOk W.write_str_gives f.old result (name_lines header.now) f.new }
{
    let uuid = Escaped(before_zero(&header.uuid));
    let label = Escaped(before_zero(&header.label));
    writeln!(f, "luks2")?;
    writeln!(f, "uuid {uuid}")?;
    writeln!(f, "label {label}")
}

fn list_subsystem<W: fmt::Write>(
    header: &Bin2,
    lines: Lines,
    f: &mut fmt::Formatter<W>,
) -> fmt::Result
    ensures { WritesOnOk W.write_str_gives f.old result (subsystem_listed lines header.now) f.new }
{
    match lines {
        Lines::Few => Ok(()),
        Lines::All => f.write(SubsystemLine(header)),
    }
}

fn list_copy<W: fmt::Write>(header: &Bin2, copies: Copies, f: &mut fmt::Formatter<W>) -> fmt::Result
    ensures { WritesOnOk W.write_str_gives f.old result (copy_lines header.now copies) f.new }
{
    let copies = copies_name(copies);
    let seqid = header.seqid;
    writeln!(f, "copies {copies} seqid {seqid}")
}

/// Lists the sizes, and what the metadata asks of who uses the volume.
fn list_metadata<W: fmt::Write>(
    header: &Bin2,
    meta: &Underway,
    f: &mut fmt::Formatter<W>,
) -> fmt::Result
    ensures { WritesOnOk W.write_str_gives f.old result (metadata_lines header.now (content meta.now)) f.new }
{
    list_sizes(header, meta, f)?;
    let requirements = Texts(mandatory_in(meta.value()));
    writeln!(f, "requirements {requirements}")
}

fn list_sizes<W: fmt::Write>(
    header: &Bin2,
    meta: &Underway,
    f: &mut fmt::Formatter<W>,
) -> fmt::Result
    ensures { WritesOnOk W.write_str_gives f.old result (size_line header.now (content meta.now)) f.new }
{
    let header_size = header.hdr_size;
    let keyslots_size = region_size(meta);
    writeln!(f, "header-size {header_size} keyslots-size {keyslots_size}")
}

/// The bytes of the region of the key areas.
fn region_size(meta: &Underway) -> u64
    ensures { keyslots_size (content meta.now) ≡ Some result }
{
    meta.config().keyslots_size
}
