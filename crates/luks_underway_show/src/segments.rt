//! The lines of segments.

ghost use Rattle.std.specs.Prelude.{◌≡◌, ◌<◌, option_map, Some};
ghost use Rattle.std.specs.Fmt.{WritesOnOk};
ghost use Rattle.serde_json.specs.View.{view};
ghost use Rattle.luks_rules.specs.declared.table.Section.TheVariants.{Segments};
ghost use Rattle.luks_wider.specs.Underways.{content};
ghost use Rattle.luks_underway_show.specs.RecordLines.{encryption_text, extent_text, further_segment_text, kind_text, kind_words, members_text, place_words, segment_text};
ghost use Rattle.luks_underway_show.specs.SegmentLines.{opal_line, segment_lines};
ghost use Rattle.luks_underway_show.specs.Shown.{object_listed, section_listed};

use crate::lines::Lines;
use crate::shown::FlagTexts;
use luks_meta::Extent;
use luks_rules::{Outer, Section, object_at};
use luks_show::EncryptionLine;
use luks_underway::{Opal, WideKind, WideSegment, inside_at};
use luks_wider::Underway;
use serde_json::Value;
use std::fmt;

/// Lists each segment.
pub(crate) fn list_segments<W: fmt::Write>(
    meta: &Underway,
    lines: Lines,
    f: &mut fmt::Formatter<W>,
) -> fmt::Result
    ensures { WritesOnOk W.write_str_gives f.old result
        (section_listed (segment_lines lines) (content meta.now) Segments) f.new }
{
    for n in 0..32 {
        list_segment(meta, n, lines, f)?;
    }
    Ok(())
}

/// Lists the segment of this number, if it is there.
fn list_segment<W: fmt::Write>(
    meta: &Underway,
    n: u8,
    lines: Lines,
    f: &mut fmt::Formatter<W>,
) -> fmt::Result
    requires { n < 32 }
    ensures { WritesOnOk W.write_str_gives f.old result
        (object_listed (segment_lines lines) (content meta.now) Segments n) f.new }
{
    let Some(object) = object_at(meta.value(), Section::Segments, n) else {
        return Ok(());
    };
    let Some(segment) = meta.segment(n) else {
        return Ok(());
    };
    let flags = inside_at(object, Outer::Top, "flags");
    list_members(n, &segment, flags, lines, f)
}

/// Lists a segment with these flags.
fn list_members<W: fmt::Write>(
    n: u8,
    segment: &WideSegment<'_>,
    flags: Option<&Value>,
    lines: Lines,
    f: &mut fmt::Formatter<W>,
) -> fmt::Result
    ensures { WritesOnOk W.write_str_gives f.old result
        (segment_text lines n segment.now (option_map (λ v. view v.now) flags.entry)) f.new }
{
    list_line(n, segment, flags, f)?;
    list_further(n, &segment.kind, lines, f)
}

fn list_line<W: fmt::Write>(
    n: u8,
    segment: &WideSegment<'_>,
    flags: Option<&Value>,
    f: &mut fmt::Formatter<W>,
) -> fmt::Result
    ensures { WritesOnOk W.write_str_gives f.old result
        (members_text n segment.now (option_map (λ v. view v.now) flags.entry)) f.new }
{
    list_kind(n, &segment.kind, f)?;
    list_place(segment, flags, f)
}

fn list_kind<W: fmt::Write>(n: u8, kind: &WideKind<'_>, f: &mut fmt::Formatter<W>) -> fmt::Result
    ensures { WritesOnOk W.write_str_gives f.old result (kind_words n kind.now) f.new }
{
    let kind = kind_name(kind);
    write!(f, "segment {n} {kind}")
}

fn list_place<W: fmt::Write>(
    segment: &WideSegment<'_>,
    flags: Option<&Value>,
    f: &mut fmt::Formatter<W>,
) -> fmt::Result
    ensures { WritesOnOk W.write_str_gives f.old result
        (place_words segment.now (option_map (λ v. view v.now) flags.entry)) f.new }
{
    let offset = segment.offset;
    let size = ExtentText(segment.size);
    let flags = FlagTexts(flags);
    writeln!(f, " {offset} {size}{flags}")
}

/// The segment's type.
fn kind_name(kind: &WideKind<'_>) -> &'static str
    ensures { result.now ≡ kind_text kind.now }
{
    match kind {
        WideKind::Crypt(_) => "crypt",
        WideKind::Linear => "linear",
        WideKind::HwOpal(_) => "hw-opal",
        WideKind::HwOpalCrypt(_, _) => "hw-opal-crypt",
    }
}

/// A length in bytes, or that it runs to the volume's end.
#[derive(Clone, Copy)]
struct ExtentText(Extent);

impl fmt::Display for ExtentText {
    ghost output = { λ extent. Some (extent_text extent.0) };

    fn fmt<W: fmt::Write>(&self, f: &mut fmt::Formatter<W>) -> fmt::Result {
        match self.0 {
            Extent::Fixed(size) => write!(f, "{size}"),
            Extent::Dynamic => f.write_str("dynamic"),
        }
    }
}

fn list_further<W: fmt::Write>(
    n: u8,
    kind: &WideKind<'_>,
    lines: Lines,
    f: &mut fmt::Formatter<W>,
) -> fmt::Result
    ensures { WritesOnOk W.write_str_gives f.old result (further_segment_text lines n kind.now) f.new }
{
    match lines {
        Lines::Few => Ok(()),
        Lines::All => list_encryption(n, kind, f),
    }
}

/// Lists how a segment is encrypted, by software and by the disk.
fn list_encryption<W: fmt::Write>(
    n: u8,
    kind: &WideKind<'_>,
    f: &mut fmt::Formatter<W>,
) -> fmt::Result
    ensures { WritesOnOk W.write_str_gives f.old result (encryption_text n kind.now) f.new }
{
    match kind {
        WideKind::Crypt(encryption) => f.write(EncryptionLine(n, *encryption)),
        WideKind::Linear => Ok(()),
        WideKind::HwOpal(opal) => f.write(OpalLine(n, *opal)),
        WideKind::HwOpalCrypt(opal, encryption) => {
            f.write(EncryptionLine(n, *encryption))?;
            f.write(OpalLine(n, *opal))
        }
    }
}

/// The range of the disk that encrypts the segment with this number. It prints as its line.
#[derive(Clone, Copy)]
struct OpalLine(u8, Opal);

impl fmt::Display for OpalLine {
    ghost output = { λ l. Some (opal_line l.0 l.1) };

    fn fmt<W: fmt::Write>(&self, f: &mut fmt::Formatter<W>) -> fmt::Result {
        let n = self.0;
        let range = self.1.segment_number;
        let key_bytes = self.1.key_size;
        let size = self.1.segment_size;
        writeln!(
            f,
            "opal {n} range {range} key-bytes {key_bytes} size {size}"
        )
    }
}
