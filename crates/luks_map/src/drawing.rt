//! The lines of a map.
ghost use Rattle.std.specs.Prelude.{◌≡◌, ◌<◌, ◌^◌, max};
ghost use Rattle.std.specs.Fmt.{WritesOnOk};
ghost use Rattle.luks_map.specs.Drawing.{area_line, backup_line, end_line, gap_line, map_lines, outside_text, overlap_mark, overlap_text};
ghost use Rattle.luks_map.specs.Drawing.{row_line};

use crate::part::Part;
use crate::row::{Row, end_of};
use luks_area::Area;
use std::fmt;

/// Draws the rows in their order, and the gaps between them.
pub(crate) fn draw_rows<W: fmt::Write>(
    rows: &[Row],
    total: u64,
    f: &mut fmt::Formatter<W>,
) -> fmt::Result
    ensures { WritesOnOk W.write_str_gives f.old result (map_lines total 0 rows.now) f.new }
{
    let mut reached = 0;
    for row in rows {
        draw_gap(total, reached, row.place(), f)?;
        draw_row(total, reached, row, f)?;
        reached = farther(reached, row.reach());
    }
    Ok(())
}

fn farther(one: u128, other: u128) -> u128
    ensures { result ≡ max one other }
{
    if one < other { other } else { one }
}

/// Draws the gap from `from` to `to`, where there is one.
fn draw_gap<W: fmt::Write>(
    total: u64,
    from: u128,
    to: u128,
    f: &mut fmt::Formatter<W>,
) -> fmt::Result
    ensures { WritesOnOk W.write_str_gives f.old result (gap_line total from to) f.new }
{
    if to <= from {
        return Ok(());
    }
    let len = to - from;
    let outside = outside_mark(total, to);
    writeln!(f, "{from:>20} . {len:>20}  gap{outside}")
}

/// Draws a row; the rows above it reach to `reached`.
fn draw_row<W: fmt::Write>(
    total: u64,
    reached: u128,
    row: &Row,
    f: &mut fmt::Formatter<W>,
) -> fmt::Result
    ensures { WritesOnOk W.write_str_gives f.old result (row_line total reached row.now) f.new }
{
    match row {
        Row::Area(part, area) => draw_area(total, reached, *part, area, f),
        Row::KeyAreasEnd { .. } => draw_end(total, row.place(), "end of the key areas", f),
        Row::VolumeEnd(_) => draw_end(total, row.place(), "end of the volume", f),
        Row::Backup(n, area) => draw_backup(total, *n, area, f),
    }
}

fn draw_area<W: fmt::Write>(
    total: u64,
    reached: u128,
    part: Part,
    area: &Area,
    f: &mut fmt::Formatter<W>,
) -> fmt::Result
    ensures { WritesOnOk W.write_str_gives f.old result (area_line total reached part area.now) f.new }
{
    let start = area.start;
    let len = area.len;
    let outside = outside_mark(total, end_of(area));
    let overlap = overlap_mark(total, reached, area);
    writeln!(f, "{start:>20} # {len:>20}  {part}{outside}{overlap}")
}

fn draw_backup<W: fmt::Write>(
    total: u64,
    n: u8,
    area: &Area,
    f: &mut fmt::Formatter<W>,
) -> fmt::Result
    ensures { WritesOnOk W.write_str_gives f.old result (backup_line total n area.now) f.new }
{
    let start = area.start;
    let len = area.len;
    let outside = outside_mark(total, end_of(area));
    writeln!(f, "{start:>20} = {len:>20}  segment {n} backup{outside}")
}

fn draw_end<W: fmt::Write>(
    total: u64,
    at: u128,
    name: &str,
    f: &mut fmt::Formatter<W>,
) -> fmt::Result
    ensures { WritesOnOk W.write_str_gives f.old result (end_line total at name.now) f.new }
{
    let outside = outside_mark(total, at);
    writeln!(f, "{at:>20} -                       {name}{outside}")
}

/// The mark of what ends past the volume's end.
fn outside_mark(total: u64, end: u128) -> &'static str
    ensures { result.now ≡ outside_text total end }
{
    if u128::from(total) < end {
        "  outside"
    } else {
        ""
    }
}

/// The mark of an area that has bytes and begins inside one above it.
fn overlap_mark(total: u64, reached: u128, area: &Area) -> &'static str
    ensures { result.now ≡ overlap_text total reached area.now }
{
    if 0 < area.len && u128::from(area.start) < reached {
        overlap_behind(total, area)
    } else {
        ""
    }
}

/// The mark, as it follows what goes before: that the area ends outside, or what it is.
fn overlap_behind(total: u64, area: &Area) -> &'static str
    ensures { result.now ≡ overlap_mark total area.now }
{
    if u128::from(total) < end_of(area) {
        " overlap"
    } else {
        "  overlap"
    }
}
