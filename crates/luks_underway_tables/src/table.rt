//! The table, a line for each part of the data.

ghost use Rattle.std.specs.Prelude.{◌≡◌, ◌<◌, ◌≤◌};
ghost use Rattle.std.specs.Fmt.{WritesOnOk};
ghost use Rattle.luks_wider.specs.Underways.{content};
ghost use Rattle.luks_underway_tables.specs.Table.{part_listed, sectors_at, table_lines};

use crate::digest::digest_of;
use crate::line::{PartLine, sectors_of};
use luks_wider::Underway;
use std::fmt;

/// The table of a volume in whose metadata something is under way, whose data ends at byte `end`; it prints as its
/// lines. `DEVICE` stands for the device that has the data, `KEY-N` for the key of digest N in hexadecimal digits.
#[derive(Drop)]
pub struct UnderwayTable {
    /// The volume's metadata.
    pub meta: Underway,
    /// Where the data ends, in bytes.
    pub end: u64,
}

impl fmt::Display for UnderwayTable {
    ghost use Rattle.std.specs.Prelude.{Some};

    ghost output = { λ table. Some (table_lines table.end (content table.meta)) };

    fn fmt<W: fmt::Write>(&self, f: &mut fmt::Formatter<W>) -> fmt::Result {
        list_parts(&self.meta, self.end, f)
    }
}

fn list_parts<W: fmt::Write>(meta: &Underway, end: u64, f: &mut fmt::Formatter<W>) -> fmt::Result
    ensures { WritesOnOk W.write_str_gives f.old result (table_lines end (content meta.now)) f.new }
{
    let mut place: u64 = 0;
    for n in 0..32 {
        list_part(meta, n, end, place, f)?;
        place += sectors_at(meta, n, end);
    }
    Ok(())
}

/// Lists the segment of this number, which begins at sector `place` of the table, if data is read by it.
fn list_part<W: fmt::Write>(
    meta: &Underway,
    n: u8,
    end: u64,
    place: u64,
    f: &mut fmt::Formatter<W>,
) -> fmt::Result
    requires { n < 32 }
    ensures { WritesOnOk W.write_str_gives f.old result (part_listed end (content meta.now) n place) f.new }
{
    let Some(segment) = meta.segment(n) else {
        return Ok(());
    };
    let sectors = sectors_of(&segment, end);
    if sectors == 0 {
        return Ok(());
    }
    f.write(PartLine {
        place,
        sectors,
        key: digest_of(meta.value(), n),
        segment: &segment,
    })
}

/// How many sectors of the table the segment of this number has.
fn sectors_at(meta: &Underway, n: u8, end: u64) -> u64
    requires { n < 32 }
    ensures are { result ≡ sectors_at end (content meta.now) n }
    ensures few { result ≤ 36028797018963967 }
{
    match meta.segment(n) {
        Some(segment) => sectors_of(&segment, end),
        None => 0,
    }
}
