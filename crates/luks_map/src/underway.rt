//! The rows of a volume in whose metadata something is under way.

ghost use Rattle.std.specs.Prelude.{◌≡◌, ◌<◌, ◌≤◌, ◌++◌, ℕ, length, Some};
ghost use Rattle.serde_json.specs.Data.{Data};
ghost use Rattle.luks_rules.specs.declared.table.Section.TheVariants.{Keyslots, Segments};
ghost use Rattle.luks_underway.specs.Segments.{TellsWideSegment};
ghost use Rattle.luks_underway.specs.Slots.{TellsWideKeyslot};
ghost use Rattle.luks_wider.specs.Underways.{content};
ghost use Rattle.luks_map.specs.UnderwayRows.{IsUnderwayRows, object_row, row_list, section_rows, segment_row, slot_row};

use crate::map::Rows;
use crate::part::Part;
use crate::row::Row;
use luks_area::Area;
use luks_meta::Extent;
use luks_underway::{WideKeyslot, WideSegment};
use luks_wider::Underway;

/// The rows of a volume of `total` bytes with this metadata, whose header has copies of so many bytes.
pub(crate) fn underway_rows(header_size: u64, meta: &Underway, total: u64) -> Rows
    ensures { IsUnderwayRows header_size (content meta.now) total result.items }
{
    let mut rows = Rows::new();
    rows.push(Row::KeyAreasEnd {
        header_size,
        keyslots_size: meta.config().keyslots_size,
    });
    rows.push(Row::VolumeEnd(total));
    let first = Area {
        start: 0,
        len: header_size,
    };
    let second = Area {
        start: header_size,
        len: header_size,
    };
    rows.push(Row::Area(Part::FirstCopy, first));
    rows.push(Row::Area(Part::SecondCopy, second));
    add_slots(&mut rows, meta);
    add_segments(&mut rows, meta, total);
    rows
}

fn add_slots(rows: &mut Rows, meta: &Underway)
    requires { length rows.old.items ≡ 4 }
    ensures rows { rows.new.items ≡ rows.old.items ++ section_rows slot_row (content meta.now) Keyslots }
    ensures count { length rows.new.items ≤ 36 }
{
    for n in 0..32 {
        add_row(rows, slot_row(meta, n));
    }
}

fn add_segments(rows: &mut Rows, meta: &Underway, total: u64)
    requires { length rows.old.items ≤ 36 }
    ensures { rows.new.items ≡ rows.old.items ++ section_rows (segment_row total) (content meta.now) Segments }
{
    for n in 0..32 {
        add_row(rows, segment_row(meta, total, n));
    }
}

fn add_row(rows: &mut Rows, row: Option<Row>)
    requires { length rows.old.items < 68 }
    ensures { rows.new.items ≡ rows.old.items ++ row_list row }
{
    if let Some(row) = row {
        rows.push(row);
    }
}

/// The area of the keyslot of this number, if it is there.
fn slot_row(meta: &Underway, n: u8) -> Option<Row>
    requires { n < 32 }
    ensures { result ≡ object_row slot_row (content meta.now) Keyslots n }
{
    let area = slot_area(&meta.keyslot(n)?);
    Some(Row::Area(Part::Luks2Keyslot(n), area))
}

fn slot_area(keyslot: &WideKeyslot<'_>) -> Area
    ensures { (n : ℕ) (d : Data) → TellsWideKeyslot d keyslot.now → slot_row n d ≡ Some (Row.Area (Part.Luks2Keyslot n) result) }
{
    match keyslot {
        WideKeyslot::Luks2(keyslot) => Area {
            start: keyslot.area.offset,
            len: keyslot.area.size,
        },
        WideKeyslot::Reencrypt(members) => Area {
            start: members.area.offset,
            len: members.area.size,
        },
    }
}

/// The segment of this number of a volume of `total` bytes, if it is there.
fn segment_row(meta: &Underway, total: u64, n: u8) -> Option<Row>
    requires { n < 32 }
    ensures { result ≡ object_row (segment_row total) (content meta.now) Segments n }
{
    Some(row_of(&meta.segment(n)?, total, n))
}

fn row_of(segment: &WideSegment<'_>, total: u64, n: u8) -> Row
    ensures { (d : Data) → TellsWideSegment d segment.now → segment_row total n d ≡ Some result }
{
    let start = segment.offset;
    let len = match segment.size {
        Extent::Fixed(size) => size,
        Extent::Dynamic => total.saturating_sub(start),
    };
    let area = Area { start, len };
    if segment.flags.backup {
        Row::Backup(n, area)
    } else if segment.flags.in_reencryption {
        Row::Area(Part::InHand(n), area)
    } else {
        Row::Area(Part::Segment(n), area)
    }
}
