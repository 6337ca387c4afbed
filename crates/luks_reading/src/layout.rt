ghost use Rattle.std.specs.Prelude.{◌≡◌, ◌*◌, ◌-◌, ◌+◌, ◌<◌, ◌≤◌, ℕ, List, Some, length};
ghost use Rattle.luks_area.specs.declared.area.Area.{Area as TheArea};
ghost use Rattle.luks_area.specs.declared.area.AreaName.{AreaName as TheName};
ghost use Rattle.luks_area.specs.declared.area.AreaName.TheVariants.{Segment as SegmentName, Slot as SlotName};
ghost use Rattle.luks_area.specs.Area.{IsBefore};
ghost use Rattle.luks_area.specs.Names.{HasArea};
ghost use Rattle.luks1_header.specs.Header1.{IsLuks1};
ghost use Rattle.luks_reading.specs.declared.report.Data.{Data as TheData};
ghost use Rattle.luks_reading.specs.Layout1.{Luks1Area};
ghost use Rattle.luks_meta.specs.Content.{content};
ghost use Rattle.luks_meta.specs.Says.{extent_field};
ghost use Rattle.luks_reading.specs.Layout2.{HasExtent, Luks2Area};
ghost use Rattle.luks_reading.specs.Listing.{AddsLuks2Slots, AddsSegments, Lists, ListsBelow};

use crate::plan::luks1_area;
use crate::report::Data;
use luks_area::{Area, AreaName, Areas, SECTOR};
use luks_meta::{Extent, Meta, Segment};
use luks2_header::Luks1;

/// The bytes of a LUKS1 header.
pub(crate) const LUKS1_HEADER: u64 = 592;

/// The areas of a volume of `total` bytes with this LUKS1 header: the header itself, all eight key
/// slots, enabled or not, and with the payload here the segment that runs to the volume's end.
pub(crate) fn luks1_areas(header: &Luks1, payload: Data, total: u64) -> Areas
    ensures { (h : List ℕ) → IsLuks1 h header.now → Lists result (Luks1Area h payload total) }
{
    let mut areas = Areas::new();
    areas.push(
        AreaName::Head1,
        Area {
            start: 0,
            len: LUKS1_HEADER,
        },
    );
    add_luks1_slots(&mut areas, header);
    match payload {
        Data::Here => {
            let start = u64::from(header.common.payload_offset) * SECTOR;
            areas.push(AreaName::Segment(0), to_end(start, total));
            areas
        }
        Data::Elsewhere => areas,
    }
}

fn add_luks1_slots(areas: &mut Areas, header: &Luks1)
    requires room { length areas.old ≡ 1 }
    requires last { (n : TheName) (a : TheArea) → HasArea areas.old n a → IsBefore n (SlotName 0) }
    ensures count { length areas.new ≡ 9 }
    ensures last { (n : TheName) (a : TheArea) → HasArea areas.new n a → IsBefore n (SlotName 8) }
    ensures listed { (h : List ℕ) (payload : TheData) (total : ℕ) → IsLuks1 h header.now
        → ListsBelow areas.old (Luks1Area h payload total) (SlotName 0)
        → ListsBelow areas.new (Luks1Area h payload total) (SlotName 8) }
{
    for n in 0..8 {
        let area = luks1_area(header.common.key_bytes, &header.slots[n as usize]);
        areas.push(AreaName::Slot(n), area);
    }
}

/// The areas of a volume of `total` bytes whose LUKS2 header has `size` bytes and this metadata:
/// both copies of the header, the keyslots, and with the payload here the segments.
pub fn luks2_areas(meta: &Meta, size: u64, payload: Data, total: u64) -> Areas
    ensures { Lists result (Luks2Area (content meta.now) size payload total) }
{
    let mut areas = Areas::new();
    areas.push(
        AreaName::Head1,
        Area {
            start: 0,
            len: size,
        },
    );
    areas.push(
        AreaName::Head2,
        Area {
            start: size,
            len: size,
        },
    );
    add_luks2_slots(&mut areas, meta);
    match payload {
        Data::Here => {
            add_segments(&mut areas, meta, total);
            areas
        }
        Data::Elsewhere => areas,
    }
}

fn add_luks2_slots(areas: &mut Areas, meta: &Meta)
    requires room { length areas.old ≤ 2 }
    requires last { (n : TheName) (a : TheArea) → HasArea areas.old n a → IsBefore n (SlotName 0) }
    ensures { AddsLuks2Slots areas.old areas.new (content meta.now) 32 }
{
    for n in 0..32 {
        match meta.keyslot(n) {
            Some(slot) => areas.push(
                AreaName::Slot(n),
                Area {
                    start: slot.area.offset,
                    len: slot.area.size,
                },
            ),
            None => {}
        }
    }
}

fn add_segments(areas: &mut Areas, meta: &Meta, total: u64)
    requires room { length areas.old ≤ 34 }
    requires last { (n : TheName) (a : TheArea) → HasArea areas.old n a
        → IsBefore n (SegmentName 0) }
    ensures { AddsSegments areas.old areas.new (content meta.now) total 32 }
{
    for n in 0..32 {
        match meta.segment(n) {
            Some(segment) => areas.push(AreaName::Segment(n), segment_area(&segment, total)),
            None => {}
        }
    }
}

fn segment_area(segment: &Segment<'_>, total: u64) -> Area
    ensures start { result.start ≡ segment.now.offset }
    ensures len { HasExtent total result.start result.len (Some (extent_field segment.now.size)) }
{
    match segment.size {
        Extent::Fixed(len) => Area {
            start: segment.offset,
            len,
        },
        Extent::Dynamic => to_end(segment.offset, total),
    }
}

/// The area from `start` to the end of a volume of `total` bytes, empty where it starts at or past
/// it.
fn to_end(start: u64, total: u64) -> Area
    ensures start { result.start ≡ start }
    ensures len { result.len ≡ total - start }
{
    Area {
        start,
        len: total.saturating_sub(start),
    }
}
