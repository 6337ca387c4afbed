//! The rows of a LUKS2 header.
ghost use Rattle.std.specs.Prelude.{◌≡◌, ◌≤◌, ◌++◌, ◌+◌, length, map};
ghost use Rattle.luks_map.specs.Luks2Rows.{area_row, IsKeyAreasEnd, IsLuks2Rows};

use crate::map::Rows;
use crate::part::Part;
use crate::row::Row;
use luks_area::Entry;
use luks_reading::{ChosenCopy, Data, luks2_areas};

/// The rows of a volume of `total` bytes with this header.
pub(crate) fn luks2_rows(copy: &ChosenCopy, total: u64) -> Rows
    ensures { IsLuks2Rows copy.now total result.items }
{
    let areas = luks2_areas(&copy.meta, copy.header.hdr_size, Data::Here, total);
    let mut rows = Rows::new();
    rows.push(key_areas_end(copy));
    rows.push(Row::VolumeEnd(total));
    add_areas(&mut rows, areas.as_slice());
    rows
}

fn key_areas_end(copy: &ChosenCopy) -> Row
    ensures { IsKeyAreasEnd copy.now result }
{
    Row::KeyAreasEnd {
        header_size: copy.header.hdr_size,
        keyslots_size: copy.meta.config().keyslots_size,
    }
}

fn add_areas(rows: &mut Rows, areas: &[Entry])
    requires room { length rows.old.items + length areas.now ≤ 68 }
    ensures { rows.new.items ≡ rows.old.items ++ map area_row areas.now }
{
    for entry in areas {
        rows.push(area_row(entry));
    }
}

fn area_row(entry: &Entry) -> Row
    ensures { result ≡ area_row entry.now }
{
    Row::Area(Part::of_luks2(entry.name), entry.area)
}
