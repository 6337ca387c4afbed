//! The rows of a LUKS1 header.
ghost use Rattle.std.specs.Prelude.{◌≡◌, ◌≤◌, [], ◌∷◌, ◌++◌, ◌+◌, length};
ghost use Rattle.luks_map.specs.Luks1Rows.{luks1_rows, slot_row, slot_rows};

use crate::map::Rows;
use crate::part::Part;
use crate::row::Row;
use luks_area::{Area, SECTOR};
use luks_reading::{Luks1, Luks1Slot, luks1_area};

/// The bytes of a LUKS1 header.
const HEADER: u64 = 592;

/// The rows of a volume of `total` bytes with this header.
pub(crate) fn luks1_rows(header: &Luks1, total: u64) -> Rows
    ensures { length header.now.slots ≡ 8 → result.items ≡ luks1_rows header.now total }
{
    let start = u64::from(header.common.payload_offset) * SECTOR;
    let len = total.saturating_sub(start);
    let mut rows = Rows::new();
    rows.push(Row::VolumeEnd(total));
    let whole = Area {
        start: 0,
        len: HEADER,
    };
    rows.push(Row::Area(Part::Luks1Header, whole));
    add_slots(&mut rows, header);
    rows.push(Row::Area(Part::Segment(0), Area { start, len }));
    rows
}

fn add_slots(rows: &mut Rows, header: &Luks1)
    requires { length rows.old.items ≡ 2 }
    ensures rows { length header.now.slots ≡ 8 → rows.new.items
        ≡ rows.old.items ++ slot_rows header.now.common.key_bytes 0 header.now.slots }
    ensures count { length rows.new.items ≡ 10 }
{
    for n in 0..8 {
        let slot = &header.slots[n as usize];
        rows.push(slot_row(header.common.key_bytes, n, slot));
    }
}

fn slot_row(key_bytes: u32, n: u8, slot: &Luks1Slot) -> Row
    ensures { result ≡ slot_row key_bytes n slot.now }
{
    Row::Area(
        Part::Luks1Keyslot(n, slot.state),
        luks1_area(key_bytes, slot),
    )
}
