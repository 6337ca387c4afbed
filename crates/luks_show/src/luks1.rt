//! The lines of a LUKS1 header.
ghost use Rattle.std.specs.Fmt.{WritesOnOk};
ghost use Rattle.luks_show.specs.Luks1Lines.{common_lines, luks1_lines, slot_line};
ghost use Rattle.luks_show.specs.AllLines.{area_line, full_luks1_lines, full_slot_lines, payload_bytes_line, salt_line_as};

use crate::costs::SaltLine;
use crate::escaped::Escaped;
use luks_area::SECTOR;
use luks_reading::{Luks1, Luks1Slot, SlotState, luks1_area};
use luks2_header::Luks1Common;
use std::fmt;

/// Lists a LUKS1 header, with a line for each keyslot.
pub(crate) fn list_luks1<W: fmt::Write>(header: &Luks1, f: &mut fmt::Formatter<W>) -> fmt::Result
    ensures { WritesOnOk W.write_str_gives f.old result (luks1_lines header.now) f.new }
{
    list_common(&header.common, f)?;
    for (n, slot) in header.slots.as_slice().iter().enumerate() {
        list_luks1_slot(n, slot, f)?;
    }
    Ok(())
}

/// Lists the header with places in bytes beside sectors, and the salts of its enabled keyslots.
pub(crate) fn list_luks1_fully<W: fmt::Write>(
    header: &Luks1,
    f: &mut fmt::Formatter<W>,
) -> fmt::Result
    ensures { WritesOnOk W.write_str_gives f.old result (full_luks1_lines header.now) f.new }
{
    list_common(&header.common, f)?;
    list_payload_bytes(&header.common, f)?;
    for (n, slot) in header.slots.as_slice().iter().enumerate() {
        list_slot_fully(n, header.common.key_bytes, slot, f)?;
    }
    Ok(())
}

fn list_common<W: fmt::Write>(common: &Luks1Common, f: &mut fmt::Formatter<W>) -> fmt::Result
    ensures { WritesOnOk W.write_str_gives f.old result (common_lines common.now) f.new }
{
    let uuid = Escaped(common.uuid.as_str().as_bytes());
    let name = Escaped(common.cipher_name.as_str().as_bytes());
    let mode = Escaped(common.cipher_mode.as_str().as_bytes());
    let hash = Escaped(common.hash_spec.as_str().as_bytes());
    let key_bytes = common.key_bytes;
    let payload = common.payload_offset;
    write!(
        f,
        "luks1\nuuid {uuid}\ncipher {name}-{mode} key-bytes {key_bytes}\nhash {hash}\npayload {payload}\n"
    )
}

fn list_luks1_slot<W: fmt::Write>(
    n: usize,
    slot: &Luks1Slot,
    f: &mut fmt::Formatter<W>,
) -> fmt::Result
    ensures { WritesOnOk W.write_str_gives f.old result (slot_line n slot.now) f.new }
{
    let iterations = slot.iterations;
    let offset = slot.key_material_offset;
    let stripes = slot.stripes;
    match slot.state {
        SlotState::Enabled => writeln!(
            f,
            "slot {n} enabled iterations {iterations} offset {offset} stripes {stripes}"
        ),
        SlotState::Disabled => writeln!(f, "slot {n} disabled offset {offset} stripes {stripes}"),
    }
}

fn list_payload_bytes<W: fmt::Write>(common: &Luks1Common, f: &mut fmt::Formatter<W>) -> fmt::Result
    ensures { WritesOnOk W.write_str_gives f.old result (payload_bytes_line common.now) f.new }
{
    let bytes = u64::from(common.payload_offset) * SECTOR;
    writeln!(f, "payload-bytes {bytes}")
}

fn list_slot_fully<W: fmt::Write>(
    n: usize,
    key_bytes: u32,
    slot: &Luks1Slot,
    f: &mut fmt::Formatter<W>,
) -> fmt::Result
    ensures { WritesOnOk W.write_str_gives f.old result (full_slot_lines key_bytes n slot.now) f.new }
{
    list_luks1_slot(n, slot, f)?;
    list_luks1_area(n, key_bytes, slot, f)?;
    list_luks1_salt(n, slot, f)
}

fn list_luks1_area<W: fmt::Write>(
    n: usize,
    key_bytes: u32,
    slot: &Luks1Slot,
    f: &mut fmt::Formatter<W>,
) -> fmt::Result
    ensures { WritesOnOk W.write_str_gives f.old result (area_line key_bytes n slot.now) f.new }
{
    let area = luks1_area(key_bytes, slot);
    let offset = area.start;
    let size = area.len;
    writeln!(f, "area {n} {offset} {size}")
}

fn list_luks1_salt<W: fmt::Write>(
    n: usize,
    slot: &Luks1Slot,
    f: &mut fmt::Formatter<W>,
) -> fmt::Result
    ensures { WritesOnOk W.write_str_gives f.old result (salt_line_as slot.now.state n slot.now.salt) f.new }
{
    match slot.state {
        SlotState::Enabled => write!(f, "{}", SaltLine(n, &slot.salt)),
        SlotState::Disabled => Ok(()),
    }
}
