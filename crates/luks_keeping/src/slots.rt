//! The places of a header that was read.
ghost use Rattle.std.specs.Prelude.{◌≡◌, ◌<◌, ℕ, List};
ghost use Rattle.luks1_header.specs.Header1.{IsLuks1};
ghost use Rattle.luks_meta.specs.Content.{content};
ghost use Rattle.luks_reading.specs.Header.{IsAcceptedHeader};
ghost use Rattle.luks_keeping.specs.Judged.{HasFields};
ghost use Rattle.luks_keeping.specs.Laid.{FindsSlot, HasSlot, HasSlot2, HoldsSlots, IsLaidOut};
ghost use Rattle.luks_keeping.specs.Kept.{lead_of, IsUsedArea};

use crate::places::Places;
use luks_area::{Area, SECTOR};
use luks_meta::Meta;
use luks_reading::{Header, luks1_area};
use luks2_header::{Copies, Luks1, SlotState};

/// The bytes of a LUKS1 header.
pub(crate) const LUKS1_HEADER: u64 = 592;

/// The place of the header and its key areas.
pub(crate) fn places_of(header: &Header) -> Places
    requires fields { HasFields header.now }
    requires accepted { IsAcceptedHeader header.now }
    ensures { IsLaidOut header.now result }
{
    let areas = slot_areas(header);
    match header {
        Header::Luks1(_) => Places {
            lead: 0,
            first: LUKS1_HEADER,
            second: 0,
            areas,
        },
        Header::Luks2(copy) => Places {
            lead: lead(copy.copies).min(copy.header.hdr_size),
            first: copy.header.hdr_size,
            second: copy.header.hdr_size,
            areas,
        },
    }
}

/// The bytes from 0 on that aren't kept of a header whose copies stand so to each other.
fn lead(copies: Copies) -> u64
    ensures { result ≡ lead_of copies }
{
    match copies {
        Copies::SecondOnly => SECTOR,
        Copies::InStep | Copies::FirstNewer | Copies::SecondNewer | Copies::FirstOnly => 0,
    }
}

/// The key areas by the keyslots' numbers.
fn slot_areas(header: &Header) -> [Option<Area>; 32]
    requires fields { HasFields header.now }
    requires accepted { IsAcceptedHeader header.now }
    ensures { HoldsSlots header.now 32 result }
{
    let mut areas = [None; 32];
    for n in 0..32 {
        areas[n as usize] = slot_area(header, n);
    }
    areas
}

/// The key area of the keyslot `n`, if it is in use.
fn slot_area(header: &Header, n: u8) -> Option<Area>
    requires fields { HasFields header.now }
    requires accepted { IsAcceptedHeader header.now }
    requires numbered { n < 32 }
    ensures { FindsSlot (HasSlot header.now n) result }
{
    match header {
        Header::Luks1(bytes) => used_area(&Luks1::read(bytes.as_slice()).unwrap(), n),
        Header::Luks2(copy) => meta_area(&copy.meta, n),
    }
}

/// The key area of the keyslot `n` of a LUKS1 header, if it is enabled.
fn used_area(header: &Luks1, n: u8) -> Option<Area>
    ensures { (h : List ℕ) → IsLuks1 h header.now → FindsSlot (IsUsedArea h n) result }
{
    if n >= 8 {
        return None;
    }
    let slot = header.slots[n as usize];
    match slot.state {
        SlotState::Enabled => Some(luks1_area(header.common.key_bytes, &slot)),
        SlotState::Disabled => None,
    }
}

/// The key area of the keyslot `n` of the metadata, if it is there.
fn meta_area(meta: &Meta, n: u8) -> Option<Area>
    requires { n < 32 }
    ensures { FindsSlot (HasSlot2 (content meta.now) n) result }
{
    match meta.keyslot(n) {
        Some(slot) => Some(Area {
            start: slot.area.offset,
            len: slot.area.size,
        }),
        None => None,
    }
}
