//! What the keyslots become.
ghost use Rattle.std.specs.Prelude.{◌≡◌, ◌↔◌, ◌+◌, ◌^◌, ◌<◌, ◌≤◌, ℕ, length, slice_index_or, IfNone, IfSome, IsTrue};
ghost use Rattle.luks1_header.specs.Header1.{luks1_size};
ghost use Rattle.luks1_header.specs.declared.luks1.Luks1Slot.{Luks1Slot as TheSlot};
ghost use Rattle.luks1_mending.specs.Areas.{sector_of};
ghost use Rattle.luks1_mending.specs.Judging.{set_of, IsFirstPairAmong, IsPairAmong};
ghost use Rattle.luks1_mending.specs.Kept.{AreKept};
ghost use Rattle.luks1_mending.specs.Mended.{IsFirstPair, IsFree, IsInPattern, IsInStep, IsMadeSlot, IsMended, IsNewPlace, LacksPattern};

use crate::entries::{USUAL_STRIPES, entry_of, sector_of, stripes_area, stripes_of, usual_sector};
use crate::kept::{HEADER, kept_slots, meets_kept};
use luks_area::Area;
use luks1_header::{Luks1, Luks1Slot, SlotState};

/// Where a keyslot begins, and how many stripes it has.
#[derive(Clone, Copy)]
struct Place {
    sector: u32,
    stripes: u32,
}

/// The eight keyslots.
pub(crate) fn made_slots(header: &[u8], key_bytes: u32, total: u64) -> [Luks1Slot; 8]
    requires long { length header.now ≡ luks1_size }
    requires key { key_bytes ≤ 128 }
    ensures eight { length result ≡ 8 }
    ensures each { (n : ℕ) (s : TheSlot) → n < 8
        → IsMadeSlot header.now key_bytes total n (slice_index_or result n s) }
{
    let kept = kept_slots(header, key_bytes, total);
    let mut slots = [Luks1Slot::default(); 8];
    for n in 0..8 {
        slots[n as usize] = made_slot(header, key_bytes, total, &kept, n);
    }
    slots
}

/// What the keyslot `n` becomes: it is kept, or a disabled one is made of it.
fn made_slot(header: &[u8], key_bytes: u32, total: u64, kept: &[bool; 8], n: u8) -> Luks1Slot
    requires long { length header.now ≡ luks1_size }
    requires key { key_bytes ≤ 128 }
    requires kept { AreKept header.now key_bytes total (set_of kept.now) }
    requires numbered { n < 8 }
    ensures { IsMadeSlot header.now key_bytes total n result }
{
    match Luks1::slot(entry_of(header, n), n) {
        Ok(slot) if kept[n as usize] => slot,
        _ => mended_slot(header, key_bytes, total, kept, n),
    }
}

/// The disabled keyslot that is made of the keyslot `n`.
fn mended_slot(header: &[u8], key_bytes: u32, total: u64, kept: &[bool; 8], n: u8) -> Luks1Slot
    requires long { length header.now ≡ luks1_size }
    requires key { key_bytes ≤ 128 }
    requires kept { AreKept header.now key_bytes total (set_of kept.now) }
    requires numbered { n < 8 }
    ensures { IsMended header.now key_bytes total n result }
{
    let place = new_place(header, key_bytes, total, kept, n);
    Luks1Slot {
        state: SlotState::Disabled,
        iterations: 0,
        salt: [0; 32],
        key_material_offset: place.sector,
        stripes: place.stripes,
    }
}

/// The place that the pattern gives, else the usual one.
fn new_place(header: &[u8], key_bytes: u32, total: u64, kept: &[bool; 8], n: u8) -> Place
    requires long { length header.now ≡ luks1_size }
    requires key { key_bytes ≤ 128 }
    requires kept { AreKept header.now key_bytes total (set_of kept.now) }
    requires numbered { n < 8 }
    ensures { IsNewPlace header.now key_bytes total n result.sector result.stripes }
{
    match place_in_pattern(header, key_bytes, total, kept, n) {
        Some(place) => place,
        None => Place {
            sector: usual_sector(key_bytes, n),
            stripes: USUAL_STRIPES,
        },
    }
}

/// The place in the pattern of the first pair of keyslots that are kept, where it is free.
fn place_in_pattern(
    header: &[u8],
    key_bytes: u32,
    total: u64,
    kept: &[bool; 8],
    n: u8,
) -> Option<Place>
    requires long { length header.now ≡ luks1_size }
    requires kept { AreKept header.now key_bytes total (set_of kept.now) }
    requires numbered { n < 8 }
    ensures some { IfSome result (λ p.
        IsInPattern header.now key_bytes total n p.sector p.stripes) }
    ensures none { IfNone result (LacksPattern header.now key_bytes total n) }
{
    match first_pair(header, kept) {
        Some(pair) => place_by_pair(header, key_bytes, total, kept, pair, n),
        None => None,
    }
}

/// The place in the pattern of this pair, where it is free.
fn place_by_pair(
    header: &[u8],
    key_bytes: u32,
    total: u64,
    kept: &[bool; 8],
    pair: u8,
    n: u8,
) -> Option<Place>
    requires long { length header.now ≡ luks1_size }
    requires kept { AreKept header.now key_bytes total (set_of kept.now) }
    requires numbered { n < 8 }
    requires pair { IsFirstPair header.now key_bytes total pair }
    ensures some { IfSome result (λ p.
        IsInPattern header.now key_bytes total n p.sector p.stripes) }
    ensures none { IfNone result (LacksPattern header.now key_bytes total n) }
{
    let stripes = stripes_of(header, pair);
    match sector_in_step(header, pair, n) {
        Some(sector) => {
            if is_free(
                header,
                key_bytes,
                total,
                kept,
                stripes_area(key_bytes, sector, stripes),
            ) {
                Some(Place { sector, stripes })
            } else {
                None
            }
        }
        None => None,
    }
}

/// The first two keyslots, one after the other, that give a pattern.
fn first_pair(header: &[u8], kept: &[bool; 8]) -> Option<u8>
    requires { length header.now ≡ luks1_size }
    ensures some { IfSome result (IsFirstPairAmong header.now (set_of kept.now)) }
    ensures none { IfNone result ((a : ℕ) → IsPairAmong header.now (set_of kept.now) a → ⊥) }
{
    for a in 0..7 {
        if is_pair(header, kept, a) {
            return Some(a);
        }
    }
    None
}

fn is_pair(header: &[u8], kept: &[bool; 8], a: u8) -> bool
    requires long { length header.now ≡ luks1_size }
    requires numbered { a < 7 }
    ensures { IsTrue result ↔ IsPairAmong header.now (set_of kept.now) a }
{
    if !kept[a as usize] {
        return false;
    }
    if !kept[a as usize + 1] {
        return false;
    }
    if stripes_of(header, a + 1) != stripes_of(header, a) {
        return false;
    }
    sector_of(header, a) < sector_of(header, a + 1)
}

/// The sector as many strides from the keyslot `a` as the number `n` is from `a`.
fn sector_in_step(header: &[u8], a: u8, n: u8) -> Option<u32>
    requires long { length header.now ≡ luks1_size }
    requires first { a < 7 }
    requires numbered { n < 8 }
    requires rising { sector_of header.now a < sector_of header.now (a + 1) }
    ensures some { IfSome result (IsInStep header.now a n) }
    ensures none { IfNone result ((sector : ℕ) → sector < 2 ^ 32
        → IsInStep header.now a n sector → ⊥) }
{
    let from = u64::from(sector_of(header, a));
    let stride = u64::from(sector_of(header, a + 1)) - from;
    let ahead = from + u64::from(n) * stride;
    let back = u64::from(a) * stride;
    if back <= ahead && ahead - back <= u64::from(u32::MAX) {
        Some((ahead - back) as u32)
    } else {
        None
    }
}

/// Whether the area lies behind the header and inside the volume, and meets that of no keyslot that
/// is kept.
fn is_free(header: &[u8], key_bytes: u32, total: u64, kept: &[bool; 8], area: Area) -> bool
    requires long { length header.now ≡ luks1_size }
    requires kept { AreKept header.now key_bytes total (set_of kept.now) }
    ensures { IsTrue result ↔ IsFree header.now key_bytes total area }
{
    if area.start < HEADER || !area.is_inside(total) {
        return false;
    }
    !meets_kept(header, key_bytes, kept, area)
}
