//! Which keyslots are kept.
ghost use Rattle.std.specs.Prelude.{◌≡◌, ◌↔◌, ℕ, ◌+◌, ◌<◌, ◌≤◌, length, IsTrue};
ghost use Rattle.std.specs.Bool.{OnFalse, OnTrue};
ghost use Rattle.luks1_header.specs.Header1.{luks1_size};
ghost use Rattle.luks1_mending.specs.Judging.{set_of, AreKeptSoFar, IsNext, IsPassedOver, MeetsOne};
ghost use Rattle.luks1_mending.specs.Kept.{rank, AreKept, IsSound};

use crate::entries::{do_meet, entry_of, is_usual, own_area, word_of};
use luks_area::Area;
use luks1_header::Luks1;

/// The bytes of the header.
pub(crate) const HEADER: u64 = 592;

/// The active word of an enabled keyslot.
pub(crate) const ENABLED: u32 = 0x00AC_71F3;

/// The ranks of keyslots in the order of preference.
const RANKS: u8 = 4;

/// Of each of the eight keyslots whether it is kept as it is.
pub(crate) fn kept_slots(header: &[u8], key_bytes: u32, total: u64) -> [bool; 8]
    requires long { length header.now ≡ luks1_size }
    requires key { key_bytes ≤ 128 }
    ensures { AreKept header.now key_bytes total (set_of result) }
{
    let mut kept = [false; 8];
    for rank in 0..RANKS {
        keep_rank(header, key_bytes, total, rank, &mut kept);
    }
    kept
}

/// Keeps of the keyslots of this rank, by number, each that is sound and meets none that is kept.
fn keep_rank(header: &[u8], key_bytes: u32, total: u64, rank: u8, kept: &mut [bool; 8])
    requires long { length header.now ≡ luks1_size }
    requires key { key_bytes ≤ 128 }
    requires before { AreKeptSoFar header.now key_bytes total rank 0 (set_of kept.old) }
    ensures { AreKeptSoFar header.now key_bytes total (rank + 1) 0 (set_of kept.new) }
{
    for n in 0..8 {
        if is_next(header, key_bytes, total, rank, kept, n) {
            kept[n as usize] = true;
        }
    }
}

/// Whether the keyslot `n` is of this rank and sound, and meets none that is kept.
fn is_next(header: &[u8], key_bytes: u32, total: u64, rank: u8, kept: &[bool; 8], n: u8) -> bool
    requires long { length header.now ≡ luks1_size }
    requires key { key_bytes ≤ 128 }
    requires numbered { n < 8 }
    ensures next { OnTrue result (IsNext header.now key_bytes total rank (set_of kept.now) n) }
    ensures passed { OnFalse result (IsPassedOver header.now key_bytes total rank (set_of kept.now) n) }
{
    if rank_of(header, key_bytes, n) != rank {
        return false;
    }
    if !is_sound(header, key_bytes, total, n) {
        return false;
    }
    !meets_kept(header, key_bytes, kept, own_area(header, key_bytes, n))
}

/// Whether this area meets that of a keyslot that is kept.
pub(crate) fn meets_kept(header: &[u8], key_bytes: u32, kept: &[bool; 8], area: Area) -> bool
    requires { length header.now ≡ luks1_size }
    ensures { IsTrue result ↔ ((m : ℕ) × MeetsOne header.now key_bytes (set_of kept.now) area m) }
{
    for m in 0..8 {
        if is_met(header, key_bytes, kept, area, m) {
            return true;
        }
    }
    false
}

/// Whether the keyslot `m` is kept, and its area meets this one.
fn is_met(header: &[u8], key_bytes: u32, kept: &[bool; 8], area: Area, m: u8) -> bool
    requires long { length header.now ≡ luks1_size }
    requires numbered { m < 8 }
    ensures { IsTrue result ↔ MeetsOne header.now key_bytes (set_of kept.now) area m }
{
    if !kept[m as usize] {
        return false;
    }
    do_meet(own_area(header, key_bytes, m), area)
}

/// Whether the keyslot `n` meets its own rules, and its area lies behind the header and inside the
/// volume.
fn is_sound(header: &[u8], key_bytes: u32, total: u64, n: u8) -> bool
    requires long { length header.now ≡ luks1_size }
    requires numbered { n < 8 }
    ensures { IsTrue result ↔ IsSound header.now key_bytes total n }
{
    let area = own_area(header, key_bytes, n);
    let rules = Luks1::slot(entry_of(header, n), n).is_ok();
    rules && area.start >= HEADER && area.is_inside(total)
}

/// The rank of the keyslot `n` in the order of preference.
fn rank_of(header: &[u8], key_bytes: u32, n: u8) -> u8
    requires long { length header.now ≡ luks1_size }
    requires key { key_bytes ≤ 128 }
    requires numbered { n < 8 }
    ensures { result ≡ rank header.now key_bytes n }
{
    let used = if word_of(header, n) == ENABLED { 0 } else { 2 };
    let place = if is_usual(header, key_bytes, n) { 0 } else { 1 };
    used + place
}
