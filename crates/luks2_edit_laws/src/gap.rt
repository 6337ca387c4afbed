//! Where a new key area goes.

ghost use Rattle.std.specs.Prelude.{◌≡◌, ◌+◌, ◌-◌, ◌^◌, ◌<◌, ◌≤◌, IsTrue, IfSome, IsNone, option_map, ◌↔◌};
ghost use Rattle.std.specs.List.{find};
ghost use Rattle.luks_area.specs.declared.area.AreaName.{AreaName};
ghost use Rattle.luks_area.specs.declared.area.Area.{Area as TheArea};
ghost use Rattle.luks_area.specs.Area.{IsInside};
ghost use Rattle.luks_area.specs.Names.{HasArea};
ghost use Rattle.luks_area.specs.Scan.{do_meet};
ghost use Rattle.luks2_edit_laws.specs.Gap.{HasNoGap, IsLeastGap};
ghost use Rattle.luks2_edit_laws.specs.GapSearch.{IsNextBlock};

use luks_area::{Area, Entry};

/// Key areas begin at multiples of so many bytes.
const BLOCK: u64 = 4096;

/// The first block's place that isn't below `place`.
fn next_block(place: u64) -> u64
    requires { place + 4096 < 2 ^ 64 }
    ensures { IsNextBlock place result }
{
    if place % BLOCK == 0 {
        place
    } else {
        place / BLOCK * BLOCK + BLOCK
    }
}

fn begins_before_end(a: &Area, b: &Area) -> bool
    ensures { IsTrue result ↔ (a.now.start < b.now.start + b.now.len) }
{
    a.start < b.start || a.start - b.start < b.len
}

/// Whether some byte lies in both areas.
fn do_meet(a: &Area, b: &Area) -> bool
    ensures { result ≡ do_meet a.now b.now }
{
    a.len > 0 && b.len > 0 && begins_before_end(a, b) && begins_before_end(b, a)
}

/// The first area that meets the new one.
fn first_meeting(entries: &[Entry], new: &Area) -> Option<Area>
    ensures { result ≡ option_map (λ e. e.area) (find (λ e. do_meet e.area new.now) entries.now) }
{
    entries
        .iter()
        .find(|e| do_meet(&e.area, new))
        .map(|e| e.area)
}

/// The least place for a new key area of `len` bytes, in bytes from the volume's start: from `low`
/// on, with its end at most at `high`, where it meets none of the entries' areas; none where there
/// is no such place.
pub fn least_gap(entries: &[Entry], low: u64, high: u64, len: u64) -> Option<u64>
    requires ends { (n : AreaName) (a : TheArea) → HasArea entries.now n a → IsInside a (2 ^ 64 - 1) }
    requires block { 4096 ≤ len }
    ensures some { IfSome result (IsLeastGap (HasArea entries.now) low high len) }
    ensures none { IsNone result → HasNoGap (HasArea entries.now) low high len }
{
    if len > high || low > high - len {
        return None;
    }
    let last = high - len;
    let mut at = next_block(low);
    while at <= last {
        match first_meeting(entries, &Area { start: at, len }) {
            None => return Some(at),
            Some(area) => {
                let end = area.start + area.len;
                if end > last {
                    return None;
                }
                at = next_block(end);
            }
        }
    }
    None
}
