ghost use Rattle.std.specs.Prelude.{◌≡◌, ◌+◌, ◌<◌, ◌↔◌, IsTrue, IfErr, OnOk, IsOk};
ghost use Rattle.std.specs.List.{find};
ghost use Rattle.std.specs.Prelude.{option_map};
ghost use Rattle.luks_area.specs.Area.{Fit, IsAreaFault, area_key};
ghost use Rattle.luks_area.specs.First.{IsLeast};
ghost use Rattle.luks_area.specs.Names.{HasArea, IsIncreasing};
ghost use Rattle.luks_area.specs.Scan.{is_outside, do_meet, first_pair};

use crate::area::{Area, AreaFault, AreaName};
use crate::areas::{Areas, Entry};

/// Whether all areas are inside a volume of `total` bytes, and every two are disjoint. Ends are
/// whole numbers and never wrap.
///
/// Else the least fault: `Outside` with the least name of an area that runs past the end, and only
/// where there is none `Overlap` with the least pair. Empty areas and areas that only touch are
/// disjoint.
pub fn fit(areas: &Areas, total: u64) -> Result<(), AreaFault>
    ensures fits { OnOk result (Fit (HasArea areas.now) total) }
    ensures fault { IfErr result (λ f. IsLeast area_key (IsAreaFault (HasArea areas.now) total) f) }
    ensures only { Fit (HasArea areas.now) total → IsOk result }
{
    fit_entries(areas.as_slice(), total)
}

fn fit_entries(entries: &[Entry], total: u64) -> Result<(), AreaFault>
    requires { IsIncreasing entries.now }
    ensures fits { OnOk result (Fit (HasArea entries.now) total) }
    ensures fault { IfErr result (λ f.
        IsLeast area_key (IsAreaFault (HasArea entries.now) total) f) }
    ensures only { Fit (HasArea entries.now) total → IsOk result }
{
    match first_outside(entries, total) {
        Some(name) => Err(AreaFault::Outside(name)),
        None => match first_overlap(entries) {
            Some(fault) => Err(fault),
            None => Ok(()),
        },
    }
}

fn first_outside(entries: &[Entry], total: u64) -> Option<AreaName>
    ensures { result ≡ option_map (λ e. e.name) (find (λ e. is_outside total e.area) entries.now) }
{
    entries
        .iter()
        .find(|e| is_outside(&e.area, total))
        .map(|e| e.name)
}

fn first_overlap(entries: &[Entry]) -> Option<AreaFault>
    ensures { result ≡ first_pair entries.now }
{
    let mut left = entries;
    while let [first, later @ ..] = left {
        if let Some(name) = first_meeting(&first.area, later) {
            return Some(AreaFault::Overlap(first.name, name));
        }
        left = later;
    }
    None
}

fn first_meeting(area: &Area, later: &[Entry]) -> Option<AreaName>
    ensures { result ≡ option_map (λ e. e.name) (find (λ e. do_meet area.now e.area) later.now) }
{
    later
        .iter()
        .find(|e| do_meet(area, &e.area))
        .map(|e| e.name)
}

fn is_outside(area: &Area, total: u64) -> bool
    ensures { result ≡ is_outside total area.now }
{
    !area.is_inside(total)
}

/// No sum is made: each end is compared by a difference.
fn do_meet(a: &Area, b: &Area) -> bool
    ensures { result ≡ do_meet a.now b.now }
{
    a.len > 0 && b.len > 0 && begins_before_end(a, b) && begins_before_end(b, a)
}

fn begins_before_end(a: &Area, b: &Area) -> bool
    ensures { IsTrue result ↔ (a.now.start < b.now.start + b.now.len) }
{
    a.start < b.start || a.start - b.start < b.len
}
