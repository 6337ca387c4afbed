//! Whether a header and its key areas fit onto a device, where something is under way.
ghost use Rattle.std.specs.Prelude.{◌≡◌, ◌≢◌, ◌↔◌, ◌*◌, ◌≤◌, ◌<◌, ℕ, false, IfErr, IsTrue, MatchOption, OnOk};
ghost use Rattle.luks_area.specs.First.{IsLeast};
ghost use Rattle.luks_area.specs.declared.area.Area.{Area as TheArea};
ghost use Rattle.luks_reading.specs.Checked.{check_key};
ghost use Rattle.luks_reading.specs.Failures.{is_check_failure};
ghost use Rattle.luks_reading.specs.declared.check_fault.CheckFault.{CheckFault as TheFault};
ghost use Rattle.luks_reading.specs.declared.report.Data.TheVariants.{Elsewhere};
ghost use Rattle.luks_wider.specs.Underways.{content};
ghost use Rattle.luks_wide_keeping.specs.Layout.{HasKeyArea, IsLayoutFault, IsSlotPast};
ghost use Rattle.luks_wide_keeping.specs.Whole.{IsFirstOf};

use crate::segments::segment_below;
use crate::size::has_both_copies;
use luks_area::{Area, AreaFault, AreaName};
use luks_meta::MetaFault;
use luks_reading::{CheckFault, Data};
use luks_wide_reading::{Underway, UnderwayCopy, WideKeyslot};

/// The first fault of a device of `total` bytes with this header: a segment by which data is read begins before
/// the end of the key areas' region, the second copy has no room, or a key area hasn't.
pub(crate) fn judge_layout(copy: &UnderwayCopy, payload: Data, total: u64) -> Result<(), CheckFault>
    ensures header { OnOk result (2 * copy.now.header.hdr_size ≤ total) }
    ensures fits { OnOk result ((f : TheFault)
        → IsLayoutFault copy.now.header.hdr_size (content copy.now.meta) payload total f → ⊥) }
    ensures refused { IfErr result (IsLeast check_key
        (IsLayoutFault copy.now.header.hdr_size (content copy.now.meta) payload total)) }
    ensures own { IfErr result (λ f. is_check_failure f ≡ false) }
    ensures no_memory { IfErr result (λ f. f ≢ CheckFault.Memory) }
{
    match segment_below(copy, payload) {
        Some(n) => Err(CheckFault::Meta(MetaFault::Region(AreaName::Segment(n)))),
        None => judge_areas(copy, total),
    }
}

/// The same except for segments.
fn judge_areas(copy: &UnderwayCopy, total: u64) -> Result<(), CheckFault>
    ensures header { OnOk result (2 * copy.now.header.hdr_size ≤ total) }
    ensures fits { OnOk result ((f : TheFault)
        → IsLayoutFault copy.now.header.hdr_size (content copy.now.meta) Elsewhere total f → ⊥) }
    ensures refused { IfErr result (IsLeast check_key
        (IsLayoutFault copy.now.header.hdr_size (content copy.now.meta) Elsewhere total)) }
    ensures own { IfErr result (λ f. is_check_failure f ≡ false) }
    ensures no_memory { IfErr result (λ f. f ≢ CheckFault.Memory) }
{
    if !has_both_copies(copy.header.hdr_size, total) {
        return Err(CheckFault::Area(AreaFault::Outside(AreaName::Head2)));
    }
    match slot_past(&copy.meta, total) {
        Some(n) => Err(CheckFault::Area(AreaFault::Outside(AreaName::Slot(n)))),
        None => Ok(()),
    }
}

/// The least keyslot whose key area ends behind the end of a device of `total` bytes.
fn slot_past(meta: &Underway, total: u64) -> Option<u8>
    ensures { MatchOption result
        ((n : ℕ) → IsSlotPast (content meta.now) total n → ⊥)
        (IsFirstOf (IsSlotPast (content meta.now) total)) }
{
    for n in 0..32u8 {
        if is_past(meta, n, total) {
            return Some(n);
        }
    }
    None
}

/// Whether that of the keyslot `n` does.
fn is_past(meta: &Underway, n: u8, total: u64) -> bool
    requires { n < 32 }
    ensures { IsTrue result ↔ IsSlotPast (content meta.now) total n }
{
    match key_area(meta, n) {
        Some(area) => !area.is_inside(total),
        None => false,
    }
}

/// The key area of the keyslot `n`, whatever its type, if it is there.
pub(crate) fn key_area(meta: &Underway, n: u8) -> Option<Area>
    requires { n < 32 }
    ensures { MatchOption result
        ((a : TheArea) → HasKeyArea (content meta.now) n a → ⊥)
        (HasKeyArea (content meta.now) n) }
{
    match meta.keyslot(n) {
        Some(WideKeyslot::Luks2(slot)) => Some(Area {
            start: slot.area.offset,
            len: slot.area.size,
        }),
        Some(WideKeyslot::Reencrypt(slot)) => Some(Area {
            start: slot.area.offset,
            len: slot.area.size,
        }),
        None => None,
    }
}
