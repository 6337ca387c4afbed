//! The places of a header and of the whole region of its key areas.
ghost use Rattle.std.specs.Prelude.{◌≡◌, ◌∷◌, ◌*◌, ◌≤◌, Some, None, replicate};
ghost use Rattle.luks_keeping.specs.Kept.{lead_of};
ghost use Rattle.luks_wide_keeping.specs.Whole.{IsWholeLaid};

use luks_area::{Area, SECTOR};
use luks_keeping::Places;
use luks_reading::Copies;
use luks_wide_reading::UnderwayCopy;

/// The place of both copies of the header on a device of `total` bytes, and of as much of the key areas' region as
/// it has: one area, whatever keyslots are in it.
pub(crate) fn places_of(copy: &UnderwayCopy, total: u64) -> Places
    requires { 2 * copy.now.header.hdr_size ≤ total }
    ensures { IsWholeLaid copy.now total result }
{
    let size = copy.header.hdr_size;
    let region = Area {
        start: 2 * size,
        len: copy.meta.config().keyslots_size.min(total - 2 * size),
    };
    Places {
        lead: lead(copy.copies).min(size),
        first: size,
        second: size,
        areas: only(region),
    }
}

/// The bytes from 0 on that aren't kept of a header whose copies stand so to each other.
fn lead(copies: Copies) -> u64
    ensures { result ≡ lead_of copies }
{
    match copies {
        Copies::SecondOnly => SECTOR,
        Copies::InStep | Copies::FirstNewer | Copies::SecondNewer | Copies::FirstOnly => 0,
    }
}

/// This area and no other.
fn only(area: Area) -> [Option<Area>; 32]
    ensures { result ≡ Some area ∷ replicate 31 None }
{
    let mut areas = [None; 32];
    areas[0] = Some(area);
    areas
}
