//! The copies whose binary header stands, in the order in which what they vouch for is taken.
ghost use Rattle.std.specs.Prelude.{◌≡◌, ◌+◌, ◌*◌, ◌/◌, ◌^◌, ◌<◌, ◌≤◌, ◌⊎◌, [], length, IfErr, IfOk, IfSome, IsNone, OnOk, true, false};
ghost use Rattle.luks_area.specs.Device.{CountsFailure, IsUnchanged};
ghost use Rattle.luks_area.specs.First.{NotAfter};
ghost use Rattle.luks2_header.specs.Sizes.{IsListed};
ghost use Rattle.luks_rebuilding.specs.Found.{standing_key, AddsStanding, AreCopies, AreStanding, GrowsBy, IsFirstAt, TakesFirst};
ghost use Rattle.luks_rebuilding.specs.RebuildFaults.{is_rebuild_failure};
ghost use Rattle.luks_rebuilding.specs.Shares.{whole};

use crate::place::{Effort, Place};
use crate::rebuild_fault::RebuildFault;
use arrayvec::ArrayVec;
use luks_area::Device;
use luks_vouching::standing_header;

/// A copy whose binary header stands.
#[derive(Clone, Copy, Default, Drop)]
pub(crate) struct Standing {
    /// Its place.
    pub(crate) place: Place,
    /// The sequence number of its binary header.
    pub(crate) seqid: u64,
}

/// The copies that a volume may have.
const COPIES: [Place; 18] = [
    Place {
        size: 0x4000,
        at: 0,
    },
    Place {
        size: 0x8000,
        at: 0,
    },
    Place {
        size: 0x1_0000,
        at: 0,
    },
    Place {
        size: 0x2_0000,
        at: 0,
    },
    Place {
        size: 0x4_0000,
        at: 0,
    },
    Place {
        size: 0x8_0000,
        at: 0,
    },
    Place {
        size: 0x10_0000,
        at: 0,
    },
    Place {
        size: 0x20_0000,
        at: 0,
    },
    Place {
        size: 0x40_0000,
        at: 0,
    },
    Place {
        size: 0x4000,
        at: 0x4000,
    },
    Place {
        size: 0x8000,
        at: 0x8000,
    },
    Place {
        size: 0x1_0000,
        at: 0x1_0000,
    },
    Place {
        size: 0x2_0000,
        at: 0x2_0000,
    },
    Place {
        size: 0x4_0000,
        at: 0x4_0000,
    },
    Place {
        size: 0x8_0000,
        at: 0x8_0000,
    },
    Place {
        size: 0x10_0000,
        at: 0x10_0000,
    },
    Place {
        size: 0x20_0000,
        at: 0x20_0000,
    },
    Place {
        size: 0x40_0000,
        at: 0x40_0000,
    },
];

/// The copies whose binary header stands.
pub(crate) fn standing_copies<D: Device>(
    source: &mut D,
) -> Result<ArrayVec<Standing, 18>, RebuildFault>
    requires { D.failed source.old + 1 < 2 ^ 64 }
    ensures unchanged { IsUnchanged D.tells D.size D.bytes D.unsettled source.old source.new }
    ensures count { CountsFailure is_rebuild_failure result
        (D.failed source.old) (D.failed source.new) }
    ensures device { IfErr result (λ fault. fault ≡ RebuildFault.Device) }
    ensures copies { IfOk result (λ found. AreCopies found.items) }
    ensures standing { D.tells → IfOk result (λ found. AreStanding (D.bytes source.old) found.items) }
{
    let mut found = ArrayVec::new();
    let mut left = COPIES.as_slice();
    while let [place, later @ ..] = left {
        add_standing(source, *place, &mut found)?;
        left = later;
    }
    Ok(found)
}

/// Adds the copy at the place, if its binary header stands.
fn add_standing<D: Device>(
    source: &mut D,
    place: Place,
    found: &mut ArrayVec<Standing, 18>,
) -> Result<(), RebuildFault>
    requires listed { IsListed place.size }
    requires half { (place.at ≡ 0) ⊎ (place.at ≡ place.size) }
    requires room { D.failed source.old + 1 < 2 ^ 64 }
    requires more { length found.old.items < 18 }
    ensures unchanged { IsUnchanged D.tells D.size D.bytes D.unsettled source.old source.new }
    ensures count { CountsFailure is_rebuild_failure result
        (D.failed source.old) (D.failed source.new) }
    ensures device { IfErr result (λ fault. fault ≡ RebuildFault.Device) }
    ensures grown { OnOk result (GrowsBy place found.old.items found.new.items) }
    ensures added { D.tells → OnOk result
        (AddsStanding (D.bytes source.old) place found.old.items found.new.items) }
{
    match standing_header(source, place.size, place.at) {
        Ok(Some(header)) => {
            let seqid = header.seqid;
            found.push(Standing { place, seqid });
            Ok(())
        }
        Ok(None) => Ok(()),
        Err(_) => Err(RebuildFault::Device),
    }
}

/// How many bytes may be hashed for each of so many copies.
pub(crate) fn share(effort: Effort, count: usize) -> usize
    ensures share { result ≡ whole effort / count }
    ensures most { result ≤ 2 ^ 40 }
{
    whole(effort).checked_div(count).unwrap_or(0)
}

/// How many bytes may be hashed for all copies together.
fn whole(effort: Effort) -> usize
    ensures { result ≡ whole effort }
{
    match effort {
        Effort::Brief => 16_777_216,
        Effort::Usual => 33_554_432,
        Effort::Thorough => 1_099_511_627_776,
    }
}

/// Takes the copy away whose metadata stands first, if there is one left.
pub(crate) fn take_first(left: &mut ArrayVec<Standing, 18>) -> Option<Standing>
    ensures none { IsNone result → left.old.items ≡ [] }
    ensures taken { IfSome result (λ x. TakesFirst left.old.items x left.new.items) }
{
    if left.is_empty() {
        return None;
    }
    let at = first_of(left);
    Some(left.remove(at))
}

/// Which of these copies stands first.
fn first_of(left: &[Standing]) -> usize
    requires { 1 ≤ length left.now }
    ensures inside { result < length left.now }
    ensures first { IsFirstAt left.now result }
{
    let mut first = 0;
    for n in 1..left.len() {
        if is_before(&left[n], &left[first]) {
            first = n;
        }
    }
    first
}

/// Whether the one copy comes before the other: by the higher sequence number, or else by its place.
fn is_before(a: &Standing, b: &Standing) -> bool
    ensures before { result ≡ true → NotAfter (standing_key a.now) (standing_key b.now) }
    ensures behind { result ≡ false → NotAfter (standing_key b.now) (standing_key a.now) }
{
    if a.seqid != b.seqid {
        a.seqid > b.seqid
    } else if (a.place.at == 0) != (b.place.at == 0) {
        a.place.at == 0
    } else {
        a.place.size < b.place.size
    }
}
