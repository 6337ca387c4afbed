//! The search for metadata that is whole, first copies or second copies, by their size.
ghost use Rattle.std.specs.Prelude.{◌≡◌, ◌≢◌, ◌↔◌, ◌+◌, ◌-◌, ◌^◌, ◌<◌, ◌≤◌, ◌⊎◌, codes, length, IfOk, IfErr, IfSome, IsTrue, None, OnOk};
ghost use Rattle.luks_area.specs.Device.{CountsFailure, IsUnchanged, is_failure};
ghost use Rattle.luks_area.specs.Ranges.{part};
ghost use Rattle.luks2_header.specs.Sizes.{is_listed, IsListed};
ghost use Rattle.luks_rebuilding.specs.Candidates.{json_of, IsPlace};
ghost use Rattle.luks_rebuilding.specs.Found.{place_of, BreaksAt, BreaksHalf, FindsAt, FindsHalf, IsFromOutside, IsWhole};
ghost use Rattle.luks_rebuilding.specs.RebuildFaults.{is_rebuild_failure};

use crate::candidate::Candidate;
use crate::place::{Half, Place, is_inside, place_of};
use crate::rebuild_fault::RebuildFault;
use luks_area::{Device, DeviceFault};
use luks_meta::{Meta, MetaFault};
use std::alloc::Global;

/// The bytes of the binary header with which a copy begins; its JSON area follows.
const BINARY_HEADER: u64 = 4096;

/// The sizes that a copy may have, in bytes.
pub(crate) const LISTED_SIZES: [u64; 9] = [
    0x4000, 0x8000, 0x1_0000, 0x2_0000, 0x4_0000, 0x8_0000, 0x10_0000, 0x20_0000, 0x40_0000,
];

/// Whether a copy may have this size.
fn is_listed(size: u64) -> bool
    ensures { result ≡ is_listed size }
{
    LISTED_SIZES.contains(&size)
}

/// The metadata that is whole, of the copy of the least size.
pub(crate) fn least_of<D: Device>(
    alloc: Global,
    source: &mut D,
    half: Half,
) -> Result<Option<Candidate>, RebuildFault>
    requires { D.failed source.old + 1 < 2 ^ 64 }
    ensures unchanged { IsUnchanged D.tells D.size D.bytes D.unsettled source.old source.new }
    ensures count { CountsFailure is_rebuild_failure result
        (D.failed source.old) (D.failed source.new) }
    ensures kinds { IfErr result IsFromOutside }
    ensures whole { IfOk result (λ found. IfSome found (IsWhole (D.size source.old))) }
    ensures plain { IfOk result (λ found. IfSome found (λ c. c.vouch ≡ None)) }
    ensures found { D.tells → IfOk result (FindsHalf (D.bytes source.old) half) }
    ensures broken { D.tells → IfErr result (BreaksHalf (D.bytes source.old) half) }
{
    let mut left = LISTED_SIZES.as_slice();
    while let [size, later @ ..] = left {
        match whole_at(alloc, source, place_of(half, *size))? {
            Some(found) => return Ok(Some(found)),
            None => left = later,
        }
    }
    Ok(None)
}

/// The metadata that is whole, of the copy of this size, if it is one of those that are listed.
pub(crate) fn found_of<D: Device>(
    alloc: Global,
    source: &mut D,
    half: Half,
    size: u64,
) -> Result<Option<Candidate>, RebuildFault>
    requires { D.failed source.old + 1 < 2 ^ 64 }
    ensures unchanged { IsUnchanged D.tells D.size D.bytes D.unsettled source.old source.new }
    ensures count { CountsFailure is_rebuild_failure result
        (D.failed source.old) (D.failed source.new) }
    ensures kinds { IfErr result IsFromOutside }
    ensures place { IfOk result (λ found. IfSome found (λ c. c.place ≡ place_of half size)) }
    ensures whole { IfOk result (λ found. IfSome found (IsWhole (D.size source.old))) }
    ensures plain { IfOk result (λ found. IfSome found (λ c. c.vouch ≡ None)) }
    ensures found { D.tells → IfOk result (FindsAt (D.bytes source.old) (place_of half size)) }
    ensures broken { D.tells → IfErr result (BreaksAt (D.bytes source.old) (place_of half size)) }
{
    if is_listed(size) {
        whole_at(alloc, source, place_of(half, size))
    } else {
        Ok(None)
    }
}

/// The metadata of the copy at the place, if it lies inside and is whole.
fn whole_at<D: Device>(
    alloc: Global,
    source: &mut D,
    place: Place,
) -> Result<Option<Candidate>, RebuildFault>
    requires listed { IsListed place.size }
    requires half { (place.at ≡ 0) ⊎ (place.at ≡ place.size) }
    requires room { D.failed source.old + 1 < 2 ^ 64 }
    ensures unchanged { IsUnchanged D.tells D.size D.bytes D.unsettled source.old source.new }
    ensures count { CountsFailure is_rebuild_failure result
        (D.failed source.old) (D.failed source.new) }
    ensures kinds { IfErr result IsFromOutside }
    ensures place { IfOk result (λ found. IfSome found (λ c. c.place ≡ place)) }
    ensures whole { IfOk result (λ found. IfSome found (IsWhole (D.size source.old))) }
    ensures plain { IfOk result (λ found. IfSome found (λ c. c.vouch ≡ None)) }
    ensures found { D.tells → IfOk result (FindsAt (D.bytes source.old) place) }
    ensures broken { D.tells → IfErr result (BreaksAt (D.bytes source.old) place) }
{
    if !is_inside(place, source.len()) {
        return Ok(None);
    }
    let begun = is_begun(source, place)?;
    if !begun {
        return Ok(None);
    }
    let json = json_area(alloc, source, place)?;
    match Meta::read(alloc, &json) {
        Ok(meta) => {
            let vouch = None;
            Ok(Some(Candidate {
                place,
                json,
                meta,
                vouch,
            }))
        }
        Err(fault) => {
            pass_over(fault)?;
            Ok(None)
        }
    }
}

/// Whether the JSON area of the copy at the place begins with a brace, as an object does. Takes no memory.
fn is_begun<D: Device>(source: &mut D, place: Place) -> Result<bool, DeviceFault>
    requires place { IsPlace (D.size source.old) place }
    requires room { D.failed source.old + 1 < 2 ^ 64 }
    ensures unchanged { IsUnchanged D.tells D.size D.bytes D.unsettled source.old source.new }
    ensures count { CountsFailure is_failure result (D.failed source.old) (D.failed source.new) }
    ensures begun { D.tells → IfOk result (λ is. IsTrue is
        ↔ (part (D.bytes source.old) (place.at + 4096) 1 ≡ codes "{")) }
{
    let mut first = [0; 1];
    source.read_at(place.at + BINARY_HEADER, &mut first)?;
    Ok(first == *b"{")
}

/// Passes over metadata with this fault, unless memory was refused for reading it.
fn pass_over(fault: MetaFault) -> Result<(), RebuildFault>
    ensures passed { OnOk result (fault ≢ MetaFault.Memory) }
    ensures refused { IfErr result (λ f. (f ≡ RebuildFault.Memory) × (fault ≡ MetaFault.Memory)) }
{
    match fault {
        MetaFault::Memory => Err(RebuildFault::Memory),
        _ => Ok(()),
    }
}

/// The bytes of the JSON area of the copy at the place.
fn json_area<D: Device>(
    alloc: Global,
    source: &mut D,
    place: Place,
) -> Result<Vec<u8>, RebuildFault>
    requires place { IsPlace (D.size source.old) place }
    requires room { D.failed source.old + 1 < 2 ^ 64 }
    ensures unchanged { IsUnchanged D.tells D.size D.bytes D.unsettled source.old source.new }
    ensures count { CountsFailure is_rebuild_failure result
        (D.failed source.old) (D.failed source.new) }
    ensures kinds { IfErr result IsFromOutside }
    ensures long { IfOk result (λ json. length json.items ≡ place.size - 4096) }
    ensures read { D.tells → IfOk result (λ json. json.items ≡ json_of (D.bytes source.old) place) }
{
    let _total = source.len();
    let len = (place.size - BINARY_HEADER) as usize;
    let mut json = vec![in alloc; 0u8; len]?;
    source.read_at(place.at + BINARY_HEADER, &mut json)?;
    Ok(json)
}
