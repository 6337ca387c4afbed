//! Metadata as a sign of the volume that begins before it.
ghost use Rattle.std.specs.Prelude.{◌≡◌, ◌↔◌, ◌+◌, ◌*◌, ◌^◌, ◌<◌, ◌≤◌, ◌⊎◌, IsTrue, IfErr, IfOk, IfSome};
ghost use Rattle.luks_area.specs.Device.{CountsFailure, IsUnchanged, is_failure};
ghost use Rattle.luks_area.specs.Ranges.{part};
ghost use Rattle.luks2_header.specs.Sizes.{IsListed};
ghost use Rattle.luks_finding.specs.Faults.{is_find_failure};
ghost use Rattle.luks_finding.specs.Starts.{other_magic, HasMetadata, IsExplained};
ghost use Rattle.luks_finding.specs.Telling.{FindsWhole, HasMetadataOf, HasNearerMetadata, IsMemoryOnly};

use crate::find_fault::FindFault;
use crate::metadata::is_whole;
use crate::second_copies::{LISTED_SIZES, is_sound, is_sound_first};
use crate::signs::{SECOND_MAGIC, SECTOR};
use luks_area::{Device, DeviceFault};
use luks_rebuilding::Place;
use luks1_header::luks1_places::MAGIC;
use std::alloc::Global;

/// The size of the copy whose binary header begins at the sector `header` and whose metadata is whole,
/// if there is one: no area has whole metadata of two sizes.
pub(crate) fn whole_size<D: Device>(
    alloc: Global,
    device: &mut D,
    header: u64,
) -> Result<Option<u64>, FindFault>
    requires inside { 512 * header ≤ D.size device.old }
    requires room { D.failed device.old + 1 < 2 ^ 64 }
    ensures unchanged { IsUnchanged D.tells D.size D.bytes D.unsettled device.old device.new }
    ensures count { CountsFailure is_find_failure result (D.failed device.old) (D.failed device.new) }
    ensures listed { IfOk result (λ found. IfSome found IsListed) }
    ensures found { D.tells → IfOk result (FindsWhole (D.bytes device.old) (512 * header)) }
    ensures memory { D.tells → IfErr result (IsMemoryOnly (D.bytes device.old)) }
{
    let mut left = LISTED_SIZES.as_slice();
    while let [size, later @ ..] = left {
        if is_whole(alloc, device, header, Place { size: *size, at: 0 })? {
            return Ok(Some(*size));
        }
        left = later;
    }
    Ok(None)
}

/// Whether a sound copy of another volume says that what is in the place of this copy, of the volume
/// that begins at the sector `sector`, is its other copy. Reads a binary header, and only where that is
/// of the right form the whole copy.
pub(crate) fn is_explained<D: Device>(
    device: &mut D,
    sector: u64,
    place: Place,
) -> Result<bool, DeviceFault>
    requires listed { IsListed place.size }
    requires half { (place.at ≡ 0) ⊎ (place.at ≡ place.size) }
    requires inside { 512 * sector + place.at ≤ D.size device.old }
    requires room { D.failed device.old + 1 < 2 ^ 64 }
    ensures unchanged { IsUnchanged D.tells D.size D.bytes D.unsettled device.old device.new }
    ensures count { CountsFailure is_failure result (D.failed device.old) (D.failed device.new) }
    ensures explained { D.tells → IfOk result
        (λ is. IsTrue is ↔ IsExplained (D.bytes device.old) (512 * sector) place) }
{
    let _total = device.len();
    let start = SECTOR as u64 * sector;
    if place.at > 0 {
        return is_sound(device, start + place.size, place.size);
    }
    if place.size > start {
        return Ok(false);
    }
    is_sound_first(device, start - place.size, place.size)
}

/// Whether the copy at the place, of the volume that begins at the sector `sector`, has whole metadata,
/// the other copy's magic doesn't come before it, and no sound copy of another volume explains it.
pub(crate) fn has_metadata<D: Device>(
    alloc: Global,
    device: &mut D,
    sector: u64,
    place: Place,
) -> Result<bool, FindFault>
    requires listed { IsListed place.size }
    requires half { (place.at ≡ 0) ⊎ (place.at ≡ place.size) }
    requires inside { 512 * sector ≤ D.size device.old }
    requires room { D.failed device.old + 1 < 2 ^ 64 }
    ensures unchanged { IsUnchanged D.tells D.size D.bytes D.unsettled device.old device.new }
    ensures count { CountsFailure is_find_failure result (D.failed device.old) (D.failed device.new) }
    ensures has { D.tells → IfOk result
        (λ has. IsTrue has ↔ HasMetadata (D.bytes device.old) (512 * sector) place) }
    ensures memory { D.tells → IfErr result (IsMemoryOnly (D.bytes device.old)) }
{
    if !is_whole(alloc, device, sector, place)? {
        return Ok(false);
    }
    if !is_own(device, sector, place)? {
        return Ok(false);
    }
    if is_explained(device, sector, place)? {
        return Ok(false);
    }
    Ok(true)
}

/// Whether the other copy's magic doesn't come before the copy at the place.
fn is_own<D: Device>(device: &mut D, sector: u64, place: Place) -> Result<bool, DeviceFault>
    requires inside { 512 * sector + place.at + 6 ≤ D.size device.old }
    requires room { D.failed device.old + 1 < 2 ^ 64 }
    ensures unchanged { IsUnchanged D.tells D.size D.bytes D.unsettled device.old device.new }
    ensures count { CountsFailure is_failure result (D.failed device.old) (D.failed device.new) }
    ensures own { D.tells → IfOk result (λ own. IsTrue own
        ↔ (part (D.bytes device.old) (512 * sector + place.at) 6 ≡ other_magic place.at → ⊥)) }
{
    let _total = device.len();
    let mut magic = [0; 6];
    device.read_at(SECTOR as u64 * sector + place.at, &mut magic)?;
    Ok(magic != other_magic(place))
}

/// The magic of the other copy than the one at the place.
fn other_magic(place: Place) -> [u8; 6]
    ensures { result ≡ other_magic place.at }
{
    if place.at == 0 { SECOND_MAGIC } else { MAGIC }
}

/// Whether a copy of the volume that begins at the sector `sector`, nearer to its start than `size`
/// bytes, has metadata that is a sign of it.
pub(crate) fn has_nearer_metadata<D: Device>(
    alloc: Global,
    device: &mut D,
    sector: u64,
    size: u64,
) -> Result<bool, FindFault>
    requires some { 0 < size }
    requires inside { 512 * sector ≤ D.size device.old }
    requires room { D.failed device.old + 1 < 2 ^ 64 }
    ensures unchanged { IsUnchanged D.tells D.size D.bytes D.unsettled device.old device.new }
    ensures count { CountsFailure is_find_failure result (D.failed device.old) (D.failed device.new) }
    ensures has { D.tells → IfOk result
        (λ has. IsTrue has ↔ HasNearerMetadata (D.bytes device.old) (512 * sector) size) }
    ensures memory { D.tells → IfErr result (IsMemoryOnly (D.bytes device.old)) }
{
    let mut left = LISTED_SIZES.as_slice();
    while let [near, later @ ..] = left {
        if has_metadata_of(alloc, device, sector, *near, size)? {
            return Ok(true);
        }
        left = later;
    }
    Ok(false)
}

/// Whether a first copy of `near` bytes has such metadata, or, where it begins nearer to the start than
/// `size` bytes, a second one.
fn has_metadata_of<D: Device>(
    alloc: Global,
    device: &mut D,
    sector: u64,
    near: u64,
    size: u64,
) -> Result<bool, FindFault>
    requires listed { IsListed near }
    requires some { 0 < size }
    requires inside { 512 * sector ≤ D.size device.old }
    requires room { D.failed device.old + 1 < 2 ^ 64 }
    ensures unchanged { IsUnchanged D.tells D.size D.bytes D.unsettled device.old device.new }
    ensures count { CountsFailure is_find_failure result (D.failed device.old) (D.failed device.new) }
    ensures has { D.tells → IfOk result
        (λ has. IsTrue has ↔ HasMetadataOf (D.bytes device.old) (512 * sector) near size) }
    ensures memory { D.tells → IfErr result (IsMemoryOnly (D.bytes device.old)) }
{
    let first = Place { size: near, at: 0 };
    if has_metadata(alloc, device, sector, first)? {
        return Ok(true);
    }
    if near >= size {
        return Ok(false);
    }
    let second = Place {
        size: near,
        at: near,
    };
    has_metadata(alloc, device, sector, second)
}
