//! The metadata of a header that is made from a LUKS1 volume.

ghost use Rattle.std.specs.Prelude.{◌≡◌, ◌+◌, ◌*◌, ◌<◌, ◌≤◌, ◌^◌, ℕ, Some, IfOk, codes, decimal};
ghost use Rattle.serde_json.specs.Data.{string};
ghost use Rattle.serde_json.specs.View.{view};
ghost use Rattle.luks_making.specs.Changing.{set_member};
ghost use Rattle.luks_making.specs.Conversions.{FitsSource, FitsSourceSlot, IsBytesOf};
ghost use Rattle.luks_making.specs.Converted.{SourceSlotMembers, area_size, area_start, converted, converted_below, converted_slot, region_size, source_members, source_slot_members, with_region};
ghost use Rattle.luks_making.specs.Keyslots.{slot_members};

use crate::changing::{set_member, take_member, with_member};
use crate::new_keyslot::{KeyslotDerivation, NewKeyslot, are_bytes, slot_value};
use crate::new_volume::{NewVolume, formatted};
use crate::with::with_slot;
use crate::without::without_slot;
use serde_json::Value;
use std::alloc::{AllocError, Global};

/// What an enabled keyslot of a LUKS1 header says, except for where its key material lies.
#[derive(Clone, Copy)]
pub struct SourceSlot {
    /// The derivation's iterations.
    pub iterations: u32,
    /// The derivation's salt.
    pub salt: [u8; 32],
    /// Stripes of the splitter.
    pub stripes: u32,
}

/// What a LUKS1 header says, except for its uuid, which isn't a member of the metadata.
#[derive(Clone, Copy)]
pub struct SourceVolume<'a> {
    /// The hash of the derivation, the splitter and the digest.
    pub hash: &'a str,
    /// The cipher's name, a hyphen and its mode.
    pub encryption: &'a str,
    /// The length of the volume key in bytes.
    pub key_bytes: u8,
    /// The digest's iterations.
    pub digest_iterations: u32,
    /// The digest's salt.
    pub digest_salt: [u8; 32],
    /// The volume key's digest.
    pub digest: [u8; 20],
    /// Where the payload begins, in bytes from the source's start.
    pub payload_offset: u64,
    /// The enabled keyslots by their numbers.
    pub slots: [Option<SourceSlot>; 8],
}

/// The start of the region of the key areas, after two copies of 16384 bytes.
const REGION_START: u64 = 32768;

/// Where it ends at the latest, in bytes.
const REGION_END: u64 = 16777216;

/// The block of which an area has a whole number, in bytes.
const BLOCK: u64 = 4096;

fn salt_fits(salt: &[u8; 32])
    ensures { IsBytesOf 32 salt.now }
{
    are_bytes(salt);
}

fn digest_fits(digest: &[u8; 20])
    ensures { IsBytesOf 20 digest.now }
{
    are_bytes(digest);
}

fn slot_fits(slot: &SourceSlot)
    ensures { FitsSourceSlot (source_slot_members slot.now) }
{
    let SourceSlot {
        iterations,
        salt,
        stripes,
    } = *slot;
    salt_fits(&salt);
}

fn slots_fit(volume: &SourceVolume<'_>)
    ensures { (n : ℕ) (s : SourceSlotMembers) → n < 8
        → (source_members volume.now).slot n ≡ Some s → FitsSourceSlot s }
{
    for slot in &volume.slots {
        if let Some(slot) = slot {
            slot_fits(slot);
        }
    }
}

/// What a LUKS1 header says has the ranges of its types. The function does nothing; its contract is
/// the law.
pub fn source_fits(volume: &SourceVolume<'_>)
    ensures { FitsSource (source_members volume.now) }
{
    let SourceVolume {
        hash,
        encryption,
        key_bytes,
        digest_iterations,
        digest_salt,
        digest,
        payload_offset,
        slots,
    } = *volume;
    salt_fits(&digest_salt);
    digest_fits(&digest);
    slots_fit(volume);
}

/// The bytes of the new area of a keyslot: the split key in whole blocks of 4096 bytes.
pub fn area_size(volume: &SourceVolume<'_>, slot: &SourceSlot) -> u64
    ensures size { result
        ≡ area_size (source_members volume.now) (source_slot_members slot.now) }
    ensures short { result ≤ 2 ^ 41 }
{
    let material = u64::from(volume.key_bytes) * u64::from(slot.stripes);
    material.next_multiple_of(BLOCK)
}

/// The start of the new area of the keyslot `number`, in bytes from the header's start: the areas
/// follow each other by the numbers of the enabled keyslots from 32768 on. For 8, where the last one
/// ends.
pub fn area_start(volume: &SourceVolume<'_>, number: usize) -> u64
    requires { number ≤ 8 }
    ensures start { result ≡ area_start (source_members volume.now) number }
    ensures short { result ≤ 32768 + number * 2 ^ 41 }
{
    let mut start = REGION_START;
    for n in 0..number {
        if let Some(slot) = volume.slots[n] {
            start += area_size(volume, &slot);
        }
    }
    start
}

/// The bytes of the region of the key areas.
fn region_size(volume: &SourceVolume<'_>) -> u64
    ensures { result ≡ region_size (source_members volume.now) }
{
    let end = if volume.payload_offset < area_start(volume, 8) {
        REGION_END
    } else {
        volume.payload_offset.min(REGION_END)
    };
    (end - REGION_START) / BLOCK * BLOCK
}

/// The configuration with a region of the key areas of so many bytes.
fn config_with_region(alloc: Global, config: Value, size: u64) -> Result<Value, AllocError>
    ensures { IfOk result (λ v. view v
        ≡ set_member (codes "keyslots_size") (string (decimal size)) (view config)) }
{
    let size = size.to_string(alloc)?;
    set_member(alloc, config, "keyslots_size", Value::String(size))
}

/// The value with a region of the key areas of so many bytes.
fn with_region(alloc: Global, mut value: Value, size: u64) -> Result<Value, AllocError>
    ensures { IfOk result (λ v. view v ≡ with_region size (view value)) }
{
    match take_member(&mut value, "config") {
        Some(config) => {
            let changed = config_with_region(alloc, config, size)?;
            with_member(alloc, value, "config", changed)
        }
        None => Ok(value),
    }
}

/// The value of a new volume with the source's digest and payload, the region of its new areas, and
/// no keyslot.
fn without_keyslots(alloc: Global, volume: &SourceVolume<'_>) -> Result<Value, AllocError>
    ensures { IfOk result (λ v. view v ≡ converted_below (source_members volume.now) 0) }
{
    let like = NewVolume {
        hash: volume.hash,
        iterations: volume.digest_iterations,
        segment_offset: volume.payload_offset,
        digest_salt: &volume.digest_salt,
        digest: &volume.digest,
        slot_salt: &volume.digest_salt,
        encryption: volume.encryption,
        sector_size: 512,
    };
    let value = formatted(alloc, &like)?;
    let bare = without_slot(alloc, value, 0)?;
    with_region(alloc, bare, region_size(volume))
}

/// The keyslot of this number, which is enabled.
fn converted_slot<'a>(
    volume: &'a SourceVolume<'_>,
    slot: &'a SourceSlot,
    number: usize,
) -> NewKeyslot<'a>
    requires { number < 8 }
    ensures { slot_members result
        ≡ converted_slot (source_members volume.now) number (source_slot_members slot.now) }
{
    NewKeyslot {
        key_size: volume.key_bytes,
        stripes: slot.stripes,
        splitter_hash: volume.hash,
        offset: area_start(volume, number),
        size: area_size(volume, slot),
        encryption: volume.encryption,
        area_key_size: volume.key_bytes,
        derivation: KeyslotDerivation::Pbkdf2 {
            hash: volume.hash,
            iterations: slot.iterations,
        },
        salt: &slot.salt,
    }
}

/// The metadata of a header that is made from a LUKS1 volume, for a JSON area of 12288 bytes: each
/// enabled keyslot under its own number, in an area of whole blocks of 4096 bytes behind those of lower
/// numbers, and the source's digest with its 20 bytes (LUKS2 On-Disk Format 1.1, section 3). The region
/// of the key areas ends by the payload where the areas do, and at 16777216 at the latest.
///
/// Takes memory for the value.
pub fn converted(alloc: Global, volume: &SourceVolume<'_>) -> Result<Value, AllocError>
    ensures { IfOk result (λ v. view v ≡ converted (source_members volume.now)) }
{
    let mut value = without_keyslots(alloc, volume)?;
    for (number, slot) in volume.slots.iter().enumerate() {
        if let Some(slot) = slot {
            let keyslot = converted_slot(volume, slot, number);
            let made = slot_value(alloc, &keyslot)?;
            value = with_slot(alloc, value, number as u8, 0, made)?;
        }
    }
    Ok(value)
}
