//! The metadata of a new volume.

ghost use Rattle.std.specs.Prelude.{◌≡◌, IfOk};
ghost use Rattle.serde_json.specs.View.{view};
ghost use Rattle.luks_rules.specs.Held.{IsHeld};
ghost use Rattle.luks_making.specs.Keyslots.{slot_value};
ghost use Rattle.luks_making.specs.Conditions.{CanFormat, FitsVolume};
ghost use Rattle.luks_making.specs.Formatted.{VolumeMembers, config_value, digest_value, first_slot, formatted, segment_value, sole, volume_members};

use crate::new_keyslot::{KeyslotDerivation, NewKeyslot, are_bytes, base64_text, slot_value};
use luks_json::{decimals_say_numbers, encodings_say_bytes, names_say_numbers};
use serde_json::{Value, json};
use std::alloc::{AllocError, Global};

/// What the metadata of a new volume says.
#[derive(Clone, Copy)]
pub struct NewVolume<'a> {
    /// The hash of the derivation, the splitter and the digest.
    pub hash: &'a str,
    /// Iterations of the derivation and of the digest.
    pub iterations: u32,
    /// Where the segment begins, in bytes.
    pub segment_offset: u64,
    /// The digest's salt.
    pub digest_salt: &'a [u8],
    /// The volume key's digest.
    pub digest: &'a [u8],
    /// The keyslot's salt.
    pub slot_salt: &'a [u8],
    /// The cipher of the keyslot's area and of the segment, with its mode.
    pub encryption: &'a str,
    /// The length in bytes of the segment's sectors: 512, 1024, 2048 or 4096.
    pub sector_size: u32,
}

/// What a new volume says has the ranges of its types. The function does nothing; its contract is
/// the law.
pub fn volume_fits(volume: &NewVolume<'_>)
    ensures { FitsVolume (volume_members volume.now) }
{
    let NewVolume {
        hash,
        iterations,
        segment_offset,
        digest_salt,
        digest,
        slot_salt,
        encryption,
        sector_size,
    } = *volume;
    are_bytes(digest_salt);
    are_bytes(digest);
    are_bytes(slot_salt);
}

fn config_value(alloc: Global) -> Result<Value, AllocError>
    ensures { IfOk result (λ v. view v ≡ config_value) }
{
    json!(in alloc; {"json_size": "12288", "keyslots_size": "16744448"})
}

fn digest_value(alloc: Global, volume: &NewVolume<'_>) -> Result<Value, AllocError>
    ensures { IfOk result (λ v. view v ≡ digest_value (volume_members volume.now)) }
{
    let digest = base64_text(alloc, volume.digest)?;
    let salt = base64_text(alloc, volume.digest_salt)?;
    json!(in alloc; {
        "digest": digest,
        "hash": volume.hash,
        "iterations": volume.iterations,
        "keyslots": ["0"],
        "salt": salt,
        "segments": ["0"],
        "type": "pbkdf2"
    })
}

fn first_slot(alloc: Global, volume: &NewVolume<'_>) -> Result<Value, AllocError>
    ensures { IfOk result (λ v. view v ≡ slot_value (first_slot (volume_members volume.now))) }
{
    let keyslot = NewKeyslot {
        key_size: 64,
        stripes: 4000,
        splitter_hash: volume.hash,
        offset: 32768,
        size: 258048,
        encryption: volume.encryption,
        area_key_size: 64,
        derivation: KeyslotDerivation::Pbkdf2 {
            hash: volume.hash,
            iterations: volume.iterations,
        },
        salt: volume.slot_salt,
    };
    slot_value(alloc, &keyslot)
}

fn segment_value(alloc: Global, volume: &NewVolume<'_>) -> Result<Value, AllocError>
    ensures { IfOk result (λ v. view v ≡ segment_value (volume_members volume.now)) }
{
    let offset = volume.segment_offset.to_string(alloc)?;
    json!(in alloc; {
        "encryption": volume.encryption,
        "iv_tweak": "0",
        "offset": offset,
        "sector_size": volume.sector_size,
        "size": "dynamic",
        "type": "crypt"
    })
}

/// The map with one object, the one of number 0.
fn sole(alloc: Global, object: Value) -> Result<Value, AllocError>
    ensures { IfOk result (λ v. view v ≡ sole (view object)) }
{
    json!(in alloc; {"0": object})
}

/// The metadata of a new volume with one keyslot, for a JSON area of 12288 bytes (LUKS2 On-Disk
/// Format 1.1, section 3).
///
/// Takes memory for the value.
pub fn formatted(alloc: Global, volume: &NewVolume<'_>) -> Result<Value, AllocError>
    ensures { IfOk result (λ v. view v ≡ formatted (volume_members volume.now)) }
{
    let config = config_value(alloc)?;
    let digests = sole(alloc, digest_value(alloc, volume)?)?;
    let keyslots = sole(alloc, first_slot(alloc, volume)?)?;
    let segments = sole(alloc, segment_value(alloc, volume)?)?;
    json!(in alloc; {
        "config": config,
        "digests": digests,
        "keyslots": keyslots,
        "segments": segments,
        "tokens": {}
    })
}
