//! The metadata of a new LUKS2 volume.
ghost use Rattle.std.specs.Prelude.{◌≡◌, ◌+◌, ◌≤◌, ◌<◌, ◌^◌, true, length, IfOk, IfSome, OnOk};
ghost use Rattle.serde_json.specs.View.{view};
ghost use Rattle.luks_kdf.specs.Names.{digest_size_of, name_of};
ghost use Rattle.luks_making.specs.Formatted.{volume_members};
ghost use Rattle.luks_making.specs.Keyslots.{derivation_of, slot_members};
ghost use Rattle.luks_making.specs.Derivations.{IsMakeable};
ghost use Rattle.luks_rules.specs.Reading.{is_sector_size};
ghost use Rattle.luks_formatting.specs.Deriving.{slot_derivation};
ghost use Rattle.luks_formatting.specs.Encrypting.{takes_key};
ghost use Rattle.luks_formatting.specs.NewHeader2.{first_slot_by, formatted_by, new_members, own_segment, segment_sector, segment_start};
ghost use Rattle.luks_formatting.specs.NewPlan.{key_digest};
ghost use Rattle.luks_formatting.specs.Volume2.{Fits, HasArea};

use crate::given::Given;
use crate::new_header2::{JSON_SIZE, SLOT_SALT};
use crate::random::{DIGEST_SALT, SALT_BYTES, taken};
use crate::volume2::Volume;
use luks_making::{
    KeyslotDerivation, NewDerivation, NewKeyslot, NewVolume, chosen_fits, formatted, slot_value,
    volume_fits, with_slot, without_slot, written_area,
};
use luks_reading::{Data, Format};
use serde_json::Value;
use std::alloc::{AllocError, Global};

/// The JSON area of both copies of the header, with this digest of the volume key.
pub(crate) fn new_area(
    alloc: Global,
    volume: &Volume<'_>,
    digest: &[u8],
) -> Result<Vec<u8>, AllocError>
    requires iterations { 1 ≤ volume.now.format.now.iterations }
    requires makeable { IfSome volume.now.chosen (IsMakeable volume.now.passphrase.allowed.memory) }
    requires takes { takes_key volume.now.given.now.cipher volume.now.given.now.key_bytes ≡ true }
    requires small { volume.now.given.now.key_bytes ≤ 64 }
    requires size { is_sector_size volume.now.given.now.sector_size ≡ true }
    requires long { 208 + volume.now.given.now.key_bytes ≤ length volume.now.random.now }
    requires sector { segment_sector volume.now.given.now < 2 ^ 55 }
    requires digest { digest.now ≡ key_digest volume.now.given.now volume.now.format.now volume.now.random.now
        (digest_size_of volume.now.format.now.hash) }
    requires digest_length { length digest.now ≡ digest_size_of volume.now.format.now.hash }
    ensures area { IfOk result (λ a. HasArea volume.now a.items) }
    ensures fits { OnOk result (Fits volume.now) }
{
    let key_bytes = volume.given.key_bytes as usize;
    let like = NewVolume {
        hash: volume.format.hash.text(),
        iterations: volume.format.iterations,
        segment_offset: segment_start(volume.given),
        digest_salt: taken(volume.random, DIGEST_SALT + key_bytes, SALT_BYTES),
        digest,
        slot_salt: taken(volume.random, SLOT_SALT + key_bytes, SALT_BYTES),
        encryption: volume.given.cipher.text(),
        sector_size: volume.given.sector_size,
    };
    area_of(alloc, volume, &like)
}

// The same by what the metadata says.
fn area_of(alloc: Global, volume: &Volume<'_>, like: &NewVolume<'_>) -> Result<Vec<u8>, AllocError>
    requires iterations { 1 ≤ volume.now.format.now.iterations }
    requires makeable { IfSome volume.now.chosen (IsMakeable volume.now.passphrase.allowed.memory) }
    requires takes { takes_key volume.now.given.now.cipher volume.now.given.now.key_bytes ≡ true }
    requires small { volume.now.given.now.key_bytes ≤ 64 }
    requires size { is_sector_size volume.now.given.now.sector_size ≡ true }
    requires long { 208 + volume.now.given.now.key_bytes ≤ length volume.now.random.now }
    requires members { volume_members like.now
        ≡ new_members volume.now.given.now volume.now.format.now volume.now.random.now }
    requires digest_length { length like.now.digest.now
        ≡ digest_size_of volume.now.format.now.hash }
    ensures area { IfOk result (λ a. HasArea volume.now a.items) }
    ensures fits { OnOk result (Fits volume.now) }
{
    volume_fits(like);
    chosen_fits(volume.chosen);
    let key_bytes = volume.given.key_bytes as u8;
    let value = metadata_of(alloc, volume.format, volume.chosen, key_bytes, like)?;
    match written_area(alloc, &value, JSON_SIZE)? {
        Some(area) => Ok(area),
        None => unreachable!(),
    }
}

// The metadata, whose keyslot is derived as the digest or as is chosen.
fn metadata_of(
    alloc: Global,
    format: &Format,
    chosen: Option<NewDerivation>,
    key_bytes: u8,
    like: &NewVolume<'_>,
) -> Result<Value, AllocError>
    ensures { IfOk result (λ v. view v
        ≡ formatted_by key_bytes (slot_derivation format.now chosen) (volume_members like.now)) }
{
    let keyslot = slot_value(alloc, &first_slot(format, chosen, key_bytes, like))?;
    let value = formatted(alloc, like)?;
    let bare = without_slot(alloc, value, 0)?;
    with_slot(alloc, bare, 0, 0, keyslot)
}

fn first_slot<'a>(
    format: &Format,
    chosen: Option<NewDerivation>,
    key_bytes: u8,
    like: &NewVolume<'a>,
) -> NewKeyslot<'a>
    ensures { slot_members result
        ≡ first_slot_by key_bytes (slot_derivation format.now chosen) (volume_members like.now) }
{
    NewKeyslot {
        key_size: key_bytes,
        stripes: 4000,
        splitter_hash: like.hash,
        offset: 32768,
        size: (u64::from(key_bytes) * 4000).next_multiple_of(4096),
        encryption: like.encryption,
        area_key_size: key_bytes,
        derivation: written_derivation(format, chosen),
        salt: like.slot_salt,
    }
}

/// The derivation as the metadata has it.
fn written_derivation<'a>(format: &Format, chosen: Option<NewDerivation>) -> KeyslotDerivation<'a>
    ensures { derivation_of result ≡ slot_derivation format.now chosen }
{
    let hash = format.hash.text();
    match chosen {
        None => KeyslotDerivation::Pbkdf2 {
            hash,
            iterations: format.iterations,
        },
        Some(NewDerivation::Pbkdf2 { iterations }) => KeyslotDerivation::Pbkdf2 {
            hash,
            iterations,
        },
        Some(NewDerivation::Argon2i(costs)) => KeyslotDerivation::Argon2i(costs),
        Some(NewDerivation::Argon2id(costs)) => KeyslotDerivation::Argon2id(costs),
    }
}

/// Where the segment begins, in bytes.
fn segment_start(given: &Given<'_>) -> u64
    requires { segment_sector given.now < 2 ^ 55 }
    ensures { result ≡ segment_start given.now }
{
    512 * match given.sector {
        Some(sector) => sector,
        None => own_segment(given.payload),
    }
}

fn own_segment(payload: Data) -> u64
    ensures { result ≡ own_segment payload }
{
    match payload {
        Data::Here => 32768,
        Data::Elsewhere => 0,
    }
}
