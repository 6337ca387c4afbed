//! New metadata, and the JSON area that metadata is written in.

ghost use Rattle.std.specs.Prelude.{◌≡◌, ◌≢◌, ◌<◌, ◌≤◌, length, IfErr, IfOk, IfSome, IsNone};
ghost use Rattle.serde_json.specs.View.{view};
ghost use Rattle.serde_json.specs.Written.{compact_text};
ghost use Rattle.luks_area.specs.First.{IsLeast};
ghost use Rattle.luks_rules.specs.Held.{IsHeld};
ghost use Rattle.luks_rules.specs.MetaFault.{meta_key};
ghost use Rattle.luks_rules.specs.Valued.{IsValueFault};
ghost use Rattle.luks_making.specs.Amended.{with_priority, with_token, without_token};
ghost use Rattle.luks_making.specs.Changed.{changed_slot};
ghost use Rattle.luks_making.specs.Conditions.{CanFormat, CanSeal, IsFree};
ghost use Rattle.luks_making.specs.Conversions.{CanConvert};
ghost use Rattle.luks_making.specs.Converted.{converted, source_members};
ghost use Rattle.luks_making.specs.Formatted.{formatted, volume_members};
ghost use Rattle.luks_making.specs.Keyslots.{new_members, slot_members};
ghost use Rattle.luks_making.specs.Naming.{HasUniqueDigests};
ghost use Rattle.luks_making.specs.With.{IsAdded, with_slot};
ghost use Rattle.luks_making.specs.Without.{without_slot, without_slots};
ghost use Rattle.luks_making.specs.WrittenArea.{IsWrittenArea};
ghost use Rattle.luks_meta.specs.Content.{area_len, content};
ghost use Rattle.luks_new_meta.specs.Made.{HasRoom};

use crate::adding::added;
use luks_making::{
    New, NewKeyslot, NewVolume, Priority, SourceVolume, new_fits, slot_value, source_fits,
    volume_fits, written_area,
};
use luks_meta::Meta;
use luks_rules::{MetaFault, judge_value};
use serde_json::Value;
use std::alloc::{AllocError, Global};

/// The length of the JSON area of a header of 16384 bytes.
const JSON_SIZE: usize = 12288;

/// The metadata of a new volume with one keyslot, for a header of 16384 bytes.
///
/// Takes memory for the value.
pub fn formatted(alloc: Global, volume: &NewVolume<'_>) -> Result<Meta, AllocError>
    requires { CanFormat (volume_members volume.now) }
    ensures value { IfOk result (λ m. content m ≡ formatted (volume_members volume.now)) }
    ensures length { IfOk result (λ m. area_len m ≡ 12288) }
{
    volume_fits(volume);
    let value = luks_making::formatted(alloc, volume)?;
    Ok(Meta::of_value(value, JSON_SIZE))
}

/// The metadata of a header of 16384 bytes that is made from a LUKS1 volume: each enabled keyslot
/// under its own number, in an area of whole blocks of 4096 bytes behind those of lower numbers, the
/// source's digest with its 20 bytes, and one segment, the source's payload.
///
/// Takes memory for the value.
#[tactic(auto, using(luks_making::proofs::ConvertedTextFacts::text_short))]
pub fn converted(alloc: Global, volume: &SourceVolume<'_>) -> Result<Meta, AllocError>
    requires { CanConvert (source_members volume.now) }
    ensures value { IfOk result (λ m. content m ≡ converted (source_members volume.now)) }
    ensures length { IfOk result (λ m. area_len m ≡ 12288) }
    ensures short { IfOk result (λ m. length (compact_text (content m)) ≤ 12287) }
{
    source_fits(volume);
    let value = luks_making::converted(alloc, volume)?;
    Ok(Meta::of_value(value, JSON_SIZE))
}

/// The JSON area as it is written: the metadata's text and zeros after it, as long as the area
/// that was read; none where the text is longer than the area less one byte.
///
/// Takes memory for the area, in which the text is made.
pub fn json_area(alloc: Global, meta: &Meta) -> Result<Option<Vec<u8>>, AllocError>
    ensures holds { IfOk result (λ o. IfSome o (λ a.
        IsWrittenArea (area_len meta.now) (content meta.now) a.items)) }
    ensures full { IfOk result (λ o. IsNone o
        → area_len meta.now ≤ length (compact_text (content meta.now))) }
{
    written_area(alloc, meta.value(), meta.area_len())
}

/// The metadata without the keyslot, and without its name in the arrays of digests and tokens.
/// All else stays as it is. The metadata is given up: its value is edited in place.
///
/// Takes memory for the maps of tokens and digests.
pub fn without_slot(alloc: Global, meta: Meta, number: u8) -> Result<Meta, AllocError>
    requires { number < 32 }
    ensures value { IfOk result (λ m. content m ≡ without_slot number (content meta)) }
    ensures length { IfOk result (λ m. area_len m ≡ area_len meta) }
{
    let len = meta.area_len();
    let value = luks_making::without_slot(alloc, meta.into_value(), number)?;
    Ok(Meta::of_value(value, len))
}

/// The metadata without any keyslot, and with none named in the arrays of digests and tokens. All else
/// stays as it is. The metadata is given up: its value is edited in place.
///
/// Takes memory for the maps of tokens and digests.
pub fn without_slots(alloc: Global, meta: Meta) -> Result<Meta, AllocError>
    ensures value { IfOk result (λ m. content m ≡ without_slots (content meta)) }
    ensures length { IfOk result (λ m. area_len m ≡ area_len meta) }
{
    let len = meta.area_len();
    let value = luks_making::without_slots(alloc, meta.into_value())?;
    Ok(Meta::of_value(value, len))
}

/// The metadata with the keyslot `to`, without a priority: it has the members of the keyslot `by`, the
/// costs of its derivation too where none is chosen, except for what is new. Its name goes last in the array of the
/// digest that names `by`. All else stays as it is. No digest's name stands twice in the metadata,
/// which is given up: its value is edited in place.
///
/// Takes memory for the new keyslot.
pub fn with_slot(
    alloc: Global,
    meta: Meta,
    to: u8,
    by: u8,
    new: &New<'_>,
) -> Result<Meta, AllocError>
    requires to { IsFree (content meta) to }
    requires by { CanSeal (area_len meta) (content meta) by (new_members new.now) }
    ensures value { IfOk result (λ m.
        IsAdded to by (new_members new.now) (content meta) (content m)) }
    ensures length { IfOk result (λ m. area_len m ≡ area_len meta) }
    ensures unique { HasUniqueDigests (content meta) }
{
    new_fits(new);
    let len = meta.area_len();
    let value = added(alloc, meta, to, by, new)?;
    Ok(Meta::of_value(value, len))
}

/// The metadata with a keyslot of these members, without a priority, whose name goes last in the array of
/// the digest. All else stays as it is. No digest's name stands twice in the metadata, which is given up:
/// its value is edited in place.
///
/// Takes memory for the new keyslot.
pub fn with_new_slot(
    alloc: Global,
    meta: Meta,
    to: u8,
    digest: u8,
    keyslot: &NewKeyslot<'_>,
) -> Result<Meta, AllocError>
    requires { HasRoom (area_len meta) to digest (slot_members keyslot.now) (content meta) }
    ensures value { IfOk result (λ m.
        content m ≡ with_slot to digest (slot_members keyslot.now) (content meta)) }
    ensures length { IfOk result (λ m. area_len m ≡ area_len meta) }
    ensures unique { HasUniqueDigests (content meta) }
{
    let len = meta.area_len();
    meta.digests_stand_once();
    let made = slot_value(alloc, keyslot)?;
    let value = luks_making::with_slot(alloc, meta.into_value(), to, digest, made)?;
    Ok(Meta::of_value(value, len))
}

/// The metadata with the keyslot's new salt and area, and the derivation that is chosen; where none is,
/// with new iterations if it derives by PBKDF2. All else stays as it is. The metadata is given up: its
/// value is edited in place.
///
/// Takes memory for the new members.
pub fn changed_slot(
    alloc: Global,
    meta: Meta,
    number: u8,
    new: &New<'_>,
) -> Result<Meta, AllocError>
    requires { CanSeal (area_len meta) (content meta) number (new_members new.now) }
    ensures value { IfOk result (λ m.
        content m ≡ changed_slot number (new_members new.now) (content meta)) }
    ensures length { IfOk result (λ m. area_len m ≡ area_len meta) }
{
    new_fits(new);
    let len = meta.area_len();
    let value = luks_making::changed_slot(alloc, meta.into_value(), number, new)?;
    Ok(Meta::of_value(value, len))
}

/// The metadata with the priority in the keyslot, or without one where it is normal. All else stays as it
/// is. The metadata is given up: its value is edited in place.
///
/// Takes memory for the names of members.
pub fn with_priority(
    alloc: Global,
    meta: Meta,
    number: u8,
    priority: Priority,
) -> Result<Meta, AllocError>
    requires { number < 32 }
    ensures value { IfOk result (λ m.
        content m ≡ with_priority number priority (content meta)) }
    ensures length { IfOk result (λ m. area_len m ≡ area_len meta) }
{
    let len = meta.area_len();
    let value = luks_making::with_priority(alloc, meta.into_value(), number, priority)?;
    Ok(Meta::of_value(value, len))
}

/// The metadata with the token, in the place of one that has this number. All else stays as it is. The
/// metadata is given up: its value is edited in place.
///
/// Refused by the first fault that the metadata with the token would have. Takes memory for a copy of the
/// token; `Memory` is answered only where it was refused.
pub fn with_token(alloc: Global, meta: Meta, number: u8, token: &Value) -> Result<Meta, MetaFault>
    requires { number < 32 }
    ensures value { IfOk result (λ m.
        content m ≡ with_token number (view token.now) (content meta)) }
    ensures length { IfOk result (λ m. area_len m ≡ area_len meta) }
    ensures fault { IfErr result (λ f. f ≢ MetaFault.Memory → IsLeast meta_key (IsValueFault
        (area_len meta) (with_token number (view token.now) (content meta))) f) }
    ensures only { IsHeld (area_len meta) (with_token number (view token.now) (content meta))
        → IfErr result (λ f. f ≡ MetaFault.Memory) }
{
    let len = meta.area_len();
    let Ok(value) = luks_making::with_token(alloc, meta.into_value(), number, token) else {
        return Err(MetaFault::Memory);
    };
    judge_value(len, &value)?;
    Ok(Meta::of_value(value, len))
}

/// The metadata without the token. All else stays as it is. The metadata is given up: its value is edited in
/// place.
///
/// Takes memory for the names of members.
pub fn without_token(alloc: Global, meta: Meta, number: u8) -> Result<Meta, AllocError>
    requires { number < 32 }
    ensures value { IfOk result (λ m. content m ≡ without_token number (content meta)) }
    ensures length { IfOk result (λ m. area_len m ≡ area_len meta) }
{
    let len = meta.area_len();
    let value = luks_making::without_token(alloc, meta.into_value(), number)?;
    Ok(Meta::of_value(value, len))
}
