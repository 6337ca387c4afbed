//! Whether a volume is in the midst of a reencryption.
ghost use Rattle.std.specs.Prelude.{◌≡◌, ◌↔◌, ◌+◌, ◌-◌, ◌≤◌, ◌<◌, ◌^◌, ℕ, List, IfOk, IfErr, IfSome, IsNone, IsTrue, option_map};
ghost use Rattle.std.specs.Option.{option_map_or};
ghost use Rattle.serde_json.specs.View.{items_view, view};
ghost use Rattle.luks_area.specs.Device.{CountsFailure, IsUnchanged, is_failure};
ghost use Rattle.luks_area.specs.Ranges.{part};
ghost use Rattle.luks_commands.specs.Standing.{is_bar_failure};
ghost use Rattle.luks_commands.specs.Reencrypting.{asks_reencryption, HasReencryptingSlot, has_reencrypt_type, is_asking, is_reencrypting_slot, is_reencryption, is_reencryption_item};
ghost use Rattle.luks_commands.specs.Reencrypting.{FindsMetadata, IsFromOutside, IsUntoldMetadata, mandatory_in};
ghost use Rattle.luks_commands.specs.Reencrypting.{IsReencrypting, IsReencryptingArea, IsReencryptingLuks2, IsReencryptingValue, requires_reencryption};

use crate::standing::Bar;
use luks_json::{JsonFault, read_json};
use luks_reading::{Device, DeviceFault, ReadFault};
use luks_rules::{Outer, Section, object_at, section_at, type_at};
use luks_signatures::is_reencrypted;
use luks2_header::{Selected, select};
use serde_json::Value;
use std::alloc::Global;

/// The bytes of the binary header with which a LUKS2 copy begins; its JSON area follows.
const BINARY_HEADER: u64 = 4096;

/// The least size of a LUKS2 header, binary header and JSON area together.
const LEAST_HEADER: u64 = 0x4000;

/// Where a JSON area stands.
#[derive(Clone, Copy)]
struct JsonPlace {
    start: u64,
    len: u64,
}

/// Whether the volume is in the midst of a reencryption: one of LUKS1 by what is in the place of its
/// magic, one of LUKS2 by its metadata.
///
/// Takes memory for the JSON area and its value.
pub fn is_reencrypting<D: Device>(alloc: Global, device: &mut D) -> Result<bool, Bar>
    requires { D.failed device.old + 1 < 2 ^ 64 }
    ensures unchanged { IsUnchanged D.tells D.size D.bytes D.unsettled device.old device.new }
    ensures count { CountsFailure is_bar_failure result
        (D.failed device.old) (D.failed device.new) }
    ensures is { D.tells → IfOk result (λ is.
        IsTrue is ↔ IsReencrypting (D.bytes device.old)) }
    ensures fault { IfErr result (IsUntoldMetadata D.tells (D.bytes device.old)) }
{
    if is_reencrypted(device)? {
        return Ok(true);
    }
    is_reencrypting_luks2(alloc, device)
}

/// Whether a LUKS2 volume is: by the metadata of the copy that counts, or, if no header counts, by the bytes
/// where the first copy of the least size has it.
fn is_reencrypting_luks2<D: Device>(alloc: Global, device: &mut D) -> Result<bool, Bar>
    requires { D.failed device.old + 1 < 2 ^ 64 }
    ensures unchanged { IsUnchanged D.tells D.size D.bytes D.unsettled device.old device.new }
    ensures count { CountsFailure is_bar_failure result
        (D.failed device.old) (D.failed device.new) }
    ensures is { D.tells → IfOk result (λ is.
        IsTrue is ↔ IsReencryptingLuks2 (D.bytes device.old)) }
    ensures fault { IfErr result (IsUntoldMetadata D.tells (D.bytes device.old)) }
{
    match json_place(device)? {
        Some(place) => is_reencrypting_at(alloc, device, place),
        None => Ok(false),
    }
}

/// The place of the JSON area of the metadata.
fn json_place<D: Device>(device: &mut D) -> Result<Option<JsonPlace>, DeviceFault>
    requires { D.failed device.old + 1 < 2 ^ 64 }
    ensures unchanged { IsUnchanged D.tells D.size D.bytes D.unsettled device.old device.new }
    ensures count { CountsFailure is_failure result (D.failed device.old) (D.failed device.new) }
    ensures within { IfOk result (λ found. IfSome found (λ place.
        (place.len ≤ 4194304) × (place.start + place.len ≤ D.size device.old))) }
    ensures place { D.tells → IfOk result (FindsMetadata (D.bytes device.old)) }
{
    let total = device.len();
    match select(device) {
        Ok(Selected::V1(_)) => Ok(None),
        Ok(Selected::V2 { header, .. }) => Ok(Some(JsonPlace {
            start: header.hdr_offset + BINARY_HEADER,
            len: header.hdr_size - BINARY_HEADER,
        })),
        Err(fault) => match ReadFault::from(fault) {
            ReadFault::Device => Err(DeviceFault),
            ReadFault::Head(_) | ReadFault::Meta(_) | ReadFault::Memory => Ok(lost_place(total)),
        },
    }
}

/// Where it is of a first copy of the least size.
fn lost_place(total: u64) -> Option<JsonPlace>
    ensures there { IfSome result (λ place.
        (place.start ≡ 4096) × (place.len ≡ 12288) × (16384 ≤ total)) }
    ensures none { IsNone result → total < 16384 }
{
    if total < LEAST_HEADER {
        return None;
    }
    Some(JsonPlace {
        start: BINARY_HEADER,
        len: LEAST_HEADER - BINARY_HEADER,
    })
}

/// Whether the JSON area at this place tells of a reencryption.
fn is_reencrypting_at<D: Device>(
    alloc: Global,
    device: &mut D,
    place: JsonPlace,
) -> Result<bool, Bar>
    requires within { place.start + place.len ≤ D.size device.old }
    requires few { place.len ≤ 4194304 }
    requires room { D.failed device.old + 1 < 2 ^ 64 }
    ensures unchanged { IsUnchanged D.tells D.size D.bytes D.unsettled device.old device.new }
    ensures count { CountsFailure is_bar_failure result
        (D.failed device.old) (D.failed device.new) }
    ensures is { D.tells → IfOk result (λ is.
        IsTrue is ↔ IsReencryptingArea (part (D.bytes device.old) place.start place.len)) }
    ensures kinds { IfErr result IsFromOutside }
{
    let Ok(mut area) = vec![in alloc; 0u8; place.len as usize] else {
        return Err(Bar::Memory);
    };
    device.read_at(place.start, &mut area)?;
    is_reencrypting_area(alloc, &area)
}

/// Whether these bytes are such an area. Memory is taken for its value alone.
fn is_reencrypting_area(alloc: Global, area: &[u8]) -> Result<bool, Bar>
    ensures is { IfOk result (λ is. IsTrue is ↔ IsReencryptingArea area.now) }
    ensures memory { IfErr result (λ bar. bar ≡ Bar.Memory) }
{
    match read_json(alloc, area) {
        Ok(value) => Ok(is_reencrypting_value(&value)),
        Err(JsonFault::Memory) => Err(Bar::Memory),
        Err(JsonFault::JsonArea) => Ok(false),
        Err(JsonFault::BadJson) => Ok(false),
    }
}

fn is_reencrypting_value(value: &Value) -> bool
    ensures { IsTrue result ↔ IsReencryptingValue (view value.now) }
{
    has_reencrypting_slot(value) || requires_reencryption(value)
}

/// Whether a keyslot is of the type `reencrypt`.
fn has_reencrypting_slot(value: &Value) -> bool
    ensures { IsTrue result ↔ HasReencryptingSlot (view value.now) }
{
    for n in 0..32 {
        if is_reencrypting_slot(value, n) {
            return true;
        }
    }
    false
}

fn is_reencrypting_slot(value: &Value, number: u8) -> bool
    requires { number < 32 }
    ensures { result ≡ is_reencrypting_slot (view value.now) number }
{
    match object_at(value, Section::Keyslots, number) {
        Some(slot) => has_reencrypt_type(slot),
        None => false,
    }
}

fn has_reencrypt_type(slot: &Value) -> bool
    ensures { result ≡ has_reencrypt_type (view slot.now) }
{
    match type_at(slot, Outer::Top) {
        Some(kind) => kind == "reencrypt",
        None => false,
    }
}

/// Whether the metadata requires a reencryption to be known.
fn requires_reencryption(value: &Value) -> bool
    ensures { result ≡ requires_reencryption (view value.now) }
{
    match mandatory_in(value) {
        Some(mandatory) => is_asking(mandatory),
        None => false,
    }
}

/// What the metadata requires.
fn mandatory_in(value: &Value) -> Option<&Value>
    ensures { option_map (λ v. view v.now) result ≡ mandatory_in (view value.now) }
{
    section_at(value, Section::Config)?
        .get("requirements")?
        .get("mandatory")
}

fn is_asking(mandatory: &Value) -> bool
    ensures { result ≡ is_asking (view mandatory.now) }
{
    match mandatory {
        Value::Array(items) => asks_reencryption(items.as_slice()),
        _ => false,
    }
}

fn asks_reencryption(items: &[Value]) -> bool
    ensures { result ≡ asks_reencryption (items_view items.now) }
{
    for item in items {
        if is_reencryption_item(item) {
            return true;
        }
    }
    false
}

fn is_reencryption_item(item: &Value) -> bool
    ensures { result ≡ is_reencryption_item (view item.now) }
{
    match item.as_str() {
        Some(text) => is_reencryption(text.as_bytes()),
        None => false,
    }
}

fn is_reencryption(text: &[u8]) -> bool
    ensures { result ≡ is_reencryption text.now }
{
    text.starts_with(b"online-reencrypt") || text.starts_with(b"offline-reencrypt")
}
