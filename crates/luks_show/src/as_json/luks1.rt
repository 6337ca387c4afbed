//! The JSON object of a LUKS1 header.
ghost use Rattle.std.specs.Prelude.{◌≡◌, ◌++◌, codes, string_bytes, IfOk, OnOk};
ghost use Rattle.serde_json.specs.Data.{array, no_members, object};
ghost use Rattle.serde_json.specs.View.{items_of, members_view, view};
ghost use Rattle.luks_show.specs.Luks1Value.{area_value, digest_value, kdf_value, luks1_value};
ghost use Rattle.luks_show.specs.Luks1Value.{slot_value, slot_value_as, slot_values, splitter_value};

use crate::as_json::values::{put_bytes, put_number, put_text};
use luks_reading::{Luks1, Luks1Slot, SlotState, luks1_area};
use luks2_header::Luks1Common;
use serde_json::{Map, Value, put};
use std::alloc::{AllocError, Global};

/// The bytes of a sector, in which LUKS1 counts.
const SECTOR: u64 = 512;

/// The object of a LUKS1 header.
pub(crate) fn luks1_value(alloc: Global, header: &Luks1) -> Result<Value, AllocError>
    ensures { IfOk result (λ v. view v ≡ luks1_value header.now) }
{
    let mut members = Map::new(alloc);
    put_header(&mut members, alloc, header)?;
    Ok(Value::from(members))
}

fn put_header(
    members: &mut Map<String, Value>,
    alloc: Global,
    header: &Luks1,
) -> Result<(), AllocError>
    requires { members_view members.old.entries ≡ no_members }
    ensures { OnOk result (object (members_view members.new.entries) ≡ luks1_value header.now) }
{
    let common = &header.common;
    let payload = u64::from(common.payload_offset) * SECTOR;
    put_text(members, alloc, "cipher_mode", common.cipher_mode.as_str())?;
    put_text(members, alloc, "cipher_name", common.cipher_name.as_str())?;
    put(members, alloc, "digest", digest_value(alloc, common)?)?;
    put_text(members, alloc, "hash", common.hash_spec.as_str())?;
    put_number(members, alloc, "key_bytes", u64::from(common.key_bytes))?;
    put(members, alloc, "keyslots", slots_value(alloc, header)?)?;
    put_number(members, alloc, "payload_offset", payload)?;
    put_text(members, alloc, "uuid", common.uuid.as_str())?;
    put_number(members, alloc, "version", 1)
}

fn digest_value(alloc: Global, common: &Luks1Common) -> Result<Value, AllocError>
    ensures { IfOk result (λ v. view v ≡ digest_value common.now) }
{
    let mut members = Map::new(alloc);
    put_number(
        &mut members,
        alloc,
        "iterations",
        u64::from(common.mk_digest_iterations),
    )?;
    put_bytes(&mut members, alloc, "salt", &common.mk_digest_salt)?;
    put_bytes(&mut members, alloc, "value", &common.mk_digest)?;
    Ok(Value::from(members))
}

fn slots_value(alloc: Global, header: &Luks1) -> Result<Value, AllocError>
    ensures { IfOk result (λ v. view v
        ≡ array (items_of (slot_values header.now.common 0 header.now.slots))) }
{
    let mut items = Vec::new(alloc);
    for (n, slot) in header.slots.as_slice().iter().enumerate() {
        items.push(slot_value(alloc, n, &header.common, slot)?)?;
    }
    Ok(Value::from(items))
}

fn slot_value(
    alloc: Global,
    n: usize,
    common: &Luks1Common,
    slot: &Luks1Slot,
) -> Result<Value, AllocError>
    ensures { IfOk result (λ v. view v ≡ slot_value common.now n slot.now) }
{
    let mut members = Map::new(alloc);
    put_slot(&mut members, alloc, n, common, slot)?;
    Ok(Value::from(members))
}

fn put_slot(
    members: &mut Map<String, Value>,
    alloc: Global,
    n: usize,
    common: &Luks1Common,
    slot: &Luks1Slot,
) -> Result<(), AllocError>
    requires { members_view members.old.entries ≡ no_members }
    ensures { OnOk result (object (members_view members.new.entries)
        ≡ slot_value common.now n slot.now) }
{
    match slot.state {
        SlotState::Enabled => put_enabled(members, alloc, n, common, slot),
        SlotState::Disabled => put_disabled(members, alloc, n, common, slot),
    }
}

fn put_enabled(
    members: &mut Map<String, Value>,
    alloc: Global,
    n: usize,
    common: &Luks1Common,
    slot: &Luks1Slot,
) -> Result<(), AllocError>
    requires { members_view members.old.entries ≡ no_members }
    ensures { OnOk result (object (members_view members.new.entries)
        ≡ slot_value_as SlotState.Enabled common.now n slot.now) }
{
    put(members, alloc, "area", area_value(alloc, common, slot)?)?;
    put(members, alloc, "kdf", kdf_value(alloc, common, slot)?)?;
    put_number(members, alloc, "key_bytes", u64::from(common.key_bytes))?;
    put(members, alloc, "number", Value::from(n))?;
    put(
        members,
        alloc,
        "splitter",
        splitter_value(alloc, common, slot)?,
    )?;
    put_text(members, alloc, "state", "enabled")
}

fn put_disabled(
    members: &mut Map<String, Value>,
    alloc: Global,
    n: usize,
    common: &Luks1Common,
    slot: &Luks1Slot,
) -> Result<(), AllocError>
    requires { members_view members.old.entries ≡ no_members }
    ensures { OnOk result (object (members_view members.new.entries)
        ≡ slot_value_as SlotState.Disabled common.now n slot.now) }
{
    put(members, alloc, "area", area_value(alloc, common, slot)?)?;
    put(members, alloc, "number", Value::from(n))?;
    put(
        members,
        alloc,
        "splitter",
        splitter_value(alloc, common, slot)?,
    )?;
    put_text(members, alloc, "state", "disabled")
}

fn area_value(alloc: Global, common: &Luks1Common, slot: &Luks1Slot) -> Result<Value, AllocError>
    ensures { IfOk result (λ v. view v ≡ area_value common.now slot.now) }
{
    let mut members = Map::new(alloc);
    put_area(&mut members, alloc, common, slot)?;
    Ok(Value::from(members))
}

fn put_area(
    members: &mut Map<String, Value>,
    alloc: Global,
    common: &Luks1Common,
    slot: &Luks1Slot,
) -> Result<(), AllocError>
    requires { members_view members.old.entries ≡ no_members }
    ensures { OnOk result (object (members_view members.new.entries)
        ≡ area_value common.now slot.now) }
{
    let area = luks1_area(common.key_bytes, slot);
    let cipher = cipher_text(alloc, common)?;
    put(members, alloc, "cipher", Value::from(cipher))?;
    put_number(members, alloc, "key_bytes", u64::from(common.key_bytes))?;
    put_number(members, alloc, "offset", area.start)?;
    put_number(members, alloc, "size", area.len)
}

/// The cipher's name and its mode, joined as LUKS2 names a cipher.
fn cipher_text(alloc: Global, common: &Luks1Common) -> Result<String, AllocError>
    ensures { IfOk result (λ t. string_bytes t
        ≡ common.now.cipher_name.bytes ++ (codes "-" ++ common.now.cipher_mode.bytes)) }
{
    let name = common.cipher_name.as_str();
    let mode = common.cipher_mode.as_str();
    format!(in alloc; "{name}-{mode}")
}

fn kdf_value(alloc: Global, common: &Luks1Common, slot: &Luks1Slot) -> Result<Value, AllocError>
    ensures { IfOk result (λ v. view v ≡ kdf_value common.now slot.now) }
{
    let mut members = Map::new(alloc);
    put_kdf(&mut members, alloc, common, slot)?;
    Ok(Value::from(members))
}

fn put_kdf(
    members: &mut Map<String, Value>,
    alloc: Global,
    common: &Luks1Common,
    slot: &Luks1Slot,
) -> Result<(), AllocError>
    requires { members_view members.old.entries ≡ no_members }
    ensures { OnOk result (object (members_view members.new.entries)
        ≡ kdf_value common.now slot.now) }
{
    put_text(members, alloc, "hash", common.hash_spec.as_str())?;
    put_number(members, alloc, "iterations", u64::from(slot.iterations))?;
    put_bytes(members, alloc, "salt", &slot.salt)?;
    put_text(members, alloc, "type", "pbkdf2")
}

fn splitter_value(
    alloc: Global,
    common: &Luks1Common,
    slot: &Luks1Slot,
) -> Result<Value, AllocError>
    ensures { IfOk result (λ v. view v ≡ splitter_value common.now slot.now) }
{
    let mut members = Map::new(alloc);
    put_text(&mut members, alloc, "hash", common.hash_spec.as_str())?;
    put_number(&mut members, alloc, "stripes", u64::from(slot.stripes))?;
    Ok(Value::from(members))
}
