//! The keyslot that says what is under way, as an object.

ghost use Rattle.std.specs.Prelude.{◌≡◌, IfOk, OnOk};
ghost use Rattle.serde_json.specs.Data.{no_members, object};
ghost use Rattle.serde_json.specs.View.{members_view, view};
ghost use Rattle.luks_underway_show.specs.KeyslotValues.{area_members, number_value, reencryption_members, resilience_members, with_checksum, with_shift};

use crate::reencryption::{direction_name, mode_name};
use luks_show::{put_number, put_text};
use luks_underway::{Checksum, ReencryptArea, Reencryption, Resilience};
use serde_json::{Map, Value, put};
use std::alloc::{AllocError, Global};

/// The object of the keyslot of this number, and the digest that names it.
pub(crate) fn reencryption_value(
    alloc: Global,
    n: u8,
    members: &Reencryption<'_>,
    digest: Option<u8>,
) -> Result<Value, AllocError>
    ensures { IfOk result (λ v. view v ≡ object (reencryption_members n members.now digest)) }
{
    let mut object = Map::new(alloc);
    put_reencryption(&mut object, alloc, n, members, digest)?;
    Ok(Value::from(object))
}

fn put_reencryption(
    object: &mut Map<String, Value>,
    alloc: Global,
    n: u8,
    members: &Reencryption<'_>,
    digest: Option<u8>,
) -> Result<(), AllocError>
    requires { members_view object.old.entries ≡ no_members }
    ensures { OnOk result (members_view object.new.entries ≡ reencryption_members n members.now digest) }
{
    let area = area_value(alloc, &members.area)?;
    let resilience = resilience_value(alloc, &members.area.resilience)?;
    put(object, alloc, "area", area)?;
    put(object, alloc, "digest", number_value(digest))?;
    put_text(
        object,
        alloc,
        "direction",
        direction_name(members.direction),
    )?;
    put_text(object, alloc, "mode", mode_name(members.mode))?;
    put_number(object, alloc, "number", u64::from(n))?;
    put(object, alloc, "resilience", resilience)?;
    put_text(object, alloc, "state", "reencrypt")
}

/// The number, or null where there is none.
pub(crate) fn number_value(number: Option<u8>) -> Value
    ensures { view result ≡ number_value number }
{
    match number {
        Some(number) => Value::from(number),
        None => Value::Null,
    }
}

fn area_value(alloc: Global, area: &ReencryptArea<'_>) -> Result<Value, AllocError>
    ensures { IfOk result (λ v. view v ≡ object (area_members area.now)) }
{
    let mut object = Map::new(alloc);
    put_number(&mut object, alloc, "offset", area.offset)?;
    put_number(&mut object, alloc, "size", area.size)?;
    Ok(Value::from(object))
}

fn resilience_value(alloc: Global, resilience: &Resilience<'_>) -> Result<Value, AllocError>
    ensures { IfOk result (λ v. view v ≡ object (resilience_members resilience.now)) }
{
    let mut object = Map::new(alloc);
    put_resilience(&mut object, alloc, resilience)?;
    Ok(Value::from(object))
}

fn put_resilience(
    object: &mut Map<String, Value>,
    alloc: Global,
    resilience: &Resilience<'_>,
) -> Result<(), AllocError>
    requires { members_view object.old.entries ≡ no_members }
    ensures { OnOk result (members_view object.new.entries ≡ resilience_members resilience.now) }
{
    match *resilience {
        Resilience::Nothing => put_text(object, alloc, "type", "none"),
        Resilience::Journal => put_text(object, alloc, "type", "journal"),
        Resilience::Checksum(sums) => {
            put_checksum(object, alloc, &sums)?;
            put_text(object, alloc, "type", "checksum")
        }
        Resilience::Datashift(shift) => {
            put_shift(object, alloc, shift)?;
            put_text(object, alloc, "type", "datashift")
        }
        Resilience::DatashiftJournal(shift) => {
            put_shift(object, alloc, shift)?;
            put_text(object, alloc, "type", "datashift-journal")
        }
        Resilience::DatashiftChecksum(sums, shift) => {
            put_checksum(object, alloc, &sums)?;
            put_shift(object, alloc, shift)?;
            put_text(object, alloc, "type", "datashift-checksum")
        }
    }
}

fn put_checksum(
    object: &mut Map<String, Value>,
    alloc: Global,
    sums: &Checksum<'_>,
) -> Result<(), AllocError>
    ensures { OnOk result (members_view object.new.entries
        ≡ with_checksum sums.now (members_view object.old.entries)) }
{
    put_text(object, alloc, "hash", sums.hash)?;
    put_number(object, alloc, "sector_size", u64::from(sums.sector_size))
}

fn put_shift(object: &mut Map<String, Value>, alloc: Global, shift: u64) -> Result<(), AllocError>
    ensures { OnOk result (members_view object.new.entries
        ≡ with_shift shift (members_view object.old.entries)) }
{
    put_number(object, alloc, "shift_size", shift)
}
