//! The members of the objects, put in the order of their names.
ghost use Rattle.std.specs.Prelude.{◌≡◌, IfOk, OnOk};
ghost use Rattle.serde_json.specs.Data.{no_members, number, object, put as with_member, string, unsigned};
ghost use Rattle.serde_json.specs.View.{members_view, view};
ghost use Rattle.luks_commands.specs.Answer.{refusal_text};
ghost use Rattle.luks_execution.specs.AnswerValue.{accepted_value, bare_value, IsRefusedValue};
ghost use Rattle.luks_execution.specs.AnswerValue.{slot_value};

use crate::parted::parts_of;
use crate::texts::texts_value;
use luks_commands::Refusal;
use luks_reading::{Copies, Version};
use luks_show::copies_name;
use serde_json::{Map, Value, put};
use std::alloc::{AllocError, Global};

/// The object of a volume that is accepted.
pub(crate) fn accepted_value(
    alloc: Global,
    version: Version,
    areas: usize,
    hints: Value,
    status: u8,
) -> Result<Value, AllocError>
    ensures { IfOk result (λ v. view v ≡ accepted_value version areas (view hints) status) }
{
    let mut members = Map::new(alloc);
    match version {
        Version::Luks1 => put_luks1(&mut members, alloc, areas, hints, status)?,
        Version::Luks2 { copies, seqid } => {
            put_luks2(&mut members, alloc, copies, seqid, areas, hints, status)?
        }
    }
    Ok(Value::from(members))
}

fn put_luks1(
    members: &mut Map<String, Value>,
    alloc: Global,
    areas: usize,
    hints: Value,
    status: u8,
) -> Result<(), AllocError>
    requires { members_view members.old.entries ≡ no_members }
    ensures { OnOk result (object (members_view members.new.entries)
        ≡ accepted_value Version.Luks1 areas (view hints) status) }
{
    put_text(members, alloc, "answer", "accepted")?;
    put(members, alloc, "areas", Value::from(areas))?;
    put(members, alloc, "hints", hints)?;
    put(members, alloc, "status", Value::from(status))?;
    put(members, alloc, "version", Value::from(1u8))
}

fn put_luks2(
    members: &mut Map<String, Value>,
    alloc: Global,
    copies: Copies,
    seqid: u64,
    areas: usize,
    hints: Value,
    status: u8,
) -> Result<(), AllocError>
    requires { members_view members.old.entries ≡ no_members }
    ensures { OnOk result (object (members_view members.new.entries)
        ≡ accepted_value (Version.Luks2 copies seqid) areas (view hints) status) }
{
    put_text(members, alloc, "answer", "accepted")?;
    put(members, alloc, "areas", Value::from(areas))?;
    put_text(members, alloc, "copies", copies_name(copies))?;
    put(members, alloc, "hints", hints)?;
    put(members, alloc, "seqid", Value::from(seqid))?;
    put(members, alloc, "status", Value::from(status))?;
    put(members, alloc, "version", Value::from(2u8))
}

/// The object of a command that is refused.
pub(crate) fn refused_value(
    alloc: Global,
    refusal: &Refusal,
    hints: Value,
    status: u8,
) -> Result<Value, AllocError>
    ensures { IfOk result (λ v. IsRefusedValue (refusal_text refusal.now) (view hints) status
        (view v)) }
{
    let printed = format!(in alloc; "{refusal}")?;
    let fault = parts_of(alloc, printed.as_str())?;
    let mut members = Map::new(alloc);
    put_text(&mut members, alloc, "answer", "refused")?;
    put(
        &mut members,
        alloc,
        "at",
        texts_value(alloc, fault.places.as_slice())?,
    )?;
    put_text(&mut members, alloc, "fault", fault.name)?;
    put(&mut members, alloc, "hints", hints)?;
    put(&mut members, alloc, "status", Value::from(status))?;
    Ok(Value::from(members))
}

/// The object of an answer that names this keyslot.
pub(crate) fn slot_value(
    alloc: Global,
    answer: &str,
    slot: u8,
    hints: Value,
    status: u8,
) -> Result<Value, AllocError>
    ensures { IfOk result (λ v. view v ≡ slot_value answer.now slot (view hints) status) }
{
    let mut members = Map::new(alloc);
    put_text(&mut members, alloc, "answer", answer)?;
    put(&mut members, alloc, "hints", hints)?;
    put(&mut members, alloc, "slot", Value::from(slot))?;
    put(&mut members, alloc, "status", Value::from(status))?;
    Ok(Value::from(members))
}

/// The object of an answer that tells nothing beside.
pub(crate) fn bare_value(
    alloc: Global,
    answer: &str,
    hints: Value,
    status: u8,
) -> Result<Value, AllocError>
    ensures { IfOk result (λ v. view v ≡ bare_value answer.now (view hints) status) }
{
    let mut members = Map::new(alloc);
    put_text(&mut members, alloc, "answer", answer)?;
    put(&mut members, alloc, "hints", hints)?;
    put(&mut members, alloc, "status", Value::from(status))?;
    Ok(Value::from(members))
}

/// Puts a text.
fn put_text(
    members: &mut Map<String, Value>,
    alloc: Global,
    name: &str,
    text: &str,
) -> Result<(), AllocError>
    ensures { OnOk result (members_view members.new.entries
        ≡ with_member name.now (string text.now) (members_view members.old.entries)) }
{
    put(members, alloc, name, Value::try_from_str(alloc, text)?)
}
