//! What is under way, as an object: the digests of both keys, and the part in hand.

ghost use Rattle.std.specs.Prelude.{◌≡◌, IfOk};
ghost use Rattle.serde_json.specs.View.{view};
ghost use Rattle.luks_wider.specs.Underways.{content};
ghost use Rattle.luks_underway_show.specs.UnderwayValue.{hotzone_value, IsUnderWayMember};

use crate::as_json::reencryption::number_value;
use crate::hotzone::{Hotzone, part_in_hand};
use luks_show::{put_extent, put_number};
use luks_wider::Underway;
use serde_json::{Map, Value, put};
use std::alloc::{AllocError, Global};

pub(crate) fn under_way_value(alloc: Global, meta: &Underway) -> Result<Value, AllocError>
    ensures { IfOk result (λ v. IsUnderWayMember (content meta.now) (view v)) }
{
    let sides = meta.sides();
    let part = hotzone_value(alloc, part_in_hand(meta))?;
    let mut members = Map::new(alloc);
    put(&mut members, alloc, "hotzone", part)?;
    put(&mut members, alloc, "new_digest", number_value(sides.new))?;
    put(&mut members, alloc, "old_digest", number_value(sides.old))?;
    Ok(Value::from(members))
}

/// The place of the part in hand; null if there is none.
fn hotzone_value(alloc: Global, part: Option<Hotzone>) -> Result<Value, AllocError>
    ensures { IfOk result (λ v. view v ≡ hotzone_value part) }
{
    let Some(part) = part else {
        return Ok(Value::Null);
    };
    let mut members = Map::new(alloc);
    put_number(&mut members, alloc, "offset", part.offset)?;
    put_number(&mut members, alloc, "segment", u64::from(part.segment))?;
    put_extent(&mut members, alloc, part.size)?;
    Ok(Value::from(members))
}
