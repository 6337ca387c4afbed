//! The keyslots, as an array by number.

ghost use Rattle.std.specs.Prelude.{◌+◌, ◌<◌, IfOk, map, MatchOption, OnOk};
ghost use Rattle.serde_json.specs.View.{view};
ghost use Rattle.luks_rules.specs.declared.table.Section.TheVariants.{Keyslots};
ghost use Rattle.luks_meta.specs.Objects.{IsMissing};
ghost use Rattle.luks_wider.specs.Underways.{content};
ghost use Rattle.luks_underway_show.specs.KeyslotValues.{AreKeyslots, IsKeyslotsValue, IsKeyslotValue};

use crate::as_json::reencryption::reencryption_value;
use crate::keyslots::digest_of;
use luks_show::keyslot_value;
use luks_underway::WideKeyslot;
use luks_wider::Underway;
use serde_json::Value;
use std::alloc::{AllocError, Global};

pub(crate) fn keyslots_value(alloc: Global, meta: &Underway) -> Result<Value, AllocError>
    ensures { IfOk result (λ v. IsKeyslotsValue (content meta.now) (view v)) }
{
    let mut items = Vec::new(alloc);
    for n in 0..32 {
        add_keyslot(&mut items, alloc, meta, n)?;
    }
    Ok(Value::from(items))
}

/// Puts the object of the keyslot of this number behind those of lesser ones, if it is there.
fn add_keyslot(
    items: &mut Vec<Value>,
    alloc: Global,
    meta: &Underway,
    n: u8,
) -> Result<(), AllocError>
    requires { n < 32 }
    ensures { AreKeyslots (content meta.now) n (map view items.old.items)
        → OnOk result (AreKeyslots (content meta.now) (n + 1) (map view items.new.items)) }
{
    let Some(value) = keyslot_at(alloc, meta, n)? else {
        return Ok(());
    };
    items.push(value)?;
    Ok(())
}

/// The object of the keyslot of this number, if it is there.
fn keyslot_at(alloc: Global, meta: &Underway, n: u8) -> Result<Option<Value>, AllocError>
    requires { n < 32 }
    ensures { IfOk result (λ o. MatchOption o (IsMissing (content meta.now) Keyslots n)
        (λ v. IsKeyslotValue (content meta.now) n (view v))) }
{
    let digest = digest_of(meta, n);
    match meta.keyslot(n) {
        Some(WideKeyslot::Luks2(keyslot)) => {
            let value = keyslot_value(alloc, n, &keyslot, digest)?;
            Ok(Some(value))
        }
        Some(WideKeyslot::Reencrypt(members)) => {
            let value = reencryption_value(alloc, n, &members, digest)?;
            Ok(Some(value))
        }
        None => Ok(None),
    }
}
