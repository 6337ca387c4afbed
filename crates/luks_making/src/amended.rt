//! The metadata changed in named members: a keyslot's priority, a token. No key area is touched.

ghost use Rattle.std.specs.Prelude.{◌≡◌, ◌<◌, codes, IfOk};
ghost use Rattle.serde_json.specs.View.{view};
ghost use Rattle.luks_making.specs.Amended.{priority_number, with_priority, with_priority_number, with_token, without_token};
ghost use Rattle.luks_making.specs.Changing.{at_member};

use crate::changing::{take_member, with_member};
use crate::with::{map_with_object, with_object};
use crate::without::{map_without_object, take_object};
use luks_json::number_text;
use serde_json::Value;
use std::alloc::{AllocError, Global};

/// Whether and when a keyslot is tried that isn't named (LUKS2 On-Disk Format 1.1, section 3.2).
#[derive(Debug, Clone, Copy, PartialEq, Eq, Drop)]
pub enum Priority {
    /// It isn't tried.
    Ignore,
    /// It is tried after those that are preferred. The metadata says no priority.
    Normal,
    /// It is tried before the others.
    Prefer,
}

/// A change of the metadata in named members. No key area is touched.
#[derive(Clone, Copy)]
pub enum Change<'a> {
    /// A keyslot gets a priority.
    Priority {
        /// The keyslot.
        slot: u8,
        /// The priority.
        priority: Priority,
    },
    /// A token is added.
    AddToken {
        /// Its number; where it isn't given, the least that is free.
        to: Option<u8>,
        /// The token, of which every member is kept.
        token: &'a Value,
    },
    /// A token is removed.
    RemoveToken {
        /// Its number.
        number: u8,
    },
}

/// The number that the metadata says a priority by.
fn priority_number(priority: Priority) -> Option<u8>
    ensures { result ≡ priority_number priority }
{
    match priority {
        Priority::Ignore => Some(0),
        Priority::Normal => None,
        Priority::Prefer => Some(2),
    }
}

/// The keyslot with the number as its priority, or without one.
fn with_priority_number(
    alloc: Global,
    keyslot: Value,
    number: Option<u8>,
) -> Result<Value, AllocError>
    ensures { IfOk result (λ v. view v ≡ with_priority_number number (view keyslot)) }
{
    match number {
        Some(own) => map_with_object(alloc, keyslot, "priority", Value::from(own)),
        None => Ok(map_without_object(keyslot, "priority")),
    }
}

/// The keyslots, with the priority in one of them.
fn with_priority_in(
    alloc: Global,
    mut keyslots: Value,
    name: &str,
    priority: Priority,
) -> Result<Value, AllocError>
    ensures { IfOk result (λ v. view v ≡ at_member name.now
        (with_priority_number (priority_number priority)) (view keyslots)) }
{
    match take_member(&mut keyslots, name) {
        Some(keyslot) => {
            let changed = with_priority_number(alloc, keyslot, priority_number(priority))?;
            with_member(alloc, keyslots, name, changed)
        }
        None => Ok(keyslots),
    }
}

/// The metadata with the priority in the keyslot, or without one where it is normal (LUKS2 On-Disk
/// Format 1.1, section 3.2). All else is as in `value`, which is edited in place.
///
/// Takes memory for the names of members.
pub fn with_priority(
    alloc: Global,
    mut value: Value,
    number: u8,
    priority: Priority,
) -> Result<Value, AllocError>
    requires { number < 32 }
    ensures { IfOk result (λ v. view v ≡ with_priority number priority (view value)) }
{
    match take_member(&mut value, "keyslots") {
        Some(keyslots) => {
            let changed = with_priority_in(alloc, keyslots, number_text(number), priority)?;
            with_member(alloc, value, "keyslots", changed)
        }
        None => Ok(value),
    }
}

/// The metadata with the token, in the place of one that has this number (LUKS2 On-Disk Format 1.1,
/// section 3.5). All else is as in `value`, which is edited in place. Whether the token meets the rules
/// isn't looked at.
///
/// Takes memory for a copy of the token.
pub fn with_token(
    alloc: Global,
    value: Value,
    number: u8,
    token: &Value,
) -> Result<Value, AllocError>
    requires { number < 32 }
    ensures { IfOk result (λ v. view v ≡ with_token number (view token.now) (view value)) }
{
    let own = token.clone()?;
    with_object(alloc, value, "tokens", number_text(number), own)
}

/// The metadata without the token. All else is as in `value`, which is edited in place.
///
/// Takes memory for the names of members.
pub fn without_token(alloc: Global, value: Value, number: u8) -> Result<Value, AllocError>
    requires { number < 32 }
    ensures { IfOk result (λ v. view v ≡ without_token number (view value)) }
{
    take_object(alloc, value, "tokens", number_text(number))
}
