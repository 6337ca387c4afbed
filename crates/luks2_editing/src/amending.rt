//! Changing the metadata of a LUKS2 volume in named members.
ghost use Rattle.std.specs.Prelude.{◌≡◌, ◌<◌, IfErr, IfOk, IfSome};
ghost use Rattle.serde_json.specs.View.{view};
ghost use Rattle.luks_meta.specs.Content.{area_len, content};
ghost use Rattle.luks_making.specs.Amended.{with_priority, with_token, without_token};
ghost use Rattle.luks_rules.specs.Valued.{IsValueFault};
ghost use Rattle.luks2_editing.specs.Amending.{IsChangedBy, IsFaultOf, IsNumbered, IsUnmade, token_fault};

use luks_edit::{EditFault, Priority};
use luks_meta::{Meta, MetaFault};
use luks2_judging::JudgedChange;
use serde_json::Value;
use std::alloc::Global;

/// The metadata with the change, if there is one: all members that it doesn't name are as they were, and
/// so is the length of the area. Refused by `BadToken`, or `Memory`.
///
/// Takes memory for what is new. The old metadata is given up for the new.
pub(crate) fn amended(
    alloc: Global,
    meta: Meta,
    change: Option<JudgedChange<'_>>,
) -> Result<Meta, EditFault>
    requires { IfSome change IsNumbered }
    ensures value { IfOk result (λ m. IsChangedBy change.entry (content meta) (content m)) }
    ensures length { IfOk result (λ m. area_len m ≡ area_len meta) }
    ensures refused { IfErr result (IsUnmade (area_len meta) (content meta) change.entry) }
{
    match change {
        None => Ok(meta),
        Some(JudgedChange::Priority { slot, priority }) => {
            with_priority(alloc, meta, slot, priority)
        }
        Some(JudgedChange::AddToken { number, token }) => with_token(alloc, meta, number, token),
        Some(JudgedChange::RemoveToken { number }) => without_token(alloc, meta, number),
    }
}

/// The metadata with the priority in the keyslot, or `Memory`.
fn with_priority(alloc: Global, meta: Meta, slot: u8, priority: Priority) -> Result<Meta, EditFault>
    requires { slot < 32 }
    ensures value { IfOk result (λ m. content m ≡ with_priority slot priority (content meta)) }
    ensures length { IfOk result (λ m. area_len m ≡ area_len meta) }
    ensures memory { IfErr result (λ f. f ≡ EditFault.Memory) }
{
    match luks_new_meta::with_priority(alloc, meta, slot, priority) {
        Ok(made) => Ok(made),
        Err(_) => Err(EditFault::Memory),
    }
}

/// The metadata with the token. Refused by `BadToken`, or `Memory`.
fn with_token(alloc: Global, meta: Meta, number: u8, token: &Value) -> Result<Meta, EditFault>
    requires { number < 32 }
    ensures value { IfOk result (λ m.
        content m ≡ with_token number (view token.now) (content meta)) }
    ensures length { IfOk result (λ m. area_len m ≡ area_len meta) }
    ensures refused { IfErr result (IsFaultOf (IsValueFault (area_len meta)
        (with_token number (view token.now) (content meta)))) }
{
    match luks_new_meta::with_token(alloc, meta, number, token) {
        Ok(made) => Ok(made),
        Err(fault) => Err(token_fault(fault)),
    }
}

/// The fault of the metadata with a token as that of an edit.
fn token_fault(fault: MetaFault) -> EditFault
    ensures { result ≡ token_fault fault }
{
    match fault {
        MetaFault::Memory => EditFault::Memory,
        other => EditFault::BadToken(other),
    }
}

/// The metadata without the token, or `Memory`.
fn without_token(alloc: Global, meta: Meta, number: u8) -> Result<Meta, EditFault>
    requires { number < 32 }
    ensures value { IfOk result (λ m. content m ≡ without_token number (content meta)) }
    ensures length { IfOk result (λ m. area_len m ≡ area_len meta) }
    ensures memory { IfErr result (λ f. f ≡ EditFault.Memory) }
{
    match luks_new_meta::without_token(alloc, meta, number) {
        Ok(made) => Ok(made),
        Err(_) => Err(EditFault::Memory),
    }
}
