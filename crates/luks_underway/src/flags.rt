//! What a segment's flags say of it.

ghost use Rattle.std.specs.Prelude.{◌≡◌, codes, option_map, option_and_then, true, IfSome, IsSome};
ghost use Rattle.serde_json.specs.View.{items_view, view};
ghost use Rattle.luks_rules.specs.declared.table.Outer.TheVariants.{Top};
ghost use Rattle.luks_rules.specs.Sizes.{inside_at};
ghost use Rattle.luks_underway.specs.Kinds.{is_kept_back};
ghost use Rattle.luks_underway.specs.Segments.{are_flags, has_backup, has_flag, is_backup, is_backup_item, TellsFlags};

use crate::member::inside_at;
use luks_json::{is_text_array, names};
use luks_rules::Outer;
use serde_json::Value;

/// Which flags a segment has; others are passed over (LUKS2 On-Disk Format 1.1, 3.3).
#[derive(Clone, Copy, PartialEq, Eq)]
pub struct Flags {
    /// `in-reencryption`: the part in hand, where either key may stand.
    pub in_reencryption: bool,
    /// `backup-previous`: how the data was before.
    pub backup_previous: bool,
    /// `backup-final`: how it will be.
    pub backup_final: bool,
    /// `backup-moved-segment`: where data was moved away from.
    pub backup_moved: bool,
    /// One that begins with `backup-`: no data is read by the segment.
    pub backup: bool,
}

/// The flags of a segment; none where they aren't texts.
pub fn read_flags(object: &Value) -> Option<Flags>
    ensures tells { IfSome result (λ k. TellsFlags (view object.now) k) }
    ensures there { are_flags (inside_at Top (codes "flags") (view object.now)) ≡ true → IsSome result }
{
    let flags = inside_at(object, Outer::Top, "flags");
    if !are_flags(flags) {
        return None;
    }
    Some(Flags {
        in_reencryption: names(flags, "in-reencryption"),
        backup_previous: names(flags, "backup-previous"),
        backup_final: names(flags, "backup-final"),
        backup_moved: names(flags, "backup-moved-segment"),
        backup: is_backup(flags),
    })
}

/// The segment has the flag.
pub fn has_flag(object: &Value, flag: &str) -> bool
    ensures { result ≡ has_flag flag.now (view object.now) }
{
    names(inside_at(object, Outer::Top, "flags"), flag)
}

/// A flag of the segment begins with `backup-`: no data is read by it.
pub fn is_kept_back(object: &Value) -> bool
    ensures { result ≡ is_kept_back (view object.now) }
{
    is_backup(inside_at(object, Outer::Top, "flags"))
}

/// The value isn't there, or is an array of texts.
pub fn are_flags(flags: Option<&Value>) -> bool
    ensures { result ≡ are_flags (option_map (λ v. view v.now) flags.entry) }
{
    match flags {
        Some(_) => is_text_array(flags),
        None => true,
    }
}

fn is_backup(flags: Option<&Value>) -> bool
    ensures { result ≡ is_backup (option_map (λ v. view v.now) flags.entry) }
{
    match flags {
        Some(Value::Array(items)) => has_backup(items.as_slice()),
        _ => false,
    }
}

fn has_backup(items: &[Value]) -> bool
    ensures { result ≡ has_backup (items_view items.now) }
{
    for item in items {
        if is_backup_item(item) {
            return true;
        }
    }
    false
}

fn is_backup_item(item: &Value) -> bool
    ensures { result ≡ is_backup_item (view item.now) }
{
    match item.as_str() {
        Some(text) => text.as_bytes().starts_with(b"backup-"),
        None => false,
    }
}
