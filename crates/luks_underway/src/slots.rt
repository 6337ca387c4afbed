//! Keyslots of metadata in the midst of something: those that keep a key, and the one that keeps what is under way.

ghost use Rattle.std.specs.Prelude.{IfSome, IsSome};
ghost use Rattle.serde_json.specs.View.{view};
ghost use Rattle.luks_underway.specs.Slots.{IsWideKeyslot, TellsWideKeyslot};

use crate::member::has_type;
use crate::reencryption::{Reencryption, read_reencryption};
use luks_meta::{Keyslot, read_keyslot};
use luks_rules::Outer;
use serde_json::Value;

/// A keyslot.
#[derive(Drop)]
pub enum WideKeyslot<'a> {
    /// The type `luks2`: it keeps a key.
    Luks2(Keyslot<'a>),
    /// The type `reencrypt`: it keeps none, and says what is under way.
    Reencrypt(Reencryption<'a>),
}

/// The members of a keyslot; none where one breaks its rule.
pub fn read_wide_keyslot(object: &Value) -> Option<WideKeyslot<'_>>
    ensures tells { IfSome result (λ k. TellsWideKeyslot (view object.now) k) }
    ensures there { IsWideKeyslot (view object.now) → IsSome result }
{
    if has_type(object, Outer::Top, "reencrypt") {
        return Some(WideKeyslot::Reencrypt(read_reencryption(object)?));
    }
    Some(WideKeyslot::Luks2(read_keyslot(object)?))
}
