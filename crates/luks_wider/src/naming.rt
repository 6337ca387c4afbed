//! The digest that names a keyslot.

ghost use Rattle.std.specs.Prelude.{◌≡◌, ◌<◌, ℕ, codes, false, is_some, true, Some, IfSome, IsSome, MatchOption};
ghost use Rattle.serde_json.specs.View.{view};
ghost use Rattle.luks_rules.specs.Faults.{object_at};
ghost use Rattle.luks_rules.specs.Naming.{IsDigestOf};
ghost use Rattle.luks_rules.specs.Sizes.{IsFirst};
ghost use Rattle.luks_underway.specs.Kinds.{has_reencrypt};
ghost use Rattle.luks_underway.specs.Sides.{is_named};
ghost use Rattle.luks_wider.specs.Accepted.{IsWideAccepted};

use crate::objects::numbered;
use luks_rules::Section;
use luks_underway::is_named;
use serde_json::Value;

/// The number of the one digest that names the keyslot, if one does.
pub(crate) fn digest_of_keyslot(value: &Value, number: u8) -> Option<u8>
    requires { IsWideAccepted (view value.now) }
    ensures some { IfSome result (IsDigestOf (view value.now) number) }
    ensures only { (m : ℕ) → IsDigestOf (view value.now) number m → result ≡ Some m }
    ensures there { number < 32 → is_some (object_at (view value.now) Section.Keyslots number) ≡ true
        → has_reencrypt (view value.now) number ≡ false → IsSome result }
{
    match numbered(value, Section::Keyslots, number) {
        Some(_) => first_naming(value, number),
        None => None,
    }
}

/// The least digest that names the keyslot.
fn first_naming(value: &Value, number: u8) -> Option<u8>
    requires { number < 32 }
    ensures { MatchOption result
        ((m : ℕ) → m < 32 → is_named (view value.now) (codes "keyslots") number m ≡ false)
        (IsFirst (is_named (view value.now) (codes "keyslots") number)) }
{
    for digest in 0..32u8 {
        if is_named(value, "keyslots", number, digest) {
            return Some(digest);
        }
    }
    None
}
