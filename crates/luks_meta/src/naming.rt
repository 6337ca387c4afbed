//! The digest that names a keyslot.

ghost use Rattle.std.specs.Prelude.{◌≡◌, ℕ, ◌<◌, true, Some, is_some, option_and_then, IfSome, IsSome};
ghost use Rattle.serde_json.specs.Find.{as_object};
ghost use Rattle.serde_json.specs.View.{view, members_view};
ghost use Rattle.luks_rules.specs.Faults.{object_at, section_at};
ghost use Rattle.luks_meta.specs.Naming.{HasUniqueDigests, IsDigestOf, IsUnique, first_naming};
ghost use Rattle.luks_meta.specs.Objects.{IsAccepted};

use crate::objects::numbered;
use luks_json::{names, number_named, number_text};
use luks_rules::{Section, section_at};
use serde_json::{Map, Value};

/// The number of the one digest that names the keyslot, if there is such a keyslot.
pub(crate) fn digest_of_keyslot(value: &Value, number: u8) -> Option<u8>
    requires { IsAccepted (view value.now) }
    ensures some { IfSome result (IsDigestOf (view value.now) number) }
    ensures only { (m : ℕ) → IsDigestOf (view value.now) number m → result ≡ Some m }
    ensures there { number < 32 → is_some (object_at (view value.now) Section.Keyslots number) ≡ true → IsSome result }
    ensures unique { IfSome result (λ _. HasUniqueDigests (view value.now)) }
{
    match numbered(value, Section::Keyslots, number) {
        Some(_) => first_naming(digests_of(value), number_text(number)),
        None => None,
    }
}

/// Each digest's name stands once in the value. What it looks for is of no matter; its contract is the law.
pub(crate) fn digests_stand_once(value: &Value)
    requires { IsAccepted (view value.now) }
    ensures { HasUniqueDigests (view value.now) }
{
    first_naming(digests_of(value), "");
}

// The digests by their names.
fn digests_of(value: &Value) -> &Map<String, Value>
    requires { IsAccepted (view value.now) }
    ensures { option_and_then as_object (section_at (view value.now) Section.Digests)
        ≡ Some (members_view result.now.entries) }
{
    section_at(value, Section::Digests)
        .unwrap()
        .as_object()
        .unwrap()
}

fn first_naming(digests: &Map<String, Value>, name: &str) -> Option<u8>
    ensures first { result ≡ first_naming name.now (members_view digests.now.entries) }
    ensures unique { IsUnique (members_view digests.now.entries) }
{
    for (key, digest) in digests.iter() {
        if names(digest.get("keyslots"), name) {
            return number_named(key.as_str());
        }
    }
    None
}
