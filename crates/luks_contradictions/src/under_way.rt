//! Whether something is under way.

ghost use Rattle.std.specs.Prelude.{◌≡◌, ◌<◌, ℕ, false, true, MatchOption};
ghost use Rattle.serde_json.specs.View.{view};
ghost use Rattle.luks_rules.specs.Sizes.{IsFirst};
ghost use Rattle.luks_underway.specs.Kinds.{has_opal, has_reencrypt, IsUnderWay};

use luks_rules::{Outer, Section, object_at};
use luks_underway::{has_type, is_opal};
use serde_json::Value;

/// Whether a keyslot says that a reencryption is under way, or a segment that the disk encrypts itself.
pub fn is_under_way(value: &Value) -> bool
    ensures is { result ≡ true → IsUnderWay (view value.now) }
    ensures only { result ≡ false → IsUnderWay (view value.now) → ⊥ }
{
    first_reencryption(value).is_some() || first_opal(value).is_some()
}

/// The least keyslot of the type `reencrypt`.
pub fn first_reencryption(value: &Value) -> Option<u8>
    ensures { MatchOption result
        ((n : ℕ) → n < 32 → has_reencrypt (view value.now) n ≡ false)
        (λ n. IsFirst (has_reencrypt (view value.now)) n) }
{
    for number in 0..32u8 {
        if has_reencrypt(value, number) {
            return Some(number);
        }
    }
    None
}

/// The keyslot with the number is of the type `reencrypt`.
pub fn has_reencrypt(value: &Value, number: u8) -> bool
    requires { number < 32 }
    ensures { result ≡ has_reencrypt (view value.now) number }
{
    match object_at(value, Section::Keyslots, number) {
        Some(object) => has_type(object, Outer::Top, "reencrypt"),
        None => false,
    }
}

/// The least segment of a disk that encrypts itself.
fn first_opal(value: &Value) -> Option<u8>
    ensures { MatchOption result
        ((n : ℕ) → n < 32 → has_opal (view value.now) n ≡ false)
        (λ n. IsFirst (has_opal (view value.now)) n) }
{
    for number in 0..32u8 {
        if has_opal(value, number) {
            return Some(number);
        }
    }
    None
}

/// The segment with the number is one of a disk that encrypts itself.
pub(crate) fn has_opal(value: &Value, number: u8) -> bool
    requires { number < 32 }
    ensures { result ≡ has_opal (view value.now) number }
{
    match object_at(value, Section::Segments, number) {
        Some(object) => is_opal(object),
        None => false,
    }
}
