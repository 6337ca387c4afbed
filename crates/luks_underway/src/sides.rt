//! The two keys of a reencryption: the one before, and the one that will be.

ghost use Rattle.std.specs.Prelude.{◌≡◌, ◌<◌, ℕ, codes, false, Option, MatchOption};
ghost use Rattle.serde_json.specs.View.{view};
ghost use Rattle.luks_rules.specs.Sizes.{IsFirst};
ghost use Rattle.luks_underway.specs.Sides.{has_flagged, IsSide, is_named, is_side_of, side_of};

use crate::flags::has_flag;
use luks_json::{names, number_text};
use luks_rules::{Section, object_at};
use serde_json::Value;

/// Which key a keyslot gives.
#[derive(Clone, Copy, PartialEq, Eq)]
pub enum Side {
    /// The key before.
    Old,
    /// The key that will be.
    New,
    /// Both are the same key.
    Both,
    /// Neither.
    Neither,
}

/// The digest of the key before; none where the data wasn't encrypted.
pub fn old_digest(value: &Value) -> Option<u8>
    ensures { IsSide (view value.now) (codes "backup-previous") result }
{
    side_digest(value, "backup-previous")
}

/// The digest of the key that will be; none where the data won't be encrypted.
pub fn new_digest(value: &Value) -> Option<u8>
    ensures { IsSide (view value.now) (codes "backup-final") result }
{
    side_digest(value, "backup-final")
}

/// Which key the keyslot gives, by the digest that it is assigned to.
pub fn keyslot_side(value: &Value, number: u8) -> Side
    requires { number < 32 }
    ensures { (old new : Option ℕ) → IsSide (view value.now) (codes "backup-previous") old
        → IsSide (view value.now) (codes "backup-final") new
        → result ≡ side_of (is_side_of (view value.now) number old) (is_side_of (view value.now) number new) }
{
    let old = is_side_of(value, number, old_digest(value));
    let new = is_side_of(value, number, new_digest(value));
    match (old, new) {
        (true, true) => Side::Both,
        (true, false) => Side::Old,
        (false, true) => Side::New,
        (false, false) => Side::Neither,
    }
}

/// The least digest that names the least segment with the flag.
fn side_digest(value: &Value, flag: &str) -> Option<u8>
    ensures { IsSide (view value.now) flag.now result }
{
    first_naming(value, first_flagged(value, flag)?)
}

fn is_side_of(value: &Value, number: u8, digest: Option<u8>) -> bool
    requires { number < 32 }
    ensures { result ≡ is_side_of (view value.now) number digest }
{
    match digest {
        Some(digest) => digest < 32 && is_named(value, "keyslots", number, digest),
        None => false,
    }
}

/// The least segment that has the flag.
fn first_flagged(value: &Value, flag: &str) -> Option<u8>
    ensures { MatchOption result
        ((n : ℕ) → n < 32 → has_flagged (view value.now) flag.now n ≡ false)
        (λ n. IsFirst (has_flagged (view value.now) flag.now) n) }
{
    for number in 0..32u8 {
        if has_flagged(value, flag, number) {
            return Some(number);
        }
    }
    None
}

fn has_flagged(value: &Value, flag: &str, number: u8) -> bool
    requires { number < 32 }
    ensures { result ≡ has_flagged (view value.now) flag.now number }
{
    match object_at(value, Section::Segments, number) {
        Some(segment) => has_flag(segment, flag),
        None => false,
    }
}

/// The least digest that names the segment.
fn first_naming(value: &Value, segment: u8) -> Option<u8>
    requires { segment < 32 }
    ensures { MatchOption result
        ((m : ℕ) → m < 32 → is_named (view value.now) (codes "segments") segment m ≡ false)
        (λ m. IsFirst (is_named (view value.now) (codes "segments") segment) m) }
{
    for digest in 0..32u8 {
        if is_named(value, "segments", segment, digest) {
            return Some(digest);
        }
    }
    None
}

/// The digest has the number's name in its array `list`.
pub fn is_named(value: &Value, list: &str, number: u8, digest: u8) -> bool
    requires number { number < 32 }
    requires digest { digest < 32 }
    ensures { result ≡ is_named (view value.now) list.now number digest }
{
    match object_at(value, Section::Digests, digest) {
        Some(object) => names(object.get(list), number_text(number)),
        None => false,
    }
}
