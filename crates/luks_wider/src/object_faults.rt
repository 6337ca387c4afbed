//! What is wrong at an object.

ghost use Rattle.std.specs.Prelude.{◌≡◌, ◌<◌, ◌&&◌, ◌==◌, codes, not};
ghost use Rattle.serde_json.specs.View.{view};
ghost use Rattle.luks_contradictions.specs.Counts.{digests_of};
ghost use Rattle.luks_wider.specs.Places.{is_unassigned, wide_object_fault};
ghost use Rattle.luks_underway.specs.Kinds.{is_hot, needs_digest};

use luks_rules::{Outer, Section, Test};
use luks_underway::{has_flag, has_type, is_named, is_opal};
use serde_json::Value;

/// The object has a fault of its own.
pub(crate) fn wide_object_fault(
    test: Test,
    value: &Value,
    section: Section,
    number: u8,
    object: &Value,
) -> bool
    requires { number < 32 }
    ensures { result ≡ wide_object_fault test (view value.now) section number (view object.now) }
{
    match test {
        Test::Shape => !object.is_object(),
        Test::Assigned => is_unassigned(value, section, number, object),
        Test::Kind | Test::NoSuchName => false,
    }
}

/// The object isn't named by as many digests as it has to be.
fn is_unassigned(value: &Value, section: Section, number: u8, object: &Value) -> bool
    requires { number < 32 }
    ensures { result ≡ is_unassigned (view value.now) section number (view object.now) }
{
    match section {
        Section::Keyslots => is_keyslot_unassigned(value, number, object),
        Section::Segments => needs_digest(object) && is_segment_unassigned(value, number, object),
        Section::Config | Section::Digests | Section::Tokens => false,
    }
}

fn is_keyslot_unassigned(value: &Value, number: u8, object: &Value) -> bool
    requires { number < 32 }
    ensures { result ≡ is_unassigned (view value.now) Section.Keyslots number (view object.now) }
{
    let digests = digests_of(value, "keyslots", number);
    if has_type(object, Outer::Top, "reencrypt") {
        digests > 1
    } else {
        digests != 1
    }
}

fn is_segment_unassigned(value: &Value, number: u8, object: &Value) -> bool
    requires { number < 32 }
    ensures { result ≡ (not (digests_of (view value.now) (codes "segments") number == 1)
        && not (is_hot (view object.now) && digests_of (view value.now) (codes "segments") number == 2)) }
{
    let digests = digests_of(value, "segments", number);
    digests != 1 && !(has_flag(object, "in-reencryption") && digests == 2)
}

fn needs_digest(object: &Value) -> bool
    ensures { result ≡ needs_digest (view object.now) }
{
    has_type(object, Outer::Top, "crypt") || is_opal(object)
}

/// How many of the digests 0 to 31 name the object.
fn digests_of(value: &Value, list: &str, number: u8) -> u8
    requires { number < 32 }
    ensures { result ≡ digests_of (view value.now) list.now number }
{
    let mut count = 0;
    for digest in 0..32u8 {
        if is_named(value, list, number, digest) {
            count += 1;
        }
    }
    count
}
