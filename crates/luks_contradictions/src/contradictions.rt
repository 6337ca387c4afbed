//! Where what is under way contradicts itself.

ghost use Rattle.std.specs.Prelude.{◌≡◌, ◌<◌, ◌≤◌};
ghost use Rattle.serde_json.specs.View.{items_view, view};
ghost use Rattle.luks_underway.specs.Kinds.{has_opal, has_reencrypt};
ghost use Rattle.luks_contradictions.specs.Consistent.{has_online, is_online_item, requires_reencryption};
ghost use Rattle.luks_contradictions.specs.Contradictions.{any_below, is_gapped, is_hot_outside, is_miscounted, is_misparted, is_out_of_place, is_second, is_unended, is_unlike, lacks_requirement};

use crate::marks::{Beside, Mark, all_marked, any_beside, count_marked, has_marked, size_of};
use crate::under_way::{has_opal, has_reencrypt};
use luks_underway::{has_flag, has_requirement, is_kept_back, mandatory_in};
use serde_json::Value;

/// What is under way isn't asked for by `config.requirements`.
pub(crate) fn lacks_requirement(value: &Value) -> bool
    ensures { result ≡ lacks_requirement (view value.now) }
{
    (any_reencrypt(value, 32) && !requires_reencryption(value))
        || (any_opal(value, 32) && !has_requirement(value, "opal"))
}

/// One of the first keyslots is of the type `reencrypt`.
fn any_reencrypt(value: &Value, count: u8) -> bool
    requires { count ≤ 32 }
    ensures { result ≡ any_below (has_reencrypt (view value.now)) count }
{
    for number in 0..count {
        if has_reencrypt(value, number) {
            return true;
        }
    }
    false
}

/// One of the first segments is one of a disk that encrypts itself.
fn any_opal(value: &Value, count: u8) -> bool
    requires { count ≤ 32 }
    ensures { result ≡ any_below (has_opal (view value.now)) count }
{
    for number in 0..count {
        if has_opal(value, number) {
            return true;
        }
    }
    false
}

fn requires_reencryption(value: &Value) -> bool
    ensures { result ≡ requires_reencryption (view value.now) }
{
    match mandatory_in(value) {
        Some(Value::Array(items)) => has_online(items.as_slice()),
        _ => false,
    }
}

fn has_online(items: &[Value]) -> bool
    ensures { result ≡ has_online (items_view items.now) }
{
    for item in items {
        if is_online_item(item) {
            return true;
        }
    }
    false
}

fn is_online_item(item: &Value) -> bool
    ensures { result ≡ is_online_item (view item.now) }
{
    match item.as_str() {
        Some(text) => text.as_bytes().starts_with(b"online-reencrypt"),
        None => false,
    }
}

/// A keyslot of a lesser number is of the type `reencrypt`, too.
pub(crate) fn is_second(value: &Value, number: u8) -> bool
    requires { number < 32 }
    ensures { result ≡ is_second (view value.now) number }
{
    has_reencrypt(value, number) && any_reencrypt(value, number)
}

/// The segments of a reencryption don't say once each how the data was and how it will be, or aren't
/// numbered as they have to be.
pub(crate) fn is_misparted(value: &Value) -> bool
    ensures { result ≡ is_misparted (view value.now) }
{
    any_reencrypt(value, 32) && (is_miscounted(value) || is_gapped(value))
}

fn is_miscounted(value: &Value) -> bool
    ensures { result ≡ is_miscounted (view value.now) }
{
    count_marked(Mark::Previous, value) != 1
        || count_marked(Mark::Final, value) != 1
        || count_marked(Mark::Moved, value) > 1
        || count_marked(Mark::Hot, value) > 1
}

fn is_gapped(value: &Value) -> bool
    ensures { result ≡ is_gapped (view value.now) }
{
    let used = count_marked(Mark::Used, value);
    let there = count_marked(Mark::There, value);
    used == 0 || !all_marked(Mark::Used, value, used) || !all_marked(Mark::There, value, there)
}

/// The segment with the number, which is this one, isn't where or what it may be in a reencryption.
pub(crate) fn is_out_of_place(value: &Value, number: u8, segment: &Value) -> bool
    requires { number < 32 }
    ensures { result ≡ is_out_of_place (view value.now) number (view segment.now) }
{
    any_reencrypt(value, 32)
        && !is_kept_back(segment)
        && (is_unlike(value, segment)
            || is_hot_outside(value, segment)
            || is_unended(value, number, segment)
            || any_beside(Beside::Meeting, value, segment, number))
}

fn is_unlike(value: &Value, segment: &Value) -> bool
    ensures { result ≡ is_unlike (view value.now) (view segment.now) }
{
    !any_beside(Beside::LikeFinal, value, segment, 32)
        && (has_flag(segment, "in-reencryption")
            || !any_beside(Beside::LikePrevious, value, segment, 32))
}

fn is_hot_outside(value: &Value, segment: &Value) -> bool
    ensures { result ≡ is_hot_outside (view value.now) (view segment.now) }
{
    has_flag(segment, "in-reencryption") && !any_beside(Beside::AroundFinal, value, segment, 32)
}

fn is_unended(value: &Value, number: u8, segment: &Value) -> bool
    requires { number < 32 }
    ensures { result ≡ is_unended (view value.now) number (view segment.now) }
{
    size_of(segment).is_none() && number < 31 && has_marked(Mark::Used, value, number + 1)
}
