//! The first place where what is under way contradicts itself, by the order of the bytes of the paths.

ghost use Rattle.std.specs.Prelude.{◌≡◌, ◌<◌, true, false, find, nat_lt, IfSome, IsNone};
ghost use Rattle.std.specs.List.{list_all};
ghost use Rattle.serde_json.specs.View.{view};
ghost use Rattle.luks_area.specs.First.{IsLeast};
ghost use Rattle.luks_contradictions.specs.Contradicted.{contradiction_path, contradicts, has_out_of_place};
ghost use Rattle.luks_contradictions.specs.Contradictions.{is_second};
ghost use Rattle.luks_contradictions.specs.Walk.{first_of_segments, first_place};

use crate::contradiction::Contradiction;
use crate::contradictions::{is_misparted, is_out_of_place, is_second, lacks_requirement};
use luks_rules::{Section, object_at};
use serde_json::Value;

/// The numbers in the order of the bytes of their names.
const NUMBERS: [u8; 32] = [
    0, 1, 10, 11, 12, 13, 14, 15, 16, 17, 18, 19, 2, 20, 21, 22, 23, 24, 25, 26, 27, 28, 29, 3, 30,
    31, 4, 5, 6, 7, 8, 9,
];

/// The least place, by the bytes of its path, where what is under way contradicts itself.
pub fn first_contradiction(value: &Value) -> Option<Contradiction>
    ensures least { IfSome result (λ p. IsLeast contradiction_path (λ q. contradicts (view value.now) q ≡ true) p) }
    ensures none { IsNone result → (p : Contradiction) → contradicts (view value.now) p ≡ false }
{
    match first_place(value) {
        Some(place) => Some(place),
        None => None,
    }
}

fn first_place(value: &Value) -> Option<Contradiction>
    ensures { result ≡ first_place (view value.now) }
{
    if lacks_requirement(value) {
        return Some(Contradiction::Requirements);
    }
    match first_second(value, &NUMBERS) {
        Some(number) => Some(Contradiction::Keyslot(number)),
        None => first_of_segments(value),
    }
}

/// The first place among the segments.
fn first_of_segments(value: &Value) -> Option<Contradiction>
    ensures { result ≡ first_of_segments (view value.now) }
{
    if is_misparted(value) {
        return Some(Contradiction::Segments);
    }
    match first_out_of_place(value, &NUMBERS) {
        Some(number) => Some(Contradiction::Segment(number)),
        None => None,
    }
}

/// The first of the keyslots with these numbers that isn't the only one to say what is under way.
fn first_second(value: &Value, numbers: &[u8]) -> Option<u8>
    requires { list_all (λ n. nat_lt n 32) numbers.now ≡ true }
    ensures { result ≡ find (is_second (view value.now)) numbers.now }
{
    for number in numbers {
        if is_second(value, *number) {
            return Some(*number);
        }
    }
    None
}

/// The first of the segments with these numbers that isn't where or what it may be.
fn first_out_of_place(value: &Value, numbers: &[u8]) -> Option<u8>
    requires { list_all (λ n. nat_lt n 32) numbers.now ≡ true }
    ensures { result ≡ find (has_out_of_place (view value.now)) numbers.now }
{
    for number in numbers {
        if has_out_of_place(value, *number) {
            return Some(*number);
        }
    }
    None
}

fn has_out_of_place(value: &Value, number: u8) -> bool
    requires { number < 32 }
    ensures { result ≡ has_out_of_place (view value.now) number }
{
    match object_at(value, Section::Segments, number) {
        Some(segment) => is_out_of_place(value, number, segment),
        None => false,
    }
}
