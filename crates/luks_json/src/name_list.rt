//! Arrays of names, as numbers in place.

ghost use Rattle.std.specs.Prelude.{◌≡◌, length, nat_le, Some, None, IsSome, option_map, option_and_then, if◌then◌else◌};
ghost use Rattle.serde_json.specs.Find.{as_str};
ghost use Rattle.serde_json.specs.View.{view, items_view};
ghost use Rattle.luks_json.specs.Number.{number_of};
ghost use Rattle.luks_json.specs.Names.{item_numbers, numbers_of_array, IsNameList};

use crate::number::number_named;
use arrayvec::ArrayVec;
use serde_json::Value;

/// The numbers that an array's texts name, in its order, if each is a name and there are at most 32.
pub fn numbers_in(value: Option<&Value>) -> Option<ArrayVec<u8, 32>>
    ensures is { option_map (λ n. n.items) result ≡ numbers_of_array (option_map (λ v. view v.now) value.entry) }
    ensures there { IsNameList (option_map (λ v. view v.now) value.entry) → IsSome result }
{
    match value {
        Some(value) => match value.as_array() {
            Some(items) => item_numbers(items),
            None => None,
        },
        None => None,
    }
}

fn item_numbers(items: &Vec<Value>) -> Option<ArrayVec<u8, 32>>
    ensures { option_map (λ n. n.items) result
        ≡ (if nat_le (length items.now.items) 32 then item_numbers (items_view items.now.items) else None) }
{
    if items.len() > 32 {
        return None;
    }
    let mut numbers = ArrayVec::new();
    for item in items {
        match item_number(item) {
            Some(number) => numbers.push(number),
            None => return None,
        }
    }
    Some(numbers)
}

fn item_number(item: &Value) -> Option<u8>
    ensures { result ≡ option_and_then number_of (as_str (view item.now)) }
{
    number_named(item.as_str()?)
}
