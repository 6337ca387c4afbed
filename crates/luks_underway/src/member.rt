//! Members that the rules of `luks_rules` don't know, by the rules of what is under way.

ghost use Rattle.std.specs.Prelude.{◌≡◌, codes, false, option_map, is_some};
ghost use Rattle.std.specs.Option.{option_map_or};
ghost use Rattle.std.specs.Str.{bytes_eq};
ghost use Rattle.serde_json.specs.View.{view};
ghost use Rattle.luks_rules.specs.Reading.{reads, text_of};
ghost use Rattle.luks_rules.specs.Sizes.{inside_at};
ghost use Rattle.luks_rules.specs.declared.table.Rule.TheVariants.{MayBeNumber};
ghost use Rattle.luks_rules.specs.Faults.{member_at, type_at};
ghost use Rattle.luks_underway.specs.Members.{is_shift, is_unit, positive_in, shift_in, unit_in};

use luks_json::{decimal_in, number_in, text_in};
use luks_rules::{Member, Outer, member_at, outer_at, type_at};
use serde_json::Value;

/// The sizes of a unit of which a checksum is taken: the powers of two from 512 to 2147483648.
const UNITS: [u64; 23] = [
    512, 1024, 2048, 4096, 8192, 16384, 32768, 65536, 131072, 262144, 524288, 1048576, 2097152,
    4194304, 8388608, 16777216, 33554432, 67108864, 134217728, 268435456, 536870912, 1073741824,
    2147483648,
];

/// The member of the object, or of the one inside it.
pub fn inside_at<'a>(object: &'a Value, outer: Outer, name: &str) -> Option<&'a Value>
    ensures { option_map (λ v. view v.now) result ≡ inside_at outer name.now (view object.now) }
{
    outer_at(object, outer)?.get(name)
}

/// The text that the member is.
pub(crate) fn text_inside<'a>(object: &'a Value, outer: Outer, name: &str) -> Option<&'a str>
    ensures { option_map (λ t. t.now) result ≡ text_of (inside_at outer name.now (view object.now)) }
{
    text_in(inside_at(object, outer, name))
}

/// The object itself, or the one inside it, is of the type.
pub fn has_type(object: &Value, outer: Outer, kind: &str) -> bool
    ensures { result ≡ option_map_or (λ t. bytes_eq t kind.now) (type_at (view object.now) outer) false }
{
    match type_at(object, outer) {
        Some(text) => text == kind,
        None => false,
    }
}

/// The number is the size of a unit.
fn is_unit(n: u64) -> bool
    ensures { result ≡ is_unit n }
{
    UNITS.iter().any(|unit| *unit == n)
}

/// The size of a unit that the member `sector_size` of the area is.
pub fn unit_at(object: &Value) -> Option<u32>
    ensures { result ≡ unit_in (member_at (view object.now) Outer.Area Member.SectorSize) }
{
    let n = number_in(
        member_at(object, Outer::Area, Member::SectorSize),
        512,
        2147483648,
    )?;
    if !is_unit(n) {
        return None;
    }
    u32::try_from(n).ok()
}

/// The number of bytes by which the data moves: whole sectors, at least one.
pub fn shift_at(object: &Value) -> Option<u64>
    ensures { result ≡ shift_in (inside_at Outer.Area (codes "shift_size") (view object.now)) }
{
    let n = decimal_in(inside_at(object, Outer::Area, "shift_size"))?;
    if n == 0 || n % 512 != 0 {
        return None;
    }
    Some(n)
}

/// The number above 0 whose decimal text the member is.
pub fn positive_inside(object: &Value, name: &str) -> Option<u64>
    ensures { result ≡ positive_in (inside_at Outer.Top name.now (view object.now)) }
{
    let n = decimal_in(inside_at(object, Outer::Top, name))?;
    if n == 0 {
        return None;
    }
    Some(n)
}

/// The priority is a number from 0 to 2, or isn't there.
pub fn has_priority(object: &Value) -> bool
    ensures { result ≡ is_some (reads (MayBeNumber 0 2) (member_at (view object.now) Outer.Top Member.Priority)) }
{
    let value = member_at(object, Outer::Top, Member::Priority);
    value.is_none() || number_in(value, 0, 2).is_some()
}
