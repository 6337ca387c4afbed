//! The members of an object, or of an object inside it, by the rules of the table.

ghost use Rattle.std.specs.Prelude.{◌≡◌, false, option_map, option_and_then, IsSome};
ghost use Rattle.std.specs.Option.{option_map_or};
ghost use Rattle.std.specs.Str.{bytes_eq};
ghost use Rattle.serde_json.specs.View.{view};
ghost use Rattle.luks_rules.specs.declared.table.Rule.TheVariants.{MayBeNumber};
ghost use Rattle.luks_rules.specs.Faults.{type_at};
ghost use Rattle.luks_json.specs.Names.{IsNameList, numbers_of_array};
ghost use Rattle.luks_rules.specs.Reading.{text_of, number_of, number_in, decimal_in, bytes_in, extent_of, kept, is_sector_size, reads};
ghost use Rattle.luks_rules.specs.Faults.{member_at};
ghost use Rattle.luks_meta.specs.Says.{extent_field, priority_field};

use arrayvec::ArrayVec;
use luks_json::{bytes_in, decimal_in, decimal_value, number_in, numbers_in, text_in};
use luks_rules::{Member, Outer, member_at, sector_size_in, type_at};
use serde_json::Value;

/// How far a segment goes.
#[derive(Clone, Copy, PartialEq, Eq)]
pub enum Extent {
    /// So many bytes.
    Fixed(u64),
    /// To the end of the volume.
    Dynamic,
}

/// The text that the member is.
pub(crate) fn text_at(object: &Value, outer: Outer, name: Member) -> Option<&str>
    ensures { option_map (λ t. t.now) result ≡ text_of (member_at (view object.now) outer name) }
{
    text_in(member_at(object, outer, name))
}

/// The member `type` is the text.
pub(crate) fn has_type(object: &Value, outer: Outer, kind: &str) -> bool
    ensures { result ≡ option_map_or (λ t. bytes_eq t kind.now) (type_at (view object.now) outer) false }
{
    match type_at(object, outer) {
        Some(text) => text == kind,
        None => false,
    }
}

/// The number whose decimal text the member is.
pub(crate) fn decimal_at(object: &Value, outer: Outer, name: Member) -> Option<u64>
    ensures { result ≡ decimal_in (member_at (view object.now) outer name) }
{
    decimal_in(member_at(object, outer, name))
}

/// The `least` to `most` bytes whose base64 the member is.
pub(crate) fn bytes_at(
    object: &Value,
    outer: Outer,
    name: Member,
    least: u64,
    most: u64,
) -> Option<ArrayVec<u8, 128>>
    ensures { option_map (λ b. b.items) result ≡ bytes_in least most (member_at (view object.now) outer name) }
{
    bytes_in(member_at(object, outer, name), least, most)
}

/// The number from 1 to 4294967295 that the member is.
pub(crate) fn small_at(object: &Value, outer: Outer, name: Member) -> Option<u32>
    ensures { result ≡ number_in 1 4294967295 (member_at (view object.now) outer name) }
{
    let n = number_in(member_at(object, outer, name), 1, 4294967295)?;
    u32::try_from(n).ok()
}

/// The length of a key, from 1 to 128, that the member is.
pub(crate) fn key_size_at(object: &Value, outer: Outer) -> Option<u8>
    ensures { result ≡ number_in 1 128 (member_at (view object.now) outer Member.KeySize) }
{
    let n = number_in(member_at(object, outer, Member::KeySize), 1, 128)?;
    u8::try_from(n).ok()
}

/// The size of a sector, 512, 1024, 2048 or 4096, that the member is.
pub(crate) fn sector_size_at(object: &Value) -> Option<u16>
    ensures { result ≡ option_and_then (kept is_sector_size) (number_of (member_at (view object.now) Outer.Top Member.SectorSize)) }
{
    let n = sector_size_in(member_at(object, Outer::Top, Member::SectorSize))?;
    u16::try_from(n).ok()
}

/// The extent, a decimal text or `dynamic`, that the member `size` is.
pub(crate) fn extent_at(object: &Value) -> Option<Extent>
    ensures { option_map extent_field result ≡ option_and_then extent_of (text_of (member_at (view object.now) Outer.Top Member.Size)) }
{
    let text = text_at(object, Outer::Top, Member::Size)?;
    if text == "dynamic" {
        return Some(Extent::Dynamic);
    }
    Some(Extent::Fixed(decimal_value(text)?))
}

/// The priority, from 0 to 2, if there is one.
pub(crate) fn priority_at(object: &Value) -> Option<Option<u8>>
    ensures { option_map priority_field result ≡ reads (MayBeNumber 0 2) (member_at (view object.now) Outer.Top Member.Priority) }
{
    let value = member_at(object, Outer::Top, Member::Priority);
    if value.is_none() {
        return Some(None);
    }
    let n = number_in(value, 0, 2)?;
    Some(Some(u8::try_from(n).ok()?))
}

/// The numbers that the member, an array, names.
pub(crate) fn numbers_at(object: &Value, name: Member) -> Option<ArrayVec<u8, 32>>
    ensures is { option_map (λ n. n.items) result ≡ numbers_of_array (member_at (view object.now) Outer.Top name) }
    ensures there { IsNameList (member_at (view object.now) Outer.Top name) → IsSome result }
{
    numbers_in(member_at(object, Outer::Top, name))
}
