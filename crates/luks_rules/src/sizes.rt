//! The numbers of the metadata that speak of the volume.

ghost use Rattle.std.specs.Prelude.{◌≡◌, ℕ, ◌+◌, ◌*◌, ◌<◌, ◌≤◌, false, nat_lt, MatchOption, ◌||◌};
ghost use Rattle.serde_json.specs.View.{view};
ghost use Rattle.luks_area.specs.Sectors.{rounded_to_sectors};
ghost use Rattle.luks_rules.specs.Sizes.{has_other_size, has_segment_below, has_size_fault, has_slot_outside, has_small_area, is_below, is_outside, is_too_small, IsFirst, json_size, keyslots_size, region_start};

use crate::members::{member_at, object_at, section_at};
use crate::place::{Content, SizeTest};
use crate::table::{Member, Outer, Section};
use luks_area::rounded_to_sectors;
use luks_json::{decimal_in, number_in};
use serde_json::Value;

/// What `config` tells of the JSON area's length in bytes.
pub fn json_size(value: &Value) -> Option<u64>
    ensures { result ≡ json_size (view value.now) }
{
    decimal_in(section_at(value, Section::Config)?.get("json_size"))
}

/// What `config` tells of the length in bytes of the region of key areas.
fn keyslots_size(value: &Value) -> Option<u64>
    ensures { result ≡ keyslots_size (view value.now) }
{
    decimal_in(section_at(value, Section::Config)?.get("keyslots_size"))
}

/// `config.json_size` isn't the JSON area's length.
pub(crate) fn has_other_size(content: Content) -> bool
    ensures { result ≡ has_other_size content.entry.len (view content.entry.value.now) }
{
    match json_size(content.value) {
        Some(size) => size != content.len as u64,
        None => true,
    }
}

/// The bytes of the whole sectors that hold the stripes.
fn stripes_len(key_size: u64, stripes: u64) -> u64
    requires key { key_size ≤ 128 }
    requires few { stripes ≤ 4294967295 }
    ensures { result ≡ rounded_to_sectors (key_size * stripes) }
{
    rounded_to_sectors(key_size * stripes)
}

/// The area of the keyslot has fewer bytes than the sectors of its stripes.
fn is_too_small(object: &Value) -> bool
    ensures { result ≡ is_too_small (view object.now) }
{
    let size = decimal_in(member_at(object, Outer::Area, Member::Size));
    let key_size = number_in(member_at(object, Outer::Top, Member::KeySize), 1, 128);
    let stripes = number_in(member_at(object, Outer::Af, Member::Stripes), 1, 4294967295);
    match (size, key_size, stripes) {
        (Some(size), Some(key_size), Some(stripes)) => size < stripes_len(key_size, stripes),
        _ => false,
    }
}

/// The bytes from `start` on don't lie within the region of `bytes` bytes.
fn reaches_out(len: usize, bytes: u64, start: u64, size: u64) -> bool
    ensures { result ≡ (nat_lt start (region_start len)
        || nat_lt (region_start len + bytes) (start + size)) }
{
    let region = 2 * (len as u128 + 4096);
    let end = start as u128 + size as u128;
    (start as u128) < region || region + (bytes as u128) < end
}

/// The area of the keyslot isn't within the region.
fn is_outside(len: usize, region: Option<u64>, object: &Value) -> bool
    ensures { result ≡ is_outside len region (view object.now) }
{
    let start = decimal_in(member_at(object, Outer::Area, Member::Offset));
    let size = decimal_in(member_at(object, Outer::Area, Member::Size));
    match (region, start, size) {
        (Some(bytes), Some(start), Some(size)) => reaches_out(len, bytes, start, size),
        _ => false,
    }
}

/// The place lies before the end of the region of `bytes` bytes.
fn lies_below(len: usize, bytes: u64, start: u64) -> bool
    ensures { result ≡ nat_lt start (region_start len + bytes) }
{
    let region = 2 * (len as u128 + 4096);
    (start as u128) < region + bytes as u128
}

/// The segment begins before the region's end.
fn is_below(len: usize, region: Option<u64>, object: &Value) -> bool
    ensures { result ≡ is_below len region (view object.now) }
{
    let start = decimal_in(member_at(object, Outer::Top, Member::Offset));
    match (region, start) {
        (Some(bytes), Some(start)) => lies_below(len, bytes, start),
        _ => false,
    }
}

/// The area of the keyslot with the number has fewer bytes than the sectors of its stripes.
pub fn has_small_area(value: &Value, number: u8) -> bool
    requires { number < 32 }
    ensures { result ≡ has_small_area (view value.now) number }
{
    match object_at(value, Section::Keyslots, number) {
        Some(object) => is_too_small(object),
        None => false,
    }
}

/// The area of the keyslot with the number isn't within the region, where `len` is the JSON area's
/// length in bytes.
pub fn has_slot_outside(len: usize, value: &Value, number: u8) -> bool
    requires { number < 32 }
    ensures { result ≡ has_slot_outside len (view value.now) number }
{
    match object_at(value, Section::Keyslots, number) {
        Some(object) => is_outside(len, keyslots_size(value), object),
        None => false,
    }
}

fn has_segment_below(len: usize, value: &Value, number: u8) -> bool
    requires { number < 32 }
    ensures { result ≡ has_segment_below len (view value.now) number }
{
    match object_at(value, Section::Segments, number) {
        Some(object) => is_below(len, keyslots_size(value), object),
        None => false,
    }
}

/// The test finds a fault in the object with the number.
fn has_size_fault(test: SizeTest, content: Content, number: u8) -> bool
    requires { number < 32 }
    ensures { result ≡ has_size_fault test content.entry.len (view content.entry.value.now) number }
{
    match test {
        SizeTest::SmallArea => has_small_area(content.value, number),
        SizeTest::SlotOutside => has_slot_outside(content.len, content.value, number),
        SizeTest::SegmentBelow => has_segment_below(content.len, content.value, number),
    }
}

/// The least number of an object in which the test finds a fault.
pub(crate) fn first_size_fault(test: SizeTest, content: Content) -> Option<u8>
    ensures { MatchOption result
        ((n : ℕ) → n < 32 → has_size_fault test content.entry.len (view content.entry.value.now) n ≡ false)
        (λ n. IsFirst (has_size_fault test content.entry.len (view content.entry.value.now)) n) }
{
    for number in 0..32u8 {
        if has_size_fault(test, content, number) {
            return Some(number);
        }
    }
    None
}

/// The least segment that begins before the end of the region of key areas, where `len` is the
/// JSON area's length in bytes.
pub fn first_segment_below(len: usize, value: &Value) -> Option<u8>
    ensures { MatchOption result
        ((n : ℕ) → n < 32 → has_segment_below len (view value.now) n ≡ false)
        (λ n. IsFirst (has_segment_below len (view value.now)) n) }
{
    first_size_fault(SizeTest::SegmentBelow, Content { len, value })
}
