//! The first fault of a value in which something is under way, row by row.

ghost use Rattle.std.specs.Prelude.{◌≡◌, ◌<◌, ℕ, false, OnOk, IfErr, MatchOption};
ghost use Rattle.serde_json.specs.View.{view};
ghost use Rattle.serde_json.specs.Written.{has_float};
ghost use Rattle.luks_area.specs.First.{IsLeast, JudgesRow};
ghost use Rattle.luks_rules.specs.declared.fault.MetaFault.{MetaFault};
ghost use Rattle.luks_rules.specs.MetaFault.{fault_of, meta_key, meta_place, meta_row, test_row};
ghost use Rattle.luks_rules.specs.Sizes.{has_other_size, has_slot_outside, IsFirst};
ghost use Rattle.luks_wider.specs.declared.place.WidePlace.{WidePlace};
ghost use Rattle.luks_wider.specs.Places.{has_wide_fault, IsWidePlace};
ghost use Rattle.luks_wider.specs.WideFaults.{has_small_key_area, IsWideDataFault, IsWideFaultless};

use crate::place::wide_place_path;
use crate::walk::first_wide_fault;
use arrayvec::ArrayString;
use luks_area::AreaName;
use luks_contradictions::has_reencrypt;
use luks_json::holds_float;
use luks_rules::{MetaFault, Test, has_slot_outside, has_small_area, json_size};
use serde_json::Value;

/// A value, and the length in bytes of the JSON area that it is in.
#[derive(Clone, Copy)]
pub(crate) struct Content<'a> {
    pub len: usize,
    pub value: &'a Value,
}

/// The first fault of a value, except for what contradicts itself.
pub(crate) fn judge_members(content: Content) -> Result<(), MetaFault>
    ensures clean { OnOk result (IsWideFaultless content.entry.len (view content.entry.value.now)) }
    ensures none { OnOk result ((g : MetaFault) → IsWideDataFault content.entry.len (view content.entry.value.now) g → ⊥) }
    ensures least { IfErr result (λ f. IsLeast meta_key (IsWideDataFault content.entry.len (view content.entry.value.now)) f) }
{
    judge_numbers(content)?;
    judge_paths(content, Test::Shape)?;
    judge_paths(content, Test::Kind)?;
    judge_paths(content, Test::NoSuchName)?;
    judge_paths(content, Test::Assigned)?;
    judge_sizes(content)?;
    judge_areas(content)?;
    judge_region(content)?;
    Ok(())
}

fn judge_numbers(content: Content) -> Result<(), MetaFault>
    ensures clean { OnOk result (has_float (view content.entry.value.now) ≡ false) }
    ensures row { JudgesRow meta_row meta_place (IsWideDataFault content.entry.len (view content.entry.value.now)) 3 result }
{
    if holds_float(content.value) {
        return Err(MetaFault::NotWhole);
    }
    Ok(())
}

fn judge_paths(content: Content, test: Test) -> Result<(), MetaFault>
    ensures clean { OnOk result ((p : WidePlace) → IsWidePlace (view content.entry.value.now) p
        → has_wide_fault test (view content.entry.value.now) p ≡ false) }
    ensures row { JudgesRow meta_row meta_place (IsWideDataFault content.entry.len (view content.entry.value.now)) (test_row test) result }
{
    match first_wide_fault(test, content.value) {
        Some(place) => Err(fault_of(test, wide_place_path(&place))),
        None => Ok(()),
    }
}

fn fault_of(test: Test, path: ArrayString<32>) -> MetaFault
    ensures { result ≡ fault_of test path }
{
    match test {
        Test::Shape => MetaFault::Shape(path),
        Test::Kind => MetaFault::Kind(path),
        Test::NoSuchName => MetaFault::NoSuchName(path),
        Test::Assigned => MetaFault::Assigned(path),
    }
}

fn judge_sizes(content: Content) -> Result<(), MetaFault>
    ensures clean { OnOk result (has_other_size content.entry.len (view content.entry.value.now) ≡ false) }
    ensures row { JudgesRow meta_row meta_place (IsWideDataFault content.entry.len (view content.entry.value.now)) 8 result }
{
    if has_other_size(content) {
        return Err(MetaFault::Sizes);
    }
    Ok(())
}

/// `config.json_size` isn't the JSON area's length.
fn has_other_size(content: Content) -> bool
    ensures { result ≡ has_other_size content.entry.len (view content.entry.value.now) }
{
    match json_size(content.value) {
        Some(size) => size != content.len as u64,
        None => true,
    }
}

fn judge_areas(content: Content) -> Result<(), MetaFault>
    ensures clean { OnOk result ((n : ℕ) → n < 32 → has_small_key_area (view content.entry.value.now) n ≡ false) }
    ensures row { JudgesRow meta_row meta_place (IsWideDataFault content.entry.len (view content.entry.value.now)) 9 result }
{
    match first_small_area(content.value) {
        Some(number) => Err(MetaFault::AreaTooSmall(number)),
        None => Ok(()),
    }
}

/// The least keyslot with a key whose area is too small.
fn first_small_area(value: &Value) -> Option<u8>
    ensures { MatchOption result
        ((n : ℕ) → n < 32 → has_small_key_area (view value.now) n ≡ false)
        (λ n. IsFirst (has_small_key_area (view value.now)) n) }
{
    for number in 0..32u8 {
        if has_small_key_area(value, number) {
            return Some(number);
        }
    }
    None
}

fn has_small_key_area(value: &Value, number: u8) -> bool
    requires { number < 32 }
    ensures { result ≡ has_small_key_area (view value.now) number }
{
    has_small_area(value, number) && !has_reencrypt(value, number)
}

fn judge_region(content: Content) -> Result<(), MetaFault>
    ensures clean { OnOk result ((n : ℕ) → n < 32 → has_slot_outside content.entry.len (view content.entry.value.now) n ≡ false) }
    ensures row { JudgesRow meta_row meta_place (IsWideDataFault content.entry.len (view content.entry.value.now)) 10 result }
{
    match first_outside(content) {
        Some(number) => Err(MetaFault::Region(AreaName::Slot(number))),
        None => Ok(()),
    }
}

/// The least keyslot whose area isn't within the region.
fn first_outside(content: Content) -> Option<u8>
    ensures { MatchOption result
        ((n : ℕ) → n < 32 → has_slot_outside content.entry.len (view content.entry.value.now) n ≡ false)
        (λ n. IsFirst (has_slot_outside content.entry.len (view content.entry.value.now)) n) }
{
    for number in 0..32u8 {
        if has_slot_outside(content.len, content.value, number) {
            return Some(number);
        }
    }
    None
}
