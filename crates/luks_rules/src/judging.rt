//! The first fault of a value, row by row.

ghost use Rattle.std.specs.Prelude.{◌≡◌, ◌≤◌, ◌<◌, ℕ, false, OnOk, IfErr};
ghost use Rattle.serde_json.specs.View.{view};
ghost use Rattle.luks_area.specs.First.{IsLeast, JudgesRow};
ghost use Rattle.luks_rules.specs.declared.fault.MetaFault.{MetaFault};
ghost use Rattle.serde_json.specs.Written.{has_float};
ghost use Rattle.luks_rules.specs.declared.place.Place.{Place};
ghost use Rattle.luks_rules.specs.Faults.{has_fault, IsPlace};
ghost use Rattle.luks_rules.specs.Sizes.{has_other_size, has_slot_outside, has_small_area};
ghost use Rattle.luks_rules.specs.MetaFault.{IsDataFault, IsFaultless, fault_of, meta_key, meta_place, meta_row, test_row};

use crate::fault::MetaFault;
use crate::path::place_path;
use crate::place::{Content, SizeTest, Test};
use crate::sizes::{first_size_fault, has_other_size};
use crate::walk::first_fault;
use arrayvec::ArrayString;
use luks_area::AreaName;
use luks_json::holds_float;

fn fault_of(test: Test, path: ArrayString<32>) -> MetaFault
    ensures { result ≡ fault_of test path }
{
    match test {
        Test::Shape => MetaFault::Shape(path),
        Test::Kind => MetaFault::Kind(path),
        Test::NoSuchName => MetaFault::NoSuchName(path),
        Test::Assigned => MetaFault::Assigned(path),
    }
}

fn judge_paths(content: Content, test: Test) -> Result<(), MetaFault>
    ensures clean { OnOk result ((p : Place) → IsPlace p → has_fault test (view content.entry.value.now) p ≡ false) }
    ensures row { JudgesRow meta_row meta_place (IsDataFault content.entry.len (view content.entry.value.now)) (test_row test) result }
{
    match first_fault(test, content.value) {
        Some(place) => Err(fault_of(test, place_path(&place))),
        None => Ok(()),
    }
}

fn judge_numbers(content: Content) -> Result<(), MetaFault>
    ensures clean { OnOk result (has_float (view content.entry.value.now) ≡ false) }
    ensures row { JudgesRow meta_row meta_place (IsDataFault content.entry.len (view content.entry.value.now)) 3 result }
{
    if holds_float(content.value) {
        return Err(MetaFault::NotWhole);
    }
    Ok(())
}

fn judge_sizes(content: Content) -> Result<(), MetaFault>
    ensures clean { OnOk result (has_other_size content.entry.len (view content.entry.value.now) ≡ false) }
    ensures row { JudgesRow meta_row meta_place (IsDataFault content.entry.len (view content.entry.value.now)) 8 result }
{
    if has_other_size(content) {
        return Err(MetaFault::Sizes);
    }
    Ok(())
}

fn judge_areas(content: Content) -> Result<(), MetaFault>
    ensures clean { OnOk result ((n : ℕ) → n < 32 → has_small_area (view content.entry.value.now) n ≡ false) }
    ensures row { JudgesRow meta_row meta_place (IsDataFault content.entry.len (view content.entry.value.now)) 9 result }
{
    match first_size_fault(SizeTest::SmallArea, content) {
        Some(number) => Err(MetaFault::AreaTooSmall(number)),
        None => Ok(()),
    }
}

fn judge_region(content: Content) -> Result<(), MetaFault>
    ensures clean { OnOk result ((n : ℕ) → n < 32 → has_slot_outside content.entry.len (view content.entry.value.now) n ≡ false) }
    ensures row { JudgesRow meta_row meta_place (IsDataFault content.entry.len (view content.entry.value.now)) 10 result }
{
    match first_size_fault(SizeTest::SlotOutside, content) {
        Some(number) => Err(MetaFault::Region(AreaName::Slot(number))),
        None => Ok(()),
    }
}

/// The first fault of a value.
pub(crate) fn judge(content: Content) -> Result<(), MetaFault>
    ensures clean { OnOk result (IsFaultless content.entry.len (view content.entry.value.now)) }
    ensures none { OnOk result ((g : MetaFault) → IsDataFault content.entry.len (view content.entry.value.now) g → ⊥) }
    ensures least { IfErr result (λ f. IsLeast meta_key (IsDataFault content.entry.len (view content.entry.value.now)) f) }
{
    judge_numbers(content)?;
    judge_paths(content, Test::Shape)?;
    judge_paths(content, Test::Kind)?;
    judge_paths(content, Test::NoSuchName)?;
    judge_paths(content, Test::Assigned)?;
    judge_sizes(content)?;
    judge_areas(content)?;
    judge_region(content)?;
    Ok(())
}
