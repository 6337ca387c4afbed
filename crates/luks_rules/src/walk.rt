//! The first fault, by the order of the bytes of the paths.

ghost use Rattle.std.specs.Prelude.{◌≡◌, ◌<◌, ◌≤◌, Some, None, option_map, true, false, nat_lt, IfSome, IsNone};
ghost use Rattle.std.specs.List.{list_all};
ghost use Rattle.serde_json.specs.View.{view};
ghost use Rattle.luks_rules.specs.Table.{rows_of};
ghost use Rattle.luks_area.specs.First.{IsLeast};
ghost use Rattle.luks_rules.specs.declared.place.Place.{Place};
ghost use Rattle.luks_rules.specs.Faults.{has_fault, IsFaulty, IsPlace, object_at, place_path};
ghost use Rattle.luks_rules.specs.Walk.{first_in, first_numbered, first_of_config, first_of_section, first_place, first_row};

use crate::members::{object_at, section_at};
use crate::place::{Place, Test};
use crate::row_faults::{object_fault, row_fault, section_fault};
use crate::table::{Row, Section, rows_of};
use serde_json::Value;

/// The numbers in the order of the bytes of their names.
const NUMBERS: [u8; 32] = [
    0, 1, 10, 11, 12, 13, 14, 15, 16, 17, 18, 19, 2, 20, 21, 22, 23, 24, 25, 26, 27, 28, 29, 3, 30,
    31, 4, 5, 6, 7, 8, 9,
];

/// The first row of the object with a fault.
fn first_row(
    test: Test,
    rows: &[Row],
    value: &Value,
    section: Section,
    number: Option<u8>,
    object: &Value,
) -> Option<Place>
    ensures { result ≡ first_row test rows.now (view value.now) section number (view object.now) }
{
    let row = rows
        .iter()
        .find(|row| row_fault(test, rows, value, object, row))?;
    Some(Place {
        section,
        number,
        row: Some(*row),
    })
}

/// The first fault of the object with the number, if it is there.
fn first_in(
    test: Test,
    rows: &[Row],
    value: &Value,
    section: Section,
    number: u8,
    object: Option<&Value>,
) -> Option<Place>
    requires { number < 32 }
    ensures { result ≡ first_in test rows.now (view value.now) section number
        (option_map (λ v. view v.now) object.entry) }
{
    let object = object?;
    if object_fault(test, value, section, number, object) {
        return Some(Place {
            section,
            number: Some(number),
            row: None,
        });
    }
    first_row(test, rows, value, section, Some(number), object)
}

/// The first fault of the objects of a section.
fn first_numbered(
    test: Test,
    rows: &[Row],
    value: &Value,
    section: Section,
    numbers: &[u8],
) -> Option<Place>
    requires { list_all (λ n. nat_lt n 32) numbers.now ≡ true }
    ensures { result ≡ first_numbered test rows.now (view value.now) section numbers.now }
{
    for number in numbers {
        let object = object_at(value, section, *number);
        let found = first_in(test, rows, value, section, *number, object);
        if found.is_some() {
            return found;
        }
    }
    None
}

/// The first fault of the members of `config`.
fn first_of_config(test: Test, rows: &[Row], value: &Value, config: Option<&Value>) -> Option<Place>
    ensures { result ≡ first_of_config test rows.now (view value.now)
        (option_map (λ v. view v.now) config.entry) }
{
    first_row(test, rows, value, Section::Config, None, config?)
}

/// The first fault of a section.
fn first_of_section(
    test: Test,
    rows: &[Row],
    numbers: &[u8],
    value: &Value,
    section: Section,
) -> Option<Place>
    requires { list_all (λ n. nat_lt n 32) numbers.now ≡ true }
    ensures { result ≡ first_of_section test rows.now numbers.now (view value.now) section }
{
    if section_fault(test, value, section) {
        return Some(Place {
            section,
            number: None,
            row: None,
        });
    }
    match section {
        Section::Config => first_of_config(test, rows, value, section_at(value, section)),
        _ => first_numbered(test, rows, value, section, numbers),
    }
}

fn first_among(test: Test, value: &Value, sections: &[Section]) -> Option<Place>
    ensures { result ≡ first_place test (view value.now) sections.now }
{
    for section in sections {
        let found = first_of_section(test, rows_of(*section), &NUMBERS, value, *section);
        if found.is_some() {
            return found;
        }
    }
    None
}

const SECTIONS: [Section; 5] = [
    Section::Config,
    Section::Digests,
    Section::Keyslots,
    Section::Segments,
    Section::Tokens,
];

/// The least place, by the bytes of its path, where the test finds a fault.
pub(crate) fn first_fault(test: Test, value: &Value) -> Option<Place>
    ensures least { IfSome result (λ p. IsLeast place_path (IsFaulty test (view value.now)) p) }
    ensures none { IsNone result → (p : Place) → IsPlace p → has_fault test (view value.now) p ≡ false }
{
    match first_among(test, value, &SECTIONS) {
        Some(place) => Some(place),
        None => None,
    }
}
