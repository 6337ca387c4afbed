//! The first fault, by the order of the bytes of the paths.

ghost use Rattle.std.specs.Prelude.{◌≡◌, ◌<◌, [], ◌∷◌, find, map, option_map, true, false, nat_lt, IfSome, IsNone};
ghost use Rattle.std.specs.List.{list_all};
ghost use Rattle.serde_json.specs.View.{view};
ghost use Rattle.luks_area.specs.First.{IsLeast};
ghost use Rattle.luks_rules.specs.Table.{rows_of};
ghost use Rattle.luks_wider.specs.declared.place.WidePlace.{WidePlace};
ghost use Rattle.luks_wider.specs.declared.rows.WideRow.TheVariants.{Known, New};
ghost use Rattle.luks_wider.specs.Places.{has_wide_fault, IsWideFaulty, IsWidePlace, wide_place_path, wide_row_fault};
ghost use Rattle.luks_wider.specs.Rows.{with_flags};
ghost use Rattle.luks_wider.specs.WideWalk.{first_faulty, first_in, first_numbered, first_of_config, first_of_section, first_place, first_row};

use crate::object_faults::wide_object_fault;
use crate::place::WidePlace;
use crate::row_faults::wide_row_fault;
use crate::rows::{NewRow, WideRow, opal_rows, reencrypt_rows};
use luks_rules::{
    Outer, Row, Section, Test, object_at, row_fault, rows_of, section_at, section_fault,
};
use luks_underway::{has_type, is_opal};
use serde_json::Value;

/// The numbers in the order of the bytes of their names.
const NUMBERS: [u8; 32] = [
    0, 1, 10, 11, 12, 13, 14, 15, 16, 17, 18, 19, 2, 20, 21, 22, 23, 24, 25, 26, 27, 28, 29, 3, 30,
    31, 4, 5, 6, 7, 8, 9,
];

const SECTIONS: [Section; 5] = [
    Section::Config,
    Section::Digests,
    Section::Keyslots,
    Section::Segments,
    Section::Tokens,
];

/// The first of these known rows of a section's object with a fault.
fn first_known(
    test: Test,
    rows: &[Row],
    section: Section,
    value: &Value,
    object: &Value,
) -> Option<WideRow>
    ensures { result ≡ find (wide_row_fault test section (view value.now) (view object.now)) (map Known rows.now) }
{
    for row in rows {
        if row_fault(test, rows_of(section), value, object, row) {
            return Some(WideRow::Known(*row));
        }
    }
    None
}

/// The first of these new rows of an object with a fault.
fn first_new(
    test: Test,
    rows: &[NewRow],
    section: Section,
    value: &Value,
    object: &Value,
) -> Option<WideRow>
    ensures { result ≡ find (wide_row_fault test section (view value.now) (view object.now)) (map New rows.now) }
{
    for row in rows {
        if wide_row_fault(test, section, value, object, &WideRow::New(*row)) {
            return Some(WideRow::New(*row));
        }
    }
    None
}

/// The first row of `config` with a fault.
fn first_config_row(test: Test, value: &Value, config: &Value) -> Option<WideRow>
    ensures { result ≡ first_faulty test (view value.now) Section.Config (view config.now) }
{
    match first_known(
        test,
        rows_of(Section::Config),
        Section::Config,
        value,
        config,
    ) {
        Some(row) => Some(row),
        None => first_new(
            test,
            &[NewRow::Requirements],
            Section::Config,
            value,
            config,
        ),
    }
}

/// The first row of a segment with a fault: its flags follow the first of the known rows.
fn first_segment_row(test: Test, rows: &[Row], value: &Value, segment: &Value) -> Option<WideRow>
    ensures { result ≡ find (wide_row_fault test Section.Segments (view value.now) (view segment.now)) (with_flags rows.now) }
{
    match rows {
        [] => first_new(test, &[NewRow::Flags], Section::Segments, value, segment),
        [first, rest @ ..] => first_beside_flags(test, first, rest, value, segment),
    }
}

fn first_beside_flags(
    test: Test,
    first: &Row,
    rest: &[Row],
    value: &Value,
    segment: &Value,
) -> Option<WideRow>
    ensures { result ≡ find (wide_row_fault test Section.Segments (view value.now) (view segment.now))
        (Known first.now ∷ New NewRow.Flags ∷ map Known rest.now) }
{
    let first = WideRow::Known(*first);
    if wide_row_fault(test, Section::Segments, value, segment, &first) {
        return Some(first);
    }
    match first_new(test, &[NewRow::Flags], Section::Segments, value, segment) {
        Some(row) => Some(row),
        None => first_known(test, rest, Section::Segments, value, segment),
    }
}

/// The first row of an object with a fault.
fn first_faulty(test: Test, value: &Value, section: Section, object: &Value) -> Option<WideRow>
    ensures { result ≡ first_faulty test (view value.now) section (view object.now) }
{
    match section {
        Section::Config => first_config_row(test, value, object),
        Section::Keyslots => {
            if has_type(object, Outer::Top, "reencrypt") {
                first_new(test, reencrypt_rows(), section, value, object)
            } else {
                first_known(test, rows_of(section), section, value, object)
            }
        }
        Section::Segments => {
            if is_opal(object) {
                first_new(test, opal_rows(), section, value, object)
            } else {
                first_segment_row(test, rows_of(section), value, object)
            }
        }
        Section::Digests => first_known(test, rows_of(section), section, value, object),
        Section::Tokens => first_known(test, rows_of(section), section, value, object),
    }
}

fn first_row(
    test: Test,
    value: &Value,
    section: Section,
    number: Option<u8>,
    object: &Value,
) -> Option<WidePlace>
    ensures { result ≡ first_row test (view value.now) section number (view object.now) }
{
    let row = first_faulty(test, value, section, object)?;
    Some(WidePlace {
        section,
        number,
        row: Some(row),
    })
}

/// The first fault of the object with the number, if it is there.
fn first_in(
    test: Test,
    value: &Value,
    section: Section,
    number: u8,
    object: Option<&Value>,
) -> Option<WidePlace>
    requires { number < 32 }
    ensures { result ≡ first_in test (view value.now) section number
        (option_map (λ v. view v.now) object.entry) }
{
    let object = object?;
    if wide_object_fault(test, value, section, number, object) {
        return Some(WidePlace {
            section,
            number: Some(number),
            row: None,
        });
    }
    first_row(test, value, section, Some(number), object)
}

/// The first fault of the objects of a section.
fn first_numbered(test: Test, value: &Value, section: Section, numbers: &[u8]) -> Option<WidePlace>
    requires { list_all (λ n. nat_lt n 32) numbers.now ≡ true }
    ensures { result ≡ first_numbered test (view value.now) section numbers.now }
{
    for number in numbers {
        let object = object_at(value, section, *number);
        let found = first_in(test, value, section, *number, object);
        if found.is_some() {
            return found;
        }
    }
    None
}

/// The first fault of the members of `config`.
fn first_of_config(test: Test, value: &Value, config: Option<&Value>) -> Option<WidePlace>
    ensures { result ≡ first_of_config test (view value.now)
        (option_map (λ v. view v.now) config.entry) }
{
    first_row(test, value, Section::Config, None, config?)
}

/// The first fault of a section.
fn first_of_section(
    test: Test,
    numbers: &[u8],
    value: &Value,
    section: Section,
) -> Option<WidePlace>
    requires { list_all (λ n. nat_lt n 32) numbers.now ≡ true }
    ensures { result ≡ first_of_section test numbers.now (view value.now) section }
{
    if section_fault(test, value, section) {
        return Some(WidePlace {
            section,
            number: None,
            row: None,
        });
    }
    match section {
        Section::Config => first_of_config(test, value, section_at(value, section)),
        _ => first_numbered(test, value, section, numbers),
    }
}

fn first_among(test: Test, value: &Value, sections: &[Section]) -> Option<WidePlace>
    ensures { result ≡ first_place test (view value.now) sections.now }
{
    for section in sections {
        let found = first_of_section(test, &NUMBERS, value, *section);
        if found.is_some() {
            return found;
        }
    }
    None
}

/// The least place, by the bytes of its path, where the test finds a fault.
pub(crate) fn first_wide_fault(test: Test, value: &Value) -> Option<WidePlace>
    ensures least { IfSome result (λ p. IsLeast wide_place_path (IsWideFaulty test (view value.now)) p) }
    ensures none { IsNone result → (p : WidePlace) → IsWidePlace (view value.now) p → has_wide_fault test (view value.now) p ≡ false }
{
    match first_among(test, value, &SECTIONS) {
        Some(place) => Some(place),
        None => None,
    }
}
