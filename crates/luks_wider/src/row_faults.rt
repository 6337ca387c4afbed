//! What is wrong at a row of an object.

ghost use Rattle.std.specs.Prelude.{◌≡◌, ◌&&◌, not, is_some};
ghost use Rattle.std.specs.List.{list_any};
ghost use Rattle.std.specs.Str.{bytes_eq};
ghost use Rattle.serde_json.specs.View.{view};
ghost use Rattle.serde_json.specs.Data.{Data};
ghost use Rattle.luks_rules.specs.declared.table.Section.{Section};
ghost use Rattle.luks_rules.specs.Faults.{member_at};
ghost use Rattle.luks_rules.specs.Reading.{decimal_in, number_in, text_of};
ghost use Rattle.luks_rules.specs.Sizes.{inside_at};
ghost use Rattle.luks_underway.specs.Segments.{are_flags, flags_at, sector_size_at};
ghost use Rattle.luks_wider.specs.Places.{wide_row_fault};
ghost use Rattle.luks_wider.specs.Rows.{area_type, area_types, are_requirements_of, breaks_new, checksum_types, has_area, has_judged_area, is_foreign, is_known_segment, is_none_of, is_of, is_opal_crypt, shift_types};

use crate::rows::{NewRow, WideRow};
use luks_json::{decimal_in, number_in, text_in};
use luks_rules::{
    Member, Outer, Section, Test, member_at, outer_at, row_fault, rows_of, sector_size_in, type_at,
};
use luks_underway::{
    are_flags, direction_at, has_priority, has_type, inside_at, mode_at, positive_inside, shift_at,
    unit_at,
};
use serde_json::Value;

/// The row of the object has a fault.
pub(crate) fn wide_row_fault(
    test: Test,
    section: Section,
    value: &Value,
    object: &Value,
    row: &WideRow,
) -> bool
    ensures { result ≡ wide_row_fault test section (view value.now) (view object.now) row.now }
{
    match row {
        WideRow::Known(known) => row_fault(test, rows_of(section), value, object, known),
        WideRow::New(new) => new_fault(test, *new, object),
    }
}

fn new_fault(test: Test, row: NewRow, object: &Value) -> bool
    ensures { (section : Section) (j : Data) → result ≡ wide_row_fault test section j (view object.now) (WideRow.New row) }
{
    match test {
        Test::Shape => breaks_new(row, object),
        Test::Kind => is_foreign(row, object),
        Test::NoSuchName | Test::Assigned => false,
    }
}

/// The member of a new row breaks its rule.
fn breaks_new(row: NewRow, object: &Value) -> bool
    ensures { result ≡ breaks_new row (view object.now) }
{
    match row {
        NewRow::Area => !has_area(object),
        NewRow::AreaHash => lacks_hash(object),
        NewRow::AreaOffset => lacks_area_number(object, Member::Offset),
        NewRow::AreaSector => has_area(object) && is_checksum(object) && unit_at(object).is_none(),
        NewRow::AreaShift => has_area(object) && is_shift(object) && shift_at(object).is_none(),
        NewRow::AreaSize => lacks_area_number(object, Member::Size),
        NewRow::AreaKind => has_area(object) && type_at(object, Outer::Area).is_none(),
        NewRow::Direction => direction_at(object).is_none(),
        NewRow::Encryption => is_opal_crypt(object) && lacks_text(object, Member::Encryption),
        NewRow::Flags => is_known_segment(object) && !has_flags(object),
        NewRow::IvTweak => is_opal_crypt(object) && lacks_number(object, Member::IvTweak),
        NewRow::KeySize => lacks_key_size(object),
        NewRow::Mode => mode_at(object).is_none(),
        NewRow::Offset => lacks_number(object, Member::Offset),
        NewRow::OpalKey => lacks_opal(object, "opal_key_size", 1, 128),
        NewRow::OpalNumber => lacks_opal(object, "opal_segment_number", 0, 4294967295),
        NewRow::OpalSize => positive_inside(object, "opal_segment_size").is_none(),
        NewRow::Priority => !has_priority(object),
        NewRow::Requirements => !are_requirements_of(object),
        NewRow::Sector => is_opal_crypt(object) && lacks_sector_size(object),
        NewRow::Size => positive_inside(object, "size").is_none(),
    }
}

/// The type of an area isn't listed.
fn is_foreign(row: NewRow, object: &Value) -> bool
    ensures { result ≡ is_foreign row (view object.now) }
{
    match row {
        NewRow::AreaKind => has_area(object) && is_foreign_area(object),
        _ => false,
    }
}

fn has_area(object: &Value) -> bool
    ensures { result ≡ has_area (view object.now) }
{
    match outer_at(object, Outer::Area) {
        Some(area) => area.is_object(),
        None => false,
    }
}

fn is_foreign_area(object: &Value) -> bool
    ensures { result ≡ is_none_of area_types (area_type (view object.now)) }
{
    match type_at(object, Outer::Area) {
        Some(kind) => !is_area_type(kind),
        None => false,
    }
}

fn is_area_type(kind: &str) -> bool
    ensures { result ≡ list_any (λ l. bytes_eq kind.now l) area_types }
{
    kind == "none"
        || kind == "journal"
        || kind == "checksum"
        || kind == "datashift"
        || kind == "datashift-journal"
        || kind == "datashift-checksum"
}

fn is_checksum(object: &Value) -> bool
    ensures { result ≡ is_of checksum_types (area_type (view object.now)) }
{
    match type_at(object, Outer::Area) {
        Some(kind) => kind == "checksum" || kind == "datashift-checksum",
        None => false,
    }
}

fn is_shift(object: &Value) -> bool
    ensures { result ≡ is_of shift_types (area_type (view object.now)) }
{
    match type_at(object, Outer::Area) {
        Some(kind) => {
            kind == "datashift" || kind == "datashift-journal" || kind == "datashift-checksum"
        }
        None => false,
    }
}

fn lacks_hash(object: &Value) -> bool
    ensures { result ≡ breaks_new NewRow.AreaHash (view object.now) }
{
    has_area(object)
        && is_checksum(object)
        && text_in(member_at(object, Outer::Area, Member::Hash)).is_none()
}

fn lacks_area_number(object: &Value, name: Member) -> bool
    ensures { result ≡ (has_judged_area (view object.now)
        && not (is_some (decimal_in (member_at (view object.now) Outer.Area name)))) }
{
    has_area(object)
        && !is_foreign_area(object)
        && decimal_in(member_at(object, Outer::Area, name)).is_none()
}

fn lacks_key_size(object: &Value) -> bool
    ensures { result ≡ breaks_new NewRow.KeySize (view object.now) }
{
    number_in(member_at(object, Outer::Top, Member::KeySize), 1, 1).is_none()
}

/// The segment isn't of an unlisted type.
fn is_known_segment(object: &Value) -> bool
    ensures { result ≡ is_known_segment (view object.now) }
{
    match type_at(object, Outer::Top) {
        Some(kind) => {
            kind == "crypt" || kind == "linear" || kind == "hw-opal" || kind == "hw-opal-crypt"
        }
        None => true,
    }
}

fn is_opal_crypt(object: &Value) -> bool
    ensures { result ≡ is_opal_crypt (view object.now) }
{
    has_type(object, Outer::Top, "hw-opal-crypt")
}

fn has_flags(object: &Value) -> bool
    ensures { result ≡ are_flags (flags_at (view object.now)) }
{
    are_flags(inside_at(object, Outer::Top, "flags"))
}

fn lacks_text(object: &Value, name: Member) -> bool
    ensures { result ≡ not (is_some (text_of (member_at (view object.now) Outer.Top name))) }
{
    text_in(member_at(object, Outer::Top, name)).is_none()
}

fn lacks_number(object: &Value, name: Member) -> bool
    ensures { result ≡ not (is_some (decimal_in (member_at (view object.now) Outer.Top name))) }
{
    decimal_in(member_at(object, Outer::Top, name)).is_none()
}

fn lacks_opal(object: &Value, name: &str, least: u64, most: u64) -> bool
    ensures { result ≡ not (is_some (number_in least most (inside_at Outer.Top name.now (view object.now)))) }
{
    number_in(inside_at(object, Outer::Top, name), least, most).is_none()
}

fn lacks_sector_size(object: &Value) -> bool
    ensures { result ≡ not (is_some (sector_size_at (view object.now))) }
{
    sector_size_in(member_at(object, Outer::Top, Member::SectorSize)).is_none()
}

/// What `config.requirements` has to be, of `config`.
fn are_requirements_of(config: &Value) -> bool
    ensures { result ≡ are_requirements_of (view config.now) }
{
    match config.get("requirements") {
        Some(requirements) => {
            requirements.is_object() && are_flags(requirements.get("mandatory"))
        }
        None => true,
    }
}
