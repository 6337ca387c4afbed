//! What is wrong at a row, an object or a section of the metadata.

ghost use Rattle.std.specs.Prelude.{◌≡◌, ◌<◌, option_map};
ghost use Rattle.serde_json.specs.View.{view};
ghost use Rattle.luks_rules.specs.Faults.{covers, encloses, names_absent_object, repeats_name, has_unlisted_type, has_no_digest, is_section, breaks_rule, is_hidden_by, is_judged, object_fault, row_fault, section_fault, suits};

use crate::members::{outer_at, section_at, type_at, value_at};
use crate::place::Test;
use crate::reading::{is_unlisted, meets};
use crate::table::{Outer, Row, Rule, Section, When};
use luks_json::{all_there, are_named, has_repeat, is_named_once, number_text};
use serde_json::Value;

fn suits(when: When, kind: Option<&str>) -> bool
    ensures { result ≡ suits when (option_map (λ t. t.now) kind.entry) }
{
    match kind {
        Some(kind) => match when {
            When::Always => true,
            When::Pbkdf2 => kind == "pbkdf2",
            When::Argon2 => kind == "argon2i" || kind == "argon2id",
            When::Crypt => kind == "crypt",
        },
        None => matches!(when, When::Always),
    }
}

fn is_judged(object: &Value, row: &Row) -> bool
    ensures { result ≡ is_judged (view object.now) row.now }
{
    match outer_at(object, row.outer) {
        Some(home) => home.is_object() && suits(row.when, type_at(object, row.outer)),
        None => false,
    }
}

fn covers(around: Outer, outer: Outer) -> bool
    ensures { result ≡ covers around outer }
{
    match (around, outer) {
        (Outer::Top, _) => true,
        (Outer::Af, Outer::Af) => true,
        (Outer::Area, Outer::Area) => true,
        (Outer::Kdf, Outer::Kdf) => true,
        _ => false,
    }
}

fn encloses(around: Outer, outer: Outer) -> bool
    ensures { result ≡ encloses around outer }
{
    match (around, outer) {
        (Outer::Top, Outer::Top) => false,
        (Outer::Top, _) => true,
        _ => false,
    }
}

fn is_covered(rows: &[Row], object: &Value, row: &Row) -> bool
    ensures { result ≡ is_hidden_by covers rows.now (view object.now) row.now }
{
    rows.iter().any(|other| covers(other.outer, row.outer)
        && is_unlisted(other.rule, value_at(object, other)))
}

fn is_enclosed(rows: &[Row], object: &Value, row: &Row) -> bool
    ensures { result ≡ is_hidden_by encloses rows.now (view object.now) row.now }
{
    rows.iter().any(|other| encloses(other.outer, row.outer)
        && is_unlisted(other.rule, value_at(object, other)))
}

fn breaks_rule(rows: &[Row], object: &Value, row: &Row) -> bool
    ensures { result ≡ breaks_rule rows.now (view object.now) row.now }
{
    is_judged(object, row)
        && !meets(row.rule, value_at(object, row))
        && !is_covered(rows, object, row)
}

fn has_unlisted_type(rows: &[Row], object: &Value, row: &Row) -> bool
    ensures { result ≡ has_unlisted_type rows.now (view object.now) row.now }
{
    is_unlisted(row.rule, value_at(object, row)) && !is_enclosed(rows, object, row)
}

fn names_absent_object(value: &Value, rule: Rule, list: Option<&Value>) -> bool
    ensures { result ≡ names_absent_object (view value.now) rule (option_map (λ v. view v.now) list.entry) }
{
    match (rule, list) {
        (Rule::Names(section), Some(Value::Array(items))) => {
            !all_there(items, section_at(value, section))
        }
        _ => false,
    }
}

fn repeats_name(rule: Rule, list: Option<&Value>) -> bool
    ensures { result ≡ repeats_name rule (option_map (λ v. view v.now) list.entry) }
{
    match (rule, list) {
        (Rule::Names(_), Some(Value::Array(items))) => has_repeat(items.as_slice()),
        _ => false,
    }
}

/// The row of the object has a fault.
pub fn row_fault(test: Test, rows: &[Row], value: &Value, object: &Value, row: &Row) -> bool
    ensures { result ≡ row_fault test rows.now (view value.now) (view object.now) row.now }
{
    match test {
        Test::Shape => breaks_rule(rows, object, row),
        Test::Kind => has_unlisted_type(rows, object, row),
        Test::NoSuchName => names_absent_object(value, row.rule, value_at(object, row)),
        Test::Assigned => repeats_name(row.rule, value_at(object, row)),
    }
}

fn has_no_digest(value: &Value, section: Section, number: u8, object: &Value) -> bool
    requires { number < 32 }
    ensures { result ≡ has_no_digest (view value.now) section number (view object.now) }
{
    let name = number_text(number);
    let digests = section_at(value, Section::Digests);
    match section {
        Section::Keyslots => !is_named_once(digests, "keyslots", name),
        Section::Segments => {
            suits(When::Crypt, type_at(object, Outer::Top))
                && !is_named_once(digests, "segments", name)
        }
        _ => false,
    }
}

/// The object has a fault of its own.
pub(crate) fn object_fault(
    test: Test,
    value: &Value,
    section: Section,
    number: u8,
    object: &Value,
) -> bool
    requires { number < 32 }
    ensures { result ≡ object_fault test (view value.now) section number (view object.now) }
{
    match test {
        Test::Shape => !object.is_object(),
        Test::Assigned => has_no_digest(value, section, number, object),
        _ => false,
    }
}

fn is_section(section: Section, value: Option<&Value>) -> bool
    ensures { result ≡ is_section section (option_map (λ v. view v.now) value.entry) }
{
    match (section, value) {
        (Section::Config, Some(Value::Object(_))) => true,
        (_, Some(Value::Object(members))) => are_named(members),
        _ => false,
    }
}

/// The section has a fault of its own.
pub fn section_fault(test: Test, value: &Value, section: Section) -> bool
    ensures { result ≡ section_fault test (view value.now) section }
{
    match test {
        Test::Shape => !is_section(section, section_at(value, section)),
        _ => false,
    }
}
