//! Where the members of the metadata stand.

ghost use Rattle.std.specs.Prelude.{◌≡◌, ◌<◌, option_map};
ghost use Rattle.serde_json.specs.View.{view};
ghost use Rattle.luks_rules.specs.Faults.{member_at, object_at, outer_at, section_at, type_at, value_at};

use crate::table::{Member, Outer, Row, Section, member_name, section_name};
use luks_json::{number_text, text_in};
use serde_json::Value;

/// A section of the metadata.
pub fn section_at(value: &Value, section: Section) -> Option<&Value>
    ensures { option_map (λ v. view v.now) result ≡ section_at (view value.now) section }
{
    value.get(section_name(section))
}

/// The object itself, or the one inside it.
pub fn outer_at(object: &Value, outer: Outer) -> Option<&Value>
    ensures { option_map (λ v. view v.now) result ≡ outer_at (view object.now) outer }
{
    match outer {
        Outer::Top => Some(object),
        Outer::Af => object.get("af"),
        Outer::Area => object.get("area"),
        Outer::Kdf => object.get("kdf"),
    }
}

/// The member of the object, or of the one inside it.
pub fn member_at(object: &Value, outer: Outer, name: Member) -> Option<&Value>
    ensures { option_map (λ v. view v.now) result ≡ member_at (view object.now) outer name }
{
    outer_at(object, outer)?.get(member_name(name))
}

/// The value of a row's member.
pub(crate) fn value_at<'a>(object: &'a Value, row: &Row) -> Option<&'a Value>
    ensures { option_map (λ v. view v.now) result ≡ value_at (view object.now) row.now }
{
    member_at(object, row.outer, row.name)
}

/// The type of the object itself, or of the one inside it.
pub fn type_at(object: &Value, outer: Outer) -> Option<&str>
    ensures { option_map (λ t. t.now) result ≡ type_at (view object.now) outer }
{
    text_in(outer_at(object, outer)?.get("type"))
}

/// The object of a section with the number as its name.
pub fn object_at(value: &Value, section: Section, number: u8) -> Option<&Value>
    requires { number < 32 }
    ensures { option_map (λ v. view v.now) result ≡ object_at (view value.now) section number }
{
    section_at(value, section)?.get(number_text(number))
}
