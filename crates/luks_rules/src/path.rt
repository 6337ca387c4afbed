//! The text of a place's path.

ghost use Rattle.std.specs.Prelude.{◌≡◌, ◌<◌, ◌≤◌, ◌+◌, ◌++◌, [], ◌∷◌, length, Some, None};
ghost use Rattle.std.specs.Option.{option_map_or, ForSome};
ghost use Rattle.arrayvec.specs.ArrayString.{array_string_len};
ghost use Rattle.luks_json.specs.Number.{number_text};
ghost use Rattle.luks_rules.specs.Faults.{after_point, outer_path, place_path, row_path};

use crate::place::Place;
use crate::table::{Outer, Row, member_name, section_name};
use arrayvec::ArrayString;
use luks_json::number_text;

fn outer_path(outer: Outer) -> &'static str
    ensures path { result.now ≡ outer_path outer }
    ensures short { length result.now ≤ 5 }
{
    match outer {
        Outer::Top => "",
        Outer::Af => "af.",
        Outer::Area => "area.",
        Outer::Kdf => "kdf.",
    }
}

fn push_number(path: &mut ArrayString<32>, number: Option<u8>)
    requires named { ForSome number (λ n. n < 32) }
    requires room { array_string_len path.old ≤ 8 }
    ensures bytes { path.new.bytes ≡ path.old.bytes ++ option_map_or (λ n. after_point (number_text n)) number [] }
    ensures short { array_string_len path.new ≤ 11 }
{
    if let Some(number) = number {
        path.push_str(".");
        path.push_str(number_text(number));
    }
}

fn push_row(path: &mut ArrayString<32>, row: Option<Row>)
    requires room { array_string_len path.old ≤ 11 }
    ensures bytes { path.new.bytes ≡ path.old.bytes ++ option_map_or (λ r. after_point (row_path r)) row [] }
{
    if let Some(row) = row {
        path.push_str(".");
        path.push_str(outer_path(row.outer));
        path.push_str(member_name(row.name));
    }
}

/// The path of the place: names joined by points.
pub(crate) fn place_path(place: &Place) -> ArrayString<32>
    requires { ForSome place.now.number (λ n. n < 32) }
    ensures { result.bytes ≡ place_path place.now }
{
    let mut path = ArrayString::new();
    path.push_str(section_name(place.section));
    push_number(&mut path, place.number);
    push_row(&mut path, place.row);
    path
}
