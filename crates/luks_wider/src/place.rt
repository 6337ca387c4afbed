//! Places in metadata in which something is under way.

ghost use Rattle.std.specs.Prelude.{◌≡◌, ◌<◌, ◌≤◌, ◌++◌, [], length};
ghost use Rattle.std.specs.Option.{option_map_or, ForSome};
ghost use Rattle.arrayvec.specs.ArrayString.{array_string_len};
ghost use Rattle.luks_json.specs.Number.{number_text};
ghost use Rattle.luks_rules.specs.Faults.{after_point, outer_path, row_path};
ghost use Rattle.luks_wider.specs.Places.{wide_place_path};
ghost use Rattle.luks_wider.specs.Rows.{wide_path};

use crate::rows::{WideRow, new_path};
use arrayvec::ArrayString;
use luks_json::number_text;
use luks_rules::{Outer, Row, Section, member_name, section_name};

/// A section, an object of it with a number as its name, or a member of the one or the other.
#[derive(Clone, Copy)]
pub(crate) struct WidePlace {
    pub section: Section,
    pub number: Option<u8>,
    pub row: Option<WideRow>,
}

/// The path of the place: names joined by points.
pub(crate) fn wide_place_path(place: &WidePlace) -> ArrayString<32>
    requires { ForSome place.now.number (λ n. n < 32) }
    ensures { result.bytes ≡ wide_place_path place.now }
{
    let mut path = ArrayString::new();
    path.push_str(section_name(place.section));
    push_number(&mut path, place.number);
    push_row(&mut path, place.row);
    path
}

fn push_number(path: &mut ArrayString<32>, number: Option<u8>)
    requires named { ForSome number (λ n. n < 32) }
    requires room { array_string_len path.old ≤ 8 }
    ensures bytes { path.new.bytes ≡ path.old.bytes ++ option_map_or (λ n. after_point (number_text n)) number [] }
    ensures short { array_string_len path.new ≤ 11 }
{
    if let Some(number) = number {
        path.push_str(".");
        path.push_str(number_text(number));
    }
}

fn push_row(path: &mut ArrayString<32>, row: Option<WideRow>)
    requires room { array_string_len path.old ≤ 11 }
    ensures bytes { path.new.bytes ≡ path.old.bytes ++ option_map_or (λ r. after_point (wide_path r)) row [] }
{
    if let Some(row) = row {
        path.push_str(".");
        push_path(path, row);
    }
}

fn push_path(path: &mut ArrayString<32>, row: WideRow)
    requires room { array_string_len path.old ≤ 12 }
    ensures bytes { path.new.bytes ≡ path.old.bytes ++ wide_path row }
{
    match row {
        WideRow::Known(row) => push_known(path, row),
        WideRow::New(row) => path.push_str(new_path(row)),
    }
}

fn push_known(path: &mut ArrayString<32>, row: Row)
    requires room { array_string_len path.old ≤ 12 }
    ensures bytes { path.new.bytes ≡ path.old.bytes ++ row_path row }
{
    path.push_str(outer_path(row.outer));
    path.push_str(member_name(row.name));
}

fn outer_path(outer: Outer) -> &'static str
    ensures path { result.now ≡ outer_path outer }
    ensures short { length result.now ≤ 5 }
{
    match outer {
        Outer::Top => "",
        Outer::Af => "af.",
        Outer::Area => "area.",
        Outer::Kdf => "kdf.",
    }
}
