//! Areas of a volume, and text fields.
ghost use Rattle.std.specs.Prelude.{◌≡◌, ◌↔◌, IsTrue};
ghost use Rattle.luks_area.specs.Area.{IsBefore, name_kind, name_number};
ghost use Rattle.luks_area.specs.Names.{HasArea};
ghost use Rattle.luks_area.specs.declared.area.Area.{Area as TheArea};
ghost use Rattle.luks_area.specs.declared.area.AreaName.{AreaName as TheName};

use luks_area::{Area, AreaName, Areas, Entry, MOST_AREAS, text_field};
use luks_vector_lines::{Malformed, Words, demand, number_of};
use std::alloc::Global;

/// `fit TOTAL AREA ..`: whether the areas fit into a volume of so many bytes, each given as
/// `NAME:START:LEN` and in the order of their names.
pub fn fit(alloc: Global, words: &mut Words<'_>) -> Result<String, Malformed> {
    let total = words.number()?;
    let areas = areas_of(words.take_left())?;
    match luks_area::fit(&areas, total) {
        Ok(()) => Ok(format!(in alloc; "fits {}", areas.len())?),
        Err(fault) => Ok(format!(in alloc; "{fault}")?),
    }
}

fn areas_of(words: &str) -> Result<Areas, Malformed> {
    let mut areas = Areas::new();
    if !words.is_empty() {
        for word in words.split(' ') {
            add(&mut areas, word)?;
        }
    }
    Ok(areas)
}

fn add(areas: &mut Areas, word: &str) -> Result<(), Malformed> {
    let (name, range) = word.split_once(':').ok_or(Malformed::Name)?;
    let (start, len) = range.split_once(':').ok_or(Malformed::Number)?;
    let name = name_of(name)?;
    let start = number_of(start)?;
    let len = number_of(len)?;
    demand(areas.len() < MOST_AREAS)?;
    demand(stands_last(areas.as_slice(), name))?;
    areas.push(name, Area { start, len });
    Ok(())
}

/// `head1`, `head2`, or `slot` or `segment` and a number.
fn name_of(word: &str) -> Result<AreaName, Malformed> {
    match word {
        "head1" => Ok(AreaName::Head1),
        "head2" => Ok(AreaName::Head2),
        _ => numbered_name(word),
    }
}

fn numbered_name(word: &str) -> Result<AreaName, Malformed> {
    if let Some(number) = word.strip_prefix("slot") {
        return Ok(AreaName::Slot(byte_of(number)?));
    }
    match word.strip_prefix("segment") {
        Some(number) => Ok(AreaName::Segment(byte_of(number)?)),
        None => Err(Malformed::Name),
    }
}

fn byte_of(word: &str) -> Result<u8, Malformed> {
    u8::try_from(number_of(word)?).ok().ok_or(Malformed::Number)
}

fn kind(name: AreaName) -> u8
    ensures { result ≡ name_kind name }
{
    match name {
        AreaName::Head1 => 0,
        AreaName::Head2 => 1,
        AreaName::Slot(_) => 2,
        AreaName::Segment(_) => 3,
    }
}

fn number(name: AreaName) -> u8
    ensures { result ≡ name_number name }
{
    match name {
        AreaName::Head1 | AreaName::Head2 => 0,
        AreaName::Slot(n) | AreaName::Segment(n) => n,
    }
}

fn is_before(m: AreaName, n: AreaName) -> bool
    ensures { IsTrue result ↔ IsBefore m n }
{
    kind(m) < kind(n) || kind(m) == kind(n) && number(m) < number(n)
}

fn stands_last(entries: &[Entry], name: AreaName) -> bool
    ensures { IsTrue result → (n : TheName) (a : TheArea) → HasArea entries.now n a → IsBefore n name }
{
    match entries {
        [] => true,
        [first, rest @ ..] => is_before(first.name, name) && stands_last(rest, name),
    }
}

/// `field BYTES`: the text of a header's field, or `none`.
pub fn field(alloc: Global, words: &mut Words<'_>) -> Result<String, Malformed> {
    let bytes = words.bytes(alloc)?;
    match text_field(&bytes) {
        Some(text) => Ok(format!(in alloc; "text {text}")?),
        None => Ok(String::from_str(alloc, "none")?),
    }
}
