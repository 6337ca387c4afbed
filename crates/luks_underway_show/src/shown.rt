//! How arrays of texts are shown.

ghost use Rattle.std.specs.Prelude.{option_map, Some};
ghost use Rattle.std.specs.Fmt.{WritesOnOk};
ghost use Rattle.std.specs.List.{flat_map};
ghost use Rattle.serde_json.specs.View.{items_view, view};
ghost use Rattle.luks_underway_show.specs.SegmentLines.{flags_shown, items_as_flags};
ghost use Rattle.luks_underway_show.specs.Shown.{item_behind, item_shown, items_shown, texts_shown};

use luks_show::Escaped;
use serde_json::Value;
use std::fmt;

/// The texts of an array joined by commas; a hyphen where there is none.
#[derive(Clone, Copy)]
pub(crate) struct Texts<'a>(pub(crate) Option<&'a Value>);

impl fmt::Display for Texts<'_> {
    ghost output = { λ texts. Some (texts_shown (option_map (λ v. view v.now) texts.0)) };

    fn fmt<W: fmt::Write>(&self, f: &mut fmt::Formatter<W>) -> fmt::Result {
        match self.0 {
            Some(Value::Array(items)) => f.write(Items(items.as_slice())),
            _ => f.write_str("-"),
        }
    }
}

/// The flags of a segment, all of them, behind its line; nothing where there is none.
#[derive(Clone, Copy)]
pub(crate) struct FlagTexts<'a>(pub(crate) Option<&'a Value>);

impl fmt::Display for FlagTexts<'_> {
    ghost output = { λ flags. Some (flags_shown (option_map (λ v. view v.now) flags.0)) };

    fn fmt<W: fmt::Write>(&self, f: &mut fmt::Formatter<W>) -> fmt::Result {
        match self.0 {
            Some(Value::Array(items)) => list_flags(items.as_slice(), f),
            _ => Ok(()),
        }
    }
}

fn list_flags<W: fmt::Write>(items: &[Value], f: &mut fmt::Formatter<W>) -> fmt::Result
    ensures { WritesOnOk W.write_str_gives f.old result (items_as_flags (items_view items.now)) f.new }
{
    if items.is_empty() {
        return Ok(());
    }
    let flags = Items(items);
    write!(f, " flags {flags}")
}

/// Texts joined by commas; a hyphen where there is none.
#[derive(Clone, Copy)]
struct Items<'a>(&'a [Value]);

impl fmt::Display for Items<'_> {
    ghost output = { λ items. Some (items_shown (items_view items.0.now)) };

    fn fmt<W: fmt::Write>(&self, f: &mut fmt::Formatter<W>) -> fmt::Result {
        let [first, later @ ..] = self.0 else {
            return f.write_str("-");
        };
        let first = Item(first);
        let later = Later(later);
        write!(f, "{first}{later}")
    }
}

/// The texts behind the first.
#[derive(Clone, Copy)]
struct Later<'a>(&'a [Value]);

impl fmt::Display for Later<'_> {
    ghost output = { λ later. Some (flat_map (λ v. item_behind (view v)) later.0.now) };

    fn fmt<W: fmt::Write>(&self, f: &mut fmt::Formatter<W>) -> fmt::Result {
        for value in self.0.iter() {
            let item = Item(value);
            write!(f, ",{item}")?;
        }
        Ok(())
    }
}

/// One text.
#[derive(Clone, Copy)]
struct Item<'a>(&'a Value);

impl fmt::Display for Item<'_> {
    ghost output = { λ item. Some (item_shown (view item.0.now)) };

    fn fmt<W: fmt::Write>(&self, f: &mut fmt::Formatter<W>) -> fmt::Result {
        match self.0.as_str() {
            Some(text) => f.write(Escaped(text.as_bytes())),
            None => Ok(()),
        }
    }
}
