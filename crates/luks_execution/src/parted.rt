//! A fault as it is printed, in its parts.
ghost use Rattle.std.specs.Prelude.{◌≡◌, ◌==◌, ◌++◌, codes, map, IfOk};
ghost use Rattle.std.specs.List.{slice_split};
ghost use Rattle.luks_execution.specs.Parted.{HasParts, IsClosed, IsParted};

use std::alloc::{AllocError, Global};

/// The parts of a fault as it is printed.
#[derive(Drop)]
pub(crate) struct Parts<'a> {
    /// What precedes its brackets.
    pub(crate) name: &'a str,
    /// What they hold, by commas; nothing where it has none.
    pub(crate) places: Vec<&'a str>,
}

/// The parts of the fault that is printed so.
pub(crate) fn parts_of(alloc: Global, text: &str) -> Result<Parts<'_>, AllocError>
    requires { HasParts text.now }
    ensures { IfOk result (λ parts. IsParted text.now parts.name.now
        (map (λ place. place.now) parts.places.items)) }
{
    match text.split_once('(') {
        Some((name, rest)) => Ok(Parts {
            name,
            places: by_commas(alloc, inside(rest))?,
        }),
        None => Ok(Parts {
            name: text,
            places: Vec::new(alloc),
        }),
    }
}

/// What precedes the bracket that the text ends with.
fn inside(text: &str) -> &str
    requires { IsClosed text.now }
    ensures { text.now ≡ result.now ++ codes ")" }
{
    text.strip_suffix(')').unwrap_or(text)
}

/// The texts that the commas of this one part.
fn by_commas(alloc: Global, text: &str) -> Result<Vec<&str>, AllocError>
    ensures { IfOk result (λ parts. map (λ part. part.now) parts.items
        ≡ slice_split (λ c. c == 44) text.now) }
{
    text.split(',').collect(alloc)
}
