//! The JSON object of a copy in which something is under way, as a text.

ghost use Rattle.std.specs.Prelude.{IfOk, string_bytes};
ghost use Rattle.luks_wider.specs.Underways.{content};
ghost use Rattle.luks_underway_show.specs.UnderwayJson.{IsUnderwayJson, IsWrittenUnderway};

use crate::as_json::object::underway_value;
use crate::listing::UnderwayListing;
use luks_show::unsteering;
use std::alloc::{AllocError, Global};

/// The JSON object of the copy that is shown, in the compact form and without a newline. Characters that steer a terminal are
/// escaped in it.
///
/// Takes memory for the object, which the metadata is moved into, and for its text; the object is gone before
/// the text is escaped.
pub fn underway_json(alloc: Global, listing: UnderwayListing) -> Result<String, AllocError>
    ensures { IfOk result (λ text. IsUnderwayJson listing.header listing.copies (content listing.meta) (string_bytes text)) }
{
    let written = written_text(alloc, listing)?;
    unsteering(alloc, written.as_str())
}

/// The object's text, with no character escaped that needn't be.
fn written_text(alloc: Global, listing: UnderwayListing) -> Result<String, AllocError>
    ensures { IfOk result (λ text. IsWrittenUnderway listing.header listing.copies (content listing.meta) (string_bytes text)) }
{
    let value = underway_value(alloc, listing)?;
    value.to_string(alloc)
}
