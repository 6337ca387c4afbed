//! The JSON object of a header, as a text.
ghost use Rattle.std.specs.Prelude.{string_bytes, IfOk};
ghost use Rattle.serde_json.specs.View.{view};
ghost use Rattle.luks_show.specs.JsonText.{IsJsonText, IsListingValue, IsWrittenText};

use crate::Listing;
use crate::as_json::luks1::luks1_value;
use crate::as_json::luks2::luks2_value;
use crate::as_json::steering::unsteering;
use serde_json::Value;
use std::alloc::{AllocError, Global};

/// The JSON object of the header, in the compact form and without a newline. Characters that steer a terminal are
/// escaped in it.
///
/// Takes memory for the object, which the metadata is moved into, and for its text; the object is gone before
/// the text is escaped.
pub fn json_text(alloc: Global, listing: Listing) -> Result<String, AllocError>
    ensures { IfOk result (λ text. IsJsonText listing (string_bytes text)) }
{
    let written = written_text(alloc, listing)?;
    unsteering(alloc, written.as_str())
}

/// The object's text, with no character escaped that needn't be.
fn written_text(alloc: Global, listing: Listing) -> Result<String, AllocError>
    ensures { IfOk result (λ text. IsWrittenText listing (string_bytes text)) }
{
    let value = listing_value(alloc, listing)?;
    value.to_string(alloc)
}

fn listing_value(alloc: Global, listing: Listing) -> Result<Value, AllocError>
    ensures { IfOk result (λ v. IsListingValue listing (view v)) }
{
    match listing {
        Listing::Luks1(header) => luks1_value(alloc, &header),
        Listing::Luks2(copy) => luks2_value(alloc, copy),
    }
}
