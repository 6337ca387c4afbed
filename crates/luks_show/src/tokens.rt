//! A header's tokens: their lines, and the text of one.
ghost use Rattle.std.specs.Prelude.{◌<◌, IfOk, option_map, string_bytes};
ghost use Rattle.luks_show.specs.TokenText.{IsShownToken};

use crate::as_json::unsteering;
use crate::listing::Listing;
use crate::objects::list_tokens;
use luks_rules::{Section, object_at};
use std::alloc::{AllocError, Global};
use std::fmt;

/// The header whose tokens are shown; it prints as their lines. LUKS1 has none.
#[derive(Drop)]
pub struct TokenListing(pub Listing);

impl fmt::Display for TokenListing {
    ghost use Rattle.luks_show.specs.TokenText.{tokens_text};

    ghost output = { λ listing. tokens_text listing.0 };

    fn fmt<W: fmt::Write>(&self, f: &mut fmt::Formatter<W>) -> fmt::Result {
        match &self.0 {
            Listing::Luks1(_) => Ok(()),
            Listing::Luks2(copy) => list_tokens(&copy.meta, f),
        }
    }
}

/// The text of the token with this number, in the compact form and without a newline, if it is there. Characters
/// that steer a terminal are escaped in it.
///
/// Takes memory for the text.
pub fn token_text(
    alloc: Global,
    listing: &Listing,
    number: u8,
) -> Result<Option<String>, AllocError>
    requires { number < 32 }
    ensures { IfOk result (λ text. IsShownToken listing.now number (option_map string_bytes text)) }
{
    let Listing::Luks2(copy) = listing else {
        return Ok(None);
    };
    let Some(token) = object_at(copy.meta.value(), Section::Tokens, number) else {
        return Ok(None);
    };
    let written = token.to_string(alloc)?;
    Ok(Some(unsteering(alloc, written.as_str())?))
}
