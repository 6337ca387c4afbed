//! What `show` answers of a volume in whose metadata something is under way.
ghost use Rattle.std.specs.Prelude.{Some};
ghost use Rattle.luks_commands.specs.UnderwayTexts.{shown_text};

use luks_underway_show::{UnderwayListing, UnderwayTokens};
use luks_underway_tables::UnderwayTable;
use std::fmt;

/// What is shown of a volume in whose metadata something is under way; it prints as its lines.
#[derive(Drop)]
pub enum UnderwayShown {
    /// The header, line by line.
    Listed(UnderwayListing),
    /// The header's tokens, line by line.
    Tokens(UnderwayTokens),
    /// The table by which its data is read.
    Tables(UnderwayTable),
}

impl fmt::Display for UnderwayShown {
    ghost output = { λ shown. Some (shown_text shown) };

    fn fmt<W: fmt::Write>(&self, f: &mut fmt::Formatter<W>) -> fmt::Result {
        match self {
            UnderwayShown::Listed(listing) => write!(f, "{listing}"),
            UnderwayShown::Tokens(tokens) => write!(f, "{tokens}"),
            UnderwayShown::Tables(table) => write!(f, "{table}"),
        }
    }
}
