//! The header that is shown.
ghost use Rattle.luks_show.specs.Listed.{full_text, listing_text};

use crate::luks1::{list_luks1, list_luks1_fully};
use crate::luks2::{list_luks2, list_luks2_fully};
use luks_reading::{ChosenCopy, Luks1};
use std::fmt;

/// The header that is shown; it prints as its lines.
#[derive(Drop)]
pub enum Listing {
    /// Of LUKS1.
    Luks1(Luks1),
    /// The chosen copy of LUKS2.
    Luks2(ChosenCopy),
}

impl fmt::Display for Listing {
    ghost output = { λ listing. listing_text listing };

    fn fmt<W: fmt::Write>(&self, f: &mut fmt::Formatter<W>) -> fmt::Result {
        match self {
            Listing::Luks1(header) => list_luks1(header, f),
            Listing::Luks2(copy) => list_luks2(copy, f),
        }
    }
}

/// The header that is shown with all that its lines may tell: those of a `Listing`, and further ones. Of
/// LUKS1 they tell places in bytes, and the salts of enabled keyslots; of LUKS2 the subsystem, the costs and
/// salts of keyslots, and how segments are encrypted.
#[derive(Drop)]
pub struct FullListing(pub Listing);

impl fmt::Display for FullListing {
    ghost output = { λ full. full_text full.0 };

    fn fmt<W: fmt::Write>(&self, f: &mut fmt::Formatter<W>) -> fmt::Result {
        match &self.0 {
            Listing::Luks1(header) => list_luks1_fully(header, f),
            Listing::Luks2(copy) => list_luks2_fully(copy, f),
        }
    }
}
