//! The map of a header's areas.
ghost use Rattle.std.specs.Prelude.{Some, IsPermutation};
ghost use Rattle.luks_map.specs.Map.{IsHeaderRows, IsInOrder, map_text};

use crate::drawing::draw_rows;
use crate::luks1::luks1_rows;
use crate::luks2::luks2_rows;
use crate::row::Row;
use crate::underway::underway_rows;
use arrayvec::ArrayVec;
use luks_show::Listing;
use luks_wider::Underway;
use std::fmt;

/// The most rows that a map has without its gaps: the areas, and two ends.
const MOST_ROWS: usize = 68;

/// The rows of a map.
pub(crate) type Rows = ArrayVec<Row, MOST_ROWS>;

/// The map of a header's areas, in the order of their places; it prints as its lines.
#[derive(Drop)]
pub struct HeaderMap {
    rows: Rows,
    total: u64,
}

impl HeaderMap {
    ghost use Rattle.luks_map.specs.Map.{IsMap, IsUnderwayMap};
    ghost use Rattle.luks_wider.specs.Underways.{content};

    /// The map of a volume of `total` bytes with this header.
    pub fn of(listing: &Listing, total: u64) -> HeaderMap
        ensures { IsMap listing.now total result }
    {
        let mut rows = rows_of(listing, total);
        put_in_order(rows.as_mut_slice());
        HeaderMap { rows, total }
    }

    /// The map of a volume of `total` bytes in whose metadata something is under way, with a header of copies of so
    /// many bytes.
    pub fn of_underway(header_size: u64, meta: &Underway, total: u64) -> HeaderMap
        ensures { IsUnderwayMap header_size (content meta.now) total result }
    {
        let mut parts = underway_rows(header_size, meta, total);
        put_in_order(parts.as_mut_slice());
        HeaderMap { rows: parts, total }
    }
}

fn rows_of(listing: &Listing, total: u64) -> Rows
    ensures { IsHeaderRows listing.now total result.items }
{
    match listing {
        Listing::Luks1(header) => luks1_rows(header, total),
        Listing::Luks2(copy) => luks2_rows(copy, total),
    }
}

fn put_in_order(rows: &mut [Row])
    ensures same { IsPermutation rows.old rows.new }
    ensures ordered { IsInOrder rows.new }
{
    rows.sort_unstable_by_key(|row| (row.place(), row.rank()));
}

impl fmt::Display for HeaderMap {
    ghost output = { λ map. Some (map_text map) };

    fn fmt<W: fmt::Write>(&self, f: &mut fmt::Formatter<W>) -> fmt::Result {
        draw_rows(self.rows.as_slice(), self.total, f)
    }
}
