//! The map that `show --map` prints: the areas of a header that was read, in the order of their
//! places.
#![tactic(auto)]

mod drawing;
mod luks1;
mod luks2;
mod map;
mod part;
mod row;
mod underway;

pub use map::HeaderMap;
pub use part::Part;
pub use row::Row;
