//! The table of dmsetup by which data is read of a volume in whose LUKS2 metadata something is under way, where
//! cryptsetup can't go on with it.
#![tactic(auto)]

mod digest;
mod line;
mod table;

pub use table::UnderwayTable;
