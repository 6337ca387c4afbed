//! The commands of the program `luks` that make a separate header, `convert` and `rebuild`, over
//! values: what each answers.
#![tactic(auto)]

mod bound2;
pub mod convert;
mod header_work;
mod of_either;
mod of_fields;
mod of_found;
mod of_metadata;
mod progress;
pub mod rebuild;
mod searching;
mod searching1;
mod searching2;
mod segment;
mod trying;

pub use of_metadata::copies_asked;
pub use progress::{DerivationProgress, Progress, SearchProgress, Tally, Untold};
