//! Where LUKS volumes begin on a disk, by what is left of them. The disk doesn't change.
#![tactic(auto)]

mod all_signs;
mod behind;
mod find_fault;
mod finding;
mod luks1_headers;
mod metadata;
mod metadata_signs;
mod passed;
mod readable;
mod second_copies;
mod signs;
mod starts;
mod telling;
mod told;

pub use find_fault::FindFault;
pub use finding::{Finding, Step};
pub use luks1_headers::begins_luks1;
pub use passed::{Further, Passed};
pub use starts::all_starts;
