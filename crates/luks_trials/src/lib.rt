//! A passphrase tried on one keyslot of either version, or on those of metadata: each derivation is counted before it
//! is made, and no more are made than may be. Nothing is written.
#![tactic(auto)]

mod alike;
mod anew;
mod bits;
mod fault;
mod metadata;
mod tally;
mod trial;
mod trial2;

pub use anew::first_anew;
pub use bits::differing_bits;
pub use fault::SearchFault;
pub use metadata::meta_of;
pub use tally::{Progress, Spent, Tally, Untold};
pub use trial::{digest_of_plan, try_plan};
pub use trial2::{Trying, distance, opens};
