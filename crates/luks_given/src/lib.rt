//! A volume of which ranges are given, as a device: the caller who read them may not read more. Its writes
//! are planned, for the caller to do them.
#![tactic(auto)]

mod given;
mod given_parts;
mod laws;
mod parts;
mod planned_writes;

pub use given::Given;
pub use given_parts::GivenParts;
pub use laws::{askings_end, askings_of_two_end, plan_keeps_the_others, plan_leaves_the_rest};
pub use parts::{Part, are_parts};
pub use planned_writes::{PlannedCall, PlannedWrites};
