#![tactic(auto)]
//! The rules that metadata of LUKS2 has to meet in which something is under way, and the first that it breaks.

mod content;
mod fault;
mod judging;
mod laws;
mod naming;
mod object_faults;
mod objects;
mod place;
mod reencryption;
mod row_faults;
mod rows;
mod underway;
mod walk;
mod wider;

pub use content::read_members;
pub use fault::WideFault;
pub use laws::accepted_is_not_under_way;
pub use luks_contradictions::{first_reencryption, is_under_way};
pub use reencryption::ReencryptSlot;
pub use underway::{Sides, Underway};
pub use wider::{Wider, has_under_way, read_wider};
