#![tactic(auto)]
//! Whether something is under way in metadata of LUKS2, and where it contradicts itself.

mod contradiction;
mod contradictions;
mod finding;
mod laws;
mod marks;
mod under_way;

pub use contradiction::{Contradiction, contradiction_path};
pub use finding::first_contradiction;
pub use laws::consistent_without_contradictions;
pub use marks::first_hot;
pub use under_way::{first_reencryption, has_reencrypt, is_under_way};
