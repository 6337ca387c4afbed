//! A detached LUKS2 header made out of metadata that is still whole in a volume of which no header
//! counts, that the checksum of a copy vouches for, or that was found for it. The volume stays as it is.
#![tactic(auto)]

mod candidate;
mod copies;
mod judging;
mod key_areas;
mod laws;
mod own_uuid;
mod place;
mod rebuild_fault;
mod rebuilding;
mod search;
mod standing;
mod untried;
mod voucher;
mod vouching;

pub use candidate::{Candidate, find_candidate, find_plain};
pub use laws::{one_candidate, rebuilt_header_opens_alike, search_is_bounded};
pub use luks_vouching::{SearchProgress, Untold};
pub use place::{Copies, Effort, Place, Which};
pub use rebuild_fault::RebuildFault;
pub use rebuilding::{REBUILD_RANDOM, rebuild, rebuild_from};
pub use untried::find_untried;
pub use voucher::find_voucher;
