//! Metadata of a LUKS2 header that the checksum of a binary header vouches for, though both copies of
//! the JSON area are damaged: it is composed of the sectors of both.
#![tactic(auto)]

mod areas;
mod borders;
mod bound;
mod composing;
mod cutting;
mod headers;
mod laws;
mod pieces;
mod piecing;
mod progress;
mod search;
mod standing;
mod vouch_fault;
mod vouched;

pub use headers::{meets, standing_header};
pub use laws::{
    one_vouched, pieces_are_all, sound_copy_meets, vouched_is_composed, work_is_bounded,
};
pub use progress::{SearchProgress, Untold};
pub use vouch_fault::VouchFault;
pub use vouched::{Vouched, find_vouched, is_cut_short};
