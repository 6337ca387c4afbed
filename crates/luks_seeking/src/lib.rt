//! The search of a device for the keyslots, digests and segments of LUKS2 metadata that are whole on it.
#![tactic(auto)]

mod fault;
mod seeking;

pub use fault::SeekFault;
pub use luks_fragments::Kind;
pub use seeking::{Found, LEAST_BLOCK, Seek, seek_from};
