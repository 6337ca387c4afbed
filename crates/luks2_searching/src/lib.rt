//! What of damaged LUKS2 metadata a passphrase finds: each search changes few bytes of what stands, or puts together what
//! is whole of it, and takes that by which a keyslot opens to a key that meets its digest. Nothing is written, and each
//! derivation is counted before it is made.
#![tactic(auto)]

mod bits;
mod copies;
mod digest;
mod found;
mod fragments;
mod mixed;
mod replacing;
mod searching;
mod standing;
mod turning;

pub use found::{Change2, Found2};
pub use luks_piecing::GivenSegment;
pub use searching::search2;
