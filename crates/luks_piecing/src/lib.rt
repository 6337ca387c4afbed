//! Metadata of LUKS2 that is put together of a keyslot and a digest which are whole in a volume, and of a segment which does
//! or is given, by which a passphrase opens the keyslot. Nothing is written, and each derivation is counted before it is made.
#![tactic(auto)]

mod given;
mod joining;
mod piecing;
mod reading;
mod segment;
mod spots;

pub use given::GivenSegment;
pub use joining::Pieced;
pub use piecing::search_fragments;
