//! Argon2 (RFC 9106) over BLAKE2b (RFC 7693).
#![tactic(auto)]

mod addressing;
mod blake2b_compression;
mod block_compression;
mod fault;
mod filling;
mod hasher;
mod indexing;
mod laws;
mod shape;
mod starting;
mod tag;
mod variable_length;
mod variant;
mod wiping;

pub use fault::Argon2Fault;
pub use hasher::Blake2b;
pub use laws::definitions_give;
pub use shape::Costs;
pub use tag::{argon2, argon2_with_secret};
pub use variant::Variant;
