//! Tests that are no vectors of luks_vectors or luks_volume_vectors: calls that are generic, a device that
//! remembers, and how a window of a disk is taken, so that the type says what stands beside it. They stand
//! here so that the libraries aren't proved a second time for them.
#![tactic(auto)]

mod filling;
#[cfg(test)]
mod generic_calls;
#[cfg(test)]
mod remembering;
#[cfg(test)]
mod signatures;

pub use filling::filled;
