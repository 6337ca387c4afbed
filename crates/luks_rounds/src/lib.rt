//! The compressions of SHA-1, SHA-256 and SHA-512 on words (FIPS 180-4, 6): of one block, or of several
//! side by side, whose words lie in the lanes of vectors.
#![tactic(auto)]

mod constants;
mod pair;
pub mod pair_rounds;
mod quad;
pub mod quad_rounds;
mod single;
pub mod single_rounds;
pub mod single_sha1_rounds;
mod wide;
pub mod wide_rounds;
