//! PBKDF2's turns on words, the splitter's diffusion by SHA-256, and SHA-256 of two messages. Blocks go
//! side by side, each a chain of its own, so that words of several lie in the lanes of one vector; the
//! last one of a row may be alone.
#![tactic(auto)]

mod bytes;
mod lanes;
mod pair_diffusion;
mod pair_hasher;
mod pair_turns;
mod quad_turns;
mod single_sha1_turns;
mod single_turns;
mod wide_turns;

pub use pair_diffusion::sha256_diffusion;
pub use pair_hasher::PairHasher;
pub use pair_turns::sha256_turns;
pub use quad_turns::sha1_turns;
pub use wide_turns::sha512_turns;
