//! The hashes that key derivations of older volumes name: RIPEMD-160 and Whirlpool.
#![tactic(auto)]

pub mod ripemd160;
pub mod whirlpool;
