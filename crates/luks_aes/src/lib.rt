//! AES over single blocks and over eight side by side (FIPS 197), without a table in memory.
#![tactic(auto)]

mod aes;
mod block;
mod circuits;
mod gates;
mod key_schedule;
mod linear;
mod lookups;
mod packing;
mod round_keys;
mod rounds;
mod sbox;
mod tables;

pub use aes::AesKey;
