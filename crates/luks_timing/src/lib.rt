//! Costs of a new keyslot that take a wanted time on this machine: iterations of PBKDF2 and costs of Argon2,
//! and what a command line asks for with them.
#![tactic(auto)]

mod argon2_costs;
mod fault;
mod iterations;
mod sample;
mod timing;

pub use argon2_costs::{Argon2Costs, argon2_costs_in};
pub use fault::CostFault;
pub use iterations::iterations_in;
pub use sample::Sample;
pub use timing::Timing;
