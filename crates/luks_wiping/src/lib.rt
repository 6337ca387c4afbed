//! Writing zeros over what is secret and isn't needed any more.
#![tactic(auto)]

mod secret;
mod wiping;

pub use secret::Secret;
pub use wiping::{wipe, wipe_stack};
