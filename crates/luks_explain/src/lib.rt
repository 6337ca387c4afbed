//! What each fault that the program prints means, where it can stand, what is still safe, and what to
//! try next.
#![tactic(auto)]

mod explanation;
mod fault;
mod of_value;
mod texts;

pub use explanation::Explanation;
pub use fault::Fault;
