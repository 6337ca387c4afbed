//! The texts of the help of the program `luks`.
#![tactic(auto)]

pub mod helps;
pub mod other_words;
pub mod rescue_helps;
