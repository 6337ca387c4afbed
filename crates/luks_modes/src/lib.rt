//! The modes of AES by which key areas are encrypted, over bytes in place: XTS (IEEE 1619), and of older
//! volumes CBC (NIST SP 800-38A).
#![tactic(auto)]

mod cbc;
mod eights;
mod vectors;
mod xts;

pub use cbc::CbcKey;
pub use vectors::IvKind;
pub use xts::XtsKey;
