//! A detached LUKS1 header made out of what is left of one in a volume, and of what is given; and by
//! which cipher, hash and length of the key a passphrase opens a keyslot of such a header. The volume stays as
//! it is.
#![tactic(auto)]

mod judging;
mod key_areas;
mod laws;
mod rebuild_fault;
mod rebuilding;
pub mod trial;

pub use judging::first_bytes;
pub use laws::rebuilt1_opens_alike;
pub use luks1_mending::Given;
pub use rebuild_fault::Rebuild1Fault;
pub use rebuilding::{rebuild1, rebuild1_from};
