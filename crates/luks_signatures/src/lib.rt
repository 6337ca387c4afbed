//! What else a disk is used for, where no LUKS header stands: its signature. And that of a LUKS1 volume which is being
//! reencrypted.
#![tactic(auto)]

mod first;
mod laws;
mod other_use;
mod reencryption;
mod standing;
mod table;

pub use first::first_use;
pub use laws::one_first_use;
pub use other_use::OtherUse;
pub use reencryption::{is_reencrypted, is_reencrypting};
