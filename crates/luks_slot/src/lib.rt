//! One keyslot: opening it, from a passphrase and the key material in the keyslot's area to the
//! volume key, sealing a key in it, and wiping its area.
#![tactic(auto)]

mod allowed;
mod area_reader;
mod area_writer;
mod cipher;
mod fault;
mod hashing;
mod key;
mod laws;
mod merging;
mod opening;
mod parameters;
mod plan;
mod sealing;
mod splitting;
mod wiping;

pub use allowed::Allowed;
pub use fault::SlotFault;
pub use key::Key;
pub use laws::{
    digest_in_place_opens, found_key_meets_digest, more_allowed_opens_as_much,
    nothing_allowed_is_as_before, sealed_area_opens,
};
pub use opening::{Tried, digest_within, open, open_within, try_within};
pub use parameters::{refusal, refusal_within};
pub use plan::{AreaCipher, Argon2Kind, Argon2Plan, Derivation, DigestPlan, SlotPlan};
pub use sealing::{seal, seal_within};
pub use wiping::wipe;
