//! What of a damaged LUKS1 header a passphrase finds: the search changes few bytes of what stands, and takes
//! that by which a keyslot opens to a key that meets its digest. Nothing is written, and each
//! derivation is counted before it is made.
#![tactic(auto)]

mod digest1;
mod fields1;
mod laws;
mod searching1;
mod trial1;
mod turning;

pub use laws::digest_stood;
pub use luks_trials::{Progress, SearchFault, Spent, Tally, Trying, Untold};
pub use searching1::{Change1, Found1, search1};
