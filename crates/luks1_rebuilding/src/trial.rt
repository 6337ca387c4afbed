//! Which cipher, hash and length of the key a passphrase opens a damaged LUKS1 volume by. The volume
//! stays as it is.
mod combinations;
mod combining;
mod judging;
mod laws;
mod opening;
mod progress;

pub use combining::try_combinations;
pub use laws::plain_gives_alike;
pub use opening::Opening;
pub use progress::{Progress, Untold};
