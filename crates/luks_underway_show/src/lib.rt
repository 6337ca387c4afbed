//! What is listed of a volume in whose LUKS2 metadata something is under way: a reencryption, or a disk that encrypts
//! itself. Its lines, and with `--json` one JSON object.
#![tactic(auto)]

mod as_json;
mod header;
mod hotzone;
mod keyslots;
mod lines;
mod listing;
mod reencryption;
mod segments;
mod shown;
mod tokens;

pub use as_json::underway_json;
pub use hotzone::{Hotzone, part_in_hand};
pub use lines::Lines;
pub use listing::UnderwayListing;
pub use reencryption::{direction_name, mode_name};
pub use tokens::{UnderwayTokens, underway_token_text};
