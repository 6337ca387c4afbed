//! What `show` prints of a header that was read: its lines, and with `--json` one JSON object.
#![tactic(auto)]

mod as_json;
mod copies;
mod costs;
mod digits;
mod escaped;
mod listing;
mod lists;
mod luks1;
mod luks2;
mod objects;
mod tokens;

pub use as_json::{
    Objects, Texts, digest_value, json_text, keyslot_value, put_encryption, put_extent,
    put_integrity, put_number, put_objects, put_text, read_texts, sizes_value, token_value,
    unsteering,
};
pub use copies::copies_name;
pub use costs::{CostsLine, EncryptionLine, SaltLine};
pub use escaped::{Escaped, before_zero};
pub use listing::{FullListing, Listing};
pub use lists::Numbers;
pub use luks2::SubsystemLine;
pub use objects::{DigestLine, KeyslotLine, TokenLine};
pub use tokens::{TokenListing, token_text};
