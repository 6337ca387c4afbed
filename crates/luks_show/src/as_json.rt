//! What `show --json` prints: one JSON object, of a header that was read.

mod luks1;
mod luks2;
mod objects;
mod segments;
mod steering;
mod text;
mod values;

pub use luks2::{Objects, Texts, put_objects, read_texts, sizes_value};
pub use objects::{digest_value, keyslot_value, token_value};
pub use segments::{put_encryption, put_extent, put_integrity};
pub use steering::unsteering;
pub use text::json_text;
pub use values::{put_number, put_text};
