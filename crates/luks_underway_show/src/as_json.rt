//! What `show --json` prints: one JSON object, of a copy in which something is under way.

mod keyslots;
mod object;
mod reencryption;
mod segments;
mod text;
mod under_way;

pub use text::underway_json;
