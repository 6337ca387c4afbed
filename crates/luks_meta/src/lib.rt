#![tactic(auto)]
//! The metadata of a LUKS2 header: the JSON area, read exactly, and what its objects tell.

mod configuration;
mod digests;
mod keyslots;
mod laws;
mod member;
mod meta;
mod naming;
mod objects;
mod requirements;
mod segments;
mod tokens;

pub use configuration::{Config, read_config};
pub use digests::{Digest, read_digest};
pub use keyslots::{Argon2, Cost, Derivation, KeyArea, Keyslot, Pbkdf2, Splitter, read_keyslot};
pub use laws::one_digest;
pub use luks_json::one_value;
pub use luks_rules::{MetaFault, metadata_without_faults};
pub use member::Extent;
pub use meta::Meta;
pub use segments::{Encryption, Segment, SegmentKind, read_segment};
pub use tokens::{Token, read_token};
