//! What standard error says of a volume in whose LUKS2 metadata a reencryption is under way: what it does, which key
//! of it a keyslot gives, and which key a passphrase lacks.
#![tactic(auto)]

mod said;

pub use said::{note_missing_key, note_side, note_under_way};
