ghost use Rattle.std.specs.Prelude.{◌≡◌, ◌≤◌, length};

use arrayvec::ArrayVec;
use std::marker::Model;

/// A volume key, 1 to 128 bytes in place. A contract sees it as the list of its bytes.
#[derive(Drop)]
pub struct Key {
    bytes: ArrayVec<u8, 128>,
}

impl Model for Key {
    ghost use Rattle.std.specs.Prelude.{ℕ, List, ◌≤◌, length};

    ghost Value = { List ℕ };

    ghost view = { λ k. k.bytes.items };

    ghost invariant = { λ k. (1 ≤ length k.bytes.items) × (length k.bytes.items ≤ 128) };
}

impl Key {
    /// The key of these bytes, 1 to 128 of them.
    pub fn new(bytes: &[u8]) -> Key
        requires some_bytes { 1 ≤ length bytes.now }
        requires at_most_128 { length bytes.now ≤ 128 }
        ensures { result ≡ bytes.now }
    {
        let mut held = ArrayVec::new();
        held.try_extend_from_slice(bytes).unwrap();
        Key { bytes: held }
    }

    /// The key's bytes.
    pub fn as_bytes(&self) -> &[u8]
        ensures value { result.now ≡ self.now }
        ensures some_bytes { 1 ≤ length result.now }
        ensures at_most_128 { length result.now ≤ 128 }
    {
        self.bytes.as_slice()
    }
}
