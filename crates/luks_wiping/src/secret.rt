ghost use Rattle.std.specs.Prelude.{◌≡◌};

use crate::wiping::wipe;
use std::marker::Model;

/// Secret bytes in memory of their own, over which zeros are written before it is given back. A contract
/// sees it as the list of its bytes.
pub struct Secret {
    bytes: Vec<u8>,
}

impl Model for Secret {
    ghost use Rattle.std.specs.Prelude.{ℕ, List};

    ghost Value = { List ℕ };

    ghost view = { λ secret. secret.bytes.items };
}

impl Drop for Secret {
    fn drop(mut self) {
        wipe(self.bytes.as_mut_slice());
        let Secret { bytes: _ } = self;
    }
}

impl Secret {
    /// These bytes. What they were copied from on the way, as where their memory grew, isn't written
    /// over.
    pub fn new(bytes: Vec<u8>) -> Secret
        ensures { result ≡ bytes.items }
    {
        Secret { bytes }
    }

    /// The bytes.
    pub fn as_slice(&self) -> &[u8]
        ensures value { result.now ≡ self.now }
    {
        self.bytes.as_slice()
    }
}
