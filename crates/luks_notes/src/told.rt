//! What is told of metadata, once its value is gone.
ghost use Rattle.std.specs.Prelude.{◌≡◌, is_some};

use luks_meta::Meta;
use luks_rebuilding::{Candidate, Place};
use sha2::{Digest, Sha256};

/// Metadata that was found, without its value and its bytes: so that of two these aren't held at once.
#[derive(Drop)]
pub(crate) struct Told {
    /// The copy that it was read from, or whose checksum vouches for it.
    pub(crate) place: Place,
    /// The SHA-256 of the JSON area.
    pub(crate) sum: [u8; 32],
    /// Whether a keyslot is there, by its number.
    pub(crate) keyslots: [bool; 32],
    /// Whether the checksum of that copy vouches for it.
    pub(crate) is_vouched: bool,
}

impl Told {
    /// What is told of this metadata.
    pub(crate) fn of(found: Candidate) -> Told
        ensures { result.is_vouched ≡ is_some found.vouch }
    {
        let Candidate {
            place,
            json,
            meta,
            vouch,
        } = found;
        Told {
            place,
            sum: sum_of(&json),
            keyslots: keyslots_of(&meta),
            is_vouched: vouch.is_some(),
        }
    }

    /// How many keyslots it has.
    pub(crate) fn count(&self) -> u8 {
        let mut count: u8 = 0;
        for n in 0..32 {
            if self.keyslots[n] {
                count = count.saturating_add(1);
            }
        }
        count
    }

    /// How many keyslots it has that the other hasn't.
    pub(crate) fn count_beside(&self, other: &Told) -> u8 {
        let mut count: u8 = 0;
        for n in 0..32 {
            if self.keyslots[n] && !other.keyslots[n] {
                count = count.saturating_add(1);
            }
        }
        count
    }

    /// Whether both have the same metadata.
    pub(crate) fn is_same(&self, other: &Told) -> bool {
        self.sum == other.sum
    }
}

/// The SHA-256 of these bytes.
fn sum_of(bytes: &[u8]) -> [u8; 32] {
    let mut hasher = Sha256::new();
    hasher.update(bytes);
    hasher.finalize()
}

/// Which keyslots the metadata has.
fn keyslots_of(meta: &Meta) -> [bool; 32] {
    let mut keyslots = [false; 32];
    for n in 0..32 {
        keyslots[n as usize] = meta.keyslot(n).is_some();
    }
    keyslots
}
