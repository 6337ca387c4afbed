//! What an edit seals a keyslot with.
ghost use Rattle.std.specs.Prelude.{◌≡◌};

use luks_slot::{Allowed, Key};

/// What a keyslot is sealed with.
#[derive(Clone, Copy)]
pub(crate) struct Secrets<'a> {
    /// The volume key.
    pub(crate) key: &'a Key,
    /// The passphrase that is to open the keyslot.
    pub(crate) passphrase: &'a [u8],
    /// What may be spent on it.
    pub(crate) allowed: Allowed,
    /// The random bytes of the edit: the salts of the copies, 64 bytes each, the keyslot's salt,
    /// 32 bytes, and its stripes but the last.
    pub(crate) random: &'a [u8],
}

impl<'a> Secrets<'a> {
    /// The key, the passphrase that is to open it, with what may be spent on it, and the
    /// random bytes.
    pub(crate) fn new(
        key: &'a Key,
        passphrase: &'a [u8],
        allowed: Allowed,
        random: &'a [u8],
    ) -> Secrets<'a>
        ensures { result ≡ record
            { key = key.entry; passphrase = passphrase.entry; allowed = allowed; random = random.entry } }
    {
        Secrets {
            key,
            passphrase,
            allowed,
            random,
        }
    }
}
