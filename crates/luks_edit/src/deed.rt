//! What an edit does of a volume: the parts by which its rules are said.
ghost use Rattle.std.specs.Prelude.{◌≡◌};
ghost use Rattle.luks_edit.specs.Asked.{opener_at, remover_of, sets_uuid_at_most};

use crate::edit::{Opener, Secret, SecretKind, VolumeKey};
use crate::new_uuid::NewUuid;
use luks_making::{AskedDerivation, Change};

/// What an edit does of a volume.
///
/// The rules of both versions are said over these parts, so that each of them is a rule of every edit
/// that has the part.
#[derive(Clone, Copy)]
pub enum Deed<'a> {
    /// The key that a keyslot opens to is sealed under a new passphrase.
    Seal(Sealed<'a>),
    /// A keyslot is removed, and its area wiped.
    Remove(Removed<'a>),
    /// The header is written anew, and no keyslot is opened.
    Rewrite(Rewritten<'a>),
    /// Every keyslot is removed, and its area wiped; none is opened.
    Erase,
}

/// A key that an edit seals.
#[derive(Clone, Copy)]
pub struct Sealed<'a> {
    /// The keyslot that it is sealed in, and what gives it.
    pub place: Place<'a>,
    /// The new passphrase.
    pub passphrase: &'a [u8],
    /// How the keyslot that it is sealed in derives.
    pub derivation: AskedDerivation,
}

impl<'a> Sealed<'a> {
    /// What gives the key.
    pub fn opener(&self) -> Opener<'a>
        ensures { result ≡ opener_at self.now.place }
    {
        match self.place {
            Place::New { opener, to: _ } => opener,
            Place::Opened { slot, secret } => Opener::Keyslot { slot, secret },
        }
    }
}

/// The keyslot that a key is sealed in, and what gives the key.
#[derive(Clone, Copy)]
pub enum Place<'a> {
    /// A new one.
    New {
        /// The keyslot that opens to the key, or the key.
        opener: Opener<'a>,
        /// Its number; where it isn't given, the least that is free.
        to: Option<u8>,
    },
    /// The one that is opened: LUKS2 gives it a new area, LUKS1 makes the least free keyslot, and then
    /// disables it.
    Opened {
        /// The keyslot.
        slot: u8,
        /// Its passphrase, or its key.
        secret: Secret<'a>,
    },
}

/// A keyslot that an edit removes.
#[derive(Clone, Copy)]
pub struct Removed<'a> {
    /// The keyslot.
    pub slot: u8,
    /// The keyslot that the secret opens, another one than `slot`. If it isn't given, a passphrase
    /// opens `slot`, and a key is the volume's, by no keyslot.
    pub by_: Option<u8>,
    /// The passphrase, or the key.
    pub secret: Secret<'a>,
}

impl<'a> Removed<'a> {
    /// What has to give a key for it.
    pub fn opener(&self) -> Opener<'a>
        ensures { result ≡ remover_of self.now.slot self.now.by_ self.now.secret }
    {
        let secret = self.secret;
        match self.by_ {
            Some(slot) => Opener::Keyslot { slot, secret },
            None => match secret.kind {
                SecretKind::Passphrase => Opener::Keyslot {
                    slot: self.slot,
                    secret,
                },
                SecretKind::Key => Opener::Key(VolumeKey {
                    bytes: secret.bytes,
                    allowed: secret.allowed,
                }),
            },
        }
    }
}

/// What a header that is written anew says newly; where something isn't given, it says what it said.
#[derive(Clone, Copy)]
pub struct Rewritten<'a> {
    /// The new uuid.
    pub uuid: Option<NewUuid<'a>>,
    /// The new label.
    pub label: Option<&'a [u8]>,
    /// The new subsystem.
    pub subsystem: Option<&'a [u8]>,
    /// What changes of the metadata.
    pub change: Option<Change<'a>>,
}

impl Rewritten<'_> {
    /// Whether the header says all that it said except for a uuid that is given, as a header of LUKS1 may.
    pub fn sets_uuid_at_most(&self) -> bool
        ensures { result ≡ sets_uuid_at_most self.now }
    {
        self.label.is_none() && self.subsystem.is_none() && self.change.is_none()
    }
}
