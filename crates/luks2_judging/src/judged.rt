//! What an edit takes once it was judged.
ghost use Rattle.std.specs.Prelude.{◌≡◌};
ghost use Rattle.luks2_judging.specs.Texts.{texts_of};

use luks_area::Area;
use luks_edit::NewUuid;
use luks_making::{AskedDerivation, Priority};
use luks_reading::ChosenCopy;
use luks_slot::Key;
use luks2_edit_laws::Like;
use luks2_header::Bin2;
use serde_json::Value;

/// An edit that none of the rows up to `BadUuid` refuses.
#[derive(Drop)]
pub struct Judged<'a> {
    /// The copy of the header that counts.
    pub copy: ChosenCopy,
    /// What the edit takes.
    pub edit: JudgedEdit<'a>,
}

/// What an edit takes, by what it does.
#[derive(Drop)]
pub enum JudgedEdit<'a> {
    /// The volume key is sealed under a new passphrase.
    Seal {
        /// The keyslot.
        place: JudgedPlace,
        /// The volume key, which the opener gave.
        key: Key,
        /// The new passphrase.
        passphrase: &'a [u8],
    },
    /// A keyslot is removed.
    Remove {
        /// Its number, 0 to 31; it is there.
        slot: u8,
        /// Its area.
        area: Area,
    },
    /// Every keyslot is removed.
    Erase,
    /// Both copies of the header are written anew.
    Rewrite {
        /// The uuid that they get, if one is given.
        uuid: Option<NewUuid<'a>>,
        /// The fields of their texts. That of the uuid is the one that was there: a new one is made of
        /// random bytes.
        fields: TextFields,
        /// What changes of the metadata, if anything does.
        change: Option<JudgedChange<'a>>,
    },
}

/// What a change of the metadata takes.
#[derive(Clone, Copy)]
pub enum JudgedChange<'a> {
    /// A keyslot gets a priority.
    Priority {
        /// Its number, 0 to 31; it is there.
        slot: u8,
        /// The priority.
        priority: Priority,
    },
    /// A token is added.
    AddToken {
        /// Its number, 0 to 31, which is free.
        number: u8,
        /// The token.
        token: &'a Value,
    },
    /// A token is removed.
    RemoveToken {
        /// Its number, 0 to 31; it is there.
        number: u8,
    },
}

/// The fields of a header's texts, each a text and zeros.
#[derive(Clone, Copy, Drop)]
pub struct TextFields {
    /// That of the uuid.
    pub uuid: [u8; 40],
    /// That of the label.
    pub label: [u8; 48],
    /// That of the subsystem.
    pub subsystem: [u8; 48],
}

impl TextFields {
    /// Those that the header has.
    pub fn of(header: &Bin2) -> TextFields
        ensures { result ≡ texts_of header.now }
    {
        TextFields {
            uuid: header.uuid,
            label: header.label,
            subsystem: header.subsystem,
        }
    }
}

/// The keyslot that a key is sealed in.
#[derive(Clone, Copy, Drop)]
pub enum JudgedPlace {
    /// A new one.
    New(Addition),
    /// The one that was opened, with a new area.
    Opened(Renewal),
}

/// A keyslot that is added.
#[derive(Clone, Copy, Drop)]
pub struct Addition {
    /// What the new keyslot is made like: the one that was opened, or by the volume key what that asks for.
    pub like: Like,
    /// How the new keyslot derives.
    pub derivation: AskedDerivation,
    /// The number of the new keyslot, 0 to 31.
    pub made: u8,
    /// Its area.
    pub area: Area,
}

/// A keyslot that is sealed again.
#[derive(Clone, Copy, Drop)]
pub struct Renewal {
    /// The keyslot, which the old passphrase opened.
    pub slot: u8,
    /// How it derives from now on.
    pub derivation: AskedDerivation,
    /// Its new area.
    pub area: Area,
    /// The area that it loses.
    pub lost: Area,
}
