//! Edits of volumes with two keyslots or three.

use luks_area::MemDevice;
use luks_edit::{Edit, NewUuid};
use luks_kdf::HashName;
use luks_reading::{Allowed, Data, open_slot};
use luks_samples::{ARGON2I_1, ARGON2ID_0, STRIPE_BY_ARGON2I, roomy_luks2, roomy_text};
use luks_test_devices::{VOLUME_KEY, add, change, counted, label, put, remove, small1};
use luks_volume::{Secret, SecretKind, apply};
use std::alloc::Global;
use std::test::Fail;

/// A keyslot and a passphrase.
pub(crate) type Opening = (u8, &'static [u8]);

/// An edit with how many random bytes it takes.
#[derive(Clone, Copy)]
pub(crate) struct Trial {
    /// The edit.
    pub(crate) edit: Edit<'static>,
    /// How many random bytes it takes.
    pub(crate) random: usize,
    /// How many writes it makes: of a key area eight sectors in each, of a copy of the LUKS2 header two
    /// parts, of zeros a sector in each.
    pub(crate) writes: usize,
    /// One of these opens where a call fails.
    pub(crate) either: [Opening; 2],
    /// This one opens whatever fails.
    pub(crate) other: Opening,
}

impl Trial {
    /// Whether it sets the uuid. In the header of LUKS1 that stands in one place, and each keyslot's answer
    /// depends on it: where bytes are left there that nothing wrote, none opens.
    pub(crate) fn sets_uuid(&self) -> bool {
        matches!(self.edit, Edit::Uuid(_))
    }
}

/// The uuid that is set.
const UUID: Edit<'static> = Edit::Uuid(NewUuid::Text("0A1b2c3D-4e5F-1071-8293-a4B5c6D7e8F9"));

/// Edits of the LUKS1 volume.
pub(crate) const LUKS1: [Trial; 6] = [
    Trial {
        edit: add!(0, b"one", b"three", None),
        random: 2528,
        writes: 2,
        either: [(0, b"one"), (0, b"one")],
        other: (1, b"two"),
    },
    Trial {
        edit: change!(0, b"one", b"three"),
        random: 2528,
        writes: 8,
        either: [(0, b"one"), (2, b"three")],
        other: (1, b"two"),
    },
    Trial {
        edit: remove!(0, b"one"),
        random: 0,
        writes: 6,
        either: [(1, b"two"), (1, b"two")],
        other: (1, b"two"),
    },
    Trial {
        edit: remove!(0, b"two", 1),
        random: 0,
        writes: 6,
        either: [(1, b"two"), (1, b"two")],
        other: (1, b"two"),
    },
    Trial {
        edit: UUID,
        random: 0,
        writes: 1,
        either: [(0, b"one"), (0, b"one")],
        other: (1, b"two"),
    },
    Trial {
        edit: Edit::Uuid(NewUuid::Random),
        random: 16,
        writes: 1,
        either: [(0, b"one"), (0, b"one")],
        other: (1, b"two"),
    },
];

/// Edits of the LUKS2 volume.
pub(crate) const LUKS2: [Trial; 8] = [
    Trial {
        edit: Edit::Repair,
        random: 128,
        writes: 4,
        either: [(0, b"one"), (0, b"one")],
        other: (1, b"two"),
    },
    Trial {
        edit: label!(b"disk"),
        random: 128,
        writes: 4,
        either: [(0, b"one"), (0, b"one")],
        other: (1, b"two"),
    },
    Trial {
        edit: UUID,
        random: 128,
        writes: 4,
        either: [(0, b"one"), (0, b"one")],
        other: (1, b"two"),
    },
    Trial {
        edit: Edit::Uuid(NewUuid::Random),
        random: 144,
        writes: 4,
        either: [(0, b"one"), (0, b"one")],
        other: (1, b"two"),
    },
    Trial {
        edit: remove!(0, b"one"),
        random: 128,
        writes: 12,
        either: [(1, b"two"), (1, b"two")],
        other: (1, b"two"),
    },
    Trial {
        edit: remove!(0, b"two", 1),
        random: 128,
        writes: 12,
        either: [(1, b"two"), (1, b"two")],
        other: (1, b"two"),
    },
    Trial {
        edit: change!(0, b"one", b"three"),
        random: 2656,
        writes: 13,
        either: [(0, b"one"), (0, b"three")],
        other: (1, b"two"),
    },
    Trial {
        edit: add!(0, b"one", b"three", None),
        random: 2656,
        writes: 5,
        either: [(0, b"one"), (0, b"one")],
        other: (1, b"two"),
    },
];

/// The passphrase of a keyslot of Argon2i, with the 64 KiB that it takes.
const OF_ARGON2: Secret<'static> = Secret {
    kind: SecretKind::Passphrase,
    bytes: b"one",
    allowed: ALLOWED,
};

/// Edits of the LUKS2 volume with keyslots of Argon2, by its keyslot 1; the last by its keyslot 2, with
/// no memory.
pub(crate) const ARGON2: [Trial; 5] = [
    Trial {
        edit: Edit::Add {
            by_: 1,
            old: OF_ARGON2,
            new: b"three",
            to: None,
            iterations: 1000,
            derivation: None,
        },
        random: 160,
        writes: 5,
        either: [(1, b"one"), (1, b"one")],
        other: (2, b"one"),
    },
    Trial {
        edit: Edit::Change {
            slot: 1,
            old: OF_ARGON2,
            new: b"three",
            iterations: 1000,
            derivation: None,
        },
        random: 160,
        writes: 13,
        either: [(1, b"one"), (1, b"three")],
        other: (2, b"one"),
    },
    Trial {
        edit: Edit::Remove {
            slot: 1,
            by_: None,
            secret: OF_ARGON2,
        },
        random: 128,
        writes: 12,
        either: [(2, b"one"), (2, b"one")],
        other: (2, b"one"),
    },
    Trial {
        edit: Edit::Remove {
            slot: 0,
            by_: Some(1),
            secret: OF_ARGON2,
        },
        random: 128,
        writes: 12,
        either: [(1, b"one"), (1, b"one")],
        other: (2, b"one"),
    },
    Trial {
        edit: remove!(1, b"one", 2),
        random: 128,
        writes: 12,
        either: [(2, b"one"), (2, b"one")],
        other: (2, b"one"),
    },
];

/// The LUKS2 volume of three keyslots of one stripe, which open by `one`: keyslot 0 is by Argon2id,
/// keyslot 1 by Argon2i, keyslot 2 by PBKDF2.
pub(crate) fn argon2_keyslots(alloc: Global) -> Result<Vec<u8>, Fail> {
    let text = roomy_text(alloc, &[ARGON2ID_0, ARGON2I_1])?;
    let mut volume = roomy_luks2(alloc, text.as_str(), 1)?;
    put(&mut volume, 36864, &STRIPE_BY_ARGON2I);
    Ok(volume)
}

/// The small LUKS1 volume by SHA-256 with keyslot 1, which opens by `two`.
pub(crate) fn two_luks1_keyslots(alloc: Global) -> Result<Vec<u8>, Fail> {
    let mut device = MemDevice::new(small1(alloc, HashName::Sha256)?);
    let random = counted(alloc, 3, 2528)?;
    let edit = add!(0, b"one", b"two", Some(1));
    match apply(alloc, &mut device, Data::Here, &edit, &random) {
        Ok(_) => Ok(device.contents().to_vec(alloc)?),
        Err(_) => Err("no keyslot 1".into()),
    }
}

/// What is allowed to each keyslot.
const ALLOWED: Allowed = Allowed {
    memory: 64,
    older: false,
};

/// Whether the keyslot opens by the passphrase to the volume key.
pub(crate) fn opens(alloc: Global, device: &mut MemDevice, opening: Opening) -> bool {
    let (n, passphrase) = opening;
    // Argon2 takes no passphrase of 2^32 bytes.
    let allowed = if passphrase.len() < 16 {
        ALLOWED
    } else {
        Allowed::NOTHING
    };
    match open_slot(alloc, device, n, passphrase, allowed) {
        Ok(Some(key)) => key.as_bytes() == VOLUME_KEY.as_slice(),
        _ => false,
    }
}

/// Whether the keyslots open as they have to.
pub(crate) fn keyslots_open(alloc: Global, left: &mut MemDevice, trial: &Trial) -> bool {
    let [old, new] = trial.either;
    let either = opens(alloc, left, old) || opens(alloc, left, new);
    either && opens(alloc, left, trial.other)
}
