//! Short words for edits, so that a table has one in a line; macros, since a table calls no function.
//! Where one is used, `Edit` and the crate `luks_volume` have to be at hand. Nothing is allowed beside the passphrase.

/// Adds a keyslot: the one that opens, the old passphrase, the new one, the new keyslot's number, and
/// the iterations where they aren't 1000.
#[macro_export]
macro_rules! add {
    ($by:expr, $old:expr, $new:expr, $to:expr) => {
        $crate::add!($by, $old, $new, $to, 1000)
    };
    ($by:expr, $old:expr, $new:expr, $to:expr, $iterations:expr) => {
        Edit::Add {
            by_: $by,
            old: luks_volume::Secret {
                kind: luks_volume::SecretKind::Passphrase,
                bytes: $old,
                allowed: luks_volume::Allowed::NOTHING,
            },
            new: $new,
            to: $to,
            iterations: $iterations,
            derivation: None,
        }
    };
}

/// Changes a passphrase: the keyslot, the old one, the new one, and the iterations where they aren't
/// 1000.
#[macro_export]
macro_rules! change {
    ($slot:expr, $old:expr, $new:expr) => {
        $crate::change!($slot, $old, $new, 1000)
    };
    ($slot:expr, $old:expr, $new:expr, $iterations:expr) => {
        Edit::Change {
            slot: $slot,
            old: luks_volume::Secret {
                kind: luks_volume::SecretKind::Passphrase,
                bytes: $old,
                allowed: luks_volume::Allowed::NOTHING,
            },
            new: $new,
            iterations: $iterations,
            derivation: None,
        }
    };
}

/// Removes a keyslot: its number, a passphrase, and the keyslot that this opens, where it is another one.
#[macro_export]
macro_rules! remove {
    ($slot:expr, $passphrase:expr) => {
        Edit::Remove {
            slot: $slot,
            by_: None,
            secret: luks_volume::Secret {
                kind: luks_volume::SecretKind::Passphrase,
                bytes: $passphrase,
                allowed: luks_volume::Allowed::NOTHING,
            },
        }
    };
    ($slot:expr, $passphrase:expr, $by:expr) => {
        Edit::Remove {
            slot: $slot,
            by_: Some($by),
            secret: luks_volume::Secret {
                kind: luks_volume::SecretKind::Passphrase,
                bytes: $passphrase,
                allowed: luks_volume::Allowed::NOTHING,
            },
        }
    };
}

/// Sets a label.
#[macro_export]
macro_rules! label {
    ($text:expr) => {
        Edit::Label {
            text: $text,
            subsystem: None,
        }
    };
}
