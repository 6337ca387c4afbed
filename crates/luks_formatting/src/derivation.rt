//! How the key of keyslot 0 of a new LUKS2 volume is derived.
ghost use Rattle.std.specs.Prelude.{◌≡◌, ◌^◌, ◌<◌, length};
ghost use Rattle.luks_formatting.specs.Deriving.{allowed_for};

use luks_edit::Passphrase;

/// How many KiB Argon2 may take for the passphrase: none where it has 2^32 bytes or more.
pub(crate) fn allowed_for(passphrase: &Passphrase<'_>) -> u32
    ensures allowed { result ≡ allowed_for passphrase.now.allowed.memory passphrase.now.bytes.now }
    ensures short { 0 < result → length passphrase.now.bytes.now < 2 ^ 32 }
{
    if passphrase.bytes.len() < 0x1_0000_0000 {
        passphrase.allowed.memory
    } else {
        0
    }
}
