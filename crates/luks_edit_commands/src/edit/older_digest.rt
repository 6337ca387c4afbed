//! What is said of an edit by the volume key that is refused by the hash of a digest.
ghost use Rattle.std.specs.Prelude.{◌≡◌, ◌<◌};
ghost use Rattle.luks_meta.specs.Content.{content};
ghost use Rattle.luks_meta.specs.Objects.{IsAccepted};
ghost use Rattle.luks_reading.specs.Header.{IsAcceptedHeader};

use luks_edit::Opener;
use luks_kdf::OlderHash;
use luks_meta::Meta;
use luks_reading::is_key_length;
use luks_volume::{Edit, EditFault, Header, Luks1, SlotFault};
use std::io::Write;

/// Whether the edit is by the volume key, and a digest of this header that a key of this length may meet has a
/// hash of older disks, which isn't accepted.
pub(super) fn is_older_digest(header: &Header, edit: &Edit<'_>) -> bool
    requires { IsAcceptedHeader header.now }
{
    match edit.opener() {
        Some(Opener::Key(key)) => !key.allowed.older && has_older_digest(header, key.bytes.len()),
        _ => false,
    }
}

/// Whether a digest of this header that a key of so many bytes may meet has a hash of older disks; LUKS1 has
/// one, whose hash is judged before the key.
fn has_older_digest(header: &Header, len: usize) -> bool
    requires { IsAcceptedHeader header.now }
{
    match header {
        Header::Luks1(bytes) => match Luks1::read(bytes) {
            Ok(header) => is_older(header.common.hash_spec.as_str()),
            Err(_) => false,
        },
        Header::Luks2(copy) => has_older_digest_of(&copy.meta, len),
    }
}

/// Whether LUKS2 metadata has such a digest.
fn has_older_digest_of(meta: &Meta, len: usize) -> bool
    requires { IsAccepted (content meta.now) }
{
    for n in 0..32 {
        if let Some(digest) = meta.digest(n) {
            if is_older(digest.hash) && is_key_length(meta, n, len) {
                return true;
            }
        }
    }
    false
}

/// Whether the hash of this name is one of older disks.
fn is_older(name: &str) -> bool {
    OlderHash::parse(name).is_some()
}

/// Says where the edit was refused by a hash, and a digest has one of older disks, that `--older` accepts it.
pub(super) fn note_older_digest<E: Write>(fault: &EditFault, older_digest: bool, err: &mut E) {
    if older_digest && matches!(fault, EditFault::Slot(SlotFault::Hash)) {
        let _ = writeln!(
            err,
            "luks: the digest's hash is of older disks: --older allows it"
        );
    }
}
