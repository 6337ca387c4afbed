//! Whether two plans say the same.
ghost use Rattle.std.specs.Prelude.{◌≡◌, true};
ghost use Rattle.luks_trials.specs.Alike.{IsAlike, IsAlikeCipher, IsAlikeDerivation, IsAlikeDigest};

use luks_slot::{AreaCipher, Argon2Kind, Derivation, DigestPlan, SlotPlan};

/// Whether the two plans say the same, so that a keyslot opens by both or by neither.
pub(crate) fn is_alike(a: &SlotPlan<'_>, b: &SlotPlan<'_>) -> bool
    ensures { result ≡ true → IsAlike a.now b.now }
{
    is_alike_derivation(&a.derivation, &b.derivation)
        && is_alike_cipher(&a.cipher, &b.cipher)
        && a.area == b.area
        && a.area_key_bytes == b.area_key_bytes
        && a.key_bytes == b.key_bytes
        && a.stripes == b.stripes
        && a.splitter_hash == b.splitter_hash
        && is_alike_digest(&a.digest, &b.digest)
}

fn is_alike_derivation(a: &Derivation<'_>, b: &Derivation<'_>) -> bool
    ensures { result ≡ true → IsAlikeDerivation a.now b.now }
{
    match (a, b) {
        (
            Derivation::Pbkdf2 {
                hash,
                iterations,
                salt,
            },
            Derivation::Pbkdf2 {
                hash: other_hash,
                iterations: other_iterations,
                salt: other_salt,
            },
        ) => *hash == *other_hash && iterations == other_iterations && *salt == *other_salt,
        (Derivation::Argon2(costs), Derivation::Argon2(others)) => {
            is_alike_kind(costs.kind, others.kind)
                && costs.time == others.time
                && costs.memory == others.memory
                && costs.cpus == others.cpus
                && costs.salt == others.salt
        }
        _ => false,
    }
}

fn is_alike_kind(a: Argon2Kind, b: Argon2Kind) -> bool
    ensures { result ≡ true → a ≡ b }
{
    match (a, b) {
        (Argon2Kind::I, Argon2Kind::I) | (Argon2Kind::Id, Argon2Kind::Id) => true,
        _ => false,
    }
}

fn is_alike_cipher(a: &AreaCipher<'_>, b: &AreaCipher<'_>) -> bool
    ensures { result ≡ true → IsAlikeCipher a.now b.now }
{
    match (a, b) {
        (AreaCipher::Whole(text), AreaCipher::Whole(other)) => *text == *other,
        _ => false,
    }
}

fn is_alike_digest(a: &DigestPlan<'_>, b: &DigestPlan<'_>) -> bool
    ensures { result ≡ true → IsAlikeDigest a.now b.now }
{
    a.hash == b.hash && a.iterations == b.iterations && a.salt == b.salt && a.stored == b.stored
}
