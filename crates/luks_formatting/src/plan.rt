//! What keyslot 0 of a new volume is sealed by.
ghost use Rattle.std.specs.Prelude.{◌≡◌, ◌+◌, ◌≤◌, ℕ, List, false, length};
ghost use Rattle.luks_making.specs.Keyslots.{Deriving};
ghost use Rattle.luks_slot.specs.Opening.{HasIterations};
ghost use Rattle.luks_slot.specs.Refusal.{is_argon2};
ghost use Rattle.luks_formatting.specs.Deriving.{IsArgon2Plan, IsDerivedBy, slot_derivation};
ghost use Rattle.luks_formatting.specs.NewPlan.{key_digest, IsNewPlan, IsNewPlanBy};

use crate::given::{Given, key_of};
use crate::random::{DIGEST_SALT, SALT_BYTES, STRIPES, taken};
use luks_area::Area;
use luks_making::{Argon2Costs, NewDerivation};
use luks_reading::Format;
use luks_slot::{AreaCipher, Argon2Kind, Argon2Plan, Derivation, DigestPlan, SlotPlan};

/// The plan of a keyslot of a key of so many bytes with this salt and area, and of a digest with that salt that
/// stores these bytes. It derives by PBKDF2, as the digest.
pub(crate) fn new_plan<'a>(
    format: &Format,
    key_bytes: usize,
    cipher: AreaCipher<'a>,
    area: Area,
    salt: &'a [u8],
    digest_salt: &'a [u8],
    stored: &'a [u8],
) -> SlotPlan<'a>
    ensures plan { IsNewPlan format.now key_bytes salt.now area digest_salt.now stored.now result }
    ensures here { is_argon2 result.derivation ≡ false }
    ensures iterations { 1 ≤ format.now.iterations → HasIterations result.derivation }
    ensures cipher { result.cipher ≡ cipher.entry }
{
    let derivation = plan_derivation(format, None, salt);
    new_plan_by(
        derivation,
        format,
        key_bytes,
        cipher,
        area,
        digest_salt,
        stored,
    )
}

/// The same by a derivation with its salt.
pub(crate) fn new_plan_by<'a>(
    derivation: Derivation<'a>,
    format: &Format,
    key_bytes: usize,
    cipher: AreaCipher<'a>,
    area: Area,
    digest_salt: &'a [u8],
    stored: &'a [u8],
) -> SlotPlan<'a>
    ensures plan { (own : Deriving) (salt : List ℕ) → IsDerivedBy own salt derivation.entry
        → IsNewPlanBy own format.now key_bytes salt area digest_salt.now stored.now result }
    ensures derivation { result.derivation ≡ derivation.entry }
    ensures cipher { result.cipher ≡ cipher.entry }
{
    let hash = format.hash.text();
    SlotPlan {
        derivation,
        cipher,
        area,
        area_key_bytes: key_bytes,
        key_bytes,
        stripes: STRIPES,
        splitter_hash: hash,
        digest: DigestPlan {
            hash,
            iterations: format.iterations,
            salt: digest_salt,
            stored,
        },
    }
}

/// The derivation with this salt: as the digest, or as is chosen.
pub(crate) fn plan_derivation<'a>(
    format: &Format,
    chosen: Option<NewDerivation>,
    salt: &'a [u8],
) -> Derivation<'a>
    ensures { IsDerivedBy (slot_derivation format.now chosen) salt.now result }
{
    let hash = format.hash.text();
    match chosen {
        None => Derivation::Pbkdf2 {
            hash,
            iterations: format.iterations,
            salt,
        },
        Some(NewDerivation::Pbkdf2 { iterations }) => Derivation::Pbkdf2 {
            hash,
            iterations,
            salt,
        },
        Some(NewDerivation::Argon2i(costs)) => by_argon2(Argon2Kind::I, costs, salt),
        Some(NewDerivation::Argon2id(costs)) => by_argon2(Argon2Kind::Id, costs, salt),
    }
}

/// Argon2 of this kind by these costs.
fn by_argon2(kind: Argon2Kind, costs: Argon2Costs, salt: &[u8]) -> Derivation<'_>
    ensures { IsArgon2Plan kind costs salt.now result }
{
    Derivation::Argon2(Argon2Plan {
        kind,
        time: costs.time,
        memory: costs.memory,
        cpus: costs.cpus,
        salt,
    })
}

/// Writes the digest of the volume key, at most 128 bytes of it.
pub(crate) fn put_key_digest(out: &mut [u8], given: &Given<'_>, format: &Format, random: &[u8])
    requires iterations { 1 ≤ format.now.iterations }
    requires long { 48 + given.now.key_bytes ≤ length random.now }
    requires at_most_128 { length out.old ≤ 128 }
    ensures { out.new ≡ key_digest given.now format.now random.now (length out.old) }
{
    let key = key_of(given, random);
    let salt = taken(random, DIGEST_SALT + given.key_bytes as usize, SALT_BYTES);
    format.hash.pbkdf2(out, key, salt, format.iterations);
}
