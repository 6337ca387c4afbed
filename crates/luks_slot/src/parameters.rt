//! Whether a keyslot is refused, and else by what it is opened and sealed.

ghost use Rattle.std.specs.Prelude.{◌≡◌, ◌==◌, is_some, MatchResult, Some, None, IfErr, IfOk, IfSome, IsTrue, OnOk};
ghost use Rattle.luks_slot.specs.Parameters.{AreParameters, IsDerivation};
ghost use Rattle.luks_slot.specs.Opening.{hash_by_name};
ghost use Rattle.luks_slot.specs.Ciphers.{cipher_of, is_size_of, ivs_of_mode, ivs_of_text, older_ivs};
ghost use Rattle.luks_slot.specs.Refusal.{is_allowed_cipher, is_argon2_refused, is_known_derivation, is_known_hash, is_open_cipher, slot_refusal, slot_refusal_within};

use crate::allowed::Allowed;
use crate::cipher::SectorCipher;
use crate::fault::SlotFault;
use crate::plan::{AreaCipher, Argon2Plan, Derivation, SlotPlan};
use luks_kdf::KeyslotHash;
use luks_modes::IvKind;

// What PBKDF2 derives by.
#[derive(Clone, Copy)]
pub(crate) struct Pbkdf2Costs<'a> {
    pub(crate) hash: KeyslotHash,
    pub(crate) iterations: u32,
    pub(crate) salt: &'a [u8],
}

// How the key of an area is derived, by a hash that is known.
#[derive(Clone, Copy)]
pub(crate) enum KeyDerivation<'a> {
    Pbkdf2(Pbkdf2Costs<'a>),
    Argon2(Argon2Plan<'a>),
}

// The parameters of a plan that isn't refused: its hashes, its cipher, and how the area's key is derived.
#[derive(Clone, Copy)]
pub(crate) struct Parameters<'a> {
    pub(crate) derivation: KeyDerivation<'a>,
    pub(crate) cipher: SectorCipher,
    pub(crate) splitter_hash: KeyslotHash,
    pub(crate) digest_hash: KeyslotHash,
}

/// Why a keyslot of this plan can neither be opened nor sealed where nothing is allowed: the first
/// of `Argon2`, `Cipher`, `Hash` and `KeySize`, or None. `open` and `seal` refuse exactly these
/// plans, by the same judging.
pub fn refusal(plan: &SlotPlan<'_>) -> Option<SlotFault>
    ensures { result ≡ slot_refusal plan.now }
{
    refusal_within(plan, Allowed::NOTHING)
}

/// The same where so much is allowed, as `open_within` and `seal_within` refuse: `Argon2` where
/// Argon2 takes more memory, or less than 8 KiB for each lane, or has not 1 to 2^24 - 1 lanes, or a
/// salt of fewer than 8 bytes.
pub fn refusal_within(plan: &SlotPlan<'_>, allowed: Allowed) -> Option<SlotFault>
    ensures { result ≡ slot_refusal_within allowed plan.now }
{
    parameters_within(plan, allowed).err()
}

// The parameters of the plan, or its first refusal.
pub(crate) fn parameters_within<'a>(
    plan: &SlotPlan<'a>,
    allowed: Allowed,
) -> Result<Parameters<'a>, SlotFault>
    ensures refused { IfErr result (λ f. slot_refusal_within allowed plan.now ≡ Some f) }
    ensures accepted { OnOk result (slot_refusal_within allowed plan.now ≡ None) }
    ensures are { IfOk result (λ parameters. AreParameters plan.now parameters) }
{
    if is_argon2_refused(&plan.derivation, allowed.memory) {
        return Err(SlotFault::Argon2);
    }
    let Some(cipher) = cipher_of(&plan.cipher, allowed.older) else {
        return Err(SlotFault::Cipher);
    };
    let (Some(derivation), Some(splitter_hash), Some(digest_hash)) = (
        derivation_of(&plan.derivation, allowed.older),
        known_hash(plan.splitter_hash, allowed.older),
        known_hash(plan.digest.hash, allowed.older),
    ) else {
        return Err(SlotFault::Hash);
    };
    if !is_key_size(cipher, plan.area_key_bytes) {
        return Err(SlotFault::KeySize);
    }
    Ok(Parameters {
        derivation,
        cipher,
        splitter_hash,
        digest_hash,
    })
}

// Whether Argon2 takes more than so many KiB, or its costs or its salt are outside its limits.
fn is_argon2_refused(derivation: &Derivation<'_>, memory: u32) -> bool
    ensures { result ≡ is_argon2_refused memory derivation.now }
{
    match *derivation {
        Derivation::Pbkdf2 { .. } => false,
        Derivation::Argon2(costs) => {
            costs.memory > memory
                || costs.memory / 8 < costs.cpus
                || costs.cpus < 1
                || costs.cpus > 0xFF_FFFF
                || costs.salt.len() < 8
        }
    }
}

// The derivation, where its hash is known.
fn derivation_of<'a>(derivation: &Derivation<'a>, older: bool) -> Option<KeyDerivation<'a>>
    ensures known { is_some result ≡ is_known_derivation older derivation.now }
    ensures is { IfSome result (λ known. IsDerivation derivation.now known) }
{
    match *derivation {
        Derivation::Pbkdf2 {
            hash,
            iterations,
            salt,
        } => {
            let hash = known_hash(hash, older)?;
            Some(KeyDerivation::Pbkdf2(Pbkdf2Costs {
                hash,
                iterations,
                salt,
            }))
        }
        Derivation::Argon2(costs) => Some(KeyDerivation::Argon2(costs)),
    }
}

// The hash that the text names, where it is accepted.
fn known_hash(text: &str, older: bool) -> Option<KeyslotHash>
    ensures known { is_some result ≡ is_known_hash older text.now }
    ensures is { IfSome result (λ hash. hash_by_name text.now ≡ hash) }
{
    KeyslotHash::parse(text, older)
}

// What decrypts the sectors of the area, where its cipher is accepted.
fn cipher_of(cipher: &AreaCipher<'_>, older: bool) -> Option<SectorCipher>
    ensures allowed { is_some result ≡ is_allowed_cipher older cipher.now }
    ensures is { IfSome result (λ known. cipher_of cipher.now ≡ known) }
{
    if is_open_cipher(cipher) {
        return Some(SectorCipher::Xts);
    }
    if !older {
        return None;
    }
    let ivs = older_ivs(cipher)?;
    Some(SectorCipher::Cbc(ivs))
}

fn is_open_cipher(cipher: &AreaCipher<'_>) -> bool
    ensures { result ≡ is_open_cipher cipher.now }
{
    match *cipher {
        AreaCipher::Apart { name, mode } => {
            name == "aes" && (mode == "xts-plain64" || mode == "xts-plain")
        }
        AreaCipher::Whole(text) => text == "aes-xts-plain64" || text == "aes-xts-plain",
    }
}

// The kind of the IVs of a cipher of older disks.
fn older_ivs(cipher: &AreaCipher<'_>) -> Option<IvKind>
    ensures { result ≡ older_ivs cipher.now }
{
    match *cipher {
        AreaCipher::Apart { name: "aes", mode } => ivs_of_mode(mode),
        AreaCipher::Apart { .. } => None,
        AreaCipher::Whole(text) => ivs_of_text(text),
    }
}

fn ivs_of_mode(mode: &str) -> Option<IvKind>
    ensures { result ≡ ivs_of_mode mode.now }
{
    match mode {
        "cbc-essiv:sha256" => Some(IvKind::Essiv),
        "cbc-plain" => Some(IvKind::Plain),
        "cbc-plain64" => Some(IvKind::Plain64),
        _ => None,
    }
}

fn ivs_of_text(text: &str) -> Option<IvKind>
    ensures { result ≡ ivs_of_text text.now }
{
    match text {
        "aes-cbc-essiv:sha256" => Some(IvKind::Essiv),
        "aes-cbc-plain" => Some(IvKind::Plain),
        "aes-cbc-plain64" => Some(IvKind::Plain64),
        _ => None,
    }
}

// Whether a key of the cipher can have so many bytes.
fn is_key_size(cipher: SectorCipher, len: usize) -> bool
    ensures { result ≡ is_size_of cipher len }
{
    match cipher {
        SectorCipher::Xts => len == 32 || len == 64,
        SectorCipher::Cbc(_) => len == 16 || len == 24 || len == 32,
    }
}
