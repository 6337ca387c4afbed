//! Making a volume.
ghost use Rattle.std.specs.Prelude.{◌≡◌, ◌≢◌, ◌⊎◌, ◌↔◌, ◌==◌, not, length, MatchOption, Option};
ghost use Rattle.luks_kdf.specs.declared.hash_name.HashName.{HashName as TheHash};
ghost use Rattle.luks_making.specs.declared.derivation.NewDerivation.{NewDerivation as Chosen};
ghost use Rattle.luks_formatting.specs.declared.given.Given.{Given as Whole};
ghost use Rattle.luks_reading.specs.declared.format.Format.{Format as TheFormat};
ghost use Rattle.luks_given.specs.Parts.{AreGiven, AreNoParts, IsWanted, volume};
ghost use Rattle.luks_c_answers.specs.Asked.{allowed_of, payload_of};
ghost use Rattle.luks_c_answers.specs.ChoiceAsked.{IsNoChoice};
ghost use Rattle.luks_c.specs.GivenAsked.{IsGivenBy};
ghost use Rattle.luks_c.specs.FormatAnswers.{AnswersChosen, AnswersFormat1, AnswersFormat2, AnswersNumbered, IsFormat, IsNoHash, IsUnmade, hash_number};

use crate::giving::{LuksEncryption, cipher_of, given_of};
use luks_c_answers::{
    LuksDerivation, LuksPlan, MEMORY, USAGE, chosen_of, format_number, give_plan, tell_wanted,
};
use luks_formatting::{Given as Layout, format1_as, format2_as};
use luks_given::{Given, Part, PlannedCall, PlannedWrites, are_parts};
use luks_reading::Allowed;
use luks_volume::{Format, FormatFault, HashName, NewDerivation, Passphrase};
use std::alloc::Global;
use std::marker::Brand;

/// Plans a LUKS1 volume whose keyslot 0 opens by the passphrase. It replaces the volume of `total`
/// bytes whose ranges are given; `luks_apply_bytes` says what a plan is.
///
/// The payload begins at the `sector` of 512 bytes, or at its usual place if that is 2^64 - 1. The volume key
/// is `key` if `is_keyed`. The uuid, the label and the subsystem are the given texts; an empty one isn't given,
/// and LUKS1 has neither of the last two. The hash is 1 for SHA-1, 2 for SHA-256, 3 for SHA-512. It takes 80
/// random bytes and 4000 for each byte of the volume key, and memory for the plan.
#[unsafe(no_mangle)]
pub extern "C" fn luks_format1_bytes(
    alloc: Global,
    parts: &[Part],
    held: &[u8],
    total: u64,
    is_detached: bool,
    sector: u64,
    is_keyed: bool,
    key: &[u8],
    uuid: &[u8],
    label: &[u8],
    subsystem: &[u8],
    encryption: &LuksEncryption,
    hash: u32,
    iterations: u32,
    passphrase: &[u8],
    random: &[u8],
    calls: &mut [PlannedCall],
    bytes: &mut [u8],
    told: &mut LuksPlan,
) -> u32
    ensures usage { result ≡ 101 ↔ IsUnmade parts.now held.now total hash encryption.now.cipher
        uuid.now label.now subsystem.now }
    ensures answers { result ≢ 101 → AnswersNumbered hash iterations
        (IsGivenBy (payload_of is_detached) sector is_keyed key.now uuid.now label.now subsystem.now encryption.now)
        (λ (given : Whole) (format : TheFormat).
        AnswersFormat1 parts.now (volume parts.now held.now total) total given
        (not (encryption.now.older == 0)) format passphrase.now random.now
        (record { calls = calls.old; bytes = bytes.old })
        (record { calls = calls.new; bytes = bytes.new }) told.new result) }
    ensures wanted { result ≡ 102 → IsWanted parts.now total told.new.beyond }
{
    *told = LuksPlan::default();
    let Some(cipher) = cipher_of(encryption.cipher) else {
        return USAGE;
    };
    let Ok(given) = given_of(
        is_detached,
        sector,
        is_keyed,
        key,
        uuid,
        label,
        subsystem,
        encryption,
        cipher,
    ) else {
        return USAGE;
    };
    let older = encryption.older != 0;
    match format_of(parts, held, total, hash, iterations) {
        Some(format) => make1::<Brand>(
            alloc, parts, held, total, &given, older, &format, passphrase, random, calls, bytes,
            told,
        ),
        None => USAGE,
    }
}

/// The same by LUKS2, which takes 128 random bytes more, and memory for its metadata. The keyslot is derived
/// as is chosen, and Argon2 may take `memory` KiB; the random bytes are those of any choice.
#[unsafe(no_mangle)]
pub extern "C" fn luks_format2_bytes(
    alloc: Global,
    parts: &[Part],
    held: &[u8],
    total: u64,
    is_detached: bool,
    sector: u64,
    is_keyed: bool,
    key: &[u8],
    uuid: &[u8],
    label: &[u8],
    subsystem: &[u8],
    encryption: &LuksEncryption,
    hash: u32,
    iterations: u32,
    derivation: &LuksDerivation,
    passphrase: &[u8],
    memory: u32,
    random: &[u8],
    calls: &mut [PlannedCall],
    bytes: &mut [u8],
    told: &mut LuksPlan,
) -> u32
    ensures usage { result ≡ 101 ↔ (IsNoChoice derivation.now ⊎ IsUnmade parts.now held.now total
        hash encryption.now.cipher uuid.now label.now subsystem.now) }
    ensures answers { result ≢ 101 → AnswersNumbered hash iterations
        (IsGivenBy (payload_of is_detached) sector is_keyed key.now uuid.now label.now subsystem.now encryption.now)
        (λ (given : Whole) (format : TheFormat). AnswersChosen derivation.now (λ (chosen : Option Chosen).
        AnswersFormat2 parts.now (volume parts.now held.now total) total given format chosen
        (allowed_of memory encryption.now.older) passphrase.now random.now (record { calls = calls.old; bytes = bytes.old })
        (record { calls = calls.new; bytes = bytes.new }) told.new result)) }
    ensures wanted { result ≡ 102 → IsWanted parts.now total told.new.beyond }
{
    *told = LuksPlan::default();
    let Ok(chosen) = chosen_of(derivation) else {
        return USAGE;
    };
    let Some(cipher) = cipher_of(encryption.cipher) else {
        return USAGE;
    };
    let Ok(given) = given_of(
        is_detached,
        sector,
        is_keyed,
        key,
        uuid,
        label,
        subsystem,
        encryption,
        cipher,
    ) else {
        return USAGE;
    };
    let by_ = Passphrase {
        bytes: passphrase,
        allowed: Allowed {
            memory,
            older: encryption.older != 0,
        },
    };
    match format_of(parts, held, total, hash, iterations) {
        Some(format) => make2::<Brand>(
            alloc, parts, held, total, &given, &format, chosen, &by_, random, calls, bytes, told,
        ),
        None => USAGE,
    }
}

/// The LUKS1 volume, in the place of the volume `K`.
fn make1<K: Given>(
    alloc: Global,
    parts: &[Part],
    held: &[u8],
    total: u64,
    given: &Layout<'_>,
    older: bool,
    format: &Format,
    passphrase: &[u8],
    random: &[u8],
    calls: &mut [PlannedCall],
    bytes: &mut [u8],
    told: &mut LuksPlan,
) -> u32
    requires parts { K.parts ≡ parts.now }
    requires given { AreGiven parts.now held.now total K.bytes }
    requires slot { told.old.slot ≡ 0 }
    ensures own { result ≢ 101 }
    ensures answers { AnswersFormat1 K.parts K.bytes total given.now older format.now passphrase.now random.now
        (record { calls = calls.old; bytes = bytes.old })
        (record { calls = calls.new; bytes = bytes.new }) told.new result }
    ensures wanted { result ≡ 102 → IsWanted K.parts total told.new.beyond }
{
    let Ok(mut device) = PlannedWrites::<K>::new(alloc, parts, held, total) else {
        return MEMORY;
    };
    match format1_as(alloc, &mut device, given, format, passphrase, older, random) {
        Ok(_) => give_plan(device, calls, bytes, told),
        Err(FormatFault::Device) => tell_wanted(&device, told),
        Err(fault) => format_number(&fault),
    }
}

/// The LUKS2 volume.
fn make2<K: Given>(
    alloc: Global,
    parts: &[Part],
    held: &[u8],
    total: u64,
    given: &Layout<'_>,
    format: &Format,
    chosen: Option<NewDerivation>,
    passphrase: &Passphrase<'_>,
    random: &[u8],
    calls: &mut [PlannedCall],
    bytes: &mut [u8],
    told: &mut LuksPlan,
) -> u32
    requires parts { K.parts ≡ parts.now }
    requires given { AreGiven parts.now held.now total K.bytes }
    requires slot { told.old.slot ≡ 0 }
    ensures own { result ≢ 101 }
    ensures answers { AnswersFormat2 K.parts K.bytes total given.now format.now chosen
        passphrase.now.allowed passphrase.now.bytes.now random.now
        (record { calls = calls.old; bytes = bytes.old })
        (record { calls = calls.new; bytes = bytes.new }) told.new result }
    ensures wanted { result ≡ 102 → IsWanted K.parts total told.new.beyond }
{
    let Ok(mut device) = PlannedWrites::<K>::new(alloc, parts, held, total) else {
        return MEMORY;
    };
    match format2_as(
        alloc,
        &mut device,
        given,
        format,
        chosen,
        passphrase,
        random,
    ) {
        Ok(_) => give_plan(device, calls, bytes, told),
        Err(FormatFault::Device) => tell_wanted(&device, told),
        Err(fault) => format_number(&fault),
    }
}

/// How the volume is made, where these are ranges of a volume, and the number is a hash's.
fn format_of(parts: &[Part], held: &[u8], total: u64, hash: u32, iterations: u32) -> Option<Format>
    ensures { MatchOption result (AreNoParts parts.now held.now total ⊎ IsNoHash hash)
        (λ (format : TheFormat). AreGiven parts.now held.now total (volume parts.now held.now total) × IsFormat hash iterations format) }
{
    if !are_parts(parts, held, total) {
        return None;
    }
    Some(Format {
        hash: hash_of(hash)?,
        iterations,
    })
}

/// The hash of this number.
fn hash_of(number: u32) -> Option<HashName>
    ensures { MatchOption result (IsNoHash number) (λ (h : TheHash). hash_number h ≡ number) }
{
    match number {
        1 => Some(HashName::Sha1),
        2 => Some(HashName::Sha256),
        3 => Some(HashName::Sha512),
        _ => None,
    }
}
