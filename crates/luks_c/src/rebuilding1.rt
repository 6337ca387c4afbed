//! Making a LUKS1 header of what is left of one.
ghost use Rattle.std.specs.Prelude.{◌≡◌, ◌≢◌, ◌⊎◌, ◌↔◌, ◌≤◌, ◌<◌, length};
ghost use Rattle.luks_given.specs.Parts.{AreNoParts, volume};
ghost use Rattle.luks_c_answers.specs.Plans.{WantsEither};
ghost use Rattle.luks1_mending.specs.declared.given.Given.{Given as TheGiven};
ghost use Rattle.luks_c_headers.specs.RebuildAnswers.{AnswersRebuild1, AnswersWithFields, IsNoneGivenBy};

use luks_c_answers::{LuksPlan, USAGE};
use luks_c_headers::{NoText, fields_of, rebuild1_given};
use luks_given::{Part, PlannedCall, are_parts};
use std::alloc::Global;
use std::marker::Brand;

/// Plans a detached LUKS1 header of what is left of one in the source, and of what is given, on the
/// target. Of both ranges are given; `luks_apply_bytes` says what a plan is.
///
/// A text has no byte where none is given; a number is 2^32 - 1. Takes memory for the plan.
#[unsafe(no_mangle)]
pub extern "C" fn luks_rebuild1_bytes(
    alloc: Global,
    source_parts: &[Part],
    source: &[u8],
    source_total: u64,
    cipher_name: &[u8],
    cipher_mode: &[u8],
    hash: &[u8],
    uuid: &[u8],
    key_bytes: u32,
    payload: u32,
    parts: &[Part],
    held: &[u8],
    total: u64,
    calls: &mut [PlannedCall],
    bytes: &mut [u8],
    told: &mut LuksPlan,
) -> u32
    ensures usage { result ≡ 101 ↔ (AreNoParts source_parts.now source.now source_total
        ⊎ (AreNoParts parts.now held.now total
        ⊎ IsNoneGivenBy cipher_name.now cipher_mode.now hash.now uuid.now key_bytes payload)) }
    ensures answers { result ≢ 101 → AnswersWithFields cipher_name.now cipher_mode.now hash.now
        uuid.now key_bytes payload (λ (given : TheGiven).
        AnswersRebuild1 (volume source_parts.now source.now source_total) given parts.now (volume parts.now held.now total) total
        (record { calls = calls.old; bytes = bytes.old })
        (record { calls = calls.new; bytes = bytes.new }) told.new result) }
    ensures wanted { result ≡ 102
        → WantsEither source_parts.now source_total parts.now total told.new }
{
    *told = LuksPlan::default();
    if !are_parts(source_parts, source, source_total) || !are_parts(parts, held, total) {
        return USAGE;
    }
    match fields_of(cipher_name, cipher_mode, hash, uuid, key_bytes, payload) {
        Ok(fields) => rebuild1_given::<Brand, Brand>(
            alloc,
            source_parts,
            source,
            source_total,
            &fields,
            parts,
            held,
            total,
            calls,
            bytes,
            told,
        ),
        Err(NoText) => USAGE,
    }
}
