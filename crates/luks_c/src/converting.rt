//! Converting a LUKS1 volume.
ghost use Rattle.std.specs.Prelude.{◌≡◌, ◌≢◌, ◌⊎◌, ◌↔◌, ◌≤◌, ◌<◌, length};
ghost use Rattle.luks_given.specs.Parts.{AreNoParts, volume};
ghost use Rattle.luks_c_answers.specs.Plans.{WantsEither};
ghost use Rattle.luks_c_answers.specs.Asked.{payload_of};
ghost use Rattle.luks_c_headers.specs.ConvertAnswers.{AnswersConvert};

use luks_c_answers::{LuksPlan, USAGE, data_of};
use luks_c_headers::convert_given;
use luks_given::{Part, PlannedCall, are_parts};
use std::alloc::Global;
use std::marker::Brand;

/// Plans a detached LUKS2 header of the LUKS1 volume that is the source, on the target. Of both ranges are
/// given; `luks_apply_bytes` says what a plan is.
///
/// It takes 128 random bytes. Takes memory for the plan, and for the metadata.
#[unsafe(no_mangle)]
pub extern "C" fn luks_convert_bytes(
    alloc: Global,
    source_parts: &[Part],
    source: &[u8],
    source_total: u64,
    is_detached: bool,
    parts: &[Part],
    held: &[u8],
    total: u64,
    random: &[u8],
    calls: &mut [PlannedCall],
    bytes: &mut [u8],
    told: &mut LuksPlan,
) -> u32
    ensures usage { result ≡ 101 ↔ (AreNoParts source_parts.now source.now source_total
        ⊎ AreNoParts parts.now held.now total) }
    ensures answers { result ≢ 101 → AnswersConvert (volume source_parts.now source.now source_total)
        (payload_of is_detached) parts.now (volume parts.now held.now total) total random.now
        (record { calls = calls.old; bytes = bytes.old })
        (record { calls = calls.new; bytes = bytes.new }) told.new result }
    ensures wanted { result ≡ 102
        → WantsEither source_parts.now source_total parts.now total told.new }
{
    *told = LuksPlan::default();
    if !are_parts(source_parts, source, source_total) || !are_parts(parts, held, total) {
        return USAGE;
    }
    let payload = data_of(is_detached);
    convert_given::<Brand, Brand>(
        alloc,
        source_parts,
        source,
        source_total,
        payload,
        parts,
        held,
        total,
        random,
        calls,
        bytes,
        told,
    )
}
