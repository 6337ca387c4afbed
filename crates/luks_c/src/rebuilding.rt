//! Making a LUKS2 header of metadata that is still whole.
ghost use Rattle.std.specs.Prelude.{◌≡◌, ◌≢◌, ◌⊎◌, ◌↔◌, ◌≤◌, ◌<◌, length, List, ℕ, Option};
ghost use Rattle.luks_given.specs.Parts.{AreNoParts, volume};
ghost use Rattle.luks_c_answers.specs.Plans.{WantsEither};
ghost use Rattle.luks_c_headers.specs.RebuildAnswers.{AnswersRebuild, AnswersWithUuid, IsNoText, which_asked};

use luks_c_answers::{LuksPlan, USAGE};
use luks_c_headers::{NoText, copies_asked, rebuild_given, text_of};
use luks_given::{Part, PlannedCall, are_parts};
use std::alloc::Global;
use std::marker::Brand;

/// Plans a detached LUKS2 header of the metadata that is taken of the source, on the target. Of both ranges
/// are given; `luks_apply_bytes` says what a plan is.
///
/// If `is_second`, the metadata is a second copy's; if `size` isn't 0, it is that of a copy of this
/// size. In both cases a header may count. The uuid is empty if none is given. It takes 144 random
/// bytes. Takes memory for the plan, and for the metadata.
#[unsafe(no_mangle)]
pub extern "C" fn luks_rebuild2_bytes(
    alloc: Global,
    source_parts: &[Part],
    source: &[u8],
    source_total: u64,
    is_second: bool,
    size: u64,
    uuid: &[u8],
    parts: &[Part],
    held: &[u8],
    total: u64,
    random: &[u8],
    calls: &mut [PlannedCall],
    bytes: &mut [u8],
    told: &mut LuksPlan,
) -> u32
    ensures usage { result ≡ 101 ↔ (AreNoParts source_parts.now source.now source_total
        ⊎ (AreNoParts parts.now held.now total ⊎ IsNoText uuid.now)) }
    ensures answers { result ≢ 101 → AnswersWithUuid uuid.now (λ (given : Option (List ℕ)).
        AnswersRebuild (volume source_parts.now source.now source_total) (which_asked is_second size) given
        parts.now (volume parts.now held.now total) total random.now
        (record { calls = calls.old; bytes = bytes.old })
        (record { calls = calls.new; bytes = bytes.new }) told.new result) }
    ensures wanted { result ≡ 102
        → WantsEither source_parts.now source_total parts.now total told.new }
{
    *told = LuksPlan::default();
    if !are_parts(source_parts, source, source_total) || !are_parts(parts, held, total) {
        return USAGE;
    }
    match text_of(uuid) {
        Ok(uuid) => {
            let which = copies_asked(is_second, size);
            rebuild_given::<Brand, Brand>(
                alloc,
                source_parts,
                source,
                source_total,
                which,
                uuid,
                parts,
                held,
                total,
                random,
                calls,
                bytes,
                told,
            )
        }
        Err(NoText) => USAGE,
    }
}
