//! Restoring a backup onto a volume.
ghost use Rattle.std.specs.Prelude.{◌≡◌, ◌≢◌, ◌⊎◌, ◌↔◌, ◌≤◌, ◌<◌, length};
ghost use Rattle.luks_given.specs.Parts.{AreNoParts, volume};
ghost use Rattle.luks_c_answers.specs.Plans.{WantsEither};
ghost use Rattle.luks_c_answers.specs.Asked.{payload_of};
ghost use Rattle.luks_c_headers.specs.KeepAnswers.{AnswersRestore, over_asked};

use luks_c_answers::{LuksPlan, USAGE, data_of};
use luks_c_headers::{over_of, restore_given};
use luks_given::{Part, PlannedCall, are_parts};
use std::alloc::Global;
use std::marker::Brand;

/// Plans the restoring of the backup, which is the source: its header and key areas at their places, on the
/// volume. Of both ranges are given; `luks_apply_bytes` says what a plan is.
///
/// If `is_over_any`, another volume's header is overwritten too. Takes memory for the plan, and for
/// the metadata of both.
#[unsafe(no_mangle)]
pub extern "C" fn luks_restore_bytes(
    alloc: Global,
    source_parts: &[Part],
    source: &[u8],
    source_total: u64,
    parts: &[Part],
    held: &[u8],
    total: u64,
    is_detached: bool,
    is_over_any: bool,
    calls: &mut [PlannedCall],
    bytes: &mut [u8],
    told: &mut LuksPlan,
) -> u32
    ensures usage { result ≡ 101 ↔ (AreNoParts source_parts.now source.now source_total
        ⊎ AreNoParts parts.now held.now total) }
    ensures answers { result ≢ 101 → AnswersRestore (volume source_parts.now source.now source_total)
        (payload_of is_detached) (over_asked is_over_any) parts.now (volume parts.now held.now total) total
        (record { calls = calls.old; bytes = bytes.old })
        (record { calls = calls.new; bytes = bytes.new }) told.new result }
    ensures wanted { result ≡ 102
        → WantsEither source_parts.now source_total parts.now total told.new }
{
    *told = LuksPlan::default();
    if !are_parts(source_parts, source, source_total) || !are_parts(parts, held, total) {
        return USAGE;
    }
    let payload = data_of(is_detached);
    let over = over_of(is_over_any);
    restore_given::<Brand, Brand>(
        alloc,
        source_parts,
        source,
        source_total,
        parts,
        held,
        total,
        payload,
        over,
        calls,
        bytes,
        told,
    )
}
