//! Comparing a backup with a volume.
ghost use Rattle.std.specs.Prelude.{◌≡◌, ◌≢◌, ◌⊎◌, ◌↔◌, ◌≤◌, ◌<◌, length};
ghost use Rattle.luks_given.specs.Parts.{AreNoParts, volume};
ghost use Rattle.luks_c_answers.specs.Asked.{payload_of};
ghost use Rattle.luks_c_headers.specs.KeepAnswers.{AnswersCompare, WantsOneOf};

use luks_c_answers::{USAGE, data_of};
use luks_c_headers::{LuksCompared, compare_given};
use luks_given::{Part, are_parts};
use std::alloc::Global;
use std::marker::Brand;

/// Tells how the keyslots of the backup stand to those of the volume, of both of which ranges are given: by
/// number 0 where neither has it, 1 the same, 2 older, 3
/// missing in the backup, 4 removed from the volume. The buffer has to have room for 32 numbers.
///
/// Takes memory for the metadata of both.
#[unsafe(no_mangle)]
pub extern "C" fn luks_compare_bytes(
    alloc: Global,
    backup_parts: &[Part],
    backup: &[u8],
    backup_total: u64,
    parts: &[Part],
    held: &[u8],
    total: u64,
    is_detached: bool,
    keyslots: &mut [u8],
    told: &mut LuksCompared,
) -> u32
    ensures usage { result ≡ 101 ↔ (AreNoParts backup_parts.now backup.now backup_total
        ⊎ (AreNoParts parts.now held.now total ⊎ (length keyslots.old < 32))) }
    ensures answers { result ≢ 101 → AnswersCompare (volume backup_parts.now backup.now backup_total)
        (volume parts.now held.now total) (payload_of is_detached)
        keyslots.old keyslots.new told.new.same_key result }
    ensures wanted { result ≡ 102
        → WantsOneOf backup_parts.now backup_total parts.now total told.new }
{
    *told = LuksCompared::default();
    if !are_parts(backup_parts, backup, backup_total) || !are_parts(parts, held, total) {
        return USAGE;
    }
    if keyslots.len() < 32 {
        return USAGE;
    }
    let payload = data_of(is_detached);
    compare_given::<Brand, Brand>(
        alloc,
        backup_parts,
        backup,
        backup_total,
        parts,
        held,
        total,
        payload,
        keyslots,
        told,
    )
}
