//! Making a backup of a volume's header.
ghost use Rattle.std.specs.Prelude.{◌≡◌, ◌≢◌, ◌⊎◌, ◌↔◌, ◌≤◌, ◌<◌, length};
ghost use Rattle.luks_given.specs.Parts.{AreGiven, AreNoParts, IsWanted, volume};
ghost use Rattle.luks_c_answers.specs.Plans.{WantsEither};
ghost use Rattle.luks_c_answers.specs.Asked.{payload_of};
ghost use Rattle.luks_c_headers.specs.KeepAnswers.{AnswersBackup};
ghost use Rattle.luks_c.specs.LengthAnswers.{AnswersLength};

use luks_c_answers::{BEYOND, DONE, LuksPlan, USAGE, backup_number, data_of};
use luks_c_headers::backup_given;
use luks_given::{Given, GivenParts, Part, PlannedCall, are_parts};
use luks_keeping::{BackupFault, backup_length};
use luks_reading::Data;
use std::alloc::Global;
use std::marker::Brand;

/// What `luks_backup_length_bytes` tells.
#[repr(C)]
#[derive(Clone, Copy, Drop, Default)]
pub struct LuksLength {
    /// How many bytes the backup has.
    pub bytes: u64,
    /// With the answer BEYOND, the range that has to be given.
    pub beyond: Part,
}

/// Plans a backup of the header of the source: the header and the key areas in use at their places, from
/// the start of the target on. Of both volumes ranges are given; `luks_apply_bytes` says what a plan is.
///
/// Takes memory for the plan, and for the metadata.
#[unsafe(no_mangle)]
pub extern "C" fn luks_backup_bytes(
    alloc: Global,
    source_parts: &[Part],
    source: &[u8],
    source_total: u64,
    is_detached: bool,
    parts: &[Part],
    held: &[u8],
    total: u64,
    calls: &mut [PlannedCall],
    bytes: &mut [u8],
    told: &mut LuksPlan,
) -> u32
    ensures usage { result ≡ 101 ↔ (AreNoParts source_parts.now source.now source_total
        ⊎ AreNoParts parts.now held.now total) }
    ensures answers { result ≢ 101 → AnswersBackup (volume source_parts.now source.now source_total)
        (payload_of is_detached) parts.now (volume parts.now held.now total) total
        (record { calls = calls.old; bytes = bytes.old })
        (record { calls = calls.new; bytes = bytes.new }) told.new result }
    ensures wanted { result ≡ 102
        → WantsEither source_parts.now source_total parts.now total told.new }
{
    *told = LuksPlan::default();
    if !are_parts(source_parts, source, source_total) || !are_parts(parts, held, total) {
        return USAGE;
    }
    let payload = data_of(is_detached);
    backup_given::<Brand, Brand>(
        alloc,
        source_parts,
        source,
        source_total,
        payload,
        parts,
        held,
        total,
        calls,
        bytes,
        told,
    )
}

/// Tells how many bytes the backup has of the volume of `total` bytes of which these ranges are given, so that
/// a target can be made for it.
///
/// Takes memory for the metadata of LUKS2 alone.
#[unsafe(no_mangle)]
pub extern "C" fn luks_backup_length_bytes(
    alloc: Global,
    parts: &[Part],
    held: &[u8],
    total: u64,
    is_detached: bool,
    told: &mut LuksLength,
) -> u32
    ensures usage { result ≡ 101 ↔ AreNoParts parts.now held.now total }
    ensures answers { result ≢ 101 → AnswersLength (volume parts.now held.now total)
        (payload_of is_detached) told.new.bytes result }
    ensures wanted { result ≡ 102 → IsWanted parts.now total told.new.beyond }
{
    *told = LuksLength::default();
    if !are_parts(parts, held, total) {
        return USAGE;
    }
    length_given::<Brand>(alloc, parts, held, total, data_of(is_detached), told)
}

/// The length for the volume `K`, of which these ranges are given.
fn length_given<K: Given>(
    alloc: Global,
    parts: &[Part],
    held: &[u8],
    total: u64,
    payload: Data,
    told: &mut LuksLength,
) -> u32
    requires parts { K.parts ≡ parts.now }
    requires given { AreGiven parts.now held.now total K.bytes }
    ensures own { result ≢ 101 }
    ensures answers { AnswersLength K.bytes payload told.new.bytes result }
    ensures wanted { result ≡ 102 → IsWanted K.parts total told.new.beyond }
{
    let mut device: GivenParts<'_, K> = GivenParts::new(parts, held, total);
    match backup_length(alloc, &mut device, payload) {
        Ok(bytes) => {
            told.bytes = bytes;
            DONE
        }
        Err(BackupFault::Device) => {
            told.beyond = device.wanted();
            BEYOND
        }
        Err(fault) => backup_number(&fault),
    }
}
