//! Making a LUKS2 header of metadata that is still whole.
ghost use Rattle.std.specs.Prelude.{◌≡◌, ◌≢◌, option_map};
ghost use Rattle.luks_given.specs.Parts.{AreGiven};
ghost use Rattle.luks_c_answers.specs.Plans.{WantsEither};
ghost use Rattle.luks_c_headers.specs.RebuildAnswers.{AnswersRebuild};

use luks_c_answers::{LuksPlan, MEMORY, give_plan, rebuild_number, tell_either};
use luks_given::{Given, GivenParts, Part, PlannedCall, PlannedWrites};
use luks_rebuilding::{RebuildFault, Untold, Which, rebuild};
use std::alloc::Global;

/// Plans a detached LUKS2 header of the metadata that is taken of these copies, with this uuid, as
/// `convert_given` does of a LUKS1 volume.
pub fn rebuild_given<S: Given, K: Given>(
    alloc: Global,
    source_parts: &[Part],
    source: &[u8],
    source_total: u64,
    which: Which,
    uuid: Option<&str>,
    parts: &[Part],
    held: &[u8],
    total: u64,
    random: &[u8],
    calls: &mut [PlannedCall],
    bytes: &mut [u8],
    told: &mut LuksPlan,
) -> u32
    requires source_parts { S.parts ≡ source_parts.now }
    requires source_given { AreGiven source_parts.now source.now source_total S.bytes }
    requires parts { K.parts ≡ parts.now }
    requires given { AreGiven parts.now held.now total K.bytes }
    requires source_told { told.old.source_beyond.len ≡ 0 }
    requires target_told { told.old.beyond.len ≡ 0 }
    ensures own { result ≢ 101 }
    ensures answers { AnswersRebuild S.bytes which
        (option_map (λ t. t.now) uuid.entry) K.parts K.bytes total random.now
        (record { calls = calls.old; bytes = bytes.old })
        (record { calls = calls.new; bytes = bytes.new }) told.new result }
    ensures wanted { result ≡ 102
        → WantsEither S.parts source_total K.parts total told.new }
{
    let mut from: GivenParts<'_, S> = GivenParts::new(source_parts, source, source_total);
    let Ok(mut device) = PlannedWrites::<K>::new(alloc, parts, held, total) else {
        return MEMORY;
    };
    match rebuild(
        alloc,
        &mut from,
        &mut device,
        which,
        uuid,
        random,
        &mut Untold,
    ) {
        Ok(()) => give_plan(device, calls, bytes, told),
        Err(RebuildFault::Device) => tell_either(&from, &device, told),
        Err(fault) => rebuild_number(&fault),
    }
}
