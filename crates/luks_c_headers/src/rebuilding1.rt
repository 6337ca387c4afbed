//! Making a LUKS1 header of what is left of one.
ghost use Rattle.std.specs.Prelude.{◌≡◌, ◌≢◌};
ghost use Rattle.luks_given.specs.Parts.{AreGiven};
ghost use Rattle.luks_c_answers.specs.Plans.{WantsEither};
ghost use Rattle.luks_c_headers.specs.RebuildAnswers.{AnswersRebuild1};

use luks_c_answers::{LuksPlan, MEMORY, give_plan, rebuild1_number, tell_either};
use luks_given::{Given, GivenParts, Part, PlannedCall, PlannedWrites};
use luks1_rebuilding::{Given as Fields, Rebuild1Fault, rebuild1};
use std::alloc::Global;

/// Plans a detached LUKS1 header of what is left of one, and of these fields, as `convert_given`
/// does one of a LUKS1 volume.
pub fn rebuild1_given<S: Given, K: Given>(
    alloc: Global,
    source_parts: &[Part],
    source: &[u8],
    source_total: u64,
    fields: &Fields,
    parts: &[Part],
    held: &[u8],
    total: u64,
    calls: &mut [PlannedCall],
    bytes: &mut [u8],
    told: &mut LuksPlan,
) -> u32
    requires source_parts { S.parts ≡ source_parts.now }
    requires source_given { AreGiven source_parts.now source.now source_total S.bytes }
    requires parts { K.parts ≡ parts.now }
    requires given { AreGiven parts.now held.now total K.bytes }
    requires source_told { told.old.source_beyond.len ≡ 0 }
    requires target_told { told.old.beyond.len ≡ 0 }
    ensures own { result ≢ 101 }
    ensures answers { AnswersRebuild1 S.bytes fields.now K.parts K.bytes total
        (record { calls = calls.old; bytes = bytes.old })
        (record { calls = calls.new; bytes = bytes.new }) told.new result }
    ensures wanted { result ≡ 102
        → WantsEither S.parts source_total K.parts total told.new }
{
    let mut from: GivenParts<'_, S> = GivenParts::new(source_parts, source, source_total);
    let Ok(mut device) = PlannedWrites::<K>::new(alloc, parts, held, total) else {
        return MEMORY;
    };
    match rebuild1(&mut from, &mut device, fields) {
        Ok(()) => give_plan(device, calls, bytes, told),
        Err(Rebuild1Fault::Device) => tell_either(&from, &device, told),
        Err(fault) => rebuild1_number(&fault),
    }
}
