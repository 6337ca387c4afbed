//! Restoring a backup onto a volume.
ghost use Rattle.std.specs.Prelude.{◌≡◌, ◌≢◌};
ghost use Rattle.luks_given.specs.Parts.{AreGiven};
ghost use Rattle.luks_c_answers.specs.Plans.{WantsEither};
ghost use Rattle.luks_c_headers.specs.KeepAnswers.{AnswersRestore, over_asked};

use luks_c_answers::{LuksPlan, MEMORY, give_plan, restore_number, tell_either};
use luks_given::{Given, GivenParts, Part, PlannedCall, PlannedWrites};
use luks_keeping::{Over, RestoreFault, restore};
use luks_reading::Data;
use std::alloc::Global;

/// Plans the restoring of the backup, the source, onto the volume, as `convert_given` plans a header.
pub fn restore_given<S: Given, K: Given>(
    alloc: Global,
    source_parts: &[Part],
    source: &[u8],
    source_total: u64,
    parts: &[Part],
    held: &[u8],
    total: u64,
    payload: Data,
    over: Over,
    calls: &mut [PlannedCall],
    bytes: &mut [u8],
    told: &mut LuksPlan,
) -> u32
    requires source_parts { S.parts ≡ source_parts.now }
    requires source_given { AreGiven source_parts.now source.now source_total S.bytes }
    requires parts { K.parts ≡ parts.now }
    requires given { AreGiven parts.now held.now total K.bytes }
    requires source_told { told.old.source_beyond.len ≡ 0 }
    requires target_told { told.old.beyond.len ≡ 0 }
    ensures own { result ≢ 101 }
    ensures answers { AnswersRestore S.bytes payload over K.parts K.bytes total
        (record { calls = calls.old; bytes = bytes.old })
        (record { calls = calls.new; bytes = bytes.new }) told.new result }
    ensures wanted { result ≡ 102
        → WantsEither S.parts source_total K.parts total told.new }
{
    let mut from: GivenParts<'_, S> = GivenParts::new(source_parts, source, source_total);
    let Ok(mut device) = PlannedWrites::<K>::new(alloc, parts, held, total) else {
        return MEMORY;
    };
    match restore(alloc, &mut from, &mut device, payload, over) {
        Ok(()) => give_plan(device, calls, bytes, told),
        Err(RestoreFault::Device) => tell_either(&from, &device, told),
        Err(fault) => restore_number(&fault),
    }
}

/// What the backup may be restored over.
pub fn over_of(is_any: bool) -> Over
    ensures { result ≡ over_asked is_any }
{
    if is_any {
        Over::AnyVolume
    } else {
        Over::SameVolume
    }
}
