//! Converting a LUKS1 volume.
ghost use Rattle.std.specs.Prelude.{◌≡◌, ◌+◌, ◌^◌, ◌<◌, ◌≤◌, List, Option, IfErr, OnOk, false, length, ℕ, true};
ghost use Rattle.luks_area.specs.Device.{IsSettled, IsUnchanged, is_failure};
ghost use Rattle.luks_area.specs.Ranges.{part, SameBut};
ghost use Rattle.luks1_header.specs.Header1.{luks1_size};
ghost use Rattle.luks_making.specs.Converted.{converted};
ghost use Rattle.luks_making.specs.WrittenArea.{IsWrittenArea};
ghost use Rattle.luks_slot.specs.declared.allowed.Allowed.{Allowed};
ghost use Rattle.luks_reading.specs.Answer.{AnswerWithin, opened_to, refused};
ghost use Rattle.luks_reading.specs.Checked.{WellFormed};
ghost use Rattle.luks_reading.specs.declared.open_fault.OpenFault.TheVariants.{NoSuchSlot};
ghost use Rattle.luks_reading.specs.declared.report.Data.TheVariants.{Elsewhere};
ghost use Rattle.luks_converting.specs.Accepted.{HasAreasInside, IsRead, IsReady};
ghost use Rattle.luks_converting.specs.ConvertFaults.{is_convert_failure};
ghost use Rattle.luks_converting.specs.Converted.{json_size, IsConverted, IsOfConverted, WritesFirstLast, WritesOverCleared};
ghost use Rattle.luks_converting.specs.Outcome.{IsAnsweredFault, IsConvertFault, IsConvertible};
ghost use Rattle.luks_converting.specs.Source.{header_members, is_enabled};
ghost use Rattle.luks_writing.specs.TwoDevices.{CountsEither};
ghost use Rattle.luks_converting.specs.declared.convert_fault.ConvertFault.{ConvertFault as TheFault};

use crate::areas::copy_areas;
use crate::convert_fault::ConvertFault;
use crate::copies::{COPY_SIZE, FIRST_SALT, SECOND_SALT, taken_salt, write_converted_copy};
use crate::judging::judge;
use crate::metadata::new_json;
use crate::source::{SourceHeader, accepted_source};
use luks_area::{Device, DeviceFault};
use luks_reading::Data;
use luks_writing::clear_places;
use std::alloc::Global;

/// How many random bytes `convert` takes: the salts of the first and the second copy of the header.
pub const CONVERT_RANDOM: u64 = 128;

/// Makes a detached LUKS2 header of the LUKS1 volume of the source and writes it to the target, from
/// its start on. What stood there before is overwritten without question. The source never changes.
///
/// `payload` says where the source's payload lies. Each enabled keyslot keeps its number, its salt and
/// its iterations, and opens by its passphrase as before; the digest of the volume key stays, and the
/// payload's place.
///
/// First the first sectors of the places of both copies become zeros, with one flush: an older header
/// that counts there would still count while its key areas are overwritten. Then the key areas are
/// written, each with zeros to its end, then the second copy of the header, then the first, a flush
/// after each. Takes memory for the metadata, before the first write.
pub fn convert<S: Device, T: Device>(
    alloc: Global,
    source: &mut S,
    payload: Data,
    target: &mut T,
    random: &[u8],
) -> Result<(), ConvertFault>
    requires source_room { S.failed source.old + 1 < 2 ^ 64 }
    requires target_room { T.failed target.old + 1 < 2 ^ 64 }
    requires settled { T.tells → IsSettled T.unsettled target.old }

    // The devices: `Device` exactly where a call of one of the two failed.
    ensures count { CountsEither is_convert_failure result (S.failed source.old)
        (S.failed source.new) (T.failed target.old) (T.failed target.new) }
    ensures kept { IsUnchanged S.tells S.size S.bytes S.unsettled source.old source.new }
    ensures size { T.size target.new ≡ T.size target.old }
    ensures settled { T.tells → OnOk result (IsSettled T.unsettled target.new) }

    // The first fault that stands, or a failed allocation, and then nothing of the target changed.
    ensures fault { S.tells → IfErr result
        (IsAnsweredFault (S.bytes source.old) payload (T.size target.old) random.now) }
    ensures faultless { S.tells → OnOk result
        (IsConvertible (S.bytes source.old) payload (T.size target.old) random.now) }
    ensures refused { IfErr result (λ f. is_convert_failure f ≡ false
        → IsUnchanged T.tells T.size T.bytes T.unsettled target.old target.new) }
    ensures same { S.tells → T.tells → (f : TheFault)
        → IsConvertFault (S.bytes source.old) payload (T.size target.old) random.now f
        → T.bytes target.new ≡ T.bytes target.old }

    // Which bytes may have changed, also where a device failed.
    ensures rest { S.tells → T.tells
        → SameBut (IsOfConverted (part (S.bytes source.old) 0 luks1_size))
        (T.bytes target.old) (T.bytes target.new) }

    // The first sectors of both copies' places are cleared first, and no header counts where its own
    // is cleared (`cleared_counts_no_more`). The key areas are written next, then the second copy;
    // until all these stand nothing counts at the first copy's place, which is written last.
    ensures order { S.tells → T.tells → WritesFirstLast (S.bytes source.old) random.now
        (T.bytes target.old) (T.bytes target.new) }

    // The header that was made: each enabled keyslot opens as it did, whatever is
    // allowed, and there is no other.
    ensures converted { S.tells → T.tells → OnOk result
        (IsConverted (S.bytes source.old) random.now (T.bytes target.old) (T.bytes target.new)) }
    ensures well_formed { S.tells → T.tells
        → OnOk result (WellFormed (T.bytes target.new) Elsewhere) }
    ensures opens { S.tells → T.tells → OnOk result ((allowed : Allowed) (n : ℕ) (p : List ℕ)
        (found : Option (List ℕ))
        → is_enabled (part (S.bytes source.old) 0 luks1_size) n ≡ true
        → AnswerWithin allowed (S.bytes source.old) n p (opened_to found)
        → AnswerWithin allowed (T.bytes target.new) n p (opened_to found)) }
    ensures absent { S.tells → T.tells → OnOk result ((allowed : Allowed) (n : ℕ) (p : List ℕ)
        → is_enabled (part (S.bytes source.old) 0 luks1_size) n ≡ false
        → AnswerWithin allowed (T.bytes target.new) n p (refused NoSuchSlot)) }
{
    let header = accepted_source(alloc, source, payload)?;
    judge(&header, target.len(), random)?;
    match new_json(alloc, &header) {
        Ok(json) => {
            write_converted(source, target, &header, random, json.as_slice())?;
            Ok(())
        }
        Err(_) => Err(ConvertFault::Memory),
    }
}

/// Clears the places of both copies, and writes the new header, whose JSON area was made.
fn write_converted<S: Device, T: Device>(
    source: &mut S,
    target: &mut T,
    header: &SourceHeader,
    random: &[u8],
    json: &[u8],
) -> Result<(), DeviceFault>
    requires read { IsRead header.now }
    requires ready { IsReady header.now.bytes (T.size target.old) random.now }
    requires there { HasAreasInside header.now.bytes (S.size source.old) }
    requires json { IsWrittenArea json_size (converted (header_members header.now.bytes)) json.now }
    requires source_room { S.failed source.old + 1 < 2 ^ 64 }
    requires target_room { T.failed target.old + 1 < 2 ^ 64 }
    requires settled { T.tells → IsSettled T.unsettled target.old }
    ensures count { CountsEither is_failure result (S.failed source.old) (S.failed source.new)
        (T.failed target.old) (T.failed target.new) }
    ensures kept { IsUnchanged S.tells S.size S.bytes S.unsettled source.old source.new }
    ensures size { T.size target.new ≡ T.size target.old }
    ensures settled { T.tells → OnOk result (IsSettled T.unsettled target.new) }
    ensures rest { T.tells → SameBut (IsOfConverted header.now.bytes)
        (T.bytes target.old) (T.bytes target.new) }
    ensures order { S.tells → T.tells
        → header.now.bytes ≡ part (S.bytes source.old) 0 luks1_size
        → WritesFirstLast (S.bytes source.old) random.now
        (T.bytes target.old) (T.bytes target.new) }
    ensures converted { S.tells → T.tells
        → header.now.bytes ≡ part (S.bytes source.old) 0 luks1_size
        → OnOk result (IsConverted (S.bytes source.old) random.now
        (T.bytes target.old) (T.bytes target.new)) }
{
    clear_places(target, COPY_SIZE)?;
    write_over_cleared(source, target, header, random, json)
}

/// Writes the new header over cleared places: the key areas, the second copy, the first.
fn write_over_cleared<S: Device, T: Device>(
    source: &mut S,
    target: &mut T,
    header: &SourceHeader,
    random: &[u8],
    json: &[u8],
) -> Result<(), DeviceFault>
    requires read { IsRead header.now }
    requires ready { IsReady header.now.bytes (T.size target.old) random.now }
    requires there { HasAreasInside header.now.bytes (S.size source.old) }
    requires json { IsWrittenArea json_size (converted (header_members header.now.bytes)) json.now }
    requires source_room { S.failed source.old + 1 < 2 ^ 64 }
    requires target_room { T.failed target.old + 1 < 2 ^ 64 }
    requires settled { T.tells → IsSettled T.unsettled target.old }
    ensures count { CountsEither is_failure result (S.failed source.old) (S.failed source.new)
        (T.failed target.old) (T.failed target.new) }
    ensures kept { IsUnchanged S.tells S.size S.bytes S.unsettled source.old source.new }
    ensures size { T.size target.new ≡ T.size target.old }
    ensures settled { T.tells → OnOk result (IsSettled T.unsettled target.new) }
    ensures rest { T.tells → SameBut (IsOfConverted header.now.bytes)
        (T.bytes target.old) (T.bytes target.new) }
    ensures order { S.tells → T.tells
        → header.now.bytes ≡ part (S.bytes source.old) 0 luks1_size
        → WritesOverCleared (S.bytes source.old) random.now
        (T.bytes target.old) (T.bytes target.new) }
    ensures converted { S.tells → T.tells
        → header.now.bytes ≡ part (S.bytes source.old) 0 luks1_size
        → OnOk result (IsConverted (S.bytes source.old) random.now
        (T.bytes target.old) (T.bytes target.new)) }
{
    copy_areas(source, target, header)?;
    let uuid = header.fields.common.uuid.as_str();
    let second = taken_salt(random, SECOND_SALT);
    write_converted_copy(target, COPY_SIZE, uuid, second, json)?;
    let first = taken_salt(random, FIRST_SALT);
    write_converted_copy(target, 0, uuid, first, json)?;
    Ok(())
}
