//! Making a backup of a volume's header.
ghost use Rattle.std.specs.Prelude.{◌≡◌, ◌↔◌, ◌+◌, ◌^◌, ◌<◌, ◌≤◌, List, ℕ, IfErr, IfOk, OnOk, false, replicate, slice_index};
ghost use Rattle.luks_area.specs.Device.{CountsFailure, IsSettled, IsUnchanged, is_failure};
ghost use Rattle.luks_area.specs.Ranges.{part, IsAt, SameBut};
ghost use Rattle.luks_writing.specs.Cleared.{cleared_size};
ghost use Rattle.luks_writing.specs.TwoDevices.{CountsEither};
ghost use Rattle.luks2_header.specs.Selection.{Choice, Chosen};
ghost use Rattle.luks_slot.specs.declared.allowed.Allowed.{Allowed as TheAllowed};
ghost use Rattle.luks_reading.specs.Answer.{AnswerWithin, Opened};
ghost use Rattle.luks_reading.specs.Checked.{WellFormed};
ghost use Rattle.luks_reading.specs.Header.{IsAcceptedHeader, IsHeader};
ghost use Rattle.luks_reading.specs.declared.report.Data.TheVariants.{Elsewhere};
ghost use Rattle.luks_keeping.specs.Backup.{IsBackup, IsBackupSize};
ghost use Rattle.luks_keeping.specs.BackupOrder.{BacksUpInTurn};
ghost use Rattle.luks_keeping.specs.BackupFaults.{CanBackUp, IsAnsweredBackup, IsBackupFault, IsOfBackup, is_backup_failure};
ghost use Rattle.luks_keeping.specs.Judged.{HasFields};
ghost use Rattle.luks_keeping.specs.Laid.{IsShortFor};
ghost use Rattle.luks_keeping.specs.Places.{AreApart, AreInside, HoldsAll, IsOfPlaces, WritesAnew};
ghost use Rattle.luks_keeping.specs.declared.backup_fault.BackupFault.{BackupFault as TheFault};

use crate::accepted::accepted_header;
use crate::backup_fault::BackupFault;
use crate::copying::copy_places;
use crate::judging::judge_header;
use crate::places::Places;
use crate::size::backup_size;
use crate::slots::places_of;
use crate::wiping::wipe;
use luks_area::{Device, DeviceFault};
use luks_reading::{Data, Header};
use std::alloc::Global;

/// Writes a backup of the header of the source's volume to the target, from its start on: the header
/// and the key areas of the keyslots that are in use, byte by byte at their places, with zeros between
/// them. What stood there before is overwritten without question. The source never changes.
///
/// `payload` says where the source's payload lies. Of a LUKS1 volume the backup reaches to the payload, or
/// to the end of the last key area where the payload lies elsewhere; of a LUKS2 volume to the end of the
/// key areas' region. If only the second copy of a LUKS2 header is sound, the first sector of the
/// first copy's place holds zeros.
///
/// First the sector at 0 becomes zeros, and those where a second copy may begin, then the whole range, then
/// the key areas are written, then the second copy of the header, then the first, a flush after each: so an
/// older header there counts no more before a key area of it is overwritten. Takes memory for the
/// metadata, before the first write.
pub fn backup<S: Device, T: Device>(
    alloc: Global,
    source: &mut S,
    payload: Data,
    target: &mut T,
) -> Result<(), BackupFault>
    requires source_room { S.failed source.old + 1 < 2 ^ 64 }
    requires target_room { T.failed target.old + 1 < 2 ^ 64 }
    requires settled { T.tells → IsSettled T.unsettled target.old }

    // The devices: `Device` exactly where a call of one of the two failed.
    ensures count { CountsEither is_backup_failure result (S.failed source.old)
        (S.failed source.new) (T.failed target.old) (T.failed target.new) }
    ensures kept { IsUnchanged S.tells S.size S.bytes S.unsettled source.old source.new }
    ensures size { T.size target.new ≡ T.size target.old }
    ensures settled { T.tells → OnOk result (IsSettled T.unsettled target.new) }

    // The first fault that stands, or a failed allocation, and then nothing of the target changed.
    ensures fault { S.tells → IfErr result
        (IsAnsweredBackup (S.bytes source.old) payload (T.size target.old)) }
    ensures faultless { S.tells → OnOk result
        (CanBackUp (S.bytes source.old) payload (T.size target.old)) }
    ensures refused { IfErr result (λ f. is_backup_failure f ≡ false
        → IsUnchanged T.tells T.size T.bytes T.unsettled target.old target.new) }
    ensures same { S.tells → T.tells → (f : TheFault)
        → IsBackupFault (S.bytes source.old) payload (T.size target.old) f
        → T.bytes target.new ≡ T.bytes target.old }

    // Which bytes may have changed, also where a device failed.
    ensures rest { S.tells → T.tells
        → SameBut (IsOfBackup (S.bytes source.old) payload) (T.bytes target.old) (T.bytes target.new) }

    ensures order { S.tells → T.tells → (c : Choice) (size : ℕ) → Chosen (S.bytes source.old) c
        → IsBackupSize (S.bytes source.old) payload size → BacksUpInTurn (S.bytes source.old) c size
        (T.bytes target.old) (T.bytes target.new) }

    // The backup that was made: a well formed volume, the payload being elsewhere, of which each
    // keyslot answers as the source's.
    ensures backup { S.tells → T.tells → OnOk result
        (IsBackup (S.bytes source.old) payload (T.bytes target.old) (T.bytes target.new)) }
    ensures well_formed { S.tells → T.tells
        → OnOk result (WellFormed (T.bytes target.new) Elsewhere) }
    ensures answers { S.tells → T.tells → OnOk result ((allowed : TheAllowed) (n : ℕ) (p : List ℕ) (a : Opened)
        → AnswerWithin allowed (S.bytes source.old) n p a
        ↔ AnswerWithin allowed (T.bytes target.new) n p a) }
{
    let header = accepted_header(alloc, source, payload)?;
    let size = fitting_size(&header, payload, target.len())?;
    judge_header(&header, Data::Elsewhere, size)?;
    let places = places_of(&header);
    write_backup(source, target, &places, size)?;
    Ok(())
}

/// How many bytes the backup of the source's volume has, so that a target can be made for it; refused as
/// `backup` is, by `TooSmall` where no device has so many.
pub fn backup_length<S: Device>(
    alloc: Global,
    source: &mut S,
    payload: Data,
) -> Result<u64, BackupFault>
    requires { S.failed source.old + 1 < 2 ^ 64 }
    ensures unchanged { IsUnchanged S.tells S.size S.bytes S.unsettled source.old source.new }
    ensures count { CountsFailure is_backup_failure result
        (S.failed source.old) (S.failed source.new) }
    ensures length { S.tells → IfOk result (IsBackupSize (S.bytes source.old) payload) }
    ensures well_formed { S.tells → OnOk result (WellFormed (S.bytes source.old) payload) }
    ensures fault { S.tells → IfErr result
        (IsAnsweredBackup (S.bytes source.old) payload 18446744073709551615) }
{
    let header = accepted_header(alloc, source, payload)?;
    fitting_size(&header, payload, u64::MAX)
}

/// The bytes of the backup, which a device of `total` bytes holds.
pub(crate) fn fitting_size(header: &Header, payload: Data, total: u64) -> Result<u64, BackupFault>
    requires fields { HasFields header.now }
    requires accepted { IsAcceptedHeader header.now }
    ensures within { IfOk result (λ size. size ≤ total) }
    ensures size { (v : List ℕ) → IsHeader v header.now → IfOk result (IsBackupSize v payload) }
    ensures short { (v : List ℕ) → IsHeader v header.now
        → IfErr result (IsShortFor v payload total) }
    ensures own { IfErr result (λ f. f ≡ BackupFault.TooSmall) }
{
    match backup_size(header, payload) {
        Some(size) => {
            if size <= total {
                Ok(size)
            } else {
                Err(BackupFault::TooSmall)
            }
        }
        None => Err(BackupFault::TooSmall),
    }
}

/// Writes zeros over the first `size` bytes of the target, and then what is at these places of the source,
/// each at its own place, a flush after each.
pub fn write_backup<S: Device, T: Device>(
    source: &mut S,
    target: &mut T,
    places: &Places,
    size: u64,
) -> Result<(), DeviceFault>
    requires lead { places.now.lead ≤ places.now.first }
    requires apart { AreApart places.now }
    requires there { AreInside places.now (S.size source.old) }
    requires within { AreInside places.now size }
    requires room { size ≤ T.size target.old }
    requires source_room { S.failed source.old + 1 < 2 ^ 64 }
    requires target_room { T.failed target.old + 1 < 2 ^ 64 }
    requires settled { T.tells → IsSettled T.unsettled target.old }
    ensures count { CountsEither is_failure result (S.failed source.old) (S.failed source.new)
        (T.failed target.old) (T.failed target.new) }
    ensures kept { IsUnchanged S.tells S.size S.bytes S.unsettled source.old source.new }
    ensures size { T.size target.new ≡ T.size target.old }
    ensures settled { T.tells → OnOk result (IsSettled T.unsettled target.new) }
    ensures rest { T.tells → SameBut (IsAt 0 size) (T.bytes target.old) (T.bytes target.new) }
    ensures order { S.tells → T.tells → cleared_size ≤ size → WritesAnew places.now size
        (S.bytes source.old) (T.bytes target.old) (T.bytes target.new) }
    ensures copied { S.tells → T.tells
        → OnOk result (HoldsAll places.now (S.bytes source.old) (T.bytes target.new)) }
    ensures lead { T.tells → OnOk result
        (part (T.bytes target.new) 0 places.now.lead ≡ replicate places.now.lead 0) }
    ensures zeros { T.tells → OnOk result ((p : ℕ) → p < size → (IsOfPlaces places.now p → ⊥)
        → slice_index (T.bytes target.new) p ≡ 0) }
{
    wipe(target, size)?;
    copy_places(source, target, places)
}
