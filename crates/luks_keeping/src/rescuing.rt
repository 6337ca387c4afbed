//! Making a backup of a volume on a disk that can't be read everywhere.
ghost use Rattle.std.specs.Prelude.{◌≡◌, ◌↔◌, ◌+◌, ◌^◌, ◌<◌, ◌≤◌, List, ℕ, IfErr, IfOk, None, OnOk, false, true, replicate, slice_index};
ghost use Rattle.luks_area.specs.Device.{IsSettled, IsUnchanged, is_failure};
ghost use Rattle.luks_area.specs.Ranges.{part, IsAt, SameBut};
ghost use Rattle.luks_writing.specs.Cleared.{cleared_size};
ghost use Rattle.luks2_header.specs.Selection.{Choice, Chosen};
ghost use Rattle.luks_reading.specs.Checked.{WellFormed};
ghost use Rattle.luks_reading.specs.declared.report.Data.TheVariants.{Elsewhere};
ghost use Rattle.luks_keeping.specs.Backup.{IsBackup, IsBackupSize};
ghost use Rattle.luks_keeping.specs.BackupFaults.{CanBackUp, IsAnsweredBackup, IsBackupFault, IsOfBackup, is_backup_failure};
ghost use Rattle.luks_keeping.specs.Places.{AreApart, AreInside, HoldsHeader, IsOfPlaces};
ghost use Rattle.luks_keeping.specs.ReadPlaces.{CopiesReadInTurn, EndsRead, LeavesAreas, WritesReadAnew, lost_by};
ghost use Rattle.luks_keeping.specs.Rescued.{AnswersUnlessLost, CountsRescue, EndsBySource, IsRescue, RescuesInTurn};
ghost use Rattle.luks_keeping.specs.declared.backup_fault.BackupFault.{BackupFault as TheFault};

use crate::accepted::accepted_header;
use crate::backing_up::fitting_size;
use crate::backup_fault::BackupFault;
use crate::copying::copy_header;
use crate::judging::judge_header;
use crate::lost::LostKeyslots;
use crate::places::Places;
use crate::reading_on::{can_fail, rescue_areas};
use crate::slots::places_of;
use crate::wiping::wipe;
use luks_area::{Device, DeviceFault};
use luks_reading::Data;
use std::alloc::Global;

/// Writes a backup as `backup` does, of a volume on a disk that can't be read everywhere: where a read within a
/// key area fails, zeros are in the target for that sector of 512 bytes, counted from the area's start, and the
/// keyslot is told; None where all could be read. The header has to be read.
///
/// The key areas are read by sectors as `backup` reads them, and no sector of one is asked for twice. A fault of
/// the target ends it as it ends `backup`, and the target is written and flushed in the same order.
pub fn rescue<S: Device, T: Device>(
    alloc: Global,
    source: &mut S,
    payload: Data,
    target: &mut T,
) -> Result<Option<LostKeyslots>, BackupFault>
    requires source_room { S.failed source.old + 1 < 2 ^ 64 }
    requires target_room { T.failed target.old + 1 < 2 ^ 64 }
    requires settled { T.tells → IsSettled T.unsettled target.old }

    // The devices: a call of the target that fails ends it by `Device`; of the source one of the header alone.
    ensures count { CountsRescue is_backup_failure result (S.failed source.old)
        (S.failed source.new) (T.failed target.old) (T.failed target.new) }
    ensures ended { S.tells → T.tells → IfErr result (λ f. is_backup_failure f ≡ true
        → T.failed target.new ≡ T.failed target.old
        → (c : Choice) → Chosen (S.bytes source.old) c
        → EndsBySource (S.bytes source.old) c (S.failed source.old) (S.failed source.new)
        (T.bytes target.old) (T.bytes target.new)) }
    ensures kept { IsUnchanged S.tells S.size S.bytes S.unsettled source.old source.new }
    ensures size { T.size target.new ≡ T.size target.old }
    ensures settled { T.tells → OnOk result (IsSettled T.unsettled target.new) }

    // The first fault that stands, or a failed allocation, and then nothing of the target changed.
    ensures fault { S.tells → IfErr result
        (IsAnsweredBackup (S.bytes source.old) payload (T.size target.old)) }
    ensures faultless { S.tells → OnOk result
        (CanBackUp (S.bytes source.old) payload (T.size target.old)) }
    ensures refused { IfErr result (λ f. is_backup_failure f ≡ false
        → IsUnchanged T.tells T.size T.bytes T.unsettled target.old target.new) }
    ensures same { S.tells → T.tells → (f : TheFault)
        → IsBackupFault (S.bytes source.old) payload (T.size target.old) f
        → T.bytes target.new ≡ T.bytes target.old }

    // Which bytes may have changed, also where a device failed.
    ensures rest { S.tells → T.tells
        → SameBut (IsOfBackup (S.bytes source.old) payload) (T.bytes target.old) (T.bytes target.new) }
    ensures order { S.tells → T.tells → (c : Choice) (size : ℕ) → Chosen (S.bytes source.old) c
        → IsBackupSize (S.bytes source.old) payload size → RescuesInTurn (S.bytes source.old) c size
        (S.failed source.old) (S.failed source.new) (T.bytes target.old) (T.bytes target.new) }

    // What was made, and which keyslots it costs: none exactly where no read failed, and then it is the backup.
    ensures none { IfOk result (λ lost. lost ≡ None ↔ (S.failed source.new ≡ S.failed source.old)) }
    ensures rescued { S.tells → T.tells → IfOk result
        (IsRescue (S.bytes source.old) payload (S.failed source.old) (S.failed source.new)
        (T.bytes target.old) (T.bytes target.new)) }
    ensures backup { S.tells → T.tells → IfOk result (λ lost. lost ≡ None
        → IsBackup (S.bytes source.old) payload (T.bytes target.old) (T.bytes target.new)) }
    ensures well_formed { S.tells → T.tells
        → OnOk result (WellFormed (T.bytes target.new) Elsewhere) }
    ensures answers { S.tells → T.tells → IfOk result
        (AnswersUnlessLost (S.bytes source.old) (T.bytes target.new)) }
{
    let header = accepted_header(alloc, source, payload)?;
    let size = fitting_size(&header, payload, target.len())?;
    judge_header(&header, Data::Elsewhere, size)?;
    let places = places_of(&header);
    let before = source.failures();
    let keyslots = write_rescue(source, target, &places, size)?;
    let after = source.failures();
    Ok(lost_of(keyslots, after - before))
}

/// The keyslots that so many failed reads have cost.
fn lost_of(keyslots: [bool; 32], failures: u64) -> Option<LostKeyslots>
    ensures { result ≡ lost_by failures keyslots }
{
    if failures == 0 {
        None
    } else {
        Some(LostKeyslots { keyslots })
    }
}

/// Writes zeros over the whole backup, and then what is kept, as far as it can be read.
fn write_rescue<S: Device, T: Device>(
    source: &mut S,
    target: &mut T,
    places: &Places,
    size: u64,
) -> Result<[bool; 32], DeviceFault>
    requires lead { places.now.lead ≤ places.now.first }
    requires apart { AreApart places.now }
    requires there { AreInside places.now (S.size source.old) }
    requires within { AreInside places.now size }
    requires room { size ≤ T.size target.old }
    requires source_room { S.failed source.old + 1 < 2 ^ 64 }
    requires target_room { T.failed target.old + 1 < 2 ^ 64 }
    requires settled { T.tells → IsSettled T.unsettled target.old }
    ensures count { CountsRescue is_failure result (S.failed source.old) (S.failed source.new)
        (T.failed target.old) (T.failed target.new) }
    ensures ended { IfErr result (λ _. T.failed target.new ≡ T.failed target.old
        → EndsRead (S.tells × T.tells) places.now (S.bytes source.old) (T.bytes target.new)
        (S.failed source.old) (S.failed source.new)) }
    ensures kept { IsUnchanged S.tells S.size S.bytes S.unsettled source.old source.new }
    ensures size { T.size target.new ≡ T.size target.old }
    ensures settled { T.tells → OnOk result (IsSettled T.unsettled target.new) }
    ensures rest { T.tells → SameBut (IsAt 0 size) (T.bytes target.old) (T.bytes target.new) }
    ensures order { S.tells → T.tells → cleared_size ≤ size → WritesReadAnew places.now size
        (S.bytes source.old) (S.failed source.old) (S.failed source.new)
        (T.bytes target.old) (T.bytes target.new) }
    ensures rescued { IfOk result (LeavesAreas (S.tells × T.tells) places.now 32 (S.bytes source.old)
        (T.bytes target.new) (S.failed source.old) (S.failed source.new)) }
    ensures header { S.tells → T.tells
        → OnOk result (HoldsHeader places.now (S.bytes source.old) (T.bytes target.new)) }
    ensures lead { T.tells → OnOk result
        (part (T.bytes target.new) 0 places.now.lead ≡ replicate places.now.lead 0) }
    ensures zeros { T.tells → OnOk result ((p : ℕ) → p < size → (IsOfPlaces places.now p → ⊥)
        → slice_index (T.bytes target.new) p ≡ 0) }
{
    wipe(target, size)?;
    rescue_places(source, target, places)
}

/// Copies the key areas as far as they can be read, then the second copy of the header, then the first, a flush
/// after each. Also where a device fails no byte of the target outside these places changes.
fn rescue_places<S: Device, T: Device>(
    source: &mut S,
    target: &mut T,
    places: &Places,
) -> Result<[bool; 32], DeviceFault>
    requires lead { places.now.lead ≤ places.now.first }
    requires apart { AreApart places.now }
    requires there { AreInside places.now (S.size source.old) }
    requires within { AreInside places.now (T.size target.old) }
    requires source_room { S.failed source.old + 1 < 2 ^ 64 }
    requires target_room { T.failed target.old + 1 < 2 ^ 64 }
    requires settled { T.tells → IsSettled T.unsettled target.old }
    ensures count { CountsRescue is_failure result (S.failed source.old) (S.failed source.new)
        (T.failed target.old) (T.failed target.new) }
    ensures ended { IfErr result (λ _. T.failed target.new ≡ T.failed target.old
        → EndsRead (S.tells × T.tells) places.now (S.bytes source.old) (T.bytes target.new)
        (S.failed source.old) (S.failed source.new)) }
    ensures kept { IsUnchanged S.tells S.size S.bytes S.unsettled source.old source.new }
    ensures size { T.size target.new ≡ T.size target.old }
    ensures settled { T.tells → OnOk result (IsSettled T.unsettled target.new) }
    ensures rest { T.tells
        → SameBut (IsOfPlaces places.now) (T.bytes target.old) (T.bytes target.new) }
    ensures order { S.tells → T.tells → CopiesReadInTurn places.now (S.bytes source.old)
        (S.failed source.old) (S.failed source.new) (T.bytes target.old) (T.bytes target.new) }
    ensures rescued { IfOk result (LeavesAreas (S.tells × T.tells) places.now 32 (S.bytes source.old)
        (T.bytes target.new) (S.failed source.old) (S.failed source.new)) }
    ensures header { S.tells → T.tells
        → OnOk result (HoldsHeader places.now (S.bytes source.old) (T.bytes target.new)) }
{
    let keyslots = rescue_areas(source, target, places)?;
    can_fail(source)?;
    copy_header(source, target, places)?;
    Ok(keyslots)
}
