//! Making a backup of the header of a volume in whose metadata something is under way.
ghost use Rattle.std.specs.Prelude.{◌≡◌, ◌≢◌, ◌+◌, ◌^◌, ◌<◌, IfErr, IfOk, OnOk, false};
ghost use Rattle.luks_area.specs.Device.{IsSettled, IsUnchanged};
ghost use Rattle.luks_area.specs.Ranges.{SameBut};
ghost use Rattle.luks_writing.specs.TwoDevices.{CountsEither};
ghost use Rattle.luks_reading.specs.declared.report.Data.{Data as TheData};
ghost use Rattle.luks_reading.specs.declared.report.Data.TheVariants.{Elsewhere};
ghost use Rattle.luks_keeping.specs.Backup.{IsBackupSize};
ghost use Rattle.luks_keeping.specs.BackupFaults.{IsOfBackup, is_backup_failure};
ghost use Rattle.luks_wide_reading.specs.Headers.{IsUnderwayCopy};
ghost use Rattle.luks_wide_reading.specs.declared.copy.UnderwayCopy.{UnderwayCopy as TheCopy};
ghost use Rattle.luks_wide_keeping.specs.Backup.{CanBackUpUnderway, IsUnderwayBackup, IsUnderwayUnmade};

use crate::areas::judge_layout;
use crate::places::places_of;
use crate::size::fitting_size;
use luks_area::Device;
use luks_keeping::{BackupFault, write_backup};
use luks_reading::Data;
use luks_wide_reading::UnderwayCopy;

/// Writes a backup of the header of the source's volume to the target, from its start on: both copies of the
/// header and the whole region of the key areas, byte by byte at their places, with the area in which a
/// reencryption keeps how to go on. It is of this moment. `copy` was read of the source. What stood there before
/// is overwritten without question. The source never changes.
///
/// Refused by `NotAccepted`, before the first write, where the second copy has no room in the source, or a key
/// area hasn't, by the name that `check` has for it; and by `TooSmall`. Written in the order of `backup`: first the
/// whole range becomes zeros, then the region is written, then the second copy of the header, then the first, a
/// flush after each.
pub fn back_up_underway<S: Device, T: Device>(
    source: &mut S,
    copy: &UnderwayCopy,
    target: &mut T,
) -> Result<(), BackupFault>
    requires source_room { S.failed source.old + 1 < 2 ^ 64 }
    requires target_room { T.failed target.old + 1 < 2 ^ 64 }
    requires settled { T.tells → IsSettled T.unsettled target.old }
    requires of { S.tells → IsUnderwayCopy (S.bytes source.old) copy.now }

    // The devices: `Device` exactly where a call of one of the two failed.
    ensures count { CountsEither is_backup_failure result (S.failed source.old)
        (S.failed source.new) (T.failed target.old) (T.failed target.new) }
    ensures kept { IsUnchanged S.tells S.size S.bytes S.unsettled source.old source.new }
    ensures size { T.size target.new ≡ T.size target.old }
    ensures settled { T.tells → OnOk result (IsSettled T.unsettled target.new) }

    // The first fault that stands, and then nothing of the target changed.
    ensures fault { S.tells → IfErr result
        (IsUnderwayUnmade (S.bytes source.old) (T.size target.old)) }
    ensures faultless { S.tells → OnOk result
        (CanBackUpUnderway (S.bytes source.old) (T.size target.old)) }
    ensures refused { IfErr result (λ f. is_backup_failure f ≡ false
        → IsUnchanged T.tells T.size T.bytes T.unsettled target.old target.new) }
    ensures no_memory { IfErr result (λ f. f ≢ BackupFault.Memory) }

    // Which bytes may have changed, also where a device failed.
    ensures rest { S.tells → T.tells → (payload : TheData)
        → SameBut (IsOfBackup (S.bytes source.old) payload) (T.bytes target.old) (T.bytes target.new) }

    // The backup that was made: what is read of the source is read of it.
    ensures backup { S.tells → T.tells → OnOk result
        (IsUnderwayBackup (S.bytes source.old) (T.bytes target.old) (T.bytes target.new)) }
    ensures reads { S.tells → T.tells → OnOk result ((c : TheCopy)
        → IsUnderwayCopy (S.bytes source.old) c → IsUnderwayCopy (T.bytes target.new) c) }
{
    judge_layout(copy, Data::Elsewhere, source.len())?;
    let size = fitting_size(copy, target.len())?;
    let places = places_of(copy, source.len());
    write_backup(source, target, &places, size)?;
    Ok(())
}

/// How many bytes the backup of a volume of `total` bytes with this header has, so that a target can be made for
/// it; refused as `back_up_underway` is, by `TooSmall` where no device has so many.
pub fn underway_length<S: Device>(source: &S, copy: &UnderwayCopy) -> Result<u64, BackupFault>
    requires { S.tells → IsUnderwayCopy (S.bytes source.now) copy.now }
    ensures length { S.tells → IfOk result (IsBackupSize (S.bytes source.now) Elsewhere) }
    ensures faultless { S.tells → OnOk result
        (CanBackUpUnderway (S.bytes source.now) 18446744073709551615) }
    ensures fault { S.tells → IfErr result
        (IsUnderwayUnmade (S.bytes source.now) 18446744073709551615) }
    ensures own { IfErr result (λ f. is_backup_failure f ≡ false) }
    ensures no_memory { IfErr result (λ f. f ≢ BackupFault.Memory) }
{
    judge_layout(copy, Data::Elsewhere, source.len())?;
    fitting_size(copy, u64::MAX)
}
