//! Restoring a backup that was made while something was under way.
ghost use Rattle.std.specs.Prelude.{◌≡◌, ◌≢◌, ◌+◌, ◌*◌, ◌^◌, ◌<◌, ◌≤◌, IfErr, List, ℕ, OnOk, false, true};
ghost use Rattle.luks_area.specs.Device.{IsSettled, IsUnchanged};
ghost use Rattle.luks_area.specs.Ranges.{SameBut};
ghost use Rattle.luks_writing.specs.TwoDevices.{CountsEither};
ghost use Rattle.luks2_header.specs.Selection.{luks2};
ghost use Rattle.luks_reading.specs.declared.report.Data.TheVariants.{Elsewhere};
ghost use Rattle.luks_keeping.specs.Restored.{IsFrontAs};
ghost use Rattle.luks_keeping.specs.declared.restore_fault.RestoreFault.TheVariants.{Memory as NoMemory};
ghost use Rattle.luks_wide_reading.specs.Headers.{IsUnderwayCopy};
ghost use Rattle.luks_wide_reading.specs.declared.copy.UnderwayCopy.{UnderwayCopy as TheCopy};
ghost use Rattle.luks_wide_keeping.specs.Restored.{CanRestoreUnderway, IsBarred, IsOfUnderway, IsUnderwayRestored, IsUnderwayUnrestored};
ghost use Rattle.luks_wide_keeping.specs.Restored.{HasNoFault, IsBarredBy, IsUnfitEither, IsUnfitThere, is_over, is_underway_restore_failure};
ghost use Rattle.luks_wide_keeping.specs.Standings.{StandsSo};
ghost use Rattle.luks_wide_keeping.specs.declared.standing.Standing.{Standing as TheStanding};

use crate::areas::judge_layout;
use crate::over::OverUnderway;
use crate::places::places_of;
use crate::restore_fault::UnderwayRestoreFault;
use crate::size::whole_size;
use crate::standing::{Standing, standing_of};
use luks_area::Device;
use luks_keeping::{RestoreFault, write_over};
use luks_reading::Data;
use luks_wide_reading::UnderwayCopy;

/// Puts both copies of the header and the region of the key areas of a backup onto the target's volume, at their
/// places. `copy` was read of the backup. The backup never changes.
///
/// `payload` says where the data of the target's volume lies. Before the first write it is asked how the header
/// that counts on the target stands to the backup's: one that isn't of the very same state is refused by
/// `Progressed`, since data was moved or encrypted anew since. Written in the order of `restore`: first the first
/// sectors of both copies' places become zeros, and those where an older second copy begins, then the region is
/// written, then the second copy of the header, then the first, a flush after each; a broken-off restore is done
/// again.
pub fn restore_underway<B: Device, T: Device>(
    backup: &mut B,
    copy: &UnderwayCopy,
    target: &mut T,
    payload: Data,
    over: OverUnderway,
) -> Result<(), UnderwayRestoreFault>
    requires backup_room { B.failed backup.old + 1 < 2 ^ 64 }
    requires target_room { T.failed target.old + 1 < 2 ^ 64 }
    requires settled { T.tells → IsSettled T.unsettled target.old }
    requires of { B.tells → IsUnderwayCopy (B.bytes backup.old) copy.now }

    // The devices: `Device` exactly where a call of one of the two failed.
    ensures count { CountsEither is_underway_restore_failure result (B.failed backup.old)
        (B.failed backup.new) (T.failed target.old) (T.failed target.new) }
    ensures kept { IsUnchanged B.tells B.size B.bytes B.unsettled backup.old backup.new }
    ensures size { T.size target.new ≡ T.size target.old }
    ensures settled { T.tells → OnOk result (IsSettled T.unsettled target.new) }

    // The first fault that stands, and then nothing of the target changed.
    ensures fault { B.tells → T.tells → IfErr result
        (IsUnderwayUnrestored (B.bytes backup.old) (T.bytes target.old) payload over) }
    ensures faultless { B.tells → T.tells → OnOk result
        (CanRestoreUnderway (B.bytes backup.old) (T.bytes target.old) payload over) }
    ensures refused { IfErr result (λ f. is_underway_restore_failure f ≡ false
        → IsUnchanged T.tells T.size T.bytes T.unsettled target.old target.new) }
    ensures no_memory { IfErr result (λ f. f ≢ UnderwayRestoreFault.Restore NoMemory) }

    // Which bytes may have changed, also where a device failed.
    ensures rest { B.tells → T.tells
        → SameBut (IsOfUnderway (B.bytes backup.old) payload (T.bytes target.old))
        (T.bytes target.old) (T.bytes target.new) }

    // The volume that was made: what is read of the backup is read of it.
    ensures restored { B.tells → T.tells → OnOk result (IsUnderwayRestored
        (B.bytes backup.old) payload (T.bytes target.old) (T.bytes target.new)) }
    ensures reads { B.tells → T.tells → OnOk result ((c : TheCopy)
        → IsUnderwayCopy (B.bytes backup.old) c → IsUnderwayCopy (T.bytes target.new) c) }
{
    judge_fit(copy, payload, backup.len(), target.len())?;
    judge_standing(backup, target, over)?;
    let total = backup.len().min(target.len());
    let places = places_of(copy, total);
    let limit = front_of(copy, payload, target.len());
    write_over(backup, target, &places, limit)?;
    Ok(())
}

/// The first fault of the backup, which has `own` bytes, and then of the volume as it would be, of `total` bytes.
fn judge_fit(
    copy: &UnderwayCopy,
    payload: Data,
    own: u64,
    total: u64,
) -> Result<(), UnderwayRestoreFault>
    ensures here { OnOk result (2 * copy.now.header.hdr_size ≤ own) }
    ensures there { OnOk result (2 * copy.now.header.hdr_size ≤ total) }
    ensures fits { OnOk result (HasNoFault copy.now Elsewhere own) }
    ensures fits_there { OnOk result (HasNoFault copy.now payload total) }
    ensures refused { IfErr result (IsUnfitEither copy.now payload own total) }
    ensures kinds { IfErr result (λ f. is_underway_restore_failure f ≡ false) }
    ensures no_memory { IfErr result (λ f. f ≢ UnderwayRestoreFault.Restore NoMemory) }
{
    match judge_layout(copy, Data::Elsewhere, own) {
        Ok(()) => judge_there(copy, payload, total),
        Err(fault) => Err(UnderwayRestoreFault::Restore(RestoreFault::NotAccepted(fault))),
    }
}

/// That of the volume as it would be.
fn judge_there(copy: &UnderwayCopy, payload: Data, total: u64) -> Result<(), UnderwayRestoreFault>
    ensures there { OnOk result (2 * copy.now.header.hdr_size ≤ total) }
    ensures fits { OnOk result (HasNoFault copy.now payload total) }
    ensures refused { IfErr result (IsUnfitThere copy.now payload total) }
    ensures kinds { IfErr result (λ f. is_underway_restore_failure f ≡ false) }
    ensures no_memory { IfErr result (λ f. f ≢ UnderwayRestoreFault.Restore NoMemory) }
{
    match judge_layout(copy, payload, total) {
        Ok(()) => Ok(()),
        Err(fault) => Err(UnderwayRestoreFault::Restore(RestoreFault::DoesNotFit(fault))),
    }
}

/// Refuses where the header that counts on the target is another volume's, or isn't of the backup's very state, and
/// isn't to be written over. If any may be, nothing is read.
fn judge_standing<B: Device, T: Device>(
    backup: &mut B,
    target: &mut T,
    over: OverUnderway,
) -> Result<(), UnderwayRestoreFault>
    requires backup_room { B.failed backup.old + 1 < 2 ^ 64 }
    requires target_room { T.failed target.old + 1 < 2 ^ 64 }
    ensures count { CountsEither is_underway_restore_failure result (B.failed backup.old)
        (B.failed backup.new) (T.failed target.old) (T.failed target.new) }
    ensures kept { IsUnchanged B.tells B.size B.bytes B.unsettled backup.old backup.new }
    ensures unchanged { IsUnchanged T.tells T.size T.bytes T.unsettled target.old target.new }
    ensures no_memory { IfErr result (λ f. f ≢ UnderwayRestoreFault.Restore NoMemory) }
    ensures barred { B.tells → T.tells
        → IfErr result (IsBarred (B.bytes backup.old) (T.bytes target.old) over) }
    ensures clear { B.tells → T.tells → OnOk result ((so : TheStanding)
        → StandsSo (B.bytes backup.old) (T.bytes target.old) so → is_over over so ≡ true) }
{
    if over.another && over.progressed {
        return Ok(());
    }
    match standing_of(backup, target) {
        Ok(standing) => judge_over(standing, over),
        Err(_) => Err(UnderwayRestoreFault::Restore(RestoreFault::Device)),
    }
}

/// Refuses a header that stands so, unless it may be written over.
fn judge_over(standing: Standing, over: OverUnderway) -> Result<(), UnderwayRestoreFault>
    ensures clear { OnOk result (is_over over standing ≡ true) }
    ensures barred { IfErr result (IsBarredBy over standing) }
    ensures no_memory { IfErr result (λ f. f ≢ UnderwayRestoreFault.Restore NoMemory) }
{
    match standing {
        Standing::Nothing | Standing::Same => Ok(()),
        Standing::Another => {
            if over.another {
                Ok(())
            } else {
                Err(UnderwayRestoreFault::Restore(RestoreFault::OtherVolume))
            }
        }
        Standing::Progressed => {
            if over.progressed {
                Ok(())
            } else {
                Err(UnderwayRestoreFault::Progressed)
            }
        }
    }
}

/// Where the data begins on a device of `total` bytes with this header, or else its end.
fn front_of(copy: &UnderwayCopy, payload: Data, total: u64) -> u64
    ensures within { result ≤ total }
    ensures front { (v : List ℕ) → IsUnderwayCopy v copy.now
        → IsFrontAs v payload total (luks2 copy.now.header.hdr_offset copy.now.copies) result }
{
    match payload {
        Data::Elsewhere => total,
        Data::Here => match whole_size(copy) {
            Some(size) => total.min(size),
            None => total,
        },
    }
}
