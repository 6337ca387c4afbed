//! Comparing a backup that was made while something was under way with a volume of the very same state.
ghost use Rattle.std.specs.Prelude.{◌≡◌, ◌↔◌, ◌+◌, ◌^◌, ◌<◌, IfOk, IsTrue, true};
ghost use Rattle.luks_area.specs.Area.{IsInside};
ghost use Rattle.luks_area.specs.Device.{IsUnchanged, is_failure};
ghost use Rattle.luks_writing.specs.TwoDevices.{CountsEither};
ghost use Rattle.luks_wider.specs.Underways.{content};
ghost use Rattle.luks_wide_keeping.specs.Compared.{AreKeptSo, IsKeptSo};

use crate::areas::key_area;
use luks_area::{Area, Device, DeviceFault};
use luks_keeping::{Comparison, Keeping, are_alike};
use luks_wide_reading::UnderwayCopy;

/// How the keyslots of a backup stand to those of a volume with the very same metadata, which `copy` has: each by its
/// key area, which is read; that of the reencryption too. Nothing is written.
pub fn compare_underway<B: Device, T: Device>(
    backup: &mut B,
    copy: &UnderwayCopy,
    target: &mut T,
) -> Result<Comparison, DeviceFault>
    requires backup_room { B.failed backup.old + 1 < 2 ^ 64 }
    requires target_room { T.failed target.old + 1 < 2 ^ 64 }
    ensures count { CountsEither is_failure result (B.failed backup.old) (B.failed backup.new)
        (T.failed target.old) (T.failed target.new) }
    ensures kept { IsUnchanged B.tells B.size B.bytes B.unsettled backup.old backup.new }
    ensures unchanged { IsUnchanged T.tells T.size T.bytes T.unsettled target.old target.new }
    ensures same_key { IfOk result (λ c. c.same_key ≡ true) }
    ensures compared { B.tells → T.tells → IfOk result (λ c. AreKeptSo (B.bytes backup.old)
        (T.bytes target.old) (content copy.now.meta) 32 c.keyslots) }
{
    let mut keyslots = [Keeping::Absent; 32];
    for n in 0..32u8 {
        keyslots[n as usize] = keeping_of(backup, copy, target, n)?;
    }
    Ok(Comparison {
        same_key: true,
        keyslots,
    })
}

/// How the keyslot `n` stands.
fn keeping_of<B: Device, T: Device>(
    backup: &mut B,
    copy: &UnderwayCopy,
    target: &mut T,
    n: u8,
) -> Result<Keeping, DeviceFault>
    requires backup_room { B.failed backup.old + 1 < 2 ^ 64 }
    requires target_room { T.failed target.old + 1 < 2 ^ 64 }
    requires numbered { n < 32 }
    ensures count { CountsEither is_failure result (B.failed backup.old) (B.failed backup.new)
        (T.failed target.old) (T.failed target.new) }
    ensures kept { IsUnchanged B.tells B.size B.bytes B.unsettled backup.old backup.new }
    ensures unchanged { IsUnchanged T.tells T.size T.bytes T.unsettled target.old target.new }
    ensures kept_so { B.tells → T.tells → IfOk result (IsKeptSo (B.bytes backup.old)
        (T.bytes target.old) (content copy.now.meta) n) }
{
    let Some(area) = key_area(&copy.meta, n) else {
        return Ok(Keeping::Absent);
    };
    if !is_inside_both(area, backup.len(), target.len()) {
        return Ok(Keeping::Damaged);
    }
    if are_alike(backup, area, target, area)? {
        Ok(Keeping::Same)
    } else {
        Ok(Keeping::Damaged)
    }
}

/// Whether the area lies inside two devices of so many bytes.
fn is_inside_both(area: Area, here: u64, there: u64) -> bool
    ensures { IsTrue result ↔ (IsInside area here × IsInside area there) }
{
    area.is_inside(here) && area.is_inside(there)
}
