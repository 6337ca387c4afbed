//! Comparing a backup with a volume, key areas too.
ghost use Rattle.std.specs.Prelude.{◌≡◌, ◌↔◌, ◌+◌, ◌^◌, ◌<◌, ◌≤◌, IfOk, IfSome, IsTrue, length};
ghost use Rattle.luks_area.specs.Area.{IsInside};
ghost use Rattle.luks_area.specs.Device.{IsUnchanged, is_failure};
ghost use Rattle.luks_area.specs.Ranges.{part};
ghost use Rattle.luks_writing.specs.TwoDevices.{CountsEither};
ghost use Rattle.luks_keeping.specs.AreasCompared.{AreAlike, IsJudgedBy};
ghost use Rattle.luks_keeping.specs.Compared.{IsComparedInFull};
ghost use Rattle.luks_keeping.specs.Outlines.{IsWithin, Outlines};

use crate::comparing::compare;
use crate::comparison::{Comparison, Keeping};
use crate::outline::Outline;
use luks_area::{Area, Device, DeviceFault};

/// How a backup stands to a volume, by their headers as `read_outline` answers them, and by the key areas of the
/// keyslots that have one salt in both, which are read. Nothing is written.
pub fn compare_areas<B: Device, T: Device>(
    backup: &mut B,
    held: &Outline,
    target: &mut T,
    there: &Outline,
) -> Result<Comparison, DeviceFault>
    requires backup_room { B.failed backup.old + 1 < 2 ^ 64 }
    requires target_room { T.failed target.old + 1 < 2 ^ 64 }
    requires backup_within { IsWithin held.now (B.size backup.old) }
    requires volume_within { IsWithin there.now (T.size target.old) }
    ensures count { CountsEither is_failure result (B.failed backup.old) (B.failed backup.new)
        (T.failed target.old) (T.failed target.new) }
    ensures kept { IsUnchanged B.tells B.size B.bytes B.unsettled backup.old backup.new }
    ensures unchanged { IsUnchanged T.tells T.size T.bytes T.unsettled target.old target.new }
    ensures compared { B.tells → T.tells → Outlines (B.bytes backup.old) held.now
        → Outlines (T.bytes target.old) there.now
        → IfOk result (IsComparedInFull (B.bytes backup.old) (T.bytes target.old)) }
{
    let salts = compare(held, there);
    let here = held.places;
    let other = there.places;
    let mut keyslots = salts.keyslots;
    for n in 0..32 {
        keyslots[n] = judged(backup, here.areas[n], target, other.areas[n], keyslots[n])?;
    }
    Ok(Comparison {
        same_key: salts.same_key,
        keyslots,
    })
}

/// How a keyslot stands that by its salt stands so.
fn judged<B: Device, T: Device>(
    backup: &mut B,
    here: Option<Area>,
    target: &mut T,
    there: Option<Area>,
    salts: Keeping,
) -> Result<Keeping, DeviceFault>
    requires backup_room { B.failed backup.old + 1 < 2 ^ 64 }
    requires target_room { T.failed target.old + 1 < 2 ^ 64 }
    requires here { IfSome here (λ a. IsInside a (B.size backup.old)) }
    requires there { IfSome there (λ a. IsInside a (T.size target.old)) }
    ensures count { CountsEither is_failure result (B.failed backup.old) (B.failed backup.new)
        (T.failed target.old) (T.failed target.new) }
    ensures kept { IsUnchanged B.tells B.size B.bytes B.unsettled backup.old backup.new }
    ensures unchanged { IsUnchanged T.tells T.size T.bytes T.unsettled target.old target.new }
    ensures judged { B.tells → T.tells → IfOk result
        (IsJudgedBy salts here there (B.bytes backup.old) (T.bytes target.old)) }
{
    match (salts, here, there) {
        (Keeping::Same, Some(a), Some(c)) => {
            if are_alike(backup, a, target, c)? {
                Ok(Keeping::Same)
            } else {
                Ok(Keeping::Damaged)
            }
        }
        (salts, _, _) => Ok(salts),
    }
}

/// Whether an area of the one device and one of the other hold the same bytes. Nothing is written.
pub fn are_alike<B: Device, T: Device>(
    backup: &mut B,
    here: Area,
    target: &mut T,
    there: Area,
) -> Result<bool, DeviceFault>
    requires backup_room { B.failed backup.old + 1 < 2 ^ 64 }
    requires target_room { T.failed target.old + 1 < 2 ^ 64 }
    requires here { IsInside here (B.size backup.old) }
    requires there { IsInside there (T.size target.old) }
    ensures count { CountsEither is_failure result (B.failed backup.old) (B.failed backup.new)
        (T.failed target.old) (T.failed target.new) }
    ensures kept { IsUnchanged B.tells B.size B.bytes B.unsettled backup.old backup.new }
    ensures unchanged { IsUnchanged T.tells T.size T.bytes T.unsettled target.old target.new }
    ensures told { B.tells → T.tells → IfOk result (λ alike. IsTrue alike
        ↔ AreAlike here there (B.bytes backup.old) (T.bytes target.old)) }
{
    if here.len != there.len {
        return Ok(false);
    }
    let mut done = 0;
    while done < here.len {
        let len = (here.len - done).min(512);
        if !is_piece_alike(
            backup,
            here.start + done,
            target,
            there.start + done,
            len as usize,
        )? {
            return Ok(false);
        }
        done += len;
    }
    Ok(true)
}

/// Whether both hold the same `len` bytes at these places.
fn is_piece_alike<B: Device, T: Device>(
    backup: &mut B,
    here: u64,
    target: &mut T,
    there: u64,
    len: usize,
) -> Result<bool, DeviceFault>
    requires backup_room { B.failed backup.old + 1 < 2 ^ 64 }
    requires target_room { T.failed target.old + 1 < 2 ^ 64 }
    requires here { here + len ≤ B.size backup.old }
    requires there { there + len ≤ T.size target.old }
    requires piece { len ≤ 512 }
    ensures count { CountsEither is_failure result (B.failed backup.old) (B.failed backup.new)
        (T.failed target.old) (T.failed target.new) }
    ensures kept { IsUnchanged B.tells B.size B.bytes B.unsettled backup.old backup.new }
    ensures unchanged { IsUnchanged T.tells T.size T.bytes T.unsettled target.old target.new }
    ensures told { B.tells → T.tells → IfOk result (λ alike. IsTrue alike
        ↔ (part (B.bytes backup.old) here len ≡ part (T.bytes target.old) there len)) }
{
    let mut kept = [0u8; 512];
    let here_piece = &mut kept[..len];
    backup.read_at(here, here_piece)?;
    let mut stands = [0u8; 512];
    let there_piece = &mut stands[..len];
    target.read_at(there, there_piece)?;
    Ok(&*here_piece == &*there_piece)
}
