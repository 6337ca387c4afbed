//! Comparing a backup with a volume.
ghost use Rattle.std.specs.Prelude.{List, ℕ};
ghost use Rattle.luks_keeping.specs.Compared.{IsCompared, StandsSo};
ghost use Rattle.luks_keeping.specs.Outlines.{Outlines};
ghost use Rattle.luks_keeping.specs.Salts.{HoldsKeeping, IsListedSalt, IsSameOrOlder};

use crate::comparison::{Comparison, Keeping};
use crate::identity::shares_digest;
use crate::outline::Outline;
use crate::salts::Salt;

/// How a backup stands to a volume, by their headers as `read_outline` answers them. Nothing is written, and no
/// key area is read: that a key area is whole only a passphrase can tell.
pub fn compare(backup: &Outline, volume: &Outline) -> Comparison
    ensures { (b t : List ℕ) → Outlines b backup.now → Outlines t volume.now
        → IsCompared b t result }
{
    Comparison {
        same_key: shares_digest(&backup.identity, &volume.identity),
        keyslots: compare_all(&backup.salts, &volume.salts),
    }
}

/// How each keyslot stands, by its number.
fn compare_all(backup: &[Option<Salt>; 32], volume: &[Option<Salt>; 32]) -> [Keeping; 32]
    ensures { HoldsKeeping backup.now volume.now 32 result }
{
    let mut states = [Keeping::Absent; 32];
    for n in 0..32 {
        states[n] = keeping_of(&backup[n], &volume[n]);
    }
    states
}

/// How a keyslot stands, by its salts.
fn keeping_of(backup: &Option<Salt>, volume: &Option<Salt>) -> Keeping
    ensures { StandsSo (IsListedSalt backup.now) (IsListedSalt volume.now) result }
{
    match backup {
        Some(here) => match volume {
            Some(there) => same_or_older(here, there),
            None => Keeping::Removed,
        },
        None => match volume {
            Some(_) => Keeping::Missing,
            None => Keeping::Absent,
        },
    }
}

/// How two keyslots stand that are both there.
fn same_or_older(here: &Salt, there: &Salt) -> Keeping
    ensures { IsSameOrOlder here.now.bytes.items there.now.bytes.items result }
{
    if here.bytes.as_slice() == there.bytes.as_slice() {
        Keeping::Same
    } else {
        Keeping::Older
    }
}
