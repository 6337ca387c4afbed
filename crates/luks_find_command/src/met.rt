//! The volumes that a search met: which of them have one uuid.
ghost use Rattle.std.specs.Prelude.{◌≡◌, ◌↔◌, IfSome, IsNone, IsTrue, ℕ};
ghost use Rattle.luks_find_command.specs.SameUuids.{pairs_of, IsAmong, Meets, Remembers, TellsPair};

use crate::progress::Progress;
use crate::same_uuid::SameUuid;
use arrayvec::ArrayVec;

/// How many are remembered.
pub(crate) const MOST_MET: usize = 64;

/// A volume that `check` accepts.
#[derive(Clone, Copy, Drop)]
pub(crate) struct Met {
    /// The bytes of the uuid's field in the header that counts.
    pub(crate) uuid: [u8; 40],
    /// The byte of the file where it begins.
    pub(crate) start: u128,
}

impl Default for Met {
    /// None: what is in the places where none is remembered yet.
    fn default() -> Met {
        Met {
            uuid: [0; 40],
            start: 0,
        }
    }
}

/// Says of a volume with this uuid, if it has one, which volume that was met before has the same; else it is
/// remembered itself, as long as there is room.
pub(crate) fn tell_pair<G: Progress>(
    uuid: Option<[u8; 40]>,
    start: u128,
    met: &mut ArrayVec<Met, MOST_MET>,
    progress: &mut G,
)
    ensures heard { G.heard progress.new ≡ G.heard progress.old }
    ensures pairs { TellsPair met.old.items uuid start met.new.items
        (G.paired progress.old) (G.paired progress.new) }
{
    let Some(uuid) = uuid else {
        return;
    };
    match meet(Met { uuid, start }, met) {
        Some(pair) => progress.pair(pair),
        None => {}
    }
}

/// The volume with the one that was met before and has its uuid, or it is remembered itself.
fn meet(volume: Met, met: &mut ArrayVec<Met, MOST_MET>) -> Option<SameUuid>
    ensures { Meets met.old.items volume.uuid volume.start met.new.items (pairs_of result) }
{
    match first_with(&volume.uuid, met.as_slice()) {
        Some(first) => Some(SameUuid {
            first,
            second: volume.start,
        }),
        None => {
            remember(volume, met);
            None
        }
    }
}

/// Remembers the volume, if there is room.
fn remember(volume: Met, met: &mut ArrayVec<Met, MOST_MET>)
    ensures { Remembers met.old.items volume met.new.items }
{
    if met.len() >= MOST_MET {
        return;
    }
    met.push(volume);
}

/// The start of the volume with this uuid, if one of these has it.
fn first_with(uuid: &[u8; 40], met: &[Met]) -> Option<u128>
    ensures some { IfSome result (IsAmong met.now uuid.now) }
    ensures none { IsNone result → (first : ℕ) → IsAmong met.now uuid.now first → ⊥ }
{
    for n in 0..met.len() {
        if has_uuid(&met[n], uuid) {
            return Some(met[n].start);
        }
    }
    None
}

/// Whether this is the volume's uuid.
fn has_uuid(volume: &Met, uuid: &[u8; 40]) -> bool
    ensures { IsTrue result ↔ (uuid.now ≡ volume.now.uuid) }
{
    uuid.as_slice() == volume.uuid.as_slice()
}
