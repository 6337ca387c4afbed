//! Where the area of a new keyslot goes.
ghost use Rattle.std.specs.Prelude.{◌≡◌, ◌≢◌, ◌+◌, ◌-◌, ◌*◌, ◌^◌, ◌<◌, ℕ, false, IfErr, IfOk, IfSome, MatchOption, OnOk};
ghost use Rattle.luks_area.specs.declared.area.Area.{Area as TheArea};
ghost use Rattle.luks_area.specs.declared.area.AreaName.{AreaName};
ghost use Rattle.luks_area.specs.Area.{IsInside};
ghost use Rattle.luks_area.specs.Names.{HasArea};
ghost use Rattle.luks_meta.specs.Content.{area_len, content};
ghost use Rattle.luks_reading.specs.Layout2.{Luks2Area};
ghost use Rattle.luks_reading.specs.Listing.{Lists};
ghost use Rattle.luks_reading.specs.declared.report.Data.{Data as Payload};
ghost use Rattle.luks2_edit_laws.specs.Places.{HasNoNewArea, IsNewArea, rounded_to_blocks};
ghost use Rattle.luks_edit.specs.EditFaults.{is_edit_failure};
ghost use Rattle.luks2_judging.specs.Room.{IsAllowed, IsPlaced, IsRegion, IsSealableLike, IsUnsealable, TakesBlocks};

use luks_area::{Area, Entry};
use luks_edit::EditFault;
use luks_making::AskedDerivation;
use luks_meta::Meta;
use luks2_edit_laws::{Like, least_gap};

/// Areas of keyslots that are made have whole blocks of so many bytes.
const BLOCK: u64 = 4096;

/// The bytes of the binary header with which a copy begins; its JSON area follows.
const BINARY_HEADER: u64 = 4096;

/// The stripes of a keyslot that is made as a new volume has it.
pub(crate) const FRESH_STRIPES: u64 = 4000;

/// An accepted volume, as far as it tells where another keyslot's area goes.
#[derive(Clone, Copy)]
pub(crate) struct Room<'a> {
    pub(crate) meta: &'a Meta,
    /// The areas that the header names.
    pub(crate) entries: &'a [Entry],
    /// The volume's length, in bytes.
    pub(crate) total: u64,
}

/// The region of the key areas, as far as it lies in a volume.
#[derive(Clone, Copy)]
struct Region {
    /// Where it begins, in bytes.
    low: u64,
    /// Where it ends.
    high: u64,
}

/// The area of a keyslot that is sealed like this one, which is there, and derived as is asked,
/// where Argon2 may take so many KiB. Refused by `NoRoom`, `Iterations`, `Argon2`.
pub(crate) fn judge_sealing(
    room: &Room<'_>,
    like: Like,
    derivation: AskedDerivation,
    memory: u32,
) -> Result<Area, EditFault>
    requires there { IsSealableLike (content room.now.meta.now) like }
    requires ends { (m : AreaName) (a : TheArea) → HasArea room.now.entries.now m a
        → IsInside a (2 ^ 64 - 1) }
    ensures own { IfErr result (λ f. is_edit_failure f ≡ false) }
    ensures memory { IfErr result (λ f. f ≢ EditFault.Memory) }
    ensures allowed { OnOk result (IsAllowed memory derivation) }
    ensures placed { IfOk result (IsPlaced (area_len room.now.meta.now) (content room.now.meta.now) room.now.total like) }
    ensures area { (payload : Payload) → Lists room.now.entries.now
        (Luks2Area (content room.now.meta.now) (area_len room.now.meta.now + 4096) payload room.now.total)
        → IfOk result (IsNewArea (area_len room.now.meta.now + 4096) room.now.total payload (content room.now.meta.now) like) }
    ensures refused { (payload : Payload) → Lists room.now.entries.now
        (Luks2Area (content room.now.meta.now) (area_len room.now.meta.now + 4096) payload room.now.total)
        → IfErr result
        (IsUnsealable (area_len room.now.meta.now + 4096) room.now.total payload (content room.now.meta.now) like memory derivation) }
{
    let Some(area) = new_area(room.meta, room.entries, room.total, like) else {
        return Err(EditFault::NoRoom);
    };
    if derivation.has_few_turns() {
        return Err(EditFault::Iterations);
    }
    if derivation.is_beyond(memory) {
        return Err(EditFault::Argon2);
    }
    Ok(area)
}

/// The least area for a keyslot that is made like this one, in a volume of `total` bytes with
/// these areas; none where no gap is large enough.
fn new_area(meta: &Meta, entries: &[Entry], total: u64, like: Like) -> Option<Area>
    requires there { IsSealableLike (content meta.now) like }
    requires ends { (m : AreaName) (a : TheArea) → HasArea entries.now m a
        → IsInside a (2 ^ 64 - 1) }
    ensures new { (payload : Payload) → Lists entries.now
        (Luks2Area (content meta.now) (area_len meta.now + 4096) payload total)
        → MatchOption result
        (HasNoNewArea (area_len meta.now + 4096) total payload (content meta.now) like)
        (IsNewArea (area_len meta.now + 4096) total payload (content meta.now) like) }
    ensures placed { IfSome result
        (IsPlaced (area_len meta.now) (content meta.now) total like) }
{
    let len = blocks_of(meta, like);
    let region = region_of(meta, total);
    match least_gap(entries, region.low, region.high, len) {
        Some(start) => Some(Area { start, len }),
        None => None,
    }
}

/// How many bytes the stripes of the keyslot take, in whole blocks.
fn blocks_of(meta: &Meta, like: Like) -> u64
    requires { IsSealableLike (content meta.now) like }
    ensures { TakesBlocks (content meta.now) like result }
{
    match like {
        Like::Keyslot(n) => match meta.keyslot(n) {
            Some(keyslot) => {
                let material = u64::from(keyslot.key_size) * u64::from(keyslot.af.stripes);
                rounded_to_blocks(material)
            }
            None => unreachable!(),
        },
        Like::Digest {
            number: _,
            key_bytes,
        } => rounded_to_blocks(u64::from(key_bytes) * FRESH_STRIPES),
    }
}

/// The bytes of the whole blocks that hold so many bytes.
fn rounded_to_blocks(bytes: u64) -> u64
    requires { bytes < 2 ^ 40 }
    ensures { result ≡ rounded_to_blocks bytes }
{
    (bytes + (BLOCK - 1)) / BLOCK * BLOCK
}

/// The region of the key areas in a volume of `total` bytes.
fn region_of(meta: &Meta, total: u64) -> Region
    ensures { IsRegion (area_len meta.now) (content meta.now) total result.low result.high }
{
    let config = meta.config();
    let copy = config.json_size.saturating_add(BINARY_HEADER);
    let low = copy.saturating_mul(2);
    let high = low.saturating_add(config.keyslots_size).min(total);
    Region { low, high }
}
