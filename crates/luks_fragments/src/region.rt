//! The region of key areas that a keyslot needs.
ghost use Rattle.std.specs.Prelude.{◌+◌, ◌*◌, ◌^◌, ◌<◌, ◌≤◌, ℕ, length, IfNone, IfOk, IfSome};
ghost use Rattle.luks_fragments.specs.Kinds.{HasRegion, NeedsRegion};
ghost use Rattle.luks_meta.specs.Content.{content};

use crate::kinds::{Kind, accepted};
use luks_meta::Meta;
use std::alloc::{AllocError, Global};

/// Where the region begins: behind both copies of a header of 16384 bytes.
const START: u64 = 32768;

/// The region is told in blocks of so many bytes.
const BLOCK: u64 = 4096;

/// How many bytes the region of key areas has to have for this keyslot, in whole blocks of 4096: none where it is no keyslot, or its area
/// ends behind byte 2^63.
///
/// Takes memory for an area of 12288 bytes and its value. The error comes only where memory was refused.
pub fn needed_region(alloc: Global, keyslot: &[u8]) -> Result<Option<u64>, AllocError>
    requires { 1 ≤ length keyslot.now }
    ensures some { IfOk result (λ bytes. IfSome bytes (NeedsRegion keyslot.now)) }
    ensures none { IfOk result (λ bytes. IfNone bytes ((n : ℕ) → NeedsRegion keyslot.now n
        → 2 ^ 63 < 32768 + n)) }
{
    let Some(meta) = accepted(alloc, Kind::Keyslot, keyslot)? else {
        return Ok(None);
    };
    Ok(region_of(&meta))
}

/// The region for keyslot 0 of this metadata.
fn region_of(meta: &Meta) -> Option<u64>
    ensures some { IfSome result (HasRegion (content meta.now)) }
    ensures none { IfNone result ((n : ℕ) → HasRegion (content meta.now) n → 2 ^ 63 < 32768 + n) }
{
    let keyslot = meta.keyslot(0)?;
    let end = keyslot.area.offset.checked_add(keyslot.area.size)?;
    if end > 1 << 63 {
        return None;
    }
    Some(blocks_behind(end) * BLOCK)
}

/// How many blocks reach over what lies behind the header and before this place.
fn blocks_behind(end: u64) -> u64
    requires { end ≤ 2 ^ 63 }
    ensures enough { end ≤ 32768 + 4096 * result }
    ensures least { (fewer : ℕ) → end ≤ 32768 + 4096 * fewer → result ≤ fewer }
    ensures few { result ≤ 2 ^ 51 }
{
    if end <= START {
        0
    } else {
        (end - START - 1) / BLOCK + 1
    }
}
