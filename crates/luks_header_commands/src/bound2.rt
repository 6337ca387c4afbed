//! How many derivations a search in LUKS2 metadata may make.
ghost use Rattle.std.specs.Prelude.{◌+◌, ◌<◌, ◌^◌};
ghost use Rattle.luks_area.specs.Device.{CountsFailure, IsUnchanged, is_failure};

use luks_reading::{Device, DeviceFault};

/// So many bytes are looked through: both copies of the shortest header, or the front of a longer one.
const FRONT: usize = 32768;

/// How a keyslot names what it is derived by (LUKS2 On-Disk Format 1.1, 3.2).
const NAME: &[u8] = b"\"kdf\"";

/// For each time so many derivations may be made: some thousand bits of a keyslot's text, in either copy, with room.
const EACH: u32 = 4096;

/// How many derivations a search makes at most, by how often keyslots are told in the front of the volume, and as if one
/// were where none is.
pub(crate) fn most_derivations<D: Device>(volume: &mut D) -> Result<u32, DeviceFault>
    requires { D.failed volume.old + 1 < 2 ^ 64 }
    ensures unchanged { IsUnchanged D.tells D.size D.bytes D.unsettled volume.old volume.new }
    ensures count { CountsFailure is_failure result (D.failed volume.old) (D.failed volume.new) }
{
    let mut bytes = [0; FRONT];
    let len = volume.len().min(FRONT as u64) as usize;
    let front = &mut bytes[..len];
    volume.read_at(0, front)?;
    Ok(EACH.saturating_mul(times_named(front).max(1)))
}

/// How often keyslots are told in these bytes.
fn times_named(bytes: &[u8]) -> u32 {
    let mut times: u32 = 0;
    for at in 0..bytes.len() {
        if bytes[at..].starts_with(NAME) {
            times = times.saturating_add(1);
        }
    }
    times
}
