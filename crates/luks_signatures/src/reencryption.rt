//! A LUKS1 volume that is being reencrypted.
ghost use Rattle.std.specs.Prelude.{◌↔◌, ◌+◌, ◌≤◌, ◌<◌, ◌^◌, IfOk, IsTrue, length};
ghost use Rattle.luks_area.specs.Device.{CountsFailure, IsUnchanged, is_failure};
ghost use Rattle.luks_signatures.specs.Reencryption.{IsReencrypting};

use luks_area::{Device, DeviceFault};

/// The magic that the header has meanwhile.
const MAGIC: [u8; 6] = [0x4C, 0x55, 0x4B, 0x53, 0xDE, 0xAD];

/// Whether a LUKS1 header with these first bytes is that of a volume that cryptsetup is in the midst of
/// reencrypting.
pub fn is_reencrypting(first: &[u8]) -> bool
    requires { 6 ≤ length first.now }
    ensures { IsTrue result ↔ IsReencrypting first.now }
{
    first[..6] == MAGIC[..]
}

/// Whether the header at the start of a device has that magic. A shorter device has none.
pub fn is_reencrypted<D: Device>(device: &mut D) -> Result<bool, DeviceFault>
    requires { D.failed device.old + 1 < 2 ^ 64 }
    ensures unchanged { IsUnchanged D.tells D.size D.bytes D.unsettled device.old device.new }
    ensures count { CountsFailure is_failure result (D.failed device.old) (D.failed device.new) }
    ensures is { D.tells → IfOk result (λ is. IsTrue is ↔ IsReencrypting (D.bytes device.old)) }
{
    if device.len() < 6 {
        return Ok(false);
    }
    let mut first = [0; 6];
    device.read_at(0, &mut first)?;
    Ok(first == MAGIC)
}
