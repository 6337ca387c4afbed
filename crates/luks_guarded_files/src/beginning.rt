ghost use Rattle.std.specs.Prelude.{◌≡◌, ◌+◌, ◌^◌, ◌<◌, ◌≤◌, ◌↔◌, IfOk, IsTrue, length};
ghost use Rattle.luks_area.specs.Device.{CountsFailure, IsUnchanged, is_failure};
ghost use Rattle.luks_area.specs.Ranges.{part};

use luks_area::{Device, DeviceFault};

/// How many bytes are read at once to be compared.
const WINDOW: usize = 4096;

/// Whether the device begins with these bytes; it has as many at least. It is read as far as the
/// first piece of 4096 bytes in which one differs, and no memory is taken.
pub fn begins_with<D: Device>(device: &mut D, bytes: &[u8]) -> Result<bool, DeviceFault>
    requires within { length bytes.now ≤ D.size device.old }
    requires room { D.failed device.old + 1 < 2 ^ 64 }
    ensures unchanged { IsUnchanged D.tells D.size D.bytes D.unsettled device.old device.new }
    ensures count { CountsFailure is_failure result (D.failed device.old) (D.failed device.new) }
    ensures same { D.tells → IfOk result (λ same. IsTrue same
        ↔ (bytes.now ≡ part (D.bytes device.old) 0 (length bytes.now))) }
{
    let mut done = 0;
    while done < bytes.len() {
        let len = (bytes.len() - done).min(WINDOW);
        if !holds_piece(device, done as u64, &bytes[done..done + len])? {
            return Ok(false);
        }
        done += len;
    }
    Ok(true)
}

/// Whether these bytes, 4096 at most, are at the place `at`.
fn holds_piece<D: Device>(device: &mut D, at: u64, piece: &[u8]) -> Result<bool, DeviceFault>
    requires within { at + length piece.now ≤ D.size device.old }
    requires window { length piece.now ≤ 4096 }
    requires room { D.failed device.old + 1 < 2 ^ 64 }
    ensures unchanged { IsUnchanged D.tells D.size D.bytes D.unsettled device.old device.new }
    ensures count { CountsFailure is_failure result (D.failed device.old) (D.failed device.new) }
    ensures same { D.tells → IfOk result (λ same. IsTrue same
        ↔ (piece.now ≡ part (D.bytes device.old) at (length piece.now))) }
{
    let mut window = [0; WINDOW];
    let now = &mut window[..piece.len()];
    device.read_at(at, now)?;
    Ok(*now == *piece)
}
