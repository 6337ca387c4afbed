//! LUKS1 headers on a disk, whatever is in the place of their magic.
ghost use Rattle.std.specs.Prelude.{◌≡◌, ◌↔◌, ◌⊎◌, ◌+◌, ◌^◌, ◌<◌, ◌≤◌, codes, IsTrue, IfOk, length};
ghost use Rattle.luks_area.specs.Ranges.{part};
ghost use Rattle.luks_area.specs.Device.{CountsFailure, IsUnchanged, is_failure};
ghost use Rattle.luks1_header.specs.Header1.{luks1_size};
ghost use Rattle.luks2_header.specs.Header2.{second_magic};
ghost use Rattle.luks_signatures.specs.Reencryption.{reencrypting_magic};
ghost use Rattle.luks_finding.specs.Starts.{BeginsLuks1, IsLuks1Header, IsUsableHead};

use crate::signs::{REENCRYPTING_MAGIC, SECOND_MAGIC};
use luks_area::{Device, DeviceFault};
use luks1_header::fields::field;
use luks1_mending::{Given, has_signs, mended_header};

/// The bytes of a header.
const HEADER: usize = 592;

/// Whether each field before the keyslots is usable as it stands.
fn is_usable_head(header: &[u8], total: u64) -> bool
    requires { length header.now ≡ luks1_size }
    ensures { IsTrue result ↔ IsUsableHead header.now }
{
    match mended_header(header, total, &Given::NOTHING) {
        Ok(_) => true,
        Err(_) => false,
    }
}

/// Whether the magic of a second copy or that of a reencryption stands first, or the brace of a JSON area.
fn begins_otherwise(header: &[u8]) -> bool
    requires { length header.now ≡ luks1_size }
    ensures { IsTrue result ↔ ((part header.now 0 6 ≡ second_magic)
        ⊎ (part header.now 0 6 ≡ reencrypting_magic) ⊎ (part header.now 0 1 ≡ codes "{")) }
{
    field(header, 0, 6) == SECOND_MAGIC.as_slice()
        || field(header, 0, 6) == REENCRYPTING_MAGIC.as_slice()
        || field(header, 0, 1) == b"{".as_slice()
}

/// Whether these 592 bytes of a volume of `total` bytes are a header of which `rebuild` makes one.
fn is_luks1_header(header: &[u8], total: u64) -> bool
    requires { length header.now ≡ luks1_size }
    ensures { IsTrue result ↔ IsLuks1Header header.now total }
{
    if begins_otherwise(header) {
        return false;
    }
    if !has_signs(header, total) {
        return false;
    }
    is_usable_head(header, total)
}

/// Whether a LUKS1 header begins at the byte `start` of the device, whatever is in the place of
/// its magic and its version: one of which `rebuild` makes a header, with nothing given.
///
/// Reads its 592 bytes.
pub fn begins_luks1<D: Device>(device: &mut D, start: u64) -> Result<bool, DeviceFault>
    requires inside { start ≤ D.size device.old }
    requires room { D.failed device.old + 1 < 2 ^ 64 }
    ensures unchanged { IsUnchanged D.tells D.size D.bytes D.unsettled device.old device.new }
    ensures count { CountsFailure is_failure result (D.failed device.old) (D.failed device.new) }
    ensures begins { D.tells
        → IfOk result (λ begins. IsTrue begins ↔ BeginsLuks1 (D.bytes device.old) start) }
{
    let total = device.len() - start;
    if total < HEADER as u64 {
        return Ok(false);
    }
    let mut header = [0; HEADER];
    device.read_at(start, &mut header)?;
    Ok(is_luks1_header(&header, total))
}
