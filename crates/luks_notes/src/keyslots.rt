//! That there is no keyslot.
ghost use Rattle.std.specs.Prelude.{◌+◌, ◌^◌, ◌<◌};
ghost use Rattle.luks_area.specs.Device.{IsUnchanged};
ghost use Rattle.luks_reading.specs.Header.{IsAcceptedHeader};

use luks_area::Device;
use luks_reading::{Allowed, Header, OpenFault, read_header, refused_slot};
use std::alloc::Global;
use std::io::Write;

/// Says to `err` of the volume of this name, which no passphrase has opened, that it has no keyslot,
/// or of LUKS1 none that is enabled. If it has one, and where its header can't be read, it says
/// nothing.
pub fn note_no_keyslots<D: Device, E: Write>(
    alloc: Global,
    device: &mut D,
    volume: &str,
    err: &mut E,
)
    requires { D.failed device.old + 1 < 2 ^ 64 }
    ensures { IsUnchanged D.tells D.size D.bytes D.unsettled device.old device.new }
{
    if let Ok(header) = read_header(alloc, device) {
        if has_no_keyslot(&header, device.len()) {
            let _ = writeln!(
                err,
                "luks: {volume}: the volume has no keyslots: no passphrase opens it"
            );
        }
    }
}

/// Whether a volume with this header, of `total` bytes, has no keyslot that is in use.
fn has_no_keyslot(header: &Header, total: u64) -> bool
    requires { IsAcceptedHeader header.now }
{
    for n in 0..32 {
        match refused_slot(header, n, total, Allowed::NOTHING) {
            Some(OpenFault::NoSuchSlot | OpenFault::SlotFree) => {}
            _ => return false,
        }
    }
    true
}
