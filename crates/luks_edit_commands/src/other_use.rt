//! Another use of the disk by now, in the place of a copy that isn't sound.
ghost use Rattle.std.specs.Prelude.{◌≡◌, ◌+◌, ◌*◌, ◌^◌, ◌<◌, ◌≤◌, IfOk, IfSome, OnOk};
ghost use Rattle.std.specs.Io.KnownBytes.{Appends};
ghost use Rattle.luks_area.specs.Device.{CountsFailure, IsUnchanged, is_failure};
ghost use Rattle.luks_reading.specs.Header.{IsHeader};
ghost use Rattle.luks_edit_commands.specs.OtherUses.{Bars, FindsOtherUse, HasOtherUse, IsCounting, overwritten_line};

use luks_signatures::{OtherUse, first_use};
use luks_volume::{Device, DeviceFault, Header};
use luks2_header::{Bin2, Copies, Selected, select};
use std::io::{self, Write};

/// The use of the disk that an edit of a volume with this header would write over. None where it may
/// do so: nothing is asked then, so that a place that can't be read stops nothing.
pub(crate) fn barring_use<D: Device>(
    device: &mut D,
    header: &Header,
    over: bool,
) -> Result<Option<OtherUse>, DeviceFault>
    requires { D.failed device.old + 1 < 2 ^ 64 }
    ensures unchanged { IsUnchanged D.tells D.size D.bytes D.unsettled device.old device.new }
    ensures count { CountsFailure is_failure result (D.failed device.old) (D.failed device.new) }
    ensures bars { D.tells → IsHeader (D.bytes device.old) header.now
        → IfOk result (Bars over (D.bytes device.old)) }
{
    if over {
        return Ok(None);
    }
    other_use(device, header)
}

/// The other use of the disk of a volume with this header.
fn other_use<D: Device>(device: &mut D, header: &Header) -> Result<Option<OtherUse>, DeviceFault>
    requires { D.failed device.old + 1 < 2 ^ 64 }
    ensures unchanged { IsUnchanged D.tells D.size D.bytes D.unsettled device.old device.new }
    ensures count { CountsFailure is_failure result (D.failed device.old) (D.failed device.new) }
    ensures found { D.tells → IsHeader (D.bytes device.old) header.now
        → IfOk result (FindsOtherUse (D.bytes device.old)) }
{
    match header {
        Header::Luks1(_) => Ok(None),
        Header::Luks2(copy) => use_beside(device, &copy.header, copy.copies),
    }
}

/// The same where this copy of a LUKS2 header counts, and its copies stand so: of the place of a copy that
/// isn't sound.
fn use_beside<D: Device>(
    device: &mut D,
    header: &Bin2,
    copies: Copies,
) -> Result<Option<OtherUse>, DeviceFault>
    requires { D.failed device.old + 1 < 2 ^ 64 }
    ensures unchanged { IsUnchanged D.tells D.size D.bytes D.unsettled device.old device.new }
    ensures count { CountsFailure is_failure result (D.failed device.old) (D.failed device.new) }
    ensures found { D.tells → IsCounting (D.bytes device.old) header.now copies
        → IfOk result (FindsOtherUse (D.bytes device.old)) }
{
    match copies {
        Copies::SecondOnly => first_use(device, header.hdr_offset),
        Copies::FirstOnly => first_use(device, both_places(header.hdr_size)),
        _ => Ok(None),
    }
}

/// The end of the place of the second copy.
fn both_places(size: u64) -> u64
    ensures { size ≤ 4194304 → result ≡ 2 * size }
{
    size.saturating_mul(2)
}

/// The other use of a disk by now. None where it has none, and where that can't be read.
pub fn standing_use<D: Device>(device: &mut D) -> Option<OtherUse>
    requires { D.failed device.old + 1 < 2 ^ 64 }
    ensures unchanged { IsUnchanged D.tells D.size D.bytes D.unsettled device.old device.new }
    ensures has { D.tells → IfSome result (HasOtherUse (D.bytes device.old)) }
{
    let Ok(Selected::V2 { header, copies }) = select(device) else {
        return None;
    };
    match use_beside(device, &header, copies) {
        Ok(found) => found,
        Err(_) => None,
    }
}

/// Says to `err` of the volume of this name what else its disk is used for, where it is.
pub fn note_other_use<D: Device, E: Write>(device: &mut D, volume: &str, err: &mut E)
    requires { D.failed device.old + 1 < 2 ^ 64 }
    ensures { IsUnchanged D.tells D.size D.bytes D.unsettled device.old device.new }
{
    if let Some(found) = standing_use(device) {
        let _ = writeln!(
            err,
            "luks: {volume}: {found} stands in the place of a damaged copy: no edit writes over it without --over"
        );
    }
}

/// Says to `err` of the volume of this name that an edit has written over another use of its disk.
pub fn note_overwritten<E: Write>(found: OtherUse, volume: &str, err: &mut E) -> io::Result<()>
    ensures { OnOk result (Appends (E.contents err.old) (E.contents err.new)
        (overwritten_line volume.now found)) }
{
    writeln!(
        err,
        "luks: {volume}: {found} stood in the place of a damaged copy, and was written over"
    )
}
