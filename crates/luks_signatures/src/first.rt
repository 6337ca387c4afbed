ghost use Rattle.std.specs.Prelude.{◌+◌, ◌<◌, ◌≤◌, ◌^◌, IfOk, IsTrue, map, take};
ghost use Rattle.luks_area.specs.Device.{CountsFailure, IsUnchanged, is_failure};
ghost use Rattle.luks_signatures.specs.Signatures.{Finds, table};
ghost use Rattle.luks_signatures.specs.Views.{are_short, row_of};

use crate::other_use::OtherUse;
use crate::standing::is_in;
use crate::table::{Row, TABLE};
use luks_area::{Device, DeviceFault};

/// What the signatures among the first `len` bytes of a disk show, or among all of its bytes where it
/// has fewer: the use by the first row of the table that is there. None where no row does.
///
/// The least bytes that decide are read, at most 512 at once; no memory is asked for. The table has
/// what libblkid of util-linux knows, of what is at the start of a disk.
pub fn first_use<D: Device>(device: &mut D, len: u64) -> Result<Option<OtherUse>, DeviceFault>
    requires { D.failed device.old + 1 < 2 ^ 64 }
    ensures unchanged { IsUnchanged D.tells D.size D.bytes D.unsettled device.old device.new }
    ensures count { CountsFailure is_failure result (D.failed device.old) (D.failed device.new) }
    ensures found { D.tells → IfOk result (Finds table (take len (D.bytes device.old))) }
{
    let end = len.min(device.len());
    first_of(device, end, &TABLE)
}

/// The same by these rows, among the first `end` bytes.
fn first_of<D: Device>(
    device: &mut D,
    end: u64,
    rows: &[Row],
) -> Result<Option<OtherUse>, DeviceFault>
    requires short { IsTrue (are_short rows.now) }
    requires within { end ≤ D.size device.old }
    requires room { D.failed device.old + 1 < 2 ^ 64 }
    ensures unchanged { IsUnchanged D.tells D.size D.bytes D.unsettled device.old device.new }
    ensures count { CountsFailure is_failure result (D.failed device.old) (D.failed device.new) }
    ensures found { D.tells
        → IfOk result (Finds (map row_of rows.now) (take end (D.bytes device.old))) }
{
    for row in rows {
        if is_in(device, end, &row.mark)? {
            return Ok(Some(row.shows));
        }
    }
    Ok(None)
}
