//! The keyslot that an edit opens, where the command line names none.
ghost use Rattle.std.specs.Prelude.{◌≡◌, ◌+◌, ◌<◌, ◌^◌, IfOk, IfErr, None, length};
ghost use Rattle.luks_area.specs.Device.{CountsFailure, IsUnchanged};
ghost use Rattle.luks_edit.specs.EditFaults.{is_edit_failure};
ghost use Rattle.luks_reading.specs.Header.{IsAcceptedHeader, IsHeader};
ghost use Rattle.luks_edit_commands.specs.Editing.{IsFound, IsMeant, IsUnfound, unopened_fault, UnlessOutside};

use luks_commands::open::try_each;
use luks_volume::{Data, Device, Edit, EditFault, Header, OpenFault, Secret, needed_of_header};
use std::alloc::Global;
use std::io::Write;

/// The keyslot that the secret is to open: the one that is named, or else the first that it opens of a volume with
/// this header; or why none is found.
pub(super) fn keyslot_of<D: Device, E: Write>(
    alloc: Global,
    device: &mut D,
    header: &Header,
    payload: Data,
    named: Option<u8>,
    secret: &Secret<'_>,
    err: &mut E,
) -> Result<u8, EditFault>
    requires room { D.failed device.old + 1 < 2 ^ 64 }
    requires accepted { IsAcceptedHeader header.now }
    requires short { length secret.now.bytes.now < 2 ^ 32 }
    ensures unchanged { IsUnchanged D.tells D.size D.bytes D.unsettled device.old device.new }
    ensures count { CountsFailure is_edit_failure result
        (D.failed device.old) (D.failed device.new) }
    ensures meant { D.tells → IsHeader (D.bytes device.old) header.now
        → IfOk result (IsMeant (D.bytes device.old) named secret.now) }
    ensures unfound { D.tells → IsHeader (D.bytes device.old) header.now
        → IfErr result (UnlessOutside (D.bytes device.old)
        (IsUnfound payload (D.bytes device.old) secret.now)) }
    ensures unnamed { IfErr result (λ _. named ≡ None) }
{
    match named {
        Some(n) => Ok(n),
        None => found_keyslot(alloc, device, header, payload, secret, err),
    }
}

/// The first keyslot that the secret opens, of those that `open` tries and in its order. What refuses every edit of the
/// volume is told before any is tried.
fn found_keyslot<D: Device, E: Write>(
    alloc: Global,
    device: &mut D,
    header: &Header,
    payload: Data,
    secret: &Secret<'_>,
    err: &mut E,
) -> Result<u8, EditFault>
    requires room { D.failed device.old + 1 < 2 ^ 64 }
    requires accepted { IsAcceptedHeader header.now }
    requires short { length secret.now.bytes.now < 2 ^ 32 }
    ensures unchanged { IsUnchanged D.tells D.size D.bytes D.unsettled device.old device.new }
    ensures count { CountsFailure is_edit_failure result
        (D.failed device.old) (D.failed device.new) }
    ensures found { D.tells → IsHeader (D.bytes device.old) header.now
        → IfOk result (IsFound (D.bytes device.old) secret.now) }
    ensures unfound { D.tells → IsHeader (D.bytes device.old) header.now
        → IfErr result (UnlessOutside (D.bytes device.old)
        (IsUnfound payload (D.bytes device.old) secret.now)) }
{
    needed_of_header(header, payload, device.len(), &Edit::Repair)?;
    match try_each(alloc, device, header, secret.bytes, secret.allowed, err) {
        Ok(Some((n, _))) => Ok(n),
        Ok(None) => Err(EditFault::Locked),
        Err(fault) => Err(unopened(fault)),
    }
}

/// Why the keyslots of an accepted volume can't be tried: the device failed, or memory was refused.
fn unopened(fault: OpenFault) -> EditFault
    ensures { result ≡ unopened_fault fault }
{
    match fault {
        OpenFault::Device => EditFault::Device,
        OpenFault::Memory => EditFault::Memory,
        _ => EditFault::Locked,
    }
}
