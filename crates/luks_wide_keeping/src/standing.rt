//! How the header that counts on a device stands to that of a backup.
ghost use Rattle.std.specs.Prelude.{◌≡◌, ◌↔◌, ◌+◌, ◌-◌, ◌^◌, ◌<◌, ◌≤◌, IfOk, IsTrue};
ghost use Rattle.luks_area.specs.Device.{CountsFailure, IsUnchanged, is_failure};
ghost use Rattle.luks_writing.specs.TwoDevices.{CountsEither};
ghost use Rattle.luks2_header.specs.Header2.{IsCopyWithin};
ghost use Rattle.luks2_header.specs.Selection.{IsSelected, IsSelectedWithin};
ghost use Rattle.luks2_header.specs.declared.selection.Copies.{Copies as TheCopies};
ghost use Rattle.luks2_header.specs.declared.selection.Selected.TheVariants.{V2};
ghost use Rattle.luks_keeping.specs.OtherHeaders.{selected_uuid};
ghost use Rattle.luks_wide_keeping.specs.Standings.{StandsSo};
ghost use Rattle.luks_wide_keeping.specs.Counting.{FindsSelected, IsFoundWithin, IsSameMetadata};

use luks_area::{Area, Device, DeviceFault};
use luks_keeping::are_alike;
use luks_reading::{Bin2, ReadFault, Selected, select};

/// The bytes of a binary header; its JSON area follows.
const BINARY_HEADER: u64 = 4096;

/// The place of the uuid's field of a LUKS1 header.
const UUID: usize = 168;

const UUID_END: usize = 208;

/// How the header that counts on a device stands to that of a backup.
#[derive(Clone, Copy, PartialEq, Eq)]
pub enum Standing {
    /// None counts.
    Nothing,
    /// One counts, and has another uuid.
    Another,
    /// It is of the very same state: it has the backup's uuid, sequence number and metadata.
    Same,
    /// It has the backup's uuid, and went on since, or is of an earlier state.
    Progressed,
}

/// How the header that counts on the target stands to that of the backup. Nothing is written, no key area is
/// read, and no memory is taken.
pub fn standing_of<B: Device, T: Device>(
    backup: &mut B,
    target: &mut T,
) -> Result<Standing, DeviceFault>
    requires backup_room { B.failed backup.old + 1 < 2 ^ 64 }
    requires target_room { T.failed target.old + 1 < 2 ^ 64 }
    ensures count { CountsEither is_failure result (B.failed backup.old) (B.failed backup.new)
        (T.failed target.old) (T.failed target.new) }
    ensures kept { IsUnchanged B.tells B.size B.bytes B.unsettled backup.old backup.new }
    ensures unchanged { IsUnchanged T.tells T.size T.bytes T.unsettled target.old target.new }
    ensures stands { B.tells → T.tells
        → IfOk result (StandsSo (B.bytes backup.old) (T.bytes target.old)) }
{
    let Some(there) = selected(target)? else {
        return Ok(Standing::Nothing);
    };
    match selected(backup)? {
        Some(Selected::V2 { header, .. }) => standing_beside(backup, &header, target, &there),
        Some(Selected::V1(_)) => Ok(Standing::Another),
        None => Ok(Standing::Another),
    }
}

/// The header that counts on the device, if one does.
fn selected<D: Device>(device: &mut D) -> Result<Option<Selected>, DeviceFault>
    requires { D.failed device.old + 1 < 2 ^ 64 }
    ensures unchanged { IsUnchanged D.tells D.size D.bytes D.unsettled device.old device.new }
    ensures count { CountsFailure is_failure result (D.failed device.old) (D.failed device.new) }
    ensures within { IfOk result (IsFoundWithin (D.size device.old)) }
    ensures found { D.tells → IfOk result (FindsSelected (D.bytes device.old)) }
{
    match select(device) {
        Ok(found) => Ok(Some(found)),
        Err(fault) => match ReadFault::from(fault) {
            ReadFault::Device => Err(DeviceFault),
            ReadFault::Head(_) | ReadFault::Meta(_) | ReadFault::Memory => Ok(None),
        },
    }
}

/// How the header that counts on the target stands to that of the backup, which is of LUKS2.
fn standing_beside<B: Device, T: Device>(
    backup: &mut B,
    here: &Bin2,
    target: &mut T,
    there: &Selected,
) -> Result<Standing, DeviceFault>
    requires backup_room { B.failed backup.old + 1 < 2 ^ 64 }
    requires target_room { T.failed target.old + 1 < 2 ^ 64 }
    requires here { IsCopyWithin (B.size backup.old) here.now }
    requires there { IsSelectedWithin (T.size target.old) there.now }
    ensures count { CountsEither is_failure result (B.failed backup.old) (B.failed backup.new)
        (T.failed target.old) (T.failed target.new) }
    ensures kept { IsUnchanged B.tells B.size B.bytes B.unsettled backup.old backup.new }
    ensures unchanged { IsUnchanged T.tells T.size T.bytes T.unsettled target.old target.new }
    ensures stands { B.tells → T.tells → (copies : TheCopies)
        → IsSelected (B.bytes backup.old) (V2 here.now copies)
        → IsSelected (T.bytes target.old) there.now
        → IfOk result (StandsSo (B.bytes backup.old) (T.bytes target.old)) }
{
    if !has_uuid(here, there) {
        return Ok(Standing::Another);
    }
    match there {
        Selected::V1(_) => Ok(Standing::Progressed),
        Selected::V2 { header, .. } => {
            if is_same_metadata(backup, here, target, header)? {
                Ok(Standing::Same)
            } else {
                Ok(Standing::Progressed)
            }
        }
    }
}

/// Whether what was selected has the uuid of this header: the 40 bytes of its field.
fn has_uuid(here: &Bin2, there: &Selected) -> bool
    ensures { IsTrue result ↔ (selected_uuid there.now ≡ here.now.uuid) }
{
    match there {
        Selected::V1(bytes) => is_uuid(here, &bytes[UUID..UUID_END]),
        Selected::V2 { header, .. } => is_uuid(here, header.uuid.as_slice()),
    }
}

/// Whether these are the bytes of this header's uuid field.
fn is_uuid(here: &Bin2, uuid: &[u8]) -> bool
    ensures { IsTrue result ↔ (uuid.now ≡ here.now.uuid) }
{
    uuid == here.uuid.as_slice()
}

/// Whether both copies have one sequence number, and the same bytes of metadata.
fn is_same_metadata<B: Device, T: Device>(
    backup: &mut B,
    here: &Bin2,
    target: &mut T,
    there: &Bin2,
) -> Result<bool, DeviceFault>
    requires backup_room { B.failed backup.old + 1 < 2 ^ 64 }
    requires target_room { T.failed target.old + 1 < 2 ^ 64 }
    requires here { IsCopyWithin (B.size backup.old) here.now }
    requires there { IsCopyWithin (T.size target.old) there.now }
    ensures count { CountsEither is_failure result (B.failed backup.old) (B.failed backup.new)
        (T.failed target.old) (T.failed target.new) }
    ensures kept { IsUnchanged B.tells B.size B.bytes B.unsettled backup.old backup.new }
    ensures unchanged { IsUnchanged T.tells T.size T.bytes T.unsettled target.old target.new }
    ensures told { B.tells → T.tells → IfOk result (λ same. IsTrue same
        ↔ IsSameMetadata (B.bytes backup.old) (T.bytes target.old) here.now there.now) }
{
    if here.seqid != there.seqid {
        return Ok(false);
    }
    are_alike(backup, json_area(here), target, json_area(there))
}

/// The place of the JSON area of the copy with this binary header.
fn json_area(header: &Bin2) -> Area
    requires large { 4096 ≤ header.now.hdr_size }
    requires inside { header.now.hdr_offset + header.now.hdr_size < 2 ^ 64 }
    ensures start { result.start ≡ header.now.hdr_offset + 4096 }
    ensures len { result.len ≡ header.now.hdr_size - 4096 }
{
    Area {
        start: header.hdr_offset + BINARY_HEADER,
        len: header.hdr_size - BINARY_HEADER,
    }
}
