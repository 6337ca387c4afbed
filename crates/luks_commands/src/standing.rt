//! What is on a device that a command would write over.
ghost use Rattle.std.specs.Prelude.{◌≡◌, ◌≢◌, ◌↔◌, ◌+◌, ◌<◌, ◌^◌, IfErr, IfOk, IsTrue, OnOk, Some};
ghost use Rattle.luks_area.specs.Device.{CountsFailure, IsUnchanged, is_failure};
ghost use Rattle.luks_reading.specs.Header.{IsAcceptedHeader};
ghost use Rattle.luks_signatures.specs.Signatures.{Finds, table};
ghost use Rattle.luks_keeping.specs.OtherHeaders.{read_uuid, selected_uuid};
ghost use Rattle.luks_commands.specs.Answer.{answer_status};
ghost use Rattle.luks_commands.specs.Standing.{bar_answer, HasOther, is_bar_failure, IsBar, IsClear, IsHeaderBar, IsHeaderClear, IsUnasked, IsUuidOf};
ghost use Rattle.luks_area.specs.Ranges.{part};

use crate::answers::{Answer, Refusal, Status, device_fault};
use crate::reencrypting::is_reencrypting;
use luks_keeping::accepted_header;
use luks_reading::{CheckFault, Data, Device, DeviceFault, Header, ReadFault, Selected, select};
use luks_signatures::{OtherUse, first_use};
use luks1_header::fields::field;
use std::alloc::Global;
use std::io::Write;

/// The place of the uuid's field of a LUKS1 header.
const UUID: usize = 168;

const UUID_END: usize = 208;

/// Why a command doesn't write over what is on a device.
#[derive(Clone, Copy)]
pub enum Bar {
    /// The disk has this other use.
    OtherUse(OtherUse),
    /// Another volume's header is there.
    OtherVolume,
    /// The metadata of a reencryption is there.
    Reencrypting,
    /// Memory was refused, for its metadata.
    Memory,
    /// A device call failed.
    Device,
}

impl From<DeviceFault> for Bar {
    ghost use Rattle.luks_commands.specs.declared.standing.Bar.{Bar};

    ghost from_gives = { λ _ bar. bar ≡ Bar.Device };

    fn from(_: DeviceFault) -> Bar {
        Bar::Device
    }
}

impl From<Bar> for Answer {
    ghost from_gives = { λ bar answer. answer ≡ bar_answer bar };

    fn from(bar: Bar) -> Answer {
        match bar {
            Bar::OtherUse(found) => Answer::Refused(Refusal::OtherUse(found)),
            Bar::OtherVolume => Answer::Refused(Refusal::OtherVolume),
            Bar::Reencrypting => Answer::Refused(Refusal::Reencrypting),
            Bar::Memory => Answer::NoMemory,
            Bar::Device => Answer::DeviceFault,
        }
    }
}

/// What is answered where a command is barred by what is on the file of this name.
#[tactic(auto, using(crate::proofs::StandingFacts::bar_kinds, crate::proofs::StandingFacts::bar_undone))]
pub fn held_back<E: Write>(bar: Bar, file: &str, err: &mut E) -> Answer
    ensures answer { result ≡ bar_answer bar }
    ensures kinds { answer_status result ≢ Status.NotInStep }
    ensures undone { answer_status result ≢ Status.Done }
{
    match bar {
        Bar::Device => device_fault(file, "reading failed", err),
        bar => Answer::from(bar),
    }
}

/// Refuses where an accepted LUKS header is on the device whose uuid's field isn't this one, where the
/// metadata of a reencryption does, or where the disk has another use. If it may be written over nothing is asked, so that a place that can't be
/// read stops nothing.
///
/// Takes memory for the metadata of LUKS2 alone.
#[inline(never)]
pub fn judge_standing<D: Device>(
    alloc: Global,
    device: &mut D,
    uuid: Option<[u8; 40]>,
    over: bool,
) -> Result<(), Bar>
    requires { D.failed device.old + 1 < 2 ^ 64 }
    ensures unchanged { IsUnchanged D.tells D.size D.bytes D.unsettled device.old device.new }
    ensures count { CountsFailure is_bar_failure result
        (D.failed device.old) (D.failed device.new) }
    ensures barred { IfErr result
        (IsBar D.tells over (HasOther uuid (D.bytes device.old)) (D.bytes device.old)) }
    ensures clear { D.tells → OnOk result
        (IsClear over (HasOther uuid (D.bytes device.old)) (D.bytes device.old)) }
{
    if over {
        return Ok(());
    }
    judge_headers(alloc, device, uuid)?;
    match standing_use_of(device)? {
        Some(found) => Err(Bar::OtherUse(found)),
        None => Ok(()),
    }
}

/// Refuses where an accepted LUKS header is there whose uuid's field isn't this one, or the metadata of a
/// reencryption.
fn judge_headers<D: Device>(
    alloc: Global,
    device: &mut D,
    uuid: Option<[u8; 40]>,
) -> Result<(), Bar>
    requires { D.failed device.old + 1 < 2 ^ 64 }
    ensures unchanged { IsUnchanged D.tells D.size D.bytes D.unsettled device.old device.new }
    ensures count { CountsFailure is_bar_failure result
        (D.failed device.old) (D.failed device.new) }
    ensures barred { IfErr result
        (IsHeaderBar D.tells (HasOther uuid (D.bytes device.old)) (D.bytes device.old)) }
    ensures clear { D.tells → OnOk result
        (IsHeaderClear (HasOther uuid (D.bytes device.old)) (D.bytes device.old)) }
{
    if has_other(alloc, device, uuid)? {
        return Err(Bar::OtherVolume);
    }
    if is_reencrypting(alloc, device)? {
        return Err(Bar::Reencrypting);
    }
    Ok(())
}

/// What else the disk is used for, by the signatures among all of its bytes.
pub fn standing_use_of<D: Device>(device: &mut D) -> Result<Option<OtherUse>, DeviceFault>
    requires { D.failed device.old + 1 < 2 ^ 64 }
    ensures unchanged { IsUnchanged D.tells D.size D.bytes D.unsettled device.old device.new }
    ensures count { CountsFailure is_failure result (D.failed device.old) (D.failed device.new) }
    ensures found { D.tells → IfOk result (Finds table (D.bytes device.old)) }
{
    let all = device.len();
    first_use(device, all)
}

/// Whether an accepted header is there whose uuid's field isn't this one.
fn has_other<D: Device>(alloc: Global, device: &mut D, uuid: Option<[u8; 40]>) -> Result<bool, Bar>
    requires { D.failed device.old + 1 < 2 ^ 64 }
    ensures unchanged { IsUnchanged D.tells D.size D.bytes D.unsettled device.old device.new }
    ensures count { CountsFailure is_bar_failure result
        (D.failed device.old) (D.failed device.new) }
    ensures has { D.tells → IfOk result (λ has.
        IsTrue has ↔ HasOther uuid (D.bytes device.old)) }
    ensures fault { IfErr result (IsUnasked D.tells (D.bytes device.old)) }
{
    match accepted_header(alloc, device, Data::Elsewhere) {
        Ok(header) => Ok(!has_uuid(&header, uuid)),
        Err(CheckFault::Device) => Err(Bar::Device),
        Err(CheckFault::Memory) => Err(Bar::Memory),
        Err(CheckFault::Head(_)) => Ok(false),
        Err(CheckFault::Meta(_)) => Ok(false),
        Err(CheckFault::Area(_)) => Ok(false),
    }
}

/// Whether the header has this uuid's field.
fn has_uuid(header: &Header, uuid: Option<[u8; 40]>) -> bool
    requires { IsAcceptedHeader header.now }
    ensures { IsTrue result ↔ (Some (read_uuid header.now) ≡ uuid) }
{
    let Some(uuid) = uuid else {
        return false;
    };
    match header {
        Header::Luks1(bytes) => &bytes[UUID..UUID_END] == uuid.as_slice(),
        Header::Luks2(copy) => copy.header.uuid.as_slice() == uuid.as_slice(),
    }
}

/// The uuid's field of the header that counts on the device, if one does.
pub fn uuid_of<D: Device>(device: &mut D) -> Result<Option<[u8; 40]>, DeviceFault>
    requires { D.failed device.old + 1 < 2 ^ 64 }
    ensures unchanged { IsUnchanged D.tells D.size D.bytes D.unsettled device.old device.new }
    ensures count { CountsFailure is_failure result (D.failed device.old) (D.failed device.new) }
    ensures uuid { D.tells → IfOk result (IsUuidOf (D.bytes device.old)) }
{
    match select(device) {
        Ok(selected) => Ok(Some(selected_uuid(&selected))),
        Err(fault) => match ReadFault::from(fault) {
            ReadFault::Device => Err(DeviceFault),
            ReadFault::Head(_) | ReadFault::Meta(_) | ReadFault::Memory => Ok(None),
        },
    }
}

/// The uuid's field of a header that was selected.
fn selected_uuid(selected: &Selected) -> [u8; 40]
    ensures { result ≡ selected_uuid selected.now }
{
    match selected {
        Selected::V1(bytes) => luks1_uuid(bytes),
        Selected::V2 { header, .. } => header.uuid,
    }
}

/// That of a LUKS1 header.
fn luks1_uuid(bytes: &[u8; 592]) -> [u8; 40]
    ensures { result ≡ part bytes.now 168 40 }
{
    let mut uuid = [0; 40];
    uuid.copy_from_slice(field(bytes, UUID, UUID_END - UUID));
    uuid
}
