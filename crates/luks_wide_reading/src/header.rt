//! The header that counts of a volume, by the wider reading.
ghost use Rattle.std.specs.Prelude.{◌≡◌, ◌≢◌, ◌+◌, ◌-◌, ◌^◌, ◌<◌, length, false, IfOk, IfErr, MatchResult};
ghost use Rattle.luks_area.specs.Device.{CountsFailure, IsUnchanged};
ghost use Rattle.luks2_header.specs.Header2.{IsCopyWithin, IsUuidField};
ghost use Rattle.luks_reading.specs.declared.header.Header.{Header as TheHeader};
ghost use Rattle.luks_reading.specs.declared.read_fault.ReadFault.TheVariants.{Memory as NoMemory, Meta as OfMeta};
ghost use Rattle.luks_reading.specs.ChosenCopies.{json_of};
ghost use Rattle.luks_reading.specs.Header.{IsHeader, IsUnread, TakesNoMemory};
ghost use Rattle.luks_wider.specs.declared.wider.Wider.TheVariants.{Underway as OfUnderway};
ghost use Rattle.luks_wider.specs.Underways.{area_len};
ghost use Rattle.luks_wider.specs.Wide.{HasUnderWay, IsWiderOf};
ghost use Rattle.luks_wide_reading.specs.Beside.{AreaRefused, CopyRefused};
ghost use Rattle.luks_wide_reading.specs.Faults.{is_wide_read_failure, underway_unread};
ghost use Rattle.luks_wide_reading.specs.Headers.{IsAcceptedWide, IsFromOutside, IsSameHeader, IsWideHeader, IsWideUnread};

use crate::copy::UnderwayCopy;
use crate::read_fault::WideReadFault;
use luks_reading::{Bin2, Device, Header, MetaFault, ReadFault, Selected, read_header};
use luks_wider::{Underway, WideFault, has_under_way};
use luks2_header::{KEPT_JSON, select_with_json};
use std::alloc::Global;

/// The bytes of the binary header with which a LUKS2 copy begins; its JSON area follows.
const BINARY_HEADER: u64 = 4096;

/// The least size of a LUKS2 header, binary header and JSON area together.
const LEAST_HEADER: u64 = 0x4000;

/// The header that counts of a volume, by the wider reading.
#[derive(Drop)]
pub enum WideHeader {
    /// What `read_header` reads: nothing is under way.
    Narrow(Header),
    /// The chosen copy of LUKS2, in whose metadata something is under way: its uuid is one, and its
    /// metadata is accepted by the rules of that.
    Underway(UnderwayCopy),
}

/// Reads the header that counts by the wider reading: what `read_header` answers, except for metadata in which
/// something is under way, which is judged by the rules of that.
///
/// `Read` is answered as `read_header` answers it, except by `Meta` only where nothing is under way; `Underway`
/// by the first fault of what is. Memory is taken for the metadata of LUKS2 alone, for one value at a time.
pub fn read_wide_header<D: Device>(
    alloc: Global,
    device: &mut D,
) -> Result<WideHeader, WideReadFault>
    requires { D.failed device.old + 1 < 2 ^ 64 }
    ensures unchanged { IsUnchanged D.tells D.size D.bytes D.unsettled device.old device.new }
    ensures count { CountsFailure is_wide_read_failure result
        (D.failed device.old) (D.failed device.new) }
    ensures accepted { IfOk result IsAcceptedWide }
    ensures read { D.tells → IfOk result (IsWideHeader (D.bytes device.old)) }
    ensures refused { D.tells → IfErr result (IsWideUnread (D.bytes device.old)) }
    ensures memory { D.tells → TakesNoMemory (D.bytes device.old)
        → IfErr result (λ f. f ≢ WideReadFault.Read NoMemory) }
    // What the narrow reading accepts is read to the same.
    ensures narrow { D.tells → (header : TheHeader) → IsHeader (D.bytes device.old) header
        → MatchResult result (IsSameHeader header) IsFromOutside }
{
    match read_header(alloc, device) {
        Ok(header) => Ok(WideHeader::Narrow(header)),
        Err(ReadFault::Meta(fault)) => read_beside(alloc, device, &fault),
        Err(ReadFault::Head(fault)) => Err(WideReadFault::Read(ReadFault::Head(fault))),
        Err(ReadFault::Device) => Err(WideReadFault::Read(ReadFault::Device)),
        Err(ReadFault::Memory) => Err(WideReadFault::Read(ReadFault::Memory)),
    }
}

/// The header of a volume that the narrow reading refuses by a fault of its metadata.
fn read_beside<D: Device>(
    alloc: Global,
    device: &mut D,
    narrow_fault: &MetaFault,
) -> Result<WideHeader, WideReadFault>
    requires { D.failed device.old + 1 < 2 ^ 64 }
    ensures unchanged { IsUnchanged D.tells D.size D.bytes D.unsettled device.old device.new }
    ensures count { CountsFailure is_wide_read_failure result
        (D.failed device.old) (D.failed device.new) }
    ensures accepted { IfOk result IsAcceptedWide }
    ensures read { D.tells → IsUnread (D.bytes device.old) (OfMeta narrow_fault.now)
        → IfOk result (IsWideHeader (D.bytes device.old)) }
    ensures refused { D.tells → IsUnread (D.bytes device.old) (OfMeta narrow_fault.now)
        → IfErr result (IsWideUnread (D.bytes device.old)) }
{
    let mut json = [0; KEPT_JSON];
    match select_with_json(device, &mut json)? {
        Selected::V1(_) => Err(WideReadFault::Read(ReadFault::Meta(*narrow_fault))),
        Selected::V2 { header, copies } => {
            let meta = read_metadata(alloc, device, &header, &json, narrow_fault)?;
            Ok(WideHeader::Underway(UnderwayCopy {
                header,
                copies,
                meta,
                narrow_fault: *narrow_fault,
            }))
        }
    }
}

/// The metadata of the copy with this binary header, whose uuid has to be one. `kept` is the JSON
/// area of a copy of the least size; that of a larger one is read.
fn read_metadata<D: Device>(
    alloc: Global,
    device: &mut D,
    header: &Bin2,
    kept: &[u8],
    narrow_fault: &MetaFault,
) -> Result<Underway, WideReadFault>
    requires room { D.failed device.old + 1 < 2 ^ 64 }
    requires within { IsCopyWithin (D.size device.old) header.now }
    requires kept { D.tells → header.now.hdr_size ≡ 16384
        → kept.now ≡ json_of (D.bytes device.old) header.now }
    ensures unchanged { IsUnchanged D.tells D.size D.bytes D.unsettled device.old device.new }
    ensures count { CountsFailure is_wide_read_failure result
        (D.failed device.old) (D.failed device.new) }
    ensures uuid { IfOk result (λ _. IsUuidField header.now.uuid) }
    ensures read { D.tells → IfOk result (λ m.
        IsWiderOf (json_of (D.bytes device.old) header.now) (OfUnderway m)) }
    ensures length { D.tells → IfOk result (λ m.
        area_len m ≡ length (json_of (D.bytes device.old) header.now)) }
    ensures refused { D.tells → IfErr result
        (CopyRefused header.now.uuid (json_of (D.bytes device.old) header.now) narrow_fault.now) }
{
    header.uuid()?;
    if header.hdr_size == LEAST_HEADER {
        return read_area(alloc, kept, narrow_fault);
    }
    let json = json_area(alloc, device, header)?;
    read_area(alloc, &json, narrow_fault)
}

/// The metadata of a JSON area that the narrow reading refuses by this fault.
fn read_area(
    alloc: Global,
    area: &[u8],
    narrow_fault: &MetaFault,
) -> Result<Underway, WideReadFault>
    ensures read { IfOk result (λ m. IsWiderOf area.now (OfUnderway m)) }
    ensures length { IfOk result (λ m. area_len m ≡ length area.now) }
    ensures refused { IfErr result (AreaRefused area.now narrow_fault.now) }
    ensures no_failure { IfErr result (λ f. is_wide_read_failure f ≡ false) }
{
    match has_under_way(alloc, area) {
        Ok(true) => read_under_way(alloc, area, narrow_fault),
        Ok(false) => Err(WideReadFault::Read(ReadFault::Meta(*narrow_fault))),
        Err(_) => Err(WideReadFault::Read(ReadFault::Memory)),
    }
}

/// The metadata of a JSON area in which something is under way.
fn read_under_way(
    alloc: Global,
    area: &[u8],
    narrow_fault: &MetaFault,
) -> Result<Underway, WideReadFault>
    requires { HasUnderWay area.now }
    ensures read { IfOk result (λ m. IsWiderOf area.now (OfUnderway m)) }
    ensures length { IfOk result (λ m. area_len m ≡ length area.now) }
    ensures refused { IfErr result (AreaRefused area.now narrow_fault.now) }
    ensures no_failure { IfErr result (λ f. is_wide_read_failure f ≡ false) }
{
    match Underway::read(alloc, area) {
        Ok(meta) => Ok(meta),
        Err(fault) => Err(underway_unread(fault, narrow_fault)),
    }
}

/// Why metadata isn't read in which something is under way: a failed allocation stands for itself.
fn underway_unread(fault: WideFault, narrow_fault: &MetaFault) -> WideReadFault
    ensures { result ≡ underway_unread fault narrow_fault.now }
{
    match fault {
        WideFault::Meta(MetaFault::Memory) => WideReadFault::Read(ReadFault::Memory),
        fault => WideReadFault::Underway {
            fault,
            narrow_fault: *narrow_fault,
        },
    }
}

/// The JSON area of the copy with this binary header.
fn json_area<D: Device>(
    alloc: Global,
    device: &mut D,
    header: &Bin2,
) -> Result<Vec<u8>, WideReadFault>
    requires room { D.failed device.old + 1 < 2 ^ 64 }
    requires within { IsCopyWithin (D.size device.old) header.now }
    ensures unchanged { IsUnchanged D.tells D.size D.bytes D.unsettled device.old device.new }
    ensures count { CountsFailure is_wide_read_failure result
        (D.failed device.old) (D.failed device.new) }
    ensures kinds { IfErr result IsFromOutside }
    ensures json { D.tells
        → IfOk result (λ json. json.items ≡ json_of (D.bytes device.old) header.now) }
{
    let _total = device.len();
    let len = (header.hdr_size - BINARY_HEADER) as usize;
    let mut json = vec![in alloc; 0u8; len]?;
    device.read_at(header.hdr_offset + BINARY_HEADER, &mut json)?;
    Ok(json)
}
