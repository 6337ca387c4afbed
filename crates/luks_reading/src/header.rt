//! The header that counts of a volume, as every call reads it.
ghost use Rattle.std.specs.Prelude.{◌≡◌, ◌≢◌, ◌+◌, ◌-◌, ◌^◌, ◌<◌, ℕ, List, length, IfOk, IfErr};
ghost use Rattle.luks_area.specs.Device.{CountsFailure, IsUnchanged};
ghost use Rattle.luks2_header.specs.Header2.{IsUuidField};
ghost use Rattle.luks2_header.specs.Header2.{IsCopyWithin};
ghost use Rattle.luks_meta.specs.Content.{area_len, content};
ghost use Rattle.luks_meta.specs.Objects.{IsAccepted};
ghost use Rattle.luks_reading.specs.ChosenCopies.{CopyRefused, IsCleared, IsFromOutside, json_of};
ghost use Rattle.luks_reading.specs.Failures.{is_read_failure};
ghost use Rattle.luks_reading.specs.Header.{IsAcceptedHeader, IsHeader, IsUnread, TakesNoMemory};

use crate::read_fault::ReadFault;
use luks_area::Device;
use luks_meta::Meta;
use luks2_header::{Bin2, Copies, KEPT_JSON, Selected, select_with_json};
use std::alloc::Global;

/// The bytes of the binary header with which a LUKS2 copy begins; its JSON area follows.
const BINARY_HEADER: u64 = 4096;

/// The least size of a LUKS2 header, binary header and JSON area together.
const LEAST_HEADER: u64 = 0x4000;

/// The LUKS2 copy that counts.
#[derive(Drop)]
pub struct ChosenCopy {
    /// Its binary header. The copy is at `header.hdr_offset`.
    pub header: Bin2,
    /// How the two copies stand to each other.
    pub copies: Copies,
    /// Its metadata.
    pub meta: Meta,
}

/// The header that counts of a volume.
#[derive(Drop)]
pub enum Header {
    /// The 592 bytes of a LUKS1 header, of which the magic and the version alone were judged.
    Luks1([u8; 592]),
    /// The chosen copy of LUKS2: its uuid is one, and its metadata is accepted.
    Luks2(ChosenCopy),
}

/// Reads the header that counts: of LUKS1 its bytes, of LUKS2 the chosen copy with its metadata.
///
/// Refused by `Head` where nothing counts or the chosen copy's uuid isn't one, and else by `Meta`.
/// `Device` comes exactly where a device call failed. Memory is taken for the metadata of LUKS2
/// alone.
pub fn read_header<D: Device>(alloc: Global, device: &mut D) -> Result<Header, ReadFault>
    requires { D.failed device.old + 1 < 2 ^ 64 }
    ensures unchanged { IsUnchanged D.tells D.size D.bytes D.unsettled device.old device.new }
    ensures count { CountsFailure is_read_failure result
        (D.failed device.old) (D.failed device.new) }
    ensures accepted { IfOk result IsAcceptedHeader }
    ensures read { D.tells → IfOk result (IsHeader (D.bytes device.old)) }
    ensures refused { D.tells → IfErr result (IsUnread (D.bytes device.old)) }
    ensures memory { D.tells → TakesNoMemory (D.bytes device.old)
        → IfErr result (λ f. f ≢ ReadFault.Memory) }
{
    let mut json = [0; KEPT_JSON];
    match select_with_json(device, &mut json)? {
        Selected::V1(bytes) => Ok(Header::Luks1(bytes)),
        Selected::V2 { header, copies } => {
            let meta = read_metadata(alloc, device, &header, &json)?;
            Ok(Header::Luks2(ChosenCopy {
                header,
                copies,
                meta,
            }))
        }
    }
}

/// The metadata of the copy with this binary header, whose uuid has to be one. `kept` is the JSON
/// area of a copy of the least size; that of a larger one is read.
fn read_metadata<D: Device>(
    alloc: Global,
    device: &mut D,
    header: &Bin2,
    kept: &[u8],
) -> Result<Meta, ReadFault>
    requires room { D.failed device.old + 1 < 2 ^ 64 }
    requires within { IsCopyWithin (D.size device.old) header.now }
    requires kept { D.tells → header.now.hdr_size ≡ 16384
        → kept.now ≡ json_of (D.bytes device.old) header.now }
    ensures unchanged { IsUnchanged D.tells D.size D.bytes D.unsettled device.old device.new }
    ensures count { CountsFailure is_read_failure result
        (D.failed device.old) (D.failed device.new) }
    ensures uuid { IfOk result (λ _. IsUuidField header.now.uuid) }
    ensures accepted { IfOk result (λ m. IsAccepted (content m)) }
    ensures cleared { D.tells → IfOk result (λ m.
        IsCleared header.now.uuid (json_of (D.bytes device.old) header.now) (content m)) }
    ensures length { D.tells → IfOk result (λ m.
        area_len m ≡ length (json_of (D.bytes device.old) header.now)) }
    ensures refused { D.tells → IfErr result
        (CopyRefused header.now.uuid (json_of (D.bytes device.old) header.now)) }
{
    header.uuid()?;
    if header.hdr_size == LEAST_HEADER {
        return Ok(Meta::read(alloc, kept)?);
    }
    let json = json_area(alloc, device, header)?;
    Ok(Meta::read(alloc, &json)?)
}

/// The JSON area of the copy with this binary header.
fn json_area<D: Device>(alloc: Global, device: &mut D, header: &Bin2) -> Result<Vec<u8>, ReadFault>
    requires room { D.failed device.old + 1 < 2 ^ 64 }
    requires within { IsCopyWithin (D.size device.old) header.now }
    ensures unchanged { IsUnchanged D.tells D.size D.bytes D.unsettled device.old device.new }
    ensures count { CountsFailure is_read_failure result
        (D.failed device.old) (D.failed device.new) }
    ensures kinds { IfErr result IsFromOutside }
    ensures json { D.tells
        → IfOk result (λ json. json.items ≡ json_of (D.bytes device.old) header.now) }
{
    let _total = device.len();
    let len = (header.hdr_size - BINARY_HEADER) as usize;
    let mut json = vec![in alloc; 0u8; len]?;
    device.read_at(header.hdr_offset + BINARY_HEADER, &mut json)?;
    Ok(json)
}
