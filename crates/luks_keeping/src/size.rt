//! How long a backup is.
ghost use Rattle.std.specs.Prelude.{◌≡◌, ◌+◌, ◌*◌, ◌<◌, ◌≤◌, ◌^◌, ℕ, List, Some, IfSome, IsNone};
ghost use Rattle.luks_area.specs.Sectors.{rounded_to_sectors};
ghost use Rattle.luks1_header.specs.Header1.{payload_offset_of, IsLuks1};
ghost use Rattle.luks_reading.specs.Header.{IsAcceptedHeader, IsHeader};
ghost use Rattle.luks_keeping.specs.Backup.{IsBackupSize, IsLuks1Size};
ghost use Rattle.luks_keeping.specs.Judged.{HasFields};
ghost use Rattle.luks_keeping.specs.Laid.{choice_of, HoldsBelow, LacksSize};
ghost use Rattle.luks_keeping.specs.Restored.{IsFrontAs};

use crate::slots::LUKS1_HEADER;
use luks_area::SECTOR;
use luks_reading::{Data, Header, luks1_area};
use luks2_header::{Luks1, Luks1Slot};

/// The bytes of the backup of a volume with this header, or none where no device has so many.
pub(crate) fn backup_size(header: &Header, payload: Data) -> Option<u64>
    requires fields { HasFields header.now }
    requires accepted { IsAcceptedHeader header.now }
    ensures some { (v : List ℕ) → IsHeader v header.now
        → IfSome result (IsBackupSize v payload) }
    ensures none { (v : List ℕ) → IsHeader v header.now → IsNone result → LacksSize v payload }
{
    match header {
        Header::Luks1(bytes) => Some(luks1_size(&Luks1::read(bytes.as_slice()).unwrap(), payload)),
        Header::Luks2(copy) => {
            let region = copy.meta.config().keyslots_size;
            luks2_size(copy.header.hdr_size, region)
        }
    }
}

/// Where the data begins on a device of `total` bytes with this header, or else its end.
pub(crate) fn payload_start(header: &Header, payload: Data, total: u64) -> u64
    requires fields { HasFields header.now }
    requires accepted { IsAcceptedHeader header.now }
    ensures within { result ≤ total }
    ensures start { (v : List ℕ) → IsHeader v header.now
        → IsFrontAs v payload total (choice_of header.now) result }
{
    match payload {
        Data::Elsewhere => total,
        Data::Here => match header {
            Header::Luks1(bytes) => total.min(payload_place(&Luks1::read(
                bytes.as_slice(),
            ).unwrap())),
            Header::Luks2(_) => match backup_size(header, payload) {
                Some(size) => total.min(size),
                None => total,
            },
        },
    }
}

/// The bytes of both copies and the region behind them.
fn luks2_size(size: u64, region: u64) -> Option<u64>
    ensures some { IfSome result (λ all. all ≡ 2 * size + region) }
    ensures none { IsNone result → 2 ^ 64 ≤ 2 * size + region }
{
    if size >= 1 << 63 {
        return None;
    }
    let header = 2 * size;
    if header <= u64::MAX - region {
        Some(header + region)
    } else {
        None
    }
}

/// The bytes up to the payload, or to the end of the last key area.
fn luks1_size(header: &Luks1, payload: Data) -> u64
    requires { header.now.common.key_bytes ≤ 128 }
    ensures { (h : List ℕ) → IsLuks1 h header.now → IsLuks1Size h payload result }
{
    let end = areas_end(header);
    match payload {
        Data::Here => end.max(payload_place(header)),
        Data::Elsewhere => end,
    }
}

/// Where the payload begins.
fn payload_place(header: &Luks1) -> u64
    ensures { (h : List ℕ) → IsLuks1 h header.now → result ≡ payload_offset_of h * 512 }
{
    u64::from(header.common.payload_offset) * SECTOR
}

/// The end of the last key area, or of the header.
fn areas_end(header: &Luks1) -> u64
    requires { header.now.common.key_bytes ≤ 128 }
    ensures { (h : List ℕ) → IsLuks1 h header.now → HoldsBelow h 8 result }
{
    let mut end = LUKS1_HEADER;
    for n in 0..8 {
        end = end.max(area_end(header.common.key_bytes, header.slots[n]));
    }
    end
}

/// The end of the key area of a keyslot.
fn area_end(key_bytes: u32, slot: Luks1Slot) -> u64
    requires { key_bytes ≤ 128 }
    ensures { result ≡ slot.key_material_offset * 512
        + rounded_to_sectors (key_bytes * slot.stripes) }
{
    let area = luks1_area(key_bytes, &slot);
    area.start + area.len
}
