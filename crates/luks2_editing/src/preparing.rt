//! What an edit of a LUKS2 volume judges and makes last, before its first write.
ghost use Rattle.std.specs.Prelude.{◌≢◌, ◌↔◌, IsTrue, IfOk, IfErr, OnOk};
ghost use Rattle.luks_making.specs.WrittenArea.{IsWrittenArea};
ghost use Rattle.luks_meta.specs.Content.{area_len, content};
ghost use Rattle.luks2_editing.specs.Prepared.{IsAreaFault, AreCopiesWithin, IsPrepared, IsUnprepared};

use luks_edit::EditFault;
use luks_meta::Meta;
use luks_new_meta::json_area;
use luks2_header::Bin2;
use std::alloc::Global;

/// The JSON area of the new metadata, once there is a next sequence number, the text leaves a zero
/// byte in the area, and the random bytes are as many as are needed.
///
/// Takes memory for the area.
pub(crate) fn prepared(
    alloc: Global,
    header: &Bin2,
    meta: &Meta,
    random: &[u8],
    need: usize,
    total: u64,
) -> Result<Vec<u8>, EditFault>
    ensures ready { OnOk result (IsPrepared header.now.seqid
        (area_len meta.now) (content meta.now) random.now need) }
    ensures area { IfOk result (λ json.
        IsWrittenArea (area_len meta.now) (content meta.now) json.items) }
    ensures within { OnOk result (AreCopiesWithin header.now (area_len meta.now) total) }
    ensures refused { AreCopiesWithin header.now (area_len meta.now) total
        → IfErr result (IsUnprepared header.now.seqid
        (area_len meta.now) (content meta.now) random.now need) }
    ensures kinds { IfErr result (λ f. f ≢ EditFault.Device) }
{
    if header.seqid == u64::MAX {
        return Err(EditFault::SeqExhausted);
    }
    let json = written_area(alloc, meta)?;
    if random.len() != need {
        return Err(EditFault::RandomLength);
    }
    if !is_copy_within(header, json.len(), total) {
        return Err(EditFault::MetadataFull);
    }
    Ok(json)
}

/// The JSON area of the metadata, or `MetadataFull`.
fn written_area(alloc: Global, meta: &Meta) -> Result<Vec<u8>, EditFault>
    ensures area { IfOk result (λ json.
        IsWrittenArea (area_len meta.now) (content meta.now) json.items) }
    ensures refused { IfErr result (IsAreaFault (area_len meta.now) (content meta.now)) }
{
    match json_area(alloc, meta) {
        Ok(found) => match found {
            Some(json) => Ok(json),
            None => Err(EditFault::MetadataFull),
        },
        Err(_) => Err(EditFault::Memory),
    }
}

/// Whether the binary header is of a copy with a JSON area of `len` bytes, and both copies lie inside
/// a volume of `total` bytes.
fn is_copy_within(header: &Bin2, len: usize, total: u64) -> bool
    ensures { IsTrue result ↔ AreCopiesWithin header.now len total }
{
    header.hdr_size >= 4096
        && header.hdr_size - 4096 == len as u64
        && header.hdr_offset <= header.hdr_size
        && header.hdr_size <= total / 2
}
