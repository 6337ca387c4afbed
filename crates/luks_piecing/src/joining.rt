//! Three objects, and what opens by them.
ghost use Rattle.std.specs.Prelude.{◌≡◌, ◌+◌, ◌^◌, ◌<◌, ◌≤◌, length, IfErr, IfOk, IfSome};
ghost use Rattle.luks_area.specs.Device.{CountsFailure, IsUnchanged};
ghost use Rattle.luks_meta.specs.Accepted.{IsMeta};
ghost use Rattle.luks_meta.specs.Content.{content};
ghost use Rattle.luks_making.specs.WrittenArea.{IsWrittenArea};
ghost use Rattle.luks_fragments.specs.Made.{area_length, area_of, made_text};
ghost use Rattle.luks_trials.specs.Faults.{is_search_failure, IsCutShort};
ghost use Rattle.luks_trials.specs.Metadata.{OpensAt};
ghost use Rattle.luks_trials.specs.Tallies.{Counts};
ghost use Rattle.luks_piecing.specs.Pieced.{IsWrittenOf};

use luks_area::Device;
use luks_fragments::{AREA_LENGTH, Parts, area_of, made_text};
use luks_making::written_area;
use luks_meta::Meta;
use luks_trials::{Progress, SearchFault, Tally, Trying, meta_of, opens};
use std::alloc::Global;

/// Metadata that is put together of three objects, by which a keyslot opens.
#[derive(Drop)]
pub struct Pieced {
    /// Its JSON area, of 12288 bytes: that of a header of 16384.
    pub json: Vec<u8>,
    /// The keyslot that opens, 0 to 31.
    pub slot: u8,
    /// The place of the keyslot, in bytes from the source's start.
    pub keyslot: u64,
    /// The place of the digest.
    pub digest: u64,
    /// The place of the segment: none if it is given.
    pub segment: Option<u64>,
}

/// The JSON area of the metadata that is made of these parts, if its keyslot opens.
pub(crate) fn joined<D: Device, P: Progress>(
    alloc: Global,
    source: &mut D,
    parts: &Parts<'_>,
    trying: &Trying<'_>,
    tally: &mut Tally,
    progress: &mut P,
) -> Result<Option<Vec<u8>>, SearchFault>
    requires slot { parts.now.slot < 32 }
    requires number { parts.now.number < 32 }
    requires some { 1 ≤ length parts.now.digest.now }
    requires passphrase { 0 < trying.now.allowed.memory
        → length trying.now.passphrase.now < 2 ^ 32 }
    requires room { D.failed source.old + 1 < 2 ^ 64 }
    ensures unchanged { IsUnchanged D.tells D.size D.bytes D.unsettled source.old source.new }
    ensures count { CountsFailure is_search_failure result
        (D.failed source.old) (D.failed source.new) }
    ensures counts { Counts tally.old tally.new }
    ensures cut { IfErr result (IsCutShort tally.new) }
    ensures made { IfOk result (λ found. IfSome found (λ json.
        IsWrittenOf parts.now.region parts.now.slot parts.now.number parts.now.keyslot.now
        parts.now.digest.now parts.now.segment.now json.items)) }
    ensures opens { D.tells → IfOk result (λ found. IfSome found (λ json.
        OpensAt trying.now.allowed (D.bytes source.old) trying.now.passphrase.now
        json.items parts.now.slot)) }
{
    let Some(meta) = made_meta(alloc, parts)? else {
        return Ok(None);
    };
    if !opens(alloc, source, &meta, parts.slot, trying, tally, progress)? {
        return Ok(None);
    }
    written(alloc, &meta)
}

/// The metadata that is made of these parts, if it is accepted.
fn made_meta(alloc: Global, parts: &Parts<'_>) -> Result<Option<Meta>, SearchFault>
    requires slot { parts.now.slot < 32 }
    requires number { parts.now.number < 32 }
    requires some { 1 ≤ length parts.now.digest.now }
    ensures meta { IfOk result (λ found. IfSome found (λ meta. IsMeta (area_of (made_text parts.now.region
        parts.now.slot parts.now.number parts.now.keyslot.now parts.now.digest.now parts.now.segment.now))
        (content meta))) }
    ensures memory { IfErr result (λ f. f ≡ SearchFault.Memory) }
{
    let text = made_text(alloc, parts)?;
    let area = area_of(text)?;
    meta_of(alloc, &area)
}

/// The JSON area of the metadata, with no white space and each member once, if it has room for that.
fn written(alloc: Global, meta: &Meta) -> Result<Option<Vec<u8>>, SearchFault>
    ensures written { IfOk result (λ found. IfSome found (λ json.
        IsWrittenArea area_length (content meta.now) json.items)) }
    ensures accepted { IfOk result (λ found. IfSome found (λ json.
        IsMeta json.items (content meta.now))) }
    ensures memory { IfErr result (λ f. f ≡ SearchFault.Memory) }
{
    if meta.area_len() != AREA_LENGTH {
        return Ok(None);
    }
    Ok(written_area(alloc, meta.value(), AREA_LENGTH)?)
}
