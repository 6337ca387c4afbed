//! What the checksum of a copy's binary header vouches for.
ghost use Rattle.std.specs.Prelude.{◌≡◌, ◌≢◌, ◌↔◌, ◌+◌, ◌-◌, ◌*◌, ◌^◌, ◌<◌, ◌≤◌, ◌⊎◌, length, IfOk, IfErr, IfSome, IsTrue, OnOk};
ghost use Rattle.luks_area.specs.Device.{CountsFailure, IsUnchanged};
ghost use Rattle.luks2_header.specs.Sizes.{IsListed};
ghost use Rattle.luks_vouching.specs.Faults.{is_vouch_failure, IsMemoryWhereStands};
ghost use Rattle.luks_meta.specs.Accepted.{IsMeta};
ghost use Rattle.luks_meta.specs.Content.{content};
ghost use Rattle.luks_vouching.specs.Composed.{IsWholeSectors};
ghost use Rattle.luks_vouching.specs.Vouched.{area_at, FindsComposed, FindsVouched, IsCutShortAt, IsVouchedWithin, JudgesArea};

use crate::composing::compose;
use crate::headers::reads_standing;
use crate::piecing::are_cut_short;
use crate::progress::SearchProgress;
use crate::standing::{HEADER, hasher_of, sum_of};
use crate::vouch_fault::VouchFault;
use luks_area::Device;
use luks_meta::{Meta, MetaFault};
use luks2_header::Bin2;
use std::alloc::Global;

/// Metadata that the checksum of a binary header vouches for.
#[derive(Drop)]
pub struct Vouched {
    /// The binary header, with the magic of its place.
    pub header: Bin2,
    /// The bytes of the JSON area.
    pub json: Vec<u8>,
    /// The metadata.
    pub meta: Meta,
}

/// The metadata that the checksum of the copy at `at` vouches for, of a header of `size` bytes: the
/// binary header is there except for its magic, and a JSON area that is composed of the sectors of
/// both copies meets its checksum (LUKS2 On-Disk Format 1.1, 2.1).
///
/// At most `most` bytes of JSON areas are hashed: nothing where two have more. All compositions are tried where
/// these have no more bytes together; else those that have the first sectors of one copy and the rest of the
/// other, as many. What isn't tried `is_cut_short` tells. `progress` is told of the
/// compositions where all are tried. Takes memory, for three JSON areas and the metadata,
/// only where the binary header stands.
pub fn find_vouched<D: Device, P: SearchProgress>(
    alloc: Global,
    source: &mut D,
    size: u64,
    at: u64,
    most: usize,
    progress: &mut P,
) -> Result<Option<Vouched>, VouchFault>
    requires listed { IsListed size }
    requires most { most ≤ 2 ^ 40 }
    requires half { (at ≡ 0) ⊎ (at ≡ size) }
    requires room { D.failed source.old + 1 < 2 ^ 64 }
    ensures unchanged { IsUnchanged D.tells D.size D.bytes D.unsettled source.old source.new }
    ensures count { CountsFailure is_vouch_failure result
        (D.failed source.old) (D.failed source.new) }
    ensures within { IfOk result (λ found. IfSome found (IsVouchedWithin size (D.size source.old))) }
    ensures found { D.tells → IfOk result (FindsVouched most (D.bytes source.old) size at) }
    ensures refused { D.tells → IfErr result (IsMemoryWhereStands (D.bytes source.old) size at) }
{
    let mut head = [0; HEADER];
    if !reads_standing(source, size, at, &mut head)? {
        return Ok(None);
    }
    vouched_by(alloc, source, size, &head, most, progress)
}

/// Whether, of what the checksum of the copy at `at` may vouch for, not all is tried by `find_vouched`: its
/// binary header stands, and all compositions of both copies' sectors and bytes have more than `most` bytes
/// together. Takes memory, for two JSON areas, only where it stands. Nothing is hashed.
pub fn is_cut_short<D: Device>(
    alloc: Global,
    source: &mut D,
    size: u64,
    at: u64,
    most: usize,
) -> Result<bool, VouchFault>
    requires listed { IsListed size }
    requires most { most ≤ 2 ^ 40 }
    requires half { (at ≡ 0) ⊎ (at ≡ size) }
    requires room { D.failed source.old + 1 < 2 ^ 64 }
    ensures unchanged { IsUnchanged D.tells D.size D.bytes D.unsettled source.old source.new }
    ensures count { CountsFailure is_vouch_failure result
        (D.failed source.old) (D.failed source.new) }
    ensures told { D.tells → IfOk result (λ is. IsTrue is ↔ IsCutShortAt most (D.bytes source.old) size at) }
    ensures refused { D.tells → IfErr result (IsMemoryWhereStands (D.bytes source.old) size at) }
{
    let mut head = [0; HEADER];
    if !reads_standing(source, size, at, &mut head)? {
        return Ok(false);
    }
    let first = read_area(alloc, source, size, 0)?;
    let second = read_area(alloc, source, size, size)?;
    Ok(are_cut_short(&first, &second, most))
}

/// The metadata that is composed of both copies' JSON areas and meets the checksum of the binary
/// header.
fn vouched_by<D: Device, P: SearchProgress>(
    alloc: Global,
    source: &mut D,
    size: u64,
    head: &[u8],
    most: usize,
    progress: &mut P,
) -> Result<Option<Vouched>, VouchFault>
    requires listed { IsListed size }
    requires most { most ≤ 2 ^ 40 }
    requires both { 2 * size ≤ D.size source.old }
    requires header { length head.now ≡ 4096 }
    requires room { D.failed source.old + 1 < 2 ^ 64 }
    ensures unchanged { IsUnchanged D.tells D.size D.bytes D.unsettled source.old source.new }
    ensures count { CountsFailure is_vouch_failure result
        (D.failed source.old) (D.failed source.new) }
    ensures within { IfOk result (λ found. IfSome found (IsVouchedWithin size (D.size source.old))) }
    ensures found { D.tells → IfOk result (FindsComposed most head.now
        (area_at (D.bytes source.old) 0 size) (area_at (D.bytes source.old) size size)) }
{
    let first = read_area(alloc, source, size, 0)?;
    let second = read_area(alloc, source, size, size)?;
    composed(alloc, head, first, second, most, progress)
}

/// The bytes of the JSON area of the copy at `at` of a header of `size` bytes.
fn read_area<D: Device>(
    alloc: Global,
    source: &mut D,
    size: u64,
    at: u64,
) -> Result<Vec<u8>, VouchFault>
    requires listed { IsListed size }
    requires within { at + size ≤ D.size source.old }
    requires room { D.failed source.old + 1 < 2 ^ 64 }
    ensures unchanged { IsUnchanged D.tells D.size D.bytes D.unsettled source.old source.new }
    ensures count { CountsFailure is_vouch_failure result
        (D.failed source.old) (D.failed source.new) }
    ensures long { IfOk result (λ json. length json.items ≡ size - 4096) }
    ensures read { D.tells → IfOk result (λ json. json.items ≡ area_at (D.bytes source.old) at size) }
{
    let _total = source.len();
    let mut json = vec![in alloc; 0u8; size as usize - HEADER]?;
    source.read_at(at + HEADER as u64, &mut json)?;
    Ok(json)
}

/// The metadata that is composed of these two JSON areas and meets the checksum of the binary header. They are
/// given back before it is read. Fails only where memory was refused.
fn composed<P: SearchProgress>(
    alloc: Global,
    head: &[u8],
    first: Vec<u8>,
    second: Vec<u8>,
    most: usize,
    progress: &mut P,
) -> Result<Option<Vouched>, VouchFault>
    requires most { most ≤ 2 ^ 40 }
    requires header { length head.now ≡ 4096 }
    requires whole { IsWholeSectors first.items }
    requires long { length second.items ≡ length first.items }
    ensures found { IfOk result (FindsComposed most head.now first.items second.items) }
    ensures meta { IfOk result (λ found. IfSome found
        (λ w. IsMeta w.json.items (content w.meta))) }
    ensures long { IfOk result (λ found. IfSome found
        (λ w. length w.json.items ≡ length first.items)) }
    ensures refused { IfErr result (λ fault. fault ≡ VouchFault.Memory) }
{
    let mut json = vec![in alloc; 0u8; first.len()]?;
    let is_met = compose(
        &first,
        &second,
        &mut json,
        hasher_of(head),
        sum_of(head),
        most,
        progress,
    );
    drop(first);
    drop(second);
    if !is_met {
        return Ok(None);
    }
    judged(alloc, head, json)
}

/// The metadata in this JSON area, if that has no fault. Fails only where memory was refused.
fn judged(alloc: Global, head: &[u8], json: Vec<u8>) -> Result<Option<Vouched>, VouchFault>
    requires { length head.now ≡ 4096 }
    ensures found { IfOk result (JudgesArea head.now json.items) }
    ensures meta { IfOk result (λ found. IfSome found
        (λ w. IsMeta w.json.items (content w.meta))) }
    ensures same { IfOk result (λ found. IfSome found (λ w. w.json.items ≡ json.items)) }
    ensures refused { IfErr result (λ fault. fault ≡ VouchFault.Memory) }
{
    match Meta::read(alloc, &json) {
        Ok(meta) => {
            let header = Bin2::read(head);
            Ok(Some(Vouched { header, json, meta }))
        }
        Err(fault) => {
            pass_over(fault)?;
            Ok(None)
        }
    }
}

/// Passes over metadata with this fault, unless memory was refused for reading it.
fn pass_over(fault: MetaFault) -> Result<(), VouchFault>
    ensures passed { OnOk result (fault ≢ MetaFault.Memory) }
    ensures refused { IfErr result (λ f. f ≡ VouchFault.Memory) }
{
    match fault {
        MetaFault::Memory => Err(VouchFault::Memory),
        _ => Ok(()),
    }
}
