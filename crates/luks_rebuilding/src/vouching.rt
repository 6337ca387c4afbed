//! The search for metadata that the checksum of a copy vouches for, the newest first.
ghost use Rattle.std.specs.Prelude.{◌≡◌, ◌↔◌, ◌+◌, ◌^◌, ◌<◌, ◌≤◌, ◌⊎◌, IfOk, IfErr, IfSome, IsTrue, Some};
ghost use Rattle.luks_area.specs.Device.{CountsFailure, IsUnchanged};
ghost use Rattle.luks2_header.specs.Sizes.{IsListed};
ghost use Rattle.luks_rebuilding.specs.Candidates.{IsAsked};
ghost use Rattle.luks_rebuilding.specs.Found.{kept_seqid, BreaksVouched, BreaksVouchedAt, FindsVouchedAt, FindsVouchedFirst, IsFromOutside, IsWhole};
ghost use Rattle.luks_rebuilding.specs.RebuildFaults.{is_rebuild_failure};
ghost use Rattle.luks_rebuilding.specs.Shares.{IsShare};

use crate::candidate::Candidate;
use crate::place::{Copies, Place, Which};
use crate::rebuild_fault::RebuildFault;
use crate::standing::{share, standing_copies, take_first};
use luks_area::Device;
use luks_vouching::{SearchProgress, VouchFault, Vouched, find_vouched};
use std::alloc::Global;

/// The first of the sources that a checksum vouches for: what the copies vouch for is sought in their order, until
/// there is one. So the metadata of one is held, and none is sought for copies behind it.
pub(crate) fn first_vouched<D: Device, P: SearchProgress>(
    alloc: Global,
    source: &mut D,
    which: Which,
    progress: &mut P,
) -> Result<Option<Candidate>, RebuildFault>
    requires { D.failed source.old + 1 < 2 ^ 64 }
    ensures unchanged { IsUnchanged D.tells D.size D.bytes D.unsettled source.old source.new }
    ensures count { CountsFailure is_rebuild_failure result
        (D.failed source.old) (D.failed source.new) }
    ensures whole { IfOk result (λ found. IfSome found (IsWhole (D.size source.old))) }
    ensures found { D.tells → IfOk result (FindsVouchedFirst (D.bytes source.old) which) }
    ensures broken { D.tells → IfErr result (BreaksVouched (D.bytes source.old) which) }
    ensures kinds { IfErr result IsFromOutside }
{
    let mut left = standing_copies(source)?;
    let most = share(which.effort, left.len());
    while let Some(copy) = take_first(&mut left) {
        if let Some(found) = vouched_at(alloc, source, which, copy.place, most, progress)? {
            return Ok(Some(found));
        }
    }
    Ok(None)
}

/// What the checksum of the copy at the place vouches for, if the copy is asked for.
fn vouched_at<D: Device, P: SearchProgress>(
    alloc: Global,
    source: &mut D,
    which: Which,
    place: Place,
    most: usize,
    progress: &mut P,
) -> Result<Option<Candidate>, RebuildFault>
    requires listed { IsListed place.size }
    requires half { (place.at ≡ 0) ⊎ (place.at ≡ place.size) }
    requires most { most ≤ 2 ^ 40 }
    requires share { D.tells → IsShare (D.bytes source.old) which.effort most }
    requires room { D.failed source.old + 1 < 2 ^ 64 }
    ensures unchanged { IsUnchanged D.tells D.size D.bytes D.unsettled source.old source.new }
    ensures count { CountsFailure is_rebuild_failure result
        (D.failed source.old) (D.failed source.new) }
    ensures kinds { IfErr result IsFromOutside }
    ensures whole { IfOk result (λ found. IfSome found (IsWhole (D.size source.old))) }
    ensures found { D.tells → IfOk result (FindsVouchedAt (D.bytes source.old) which place) }
    ensures broken { D.tells → IfErr result (BreaksVouchedAt (D.bytes source.old) which place) }
{
    if !is_asked(which.copies, place) {
        return Ok(None);
    }
    match find_vouched(alloc, source, place.size, place.at, most, progress) {
        Ok(Some(found)) => Ok(Some(candidate_of(place, found))),
        Ok(None) => Ok(None),
        Err(VouchFault::Memory) => Err(RebuildFault::Memory),
        Err(VouchFault::Device) => Err(RebuildFault::Device),
    }
}

/// What was vouched for, as a candidate.
fn candidate_of(place: Place, found: Vouched) -> Candidate
    ensures place { result.place ≡ place }
    ensures json { result.json ≡ found.json }
    ensures meta { result.meta ≡ found.meta }
    ensures vouch { result.vouch ≡ Some found.header }
{
    let Vouched { header, json, meta } = found;
    Candidate {
        place,
        json,
        meta,
        vouch: Some(header),
    }
}

/// Whether the copy at the place is asked for.
pub(crate) fn is_asked(copies: Copies, place: Place) -> bool
    ensures { IsTrue result ↔ IsAsked copies place }
{
    match copies {
        Copies::Any => true,
        Copies::Second => place.at != 0,
        Copies::OfSize(size) => place.size == size,
        Copies::SecondOfSize(size) => place.size == size && place.at != 0,
    }
}

/// The sequence number of the header that is made of the candidate: that of the binary header which
/// vouches for it and one more, or the greatest.
pub(crate) fn next_seqid(candidate: &Candidate) -> u64
    ensures { result ≡ kept_seqid candidate.now.vouch }
{
    match &candidate.vouch {
        Some(header) => header.seqid.saturating_add(1),
        None => 1,
    }
}
