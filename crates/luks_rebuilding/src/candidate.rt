//! The metadata of which a header is made.
ghost use Rattle.std.specs.Prelude.{◌≡◌, ◌≢◌, ◌↔◌, ◌+◌, ◌^◌, ◌<◌, IfOk, IfErr, IsTrue, None, OnOk, IfSome, Some};
ghost use Rattle.luks_area.specs.Device.{CountsFailure, IsUnchanged};
ghost use Rattle.luks2_header.specs.Selection.{nothing, Chosen};
ghost use Rattle.luks_rebuilding.specs.Found.{BreaksFirst, FindsFirst, IsCounted, IsCountedFor, IsFoundIn, IsFromOutside, IsNotPlain, IsWhole};
ghost use Rattle.luks_rebuilding.specs.Outcome.{IsNotFound, MayCount, PassesCounts};
ghost use Rattle.luks_rebuilding.specs.RebuildFaults.{is_rebuild_failure};

use crate::place::{Copies, Half, Place, Which};
use crate::rebuild_fault::RebuildFault;
use crate::search::{found_of, least_of};
use crate::vouching::first_vouched;
use luks_area::Device;
use luks_meta::Meta;
use luks_vouching::SearchProgress;
use luks2_header::{Bin2, HeadFault, select};
use std::alloc::Global;

/// Metadata that is whole.
#[derive(Drop)]
pub struct Candidate {
    /// The place of the copy that it was read from, or whose checksum vouches for it.
    pub place: Place,
    /// The bytes of the JSON area: of that copy, or composed of both copies' sectors.
    pub json: Vec<u8>,
    /// The metadata.
    pub meta: Meta,
    /// The binary header of that copy, where its checksum vouches for the metadata.
    pub vouch: Option<Bin2>,
}

/// The metadata of which `rebuild` makes a header, of a volume of which no header counts: that for which
/// the checksum of a copy vouches, the newest first; else the first that is whole, of the copies that
/// are asked for. If the second copy or a size is asked for, a header may count.
///
/// Refused by `Counts` or `NoMetadata`; `Device` comes exactly where a device call failed. Takes
/// memory for the JSON areas and the metadata of one copy at a time, where a copy's binary header stands or its
/// JSON area begins with a brace; of others only these are read. For all that checksums vouch for at most as many
/// bytes are hashed as `which.effort` says; `progress` is told of the search.
pub fn find_candidate<D: Device, P: SearchProgress>(
    alloc: Global,
    source: &mut D,
    which: Which,
    progress: &mut P,
) -> Result<Candidate, RebuildFault>
    requires { D.failed source.old + 1 < 2 ^ 64 }
    ensures unchanged { IsUnchanged D.tells D.size D.bytes D.unsettled source.old source.new }
    ensures count { CountsFailure is_rebuild_failure result
        (D.failed source.old) (D.failed source.new) }
    ensures whole { IfOk result (IsWhole (D.size source.old)) }
    ensures found { D.tells → IfOk result (IsFoundIn (D.bytes source.old) which) }
    ensures refused { D.tells → IfErr result (IsNotFound (D.bytes source.old) which) }
{
    pass_counting(source, which)?;
    match first_vouched(alloc, source, which, progress)? {
        Some(vouched) => Ok(vouched),
        None => find_plain(alloc, source, which.copies),
    }
}

/// Refuses a volume of which a header counts, unless it may.
fn pass_counting<D: Device>(source: &mut D, which: Which) -> Result<(), RebuildFault>
    requires { D.failed source.old + 1 < 2 ^ 64 }
    ensures unchanged { IsUnchanged D.tells D.size D.bytes D.unsettled source.old source.new }
    ensures count { CountsFailure is_rebuild_failure result
        (D.failed source.old) (D.failed source.new) }
    ensures passes { D.tells → OnOk result (PassesCounts (D.bytes source.old) which) }
    ensures refused { D.tells → IfErr result (IsCountedFor (D.bytes source.old) which) }
{
    if may_count(which.copies) {
        Ok(())
    } else {
        nothing_counts(source)
    }
}

/// Whether a header of the source may count.
fn may_count(copies: Copies) -> bool
    ensures { IsTrue result ↔ MayCount copies }
{
    match copies {
        Copies::Any => false,
        Copies::Second | Copies::OfSize(_) | Copies::SecondOfSize(_) => true,
    }
}

/// Refuses a volume of which a header counts.
fn nothing_counts<D: Device>(source: &mut D) -> Result<(), RebuildFault>
    requires { D.failed source.old + 1 < 2 ^ 64 }
    ensures unchanged { IsUnchanged D.tells D.size D.bytes D.unsettled source.old source.new }
    ensures count { CountsFailure is_rebuild_failure result
        (D.failed source.old) (D.failed source.new) }
    ensures nothing { D.tells → OnOk result (Chosen (D.bytes source.old) nothing) }
    ensures refused { D.tells → IfErr result (IsCounted (D.bytes source.old)) }
{
    match select(source) {
        Ok(_) => Err(RebuildFault::Counts),
        Err(HeadFault::Device) => Err(RebuildFault::Device),
        Err(_) => Ok(()),
    }
}

/// The first metadata that is whole, of the copies that are asked for, whatever checksums vouch for: what
/// `find_candidate` finds where they vouch for none. Nothing is hashed, and whether a header counts isn't asked.
///
/// Refused by `NoMetadata`; `Device` comes exactly where a device call failed.
pub fn find_plain<D: Device>(
    alloc: Global,
    source: &mut D,
    copies: Copies,
) -> Result<Candidate, RebuildFault>
    requires { D.failed source.old + 1 < 2 ^ 64 }
    ensures unchanged { IsUnchanged D.tells D.size D.bytes D.unsettled source.old source.new }
    ensures count { CountsFailure is_rebuild_failure result
        (D.failed source.old) (D.failed source.new) }
    ensures whole { IfOk result (IsWhole (D.size source.old)) }
    ensures plain { IfOk result (λ c. c.vouch ≡ None) }
    ensures found { D.tells → IfOk result (λ c. FindsFirst (D.bytes source.old) copies (Some c)) }
    ensures refused { D.tells → IfErr result (IsNotPlain (D.bytes source.old) copies) }
{
    match first_found(alloc, source, copies)? {
        Some(found) => Ok(found),
        None => Err(RebuildFault::NoMetadata),
    }
}

/// The first of the candidates that are asked for.
fn first_found<D: Device>(
    alloc: Global,
    source: &mut D,
    copies: Copies,
) -> Result<Option<Candidate>, RebuildFault>
    requires { D.failed source.old + 1 < 2 ^ 64 }
    ensures unchanged { IsUnchanged D.tells D.size D.bytes D.unsettled source.old source.new }
    ensures count { CountsFailure is_rebuild_failure result
        (D.failed source.old) (D.failed source.new) }
    ensures kinds { IfErr result IsFromOutside }
    ensures whole { IfOk result (λ found. IfSome found (IsWhole (D.size source.old))) }
    ensures plain { IfOk result (λ found. IfSome found (λ c. c.vouch ≡ None)) }
    ensures found { D.tells → IfOk result (FindsFirst (D.bytes source.old) copies) }
    ensures broken { D.tells → IfErr result (BreaksFirst (D.bytes source.old) copies) }
{
    match copies {
        Copies::Any => any_found(alloc, source),
        Copies::Second => least_of(alloc, source, Half::Second),
        Copies::OfSize(size) => sized_found(alloc, source, size),
        Copies::SecondOfSize(size) => found_of(alloc, source, Half::Second, size),
    }
}

/// The first candidate of any copy.
fn any_found<D: Device>(alloc: Global, source: &mut D) -> Result<Option<Candidate>, RebuildFault>
    requires { D.failed source.old + 1 < 2 ^ 64 }
    ensures unchanged { IsUnchanged D.tells D.size D.bytes D.unsettled source.old source.new }
    ensures count { CountsFailure is_rebuild_failure result
        (D.failed source.old) (D.failed source.new) }
    ensures kinds { IfErr result IsFromOutside }
    ensures whole { IfOk result (λ found. IfSome found (IsWhole (D.size source.old))) }
    ensures plain { IfOk result (λ found. IfSome found (λ c. c.vouch ≡ None)) }
    ensures found { D.tells → IfOk result (FindsFirst (D.bytes source.old) Copies.Any) }
    ensures broken { D.tells → IfErr result (BreaksFirst (D.bytes source.old) Copies.Any) }
{
    match least_of(alloc, source, Half::First)? {
        Some(first) => Ok(Some(first)),
        None => least_of(alloc, source, Half::Second),
    }
}

/// The first candidate of a copy of this size.
fn sized_found<D: Device>(
    alloc: Global,
    source: &mut D,
    size: u64,
) -> Result<Option<Candidate>, RebuildFault>
    requires { D.failed source.old + 1 < 2 ^ 64 }
    ensures unchanged { IsUnchanged D.tells D.size D.bytes D.unsettled source.old source.new }
    ensures count { CountsFailure is_rebuild_failure result
        (D.failed source.old) (D.failed source.new) }
    ensures kinds { IfErr result IsFromOutside }
    ensures whole { IfOk result (λ found. IfSome found (IsWhole (D.size source.old))) }
    ensures plain { IfOk result (λ found. IfSome found (λ c. c.vouch ≡ None)) }
    ensures found { D.tells → IfOk result (FindsFirst (D.bytes source.old) (Copies.OfSize size)) }
    ensures broken { D.tells → IfErr result
        (BreaksFirst (D.bytes source.old) (Copies.OfSize size)) }
{
    match found_of(alloc, source, Half::First, size)? {
        Some(first) => Ok(Some(first)),
        None => found_of(alloc, source, Half::Second, size),
    }
}
