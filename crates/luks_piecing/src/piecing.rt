//! The search in fragments.
ghost use Rattle.std.specs.Prelude.{◌≡◌, ◌+◌, ◌^◌, ◌<◌, ◌≤◌, length, IfErr, IfOk, IfSome};
ghost use Rattle.luks_area.specs.Device.{CountsFailure, IsUnchanged};
ghost use Rattle.luks_fragments.specs.Kinds.{NeedsRegion};
ghost use Rattle.luks_trials.specs.Faults.{is_search_failure, IsCutShort};
ghost use Rattle.luks_trials.specs.Tallies.{Counts};
ghost use Rattle.luks_piecing.specs.Pieced.{IsPieced, IsTextAt};

use crate::given::GivenSegment;
use crate::joining::{Pieced, joined};
use crate::reading::read_fragment;
use crate::segment::segment_of;
use crate::spots::{Spot, Spots, chosen_segment, collected};
use luks_area::Device;
use luks_fragments::{Kind, Parts, needed_region};
use luks_trials::{Progress, SearchFault, Tally, Trying};
use std::alloc::Global;

/// A keyslot that was seen.
#[derive(Clone, Copy)]
pub(crate) struct Seen<'a> {
    /// Where.
    pub(crate) spot: Spot,
    /// Its text.
    pub(crate) text: &'a [u8],
    /// The size of the region that it needs, in bytes.
    pub(crate) region: u64,
}

/// The first metadata that is put together of a keyslot, a digest and a segment, which are whole in the first 8 MiB of the
/// source, by which the passphrase opens the keyslot; None where it opens none so. If a segment is given, it is taken
/// in place of one that stands.
///
/// The first 8 MiB are read in pieces of 1 MiB. Of each kind the first 64 count, of segments those that encrypt; what stands
/// twice in a piece, as in both copies, counts once. Each keyslot is tried with each digest, at most 4096 times in all;
/// the segment is that with the number which the digest names, or else the first one. None is tried where no segment is
/// there, or where the cipher of the one that is given has more than 64 bytes, or some that can't stand between quotes.
///
/// `tally` counts each derivation before it is made: `Spent` comes only where as many were made as may be. `Device` comes
/// exactly where a device call failed. Takes memory for one piece, a few areas of 12288 bytes with their values, and what
/// is allowed to Argon2.
pub fn search_fragments<D: Device, P: Progress>(
    alloc: Global,
    source: &mut D,
    given: &Option<GivenSegment<'_>>,
    trying: &Trying<'_>,
    tally: &mut Tally,
    progress: &mut P,
) -> Result<Option<Pieced>, SearchFault>
    requires passphrase { 0 < trying.now.allowed.memory
        → length trying.now.passphrase.now < 2 ^ 32 }
    requires room { D.failed source.old + 1 < 2 ^ 64 }
    ensures unchanged { IsUnchanged D.tells D.size D.bytes D.unsettled source.old source.new }
    ensures count { CountsFailure is_search_failure result
        (D.failed source.old) (D.failed source.new) }
    ensures counts { Counts tally.old tally.new }
    ensures cut { IfErr result (IsCutShort tally.new) }
    ensures long { IfOk result (λ found. IfSome found (λ f. length f.json.items ≡ 12288)) }
    ensures found { D.tells → IfOk result (λ found. IfSome found
        (IsPieced trying.now.allowed given.now (D.bytes source.old) trying.now.passphrase.now)) }
{
    let spots = collected(alloc, source)?;
    for spot in spots.keyslots.iter() {
        let found = by_keyslot(alloc, source, *spot, &spots, given, trying, tally, progress)?;
        if found.is_some() {
            return Ok(found);
        }
    }
    Ok(None)
}

/// Searches with the keyslot at the spot.
fn by_keyslot<D: Device, P: Progress>(
    alloc: Global,
    source: &mut D,
    spot: Spot,
    spots: &Spots,
    given: &Option<GivenSegment<'_>>,
    trying: &Trying<'_>,
    tally: &mut Tally,
    progress: &mut P,
) -> Result<Option<Pieced>, SearchFault>
    requires passphrase { 0 < trying.now.allowed.memory
        → length trying.now.passphrase.now < 2 ^ 32 }
    requires room { D.failed source.old + 1 < 2 ^ 64 }
    ensures unchanged { IsUnchanged D.tells D.size D.bytes D.unsettled source.old source.new }
    ensures count { CountsFailure is_search_failure result
        (D.failed source.old) (D.failed source.new) }
    ensures counts { Counts tally.old tally.new }
    ensures cut { IfErr result (IsCutShort tally.new) }
    ensures long { IfOk result (λ found. IfSome found (λ f. length f.json.items ≡ 12288)) }
    ensures found { D.tells → IfOk result (λ found. IfSome found
        (IsPieced trying.now.allowed given.now (D.bytes source.old) trying.now.passphrase.now)) }
{
    let Some(text) = read_fragment(alloc, source, spot, Kind::Keyslot)? else {
        return Ok(None);
    };
    let Some(region) = needed_region(alloc, &text)? else {
        return Ok(None);
    };
    let seen = Seen {
        spot,
        text: &text,
        region,
    };
    by_seen(alloc, source, &seen, spots, given, trying, tally, progress)
}

/// Searches with this keyslot.
fn by_seen<D: Device, P: Progress>(
    alloc: Global,
    source: &mut D,
    keyslot: &Seen<'_>,
    spots: &Spots,
    given: &Option<GivenSegment<'_>>,
    trying: &Trying<'_>,
    tally: &mut Tally,
    progress: &mut P,
) -> Result<Option<Pieced>, SearchFault>
    requires there { D.tells → IsTextAt (D.bytes source.old) keyslot.now.spot.at Kind.Keyslot keyslot.now.text.now }
    requires needs { NeedsRegion keyslot.now.text.now keyslot.now.region }
    requires passphrase { 0 < trying.now.allowed.memory
        → length trying.now.passphrase.now < 2 ^ 32 }
    requires room { D.failed source.old + 1 < 2 ^ 64 }
    ensures unchanged { IsUnchanged D.tells D.size D.bytes D.unsettled source.old source.new }
    ensures count { CountsFailure is_search_failure result
        (D.failed source.old) (D.failed source.new) }
    ensures counts { Counts tally.old tally.new }
    ensures cut { IfErr result (IsCutShort tally.new) }
    ensures long { IfOk result (λ found. IfSome found (λ f. length f.json.items ≡ 12288)) }
    ensures found { D.tells → IfOk result (λ found. IfSome found
        (IsPieced trying.now.allowed given.now (D.bytes source.old) trying.now.passphrase.now)) }
{
    for digest in spots.digests.iter() {
        let segment = chosen_segment(&spots.segments, digest.segment);
        let found = by_digest(
            alloc, source, keyslot, *digest, segment, given, trying, tally, progress,
        )?;
        if found.is_some() {
            return Ok(found);
        }
    }
    Ok(None)
}

/// Tries the digest at the spot, and the segment that was seen there, if none is given.
fn by_digest<D: Device, P: Progress>(
    alloc: Global,
    source: &mut D,
    keyslot: &Seen<'_>,
    spot: Spot,
    seen: Option<Spot>,
    given: &Option<GivenSegment<'_>>,
    trying: &Trying<'_>,
    tally: &mut Tally,
    progress: &mut P,
) -> Result<Option<Pieced>, SearchFault>
    requires there { D.tells → IsTextAt (D.bytes source.old) keyslot.now.spot.at Kind.Keyslot keyslot.now.text.now }
    requires needs { NeedsRegion keyslot.now.text.now keyslot.now.region }
    requires passphrase { 0 < trying.now.allowed.memory
        → length trying.now.passphrase.now < 2 ^ 32 }
    requires room { D.failed source.old + 1 < 2 ^ 64 }
    ensures unchanged { IsUnchanged D.tells D.size D.bytes D.unsettled source.old source.new }
    ensures count { CountsFailure is_search_failure result
        (D.failed source.old) (D.failed source.new) }
    ensures counts { Counts tally.old tally.new }
    ensures cut { IfErr result (IsCutShort tally.new) }
    ensures long { IfOk result (λ found. IfSome found (λ f. length f.json.items ≡ 12288)) }
    ensures found { D.tells → IfOk result (λ found. IfSome found
        (IsPieced trying.now.allowed given.now (D.bytes source.old) trying.now.passphrase.now)) }
{
    let Some(digest) = read_fragment(alloc, source, spot, Kind::Digest)? else {
        return Ok(None);
    };
    let Some(segment) = segment_of(alloc, source, given, seen)? else {
        return Ok(None);
    };
    let parts = Parts {
        region: keyslot.region,
        slot: number_of(keyslot.spot.number),
        number: number_of(spot.number),
        keyslot: keyslot.text,
        digest: &digest,
        segment: &segment.text,
    };
    let Some(json) = joined(alloc, source, &parts, trying, tally, progress)? else {
        return Ok(None);
    };
    Ok(Some(Pieced {
        json,
        slot: parts.slot,
        keyslot: keyslot.spot.at,
        digest: spot.at,
        segment: segment.at,
    }))
}

/// The number, or 0 where none comes before a fragment.
fn number_of(number: Option<u8>) -> u8
    ensures { result < 32 }
{
    match number {
        Some(n) if n < 32 => n,
        _ => 0,
    }
}
