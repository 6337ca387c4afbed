//! Where fragments were seen.
ghost use Rattle.std.specs.Prelude.{◌≡◌, ◌≢◌, ◌+◌, ◌^◌, ◌<◌, ◌≤◌, length, IfErr};
ghost use Rattle.luks_area.specs.Device.{CountsFailure, IsUnchanged};
ghost use Rattle.luks_trials.specs.Faults.{is_search_failure};

use arrayvec::ArrayVec;
use luks_area::Device;
use luks_fragments::{Fragment, Kind, next_fragment};
use luks_json::number_named;
use luks_trials::SearchFault;
use std::alloc::{AllocError, Global};
use std::str;

/// The source is read in pieces of so many bytes: 1 MiB.
const PIECE: usize = 1048576;

/// Each piece begins so many bytes behind the one before: 8192 bytes of both are the same.
const STEP: u64 = 1040384;

/// How many pieces are read: with them, a little more than the first 8 MiB.
const PIECES: u64 = 9;

/// What begins before that place is of the piece before.
const FIRST: usize = 4096;

/// What begins at that place or behind is of the next piece.
const LAST: usize = 1044480;

/// Where a fragment was seen.
#[derive(Clone, Copy, Default, Drop)]
pub(crate) struct Spot {
    /// Where it begins, in bytes from the source's start.
    pub(crate) at: u64,
    /// How many bytes it has.
    pub(crate) len: usize,
    /// The number that comes before it, if one does.
    pub(crate) number: Option<u8>,
    /// The first segment that it names, if it is a digest and names one.
    pub(crate) segment: Option<u8>,
}

/// The first 64 keyslots, the first 64 digests and the first 64 segments that encrypt.
#[derive(Drop)]
pub(crate) struct Spots {
    pub(crate) keyslots: ArrayVec<Spot, 64>,
    pub(crate) digests: ArrayVec<Spot, 64>,
    pub(crate) segments: ArrayVec<Spot, 64>,
}

/// The fragments that begin in the first 8 MiB of the source.
///
/// Takes memory for a piece of 1 MiB, and for an area of 12288 bytes and its value.
pub(crate) fn collected<D: Device>(alloc: Global, source: &mut D) -> Result<Spots, SearchFault>
    requires room { D.failed source.old + 1 < 2 ^ 64 }
    ensures unchanged { IsUnchanged D.tells D.size D.bytes D.unsettled source.old source.new }
    ensures count { CountsFailure is_search_failure result
        (D.failed source.old) (D.failed source.new) }
    ensures kinds { IfErr result (λ f. f ≢ SearchFault.Spent) }
{
    let mut bytes = vec![in alloc; 0u8; PIECE]?;
    let mut spots = no_spots();
    add_pieces(alloc, source, &mut bytes, &mut spots)?;
    Ok(spots)
}

fn no_spots() -> Spots {
    Spots {
        keyslots: ArrayVec::new(),
        digests: ArrayVec::new(),
        segments: ArrayVec::new(),
    }
}

/// Adds the fragments that begin in the pieces of the source, one after the other.
fn add_pieces<D: Device>(
    alloc: Global,
    source: &mut D,
    bytes: &mut [u8],
    spots: &mut Spots,
) -> Result<(), SearchFault>
    requires long { length bytes.old ≡ 1048576 }
    requires room { D.failed source.old + 1 < 2 ^ 64 }
    ensures unchanged { IsUnchanged D.tells D.size D.bytes D.unsettled source.old source.new }
    ensures count { CountsFailure is_search_failure result
        (D.failed source.old) (D.failed source.new) }
    ensures kinds { IfErr result (λ f. f ≢ SearchFault.Spent) }
{
    for piece in 0..PIECES {
        add_piece(alloc, source, piece, bytes, spots)?;
    }
    Ok(())
}

/// Adds the fragments that begin in this piece of the source.
fn add_piece<D: Device>(
    alloc: Global,
    source: &mut D,
    piece: u64,
    bytes: &mut [u8],
    spots: &mut Spots,
) -> Result<(), SearchFault>
    requires few { piece < 9 }
    requires long { length bytes.old ≡ 1048576 }
    requires room { D.failed source.old + 1 < 2 ^ 64 }
    ensures long { length bytes.new ≡ length bytes.old }
    ensures unchanged { IsUnchanged D.tells D.size D.bytes D.unsettled source.old source.new }
    ensures count { CountsFailure is_search_failure result
        (D.failed source.old) (D.failed source.new) }
    ensures kinds { IfErr result (λ f. f ≢ SearchFault.Spent) }
{
    let at = STEP * piece;
    let total = source.len();
    if total <= at {
        return Ok(());
    }
    let len = (total - at).min(PIECE as u64) as usize;
    let read = &mut bytes[..len];
    source.read_at(at, read)?;
    let first = if piece == 0 { 0 } else { FIRST };
    add_fragments(alloc, at, read, first, spots)?;
    Ok(())
}

/// Adds the fragments of these bytes, which are at `at`, from the place `first` on.
fn add_fragments(
    alloc: Global,
    at: u64,
    bytes: &[u8],
    first: usize,
    spots: &mut Spots,
) -> Result<(), AllocError>
    requires { at + length bytes.now < 2 ^ 64 }
{
    let mut from = first;
    for _ in 0..bytes.len() {
        let Some(fragment) = next_fragment(alloc, bytes, from)? else {
            return Ok(());
        };
        if fragment.start >= LAST {
            return Ok(());
        }
        from = fragment.start + fragment.len;
        add(spots, at, bytes, &fragment);
    }
    Ok(())
}

/// Adds the fragment of these bytes, which are at `at`, if there is room for it.
fn add(spots: &mut Spots, at: u64, bytes: &[u8], fragment: &Fragment)
    requires long { at + length bytes.now < 2 ^ 64 }
    requires inside { fragment.now.start + fragment.now.len ≤ length bytes.now }
{
    let text = &bytes[fragment.start..fragment.start + fragment.len];
    let mut spot = Spot {
        at: at + fragment.start as u64,
        len: fragment.len,
        number: fragment.number,
        segment: None,
    };
    match fragment.kind {
        Kind::Keyslot => keep(&mut spots.keyslots, spot, at, bytes),
        Kind::Digest => {
            spot.segment = first_segment(text);
            keep(&mut spots.digests, spot, at, bytes);
        }
        Kind::Segment => {
            if encrypts(text) {
                keep(&mut spots.segments, spot, at, bytes);
            }
        }
    }
}

/// Adds the spot, if there is room for it, and the same wasn't seen in these bytes.
fn keep(spots: &mut ArrayVec<Spot, 64>, spot: Spot, at: u64, bytes: &[u8]) {
    if !spots.is_full() && !is_seen(spots, &spot, at, bytes) {
        spots.push(spot);
    }
}

/// Whether one of the spots has the same number and the same text in these bytes, which are at `at`.
fn is_seen(spots: &[Spot], spot: &Spot, at: u64, bytes: &[u8]) -> bool {
    let text = text_of(spot, at, bytes);
    spots.iter().any(|seen| seen.number == spot.number && text_of(seen, at, bytes) == text)
}

/// The text at the spot, if it lies in these bytes, which are at `at`.
fn text_of<'a>(spot: &Spot, at: u64, bytes: &'a [u8]) -> Option<&'a [u8]> {
    let start = spot.at.checked_sub(at)? as usize;
    bytes.get(start..)?.get(..spot.len)
}

/// The first segment that the digest names, by its text.
fn first_segment(digest: &[u8]) -> Option<u8> {
    let Ok(text) = str::from_utf8(digest) else {
        return None;
    };
    let (_, names) = text.split_once("\"segments\":[\"")?;
    let (name, _) = names.split_once("\"")?;
    number_named(name)
}

/// Whether the segment is of the kind that encrypts, by its text.
fn encrypts(segment: &[u8]) -> bool {
    match str::from_utf8(segment) {
        Ok(text) => text.split_once("\"crypt\"").is_some(),
        Err(_) => false,
    }
}

/// The spot of the segment that a digest names, or else the first one that was seen.
pub(crate) fn chosen_segment(segments: &[Spot], named: Option<u8>) -> Option<Spot> {
    for spot in segments {
        if named.is_some() && spot.number == named {
            return Some(*spot);
        }
    }
    match segments {
        [first, ..] => Some(*first),
        [] => None,
    }
}
