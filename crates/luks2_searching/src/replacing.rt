//! A digest of LUKS2 that is put in place of the one that stands.
ghost use Rattle.std.specs.Prelude.{◌≡◌, ◌+◌, ◌^◌, ◌<◌, ◌≤◌, ℕ, List, length, true, IfErr, IfOk, IfSome};
ghost use Rattle.luks_area.specs.Device.{CountsFailure, IsUnchanged};
ghost use Rattle.luks_area.specs.Ranges.{part};
ghost use Rattle.luks_meta.specs.Accepted.{IsMeta};
ghost use Rattle.luks_meta.specs.Content.{content};
ghost use Rattle.luks_trials.specs.Faults.{is_search_failure, IsCutShort};
ghost use Rattle.luks_trials.specs.Tallies.{Counts};
ghost use Rattle.luks2_searching.specs.Digests.{base64_text, HasDigest, IsNear, IsReplaced};
ghost use Rattle.luks2_searching.specs.Found.{IsFoundIn, IsThere};
ghost use Rattle.luks_trials.specs.Metadata.{OpensAt};

use crate::digest::NearDigest;
use crate::found::{Change2, Found2};
use base64::engine::general_purpose::STANDARD;
use luks_area::Device;
use luks_meta::Meta;
use luks_rebuilding::Place;
use luks_trials::{Progress, SearchFault, Tally, Trying, meta_of, opens};
use std::alloc::{AllocError, Global};

/// The area with the other digest at the first place where the text of the one that stands is that of the keyslot `n`,
/// if it opens so.
pub(crate) fn with_digest<D: Device, P: Progress>(
    alloc: Global,
    source: &mut D,
    place: Place,
    json: &[u8],
    n: u8,
    near: &NearDigest,
    trying: &Trying<'_>,
    tally: &mut Tally,
    progress: &mut P,
) -> Result<Option<Found2>, SearchFault>
    requires near { IsNear json.now n near.now }
    requires passphrase { 0 < trying.now.allowed.memory
        → length trying.now.passphrase.now < 2 ^ 32 }
    requires room { D.failed source.old + 1 < 2 ^ 64 }
    ensures unchanged { IsUnchanged D.tells D.size D.bytes D.unsettled source.old source.new }
    ensures count { CountsFailure is_search_failure result
        (D.failed source.old) (D.failed source.new) }
    ensures counts { Counts tally.old tally.new }
    ensures cut { IfErr result (IsCutShort tally.new) }
    ensures there { IfOk result (λ found. IfSome found (IsThere place json.now)) }
    ensures found { D.tells → IfOk result (λ found. IfSome found (IsFoundIn trying.now.allowed
        (D.bytes source.old) trying.now.passphrase.now json.now)) }
{
    for at in 0..json.len() {
        let found = with_digest_at(
            alloc, source, place, json, n, near, at, trying, tally, progress,
        )?;
        if found.is_some() {
            return Ok(found);
        }
    }
    Ok(None)
}

/// The same at this place of the area.
fn with_digest_at<D: Device, P: Progress>(
    alloc: Global,
    source: &mut D,
    place: Place,
    json: &[u8],
    n: u8,
    near: &NearDigest,
    at: usize,
    trying: &Trying<'_>,
    tally: &mut Tally,
    progress: &mut P,
) -> Result<Option<Found2>, SearchFault>
    requires near { IsNear json.now n near.now }
    requires there { at ≤ length json.now }
    requires passphrase { 0 < trying.now.allowed.memory
        → length trying.now.passphrase.now < 2 ^ 32 }
    requires room { D.failed source.old + 1 < 2 ^ 64 }
    ensures unchanged { IsUnchanged D.tells D.size D.bytes D.unsettled source.old source.new }
    ensures count { CountsFailure is_search_failure result
        (D.failed source.old) (D.failed source.new) }
    ensures counts { Counts tally.old tally.new }
    ensures cut { IfErr result (IsCutShort tally.new) }
    ensures there { IfOk result (λ found. IfSome found (IsThere place json.now)) }
    ensures found { D.tells → IfOk result (λ found. IfSome found (IsFoundIn trying.now.allowed
        (D.bytes source.old) trying.now.passphrase.now json.now)) }
{
    let Some(changed) = replaced(alloc, json, at, &near.stood, &near.digest)? else {
        return Ok(None);
    };
    let digest = &near.digest;
    let opened = opens_with(alloc, source, &changed, n, digest, trying, tally, progress)?;
    if !opened {
        return Ok(None);
    }
    Ok(Some(Found2 {
        json: changed,
        place,
        slot: n,
        change: Change2::Digest { bits: near.bits },
    }))
}

/// The bytes in base64, padded (RFC 4648, section 4).
fn base64_text(alloc: Global, bytes: &[u8]) -> Result<Vec<u8>, AllocError>
    ensures { IfOk result (λ t. t.items ≡ base64_text bytes.now) }
{
    Ok(STANDARD.encode(alloc, bytes)?.into_bytes())
}

/// The area with the text of the other digest in place of that of the one that stands, where this is at the place and
/// both texts are as long.
fn replaced(
    alloc: Global,
    json: &[u8],
    at: usize,
    stood: &[u8],
    digest: &[u8],
) -> Result<Option<Vec<u8>>, AllocError>
    requires { at ≤ length json.now }
    ensures { IfOk result (λ found. IfSome found
        (λ changed. IsReplaced json.now stood.now digest.now at changed.items)) }
{
    let old = base64_text(alloc, stood)?;
    let new = base64_text(alloc, digest)?;
    if old.len() != new.len() || !stands_at(json, at, &old) {
        return Ok(None);
    }
    let mut changed = json.to_vec(alloc)?;
    changed[at..at + new.len()].copy_from_slice(&new);
    Ok(Some(changed))
}

/// Whether the text is at the place.
fn stands_at(json: &[u8], at: usize, text: &[u8]) -> bool
    requires { at ≤ length json.now }
    ensures inside { result ≡ true → at + length text.now ≤ length json.now }
    ensures stands { result ≡ true → part json.now at (length text.now) ≡ text.now }
{
    let rest = &json[at..];
    if text.len() > rest.len() {
        return false;
    }
    is_same(&rest[..text.len()], text)
}

fn is_same(a: &[u8], b: &[u8]) -> bool
    ensures { result ≡ true → a.now ≡ b.now }
{
    a == b
}

/// Whether the keyslot `n` opens by the area, and its digest is this one.
fn opens_with<D: Device, P: Progress>(
    alloc: Global,
    source: &mut D,
    json: &[u8],
    n: u8,
    digest: &[u8],
    trying: &Trying<'_>,
    tally: &mut Tally,
    progress: &mut P,
) -> Result<bool, SearchFault>
    requires passphrase { 0 < trying.now.allowed.memory
        → length trying.now.passphrase.now < 2 ^ 32 }
    requires room { D.failed source.old + 1 < 2 ^ 64 }
    ensures unchanged { IsUnchanged D.tells D.size D.bytes D.unsettled source.old source.new }
    ensures count { CountsFailure is_search_failure result
        (D.failed source.old) (D.failed source.new) }
    ensures counts { Counts tally.old tally.new }
    ensures cut { IfErr result (IsCutShort tally.new) }
    ensures opens { D.tells → IfOk result (λ is. is ≡ true → OpensAt trying.now.allowed (D.bytes source.old)
        trying.now.passphrase.now json.now n) }
    ensures digest { IfOk result (λ is. is ≡ true → HasDigest json.now n digest.now) }
{
    let Some(meta) = meta_of(alloc, json)? else {
        return Ok(false);
    };
    if !has_digest(&meta, n, digest) {
        return Ok(false);
    }
    opens(alloc, source, &meta, n, trying, tally, progress)
}

/// Whether the digest of the keyslot `n` is this one.
fn has_digest(meta: &Meta, n: u8, digest: &[u8]) -> bool
    ensures { result ≡ true → (json : List ℕ) → IsMeta json (content meta.now)
        → HasDigest json n digest.now }
{
    let Some(number) = meta.digest_of_keyslot(n) else {
        return false;
    };
    match meta.digest(number) {
        Some(there) => there.digest.as_slice() == digest,
        None => false,
    }
}
