//! What an object is.
ghost use Rattle.std.specs.Prelude.{◌≡◌, ◌↔◌, ◌≤◌, length, IfNone, IfOk, IfSome, IsTrue};
ghost use Rattle.luks_area.specs.Text.{is_plain, is_printable};
ghost use Rattle.luks_fragments.specs.Kinds.{framed, some_digest, some_keyslot, some_segment, widest, HasKind, IsAcceptedAs, IsLikely};
ghost use Rattle.luks_meta.specs.Accepted.{IsMeta};
ghost use Rattle.luks_meta.specs.Content.{content};
ghost use Rattle.luks_fragments.specs.Made.{area_of, made_text};
ghost use Rattle.luks_fragments.specs.declared.kinds.Kind.{Kind as TheKind};

use crate::made::{Parts, area_of, made_text};
use luks_meta::{Meta, MetaFault};
use std::alloc::{AllocError, Global};

/// What an object of LUKS2 metadata is.
#[derive(Debug, Clone, Copy, PartialEq, Eq)]
pub enum Kind {
    /// A keyslot (LUKS2 On-Disk Format 1.1, 3.2).
    Keyslot,
    /// A digest (3.4), whatever it names.
    Digest,
    /// A segment (3.3).
    Segment,
}

/// No object of the three kinds has fewer bytes.
const SHORTEST: usize = 32;

/// The region of key areas, as large as it may be said.
const WIDEST: u64 = 18446744073709551615;

/// What the object is, if it is one of the three: metadata that is sound except for it is accepted with it in its place. Only
/// printable bytes are looked at, so that what a disk has by chance costs no reading.
///
/// Takes memory for an area of 12288 bytes and its value. The error comes only where memory was refused.
pub fn kind_of(alloc: Global, object: &[u8]) -> Result<Option<Kind>, AllocError>
    ensures some { IfOk result (λ kind. IfSome kind (HasKind object.now)) }
    ensures none { IfOk result (λ kind. IfNone kind ((k : TheKind) → HasKind object.now k → ⊥)) }
{
    if !is_likely(object) {
        return Ok(None);
    }
    if is_accepted_as(alloc, Kind::Keyslot, object)? {
        return Ok(Some(Kind::Keyslot));
    }
    if is_accepted_as(alloc, Kind::Digest, object)? {
        return Ok(Some(Kind::Digest));
    }
    if is_accepted_as(alloc, Kind::Segment, object)? {
        return Ok(Some(Kind::Segment));
    }
    Ok(None)
}

fn is_likely(object: &[u8]) -> bool
    ensures { IsTrue result ↔ IsLikely object.now }
{
    object.len() >= SHORTEST && is_plain(object)
}

fn is_plain(object: &[u8]) -> bool
    ensures { result ≡ is_plain object.now }
{
    object.iter().all(|byte| is_printable(*byte))
}

fn is_printable(byte: u8) -> bool
    ensures { result ≡ is_printable byte }
{
    (0x20..=0x7E).contains(&byte)
}

/// Whether the metadata of the frame with the object is accepted.
fn is_accepted_as(alloc: Global, kind: Kind, object: &[u8]) -> Result<bool, AllocError>
    requires { 1 ≤ length object.now }
    ensures { IfOk result (λ is. IsTrue is ↔ IsAcceptedAs kind object.now) }
{
    match accepted(alloc, kind, object)? {
        Some(_) => Ok(true),
        None => Ok(false),
    }
}

/// The metadata of the frame with the object in that place, if it is accepted.
pub(crate) fn accepted(alloc: Global, kind: Kind, object: &[u8]) -> Result<Option<Meta>, AllocError>
    requires { 1 ≤ length object.now }
    ensures some { IfOk result (λ found. IfSome found (λ meta.
        IsMeta (area_of (framed kind object.now)) (content meta))) }
    ensures none { IfOk result (λ found. IfNone found (IsAcceptedAs kind object.now → ⊥)) }
{
    let text = framed(alloc, kind, object)?;
    let area = area_of(text)?;
    match Meta::read(alloc, &area) {
        Ok(meta) => Ok(Some(meta)),
        Err(MetaFault::Memory) => Err(AllocError),
        Err(_) => Ok(None),
    }
}

/// The text of the frame with the object in that place.
fn framed(alloc: Global, kind: Kind, object: &[u8]) -> Result<Vec<u8>, AllocError>
    requires { 1 ≤ length object.now }
    ensures { IfOk result (λ text. text.items ≡ framed kind object.now) }
{
    match kind {
        Kind::Keyslot => text_of(alloc, object, some_digest(), some_segment()),
        Kind::Digest => text_of(alloc, some_keyslot(), object, some_segment()),
        Kind::Segment => text_of(alloc, some_keyslot(), some_digest(), object),
    }
}

/// The text of three objects in the widest region, with the numbers 0.
fn text_of(
    alloc: Global,
    keyslot: &[u8],
    digest: &[u8],
    segment: &[u8],
) -> Result<Vec<u8>, AllocError>
    requires { 1 ≤ length digest.now }
    ensures { IfOk result (λ text. text.items ≡ made_text widest 0 0 keyslot.now digest.now segment.now) }
{
    let parts = Parts {
        region: WIDEST,
        slot: 0,
        number: 0,
        keyslot,
        digest,
        segment,
    };
    made_text(alloc, &parts)
}

/// A keyslot that is sound.
fn some_keyslot() -> &'static [u8]
    ensures { result.now ≡ some_keyslot }
{
    "{\"type\":\"luks2\",\"key_size\":64,\"af\":{\"type\":\"luks1\",\"stripes\":4000,\"hash\":\"sha256\"},\"area\":{\"type\":\"raw\",\"offset\":\"32768\",\"size\":\"258048\",\"encryption\":\"aes-xts-plain64\",\"key_size\":64},\"kdf\":{\"type\":\"pbkdf2\",\"hash\":\"sha256\",\"iterations\":1000,\"salt\":\"AAAA\"}}".as_bytes()
}

/// A digest that is sound, except for what it names.
fn some_digest() -> &'static [u8]
    ensures { result.now ≡ some_digest }
{
    "{\"type\":\"pbkdf2\",\"hash\":\"sha256\",\"iterations\":1000,\"salt\":\"AAAA\",\"digest\":\"AAAAAAAAAAAAAAAAAAAAAAAAAAAA\"}".as_bytes()
}

/// A segment that is sound.
fn some_segment() -> &'static [u8]
    ensures { result.now ≡ some_segment }
{
    "{\"type\":\"crypt\",\"offset\":\"16777216\",\"size\":\"dynamic\",\"iv_tweak\":\"0\",\"encryption\":\"aes-xts-plain64\",\"sector_size\":512}".as_bytes()
}
