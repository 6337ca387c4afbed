//! The lines of the objects of LUKS2 metadata.
ghost use Rattle.std.specs.Prelude.{◌≡◌, Some};
ghost use Rattle.std.specs.Fmt.{WritesOnOk};
ghost use Rattle.luks_show.specs.Luks2Lines.{area_text, digest_line, digest_text, kdf_text, key_text, keyslot_line, token_line};

use crate::costs::{CostsLine, EncryptionLine, SaltLine};
use crate::escaped::Escaped;
use crate::lists::Numbers;
use luks_reading::{Cost, Digest, Extent, Keyslot, Meta, Segment, SegmentKind, Token};
use std::fmt;

/// Which lines are listed: those of `show`, or those of `show --all`.
#[derive(Clone, Copy)]
pub(crate) enum Lines {
    Few,
    All,
}

pub(crate) fn list_keyslots<W: fmt::Write>(
    meta: &Meta,
    lines: Lines,
    f: &mut fmt::Formatter<W>,
) -> fmt::Result {
    for n in 0..32 {
        if let Some(keyslot) = meta.keyslot(n) {
            let digest = meta.digest_of_keyslot(n);
            write!(f, "{}", KeyslotLine(n, &keyslot, digest))?;
            list_costs(n, &keyslot, lines, f)?;
        }
    }
    Ok(())
}

fn list_costs<W: fmt::Write>(
    n: u8,
    keyslot: &Keyslot<'_>,
    lines: Lines,
    f: &mut fmt::Formatter<W>,
) -> fmt::Result {
    match lines {
        Lines::Few => Ok(()),
        Lines::All => {
            write!(f, "{}", CostsLine(n, keyslot.kdf.cost))?;
            let salt = keyslot.kdf.salt.as_slice();
            write!(f, "{}", SaltLine(usize::from(n), salt))
        }
    }
}

/// The keyslot of this number, and the digest that names it; it prints as its line.
#[derive(Clone, Copy)]
pub struct KeyslotLine<'a>(pub u8, pub &'a Keyslot<'a>, pub Option<u8>);

impl fmt::Display for KeyslotLine<'_> {
    ghost output = { λ l. Some (keyslot_line l.0 l.1.now l.2) };

    fn fmt<W: fmt::Write>(&self, f: &mut fmt::Formatter<W>) -> fmt::Result {
        let keyslot = self.1;
        list_key(self.0, keyslot, f)?;
        list_area(keyslot, self.2, f)
    }
}

fn list_key<W: fmt::Write>(n: u8, keyslot: &Keyslot<'_>, f: &mut fmt::Formatter<W>) -> fmt::Result
    ensures { WritesOnOk W.write_str_gives f.old result (key_text n keyslot.now) f.new }
{
    let key_bytes = keyslot.key_size;
    let kdf = kdf_name(&keyslot.kdf.cost);
    write!(f, "keyslot {n} key-bytes {key_bytes} kdf {kdf}")
}

fn list_area<W: fmt::Write>(
    keyslot: &Keyslot<'_>,
    digest: Option<u8>,
    f: &mut fmt::Formatter<W>,
) -> fmt::Result
    ensures { WritesOnOk W.write_str_gives f.old result (area_text keyslot.now digest) f.new }
{
    let offset = keyslot.area.offset;
    let size = keyslot.area.size;
    let encryption = Escaped(keyslot.area.encryption.as_bytes());
    let digest = OfDigest(digest);
    writeln!(f, " area {offset} {size} {encryption}{digest}")
}

fn kdf_name(cost: &Cost<'_>) -> &'static str
    ensures { result.now ≡ kdf_text cost.now }
{
    match cost {
        Cost::Pbkdf2(_) => "pbkdf2",
        Cost::Argon2i(_) => "argon2i",
        Cost::Argon2id(_) => "argon2id",
    }
}

/// The digest that names a keyslot, where one does.
#[derive(Clone, Copy)]
struct OfDigest(Option<u8>);

impl fmt::Display for OfDigest {
    ghost output = { λ of. Some (digest_text of.0) };

    fn fmt<W: fmt::Write>(&self, f: &mut fmt::Formatter<W>) -> fmt::Result {
        match self.0 {
            Some(digest) => write!(f, " digest {digest}"),
            None => Ok(()),
        }
    }
}

pub(crate) fn list_tokens<W: fmt::Write>(meta: &Meta, f: &mut fmt::Formatter<W>) -> fmt::Result {
    for n in 0..32 {
        if let Some(token) = meta.token(n) {
            write!(f, "{}", TokenLine(n, &token))?;
        }
    }
    Ok(())
}

/// The token of this number; it prints as its line.
#[derive(Clone, Copy)]
pub struct TokenLine<'a>(pub u8, pub &'a Token<'a>);

impl fmt::Display for TokenLine<'_> {
    ghost output = { λ l. Some (token_line l.0 l.1.now) };

    fn fmt<W: fmt::Write>(&self, f: &mut fmt::Formatter<W>) -> fmt::Result {
        let n = self.0;
        let token = self.1;
        let kind = Escaped(token.kind.as_bytes());
        let keyslots = Numbers(token.keyslots.as_slice());
        writeln!(f, "token {n} {kind} keyslots {keyslots}")
    }
}

pub(crate) fn list_segments<W: fmt::Write>(
    meta: &Meta,
    lines: Lines,
    f: &mut fmt::Formatter<W>,
) -> fmt::Result {
    for n in 0..32 {
        if let Some(segment) = meta.segment(n) {
            list_segment(n, &segment, f)?;
            list_encryption(n, &segment, lines, f)?;
        }
    }
    Ok(())
}

fn list_encryption<W: fmt::Write>(
    n: u8,
    segment: &Segment<'_>,
    lines: Lines,
    f: &mut fmt::Formatter<W>,
) -> fmt::Result {
    match (lines, segment.kind) {
        (Lines::All, SegmentKind::Crypt(encryption)) => {
            write!(f, "{}", EncryptionLine(n, encryption))
        }
        _ => Ok(()),
    }
}

fn list_segment<W: fmt::Write>(
    n: u8,
    segment: &Segment<'_>,
    f: &mut fmt::Formatter<W>,
) -> fmt::Result {
    let kind = match segment.kind {
        SegmentKind::Crypt(_) => "crypt",
        SegmentKind::Linear => "linear",
    };
    let offset = segment.offset;
    match segment.size {
        Extent::Fixed(size) => writeln!(f, "segment {n} {kind} {offset} {size}"),
        Extent::Dynamic => writeln!(f, "segment {n} {kind} {offset} dynamic"),
    }
}

pub(crate) fn list_digests<W: fmt::Write>(meta: &Meta, f: &mut fmt::Formatter<W>) -> fmt::Result {
    for n in 0..32 {
        if let Some(digest) = meta.digest(n) {
            write!(f, "{}", DigestLine(n, &digest))?;
        }
    }
    Ok(())
}

/// The digest of this number; it prints as its line.
#[derive(Clone, Copy)]
pub struct DigestLine<'a>(pub u8, pub &'a Digest<'a>);

impl fmt::Display for DigestLine<'_> {
    ghost output = { λ l. Some (digest_line l.0 l.1.now) };

    fn fmt<W: fmt::Write>(&self, f: &mut fmt::Formatter<W>) -> fmt::Result {
        let n = self.0;
        let digest = self.1;
        let hash = Escaped(digest.hash.as_bytes());
        let keyslots = Numbers(digest.keyslots.as_slice());
        let segments = Numbers(digest.segments.as_slice());
        writeln!(
            f,
            "digest {n} {hash} keyslots {keyslots} segments {segments}"
        )
    }
}
