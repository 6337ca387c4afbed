//! What standard error says of a volume in which something is under way.

ghost use Rattle.std.specs.Prelude.{◌≡◌, ◌<◌, ◌++◌, ℕ, codes, List, OnOk, Option, Some};
ghost use Rattle.std.specs.Fmt.{WritesOnOk};
ghost use Rattle.std.specs.Io.KnownBytes.{Appends};
ghost use Rattle.std.specs.List.{list_any};
ghost use Rattle.serde_json.specs.View.{view};
ghost use Rattle.luks_underway.specs.Sides.{IsSide};
ghost use Rattle.luks_wider.specs.Underways.{content};
ghost use Rattle.luks_underway_said.specs.Said.{between_words, doing_words, gives, hand_words, is_missing, IsReencryptionSaid, key_words, length_words, missing_as, missing_text, reencryption_words, resuming_words, said_of, side_by, side_line, side_words};

use luks_meta::Extent;
use luks_underway::{Reencryption, Side, is_named, keyslot_side};
use luks_underway_show::{Hotzone, direction_name, mode_name, part_in_hand};
use luks_wider::{Sides, Underway};
use serde_json::Value;
use std::fmt;
use std::io::{self, Write};

/// Says of the volume of this name what a reencryption does that is under way in it, which way, from which key to
/// which and where, and what goes on with it. If none is, it says nothing.
pub fn note_under_way<E: Write>(meta: &Underway, volume: &str, err: &mut E) -> io::Result<()>
    ensures { OnOk result ((text : List ℕ) × IsReencryptionSaid (content meta.now) volume.now text
        × Appends (E.contents err.old) (E.contents err.new) text) }
{
    let Some(slot) = meta.reencryption() else {
        return Ok(());
    };
    let words = Words {
        members: slot.members,
        sides: meta.sides(),
        part: part_in_hand(meta),
    };
    note_words(words, volume, err)
}

fn note_words<E: Write>(words: Words<'_>, volume: &str, err: &mut E) -> io::Result<()>
    ensures { OnOk result (Appends (E.contents err.old) (E.contents err.new)
        (said_of volume.now (reencryption_words words.entry.members words.entry.sides.old words.entry.sides.new words.entry.part)
        ++ said_of volume.now resuming_words)) }
{
    say_words(words, volume, err)?;
    say_resuming(volume, err)
}

fn say_words<E: Write>(words: Words<'_>, volume: &str, err: &mut E) -> io::Result<()>
    ensures { OnOk result (Appends (E.contents err.old) (E.contents err.new)
        (said_of volume.now (reencryption_words words.entry.members words.entry.sides.old words.entry.sides.new words.entry.part))) }
{
    writeln!(err, "luks: {volume}: {words}")
}

fn say_resuming<E: Write>(volume: &str, err: &mut E) -> io::Result<()>
    ensures { OnOk result
        (Appends (E.contents err.old) (E.contents err.new) (said_of volume.now resuming_words)) }
{
    writeln!(
        err,
        "luks: {volume}: cryptsetup repair or cryptsetup reencrypt --resume-only goes on with it"
    )
}

/// What is said of a reencryption.
#[derive(Clone, Copy)]
struct Words<'a> {
    members: Reencryption<'a>,
    sides: Sides,
    part: Option<Hotzone>,
}

impl fmt::Display for Words<'_> {
    ghost output = { λ w. Some (reencryption_words w.members w.sides.old w.sides.new w.part) };

    fn fmt<W: fmt::Write>(&self, f: &mut fmt::Formatter<W>) -> fmt::Result {
        write_doing(&self.members, f)?;
        write_between(self.sides, self.part, f)
    }
}

fn write_doing<W: fmt::Write>(members: &Reencryption<'_>, f: &mut fmt::Formatter<W>) -> fmt::Result
    ensures { WritesOnOk W.write_str_gives f.old result (doing_words members.now) f.new }
{
    let mode = mode_name(members.mode);
    let direction = direction_name(members.direction);
    write!(f, "a reencryption is under way: {mode} {direction}")
}

fn write_between<W: fmt::Write>(
    sides: Sides,
    part: Option<Hotzone>,
    f: &mut fmt::Formatter<W>,
) -> fmt::Result
    ensures { WritesOnOk W.write_str_gives f.old result (between_words sides.old sides.new part) f.new }
{
    let old = KeyWords(sides.old);
    let new = KeyWords(sides.new);
    let part = PartWords(part);
    write!(f, ", from {old} to {new}{part}")
}

/// The key of a side.
#[derive(Clone, Copy)]
struct KeyWords(Option<u8>);

impl fmt::Display for KeyWords {
    ghost output = { λ key. Some (key_words key.0) };

    fn fmt<W: fmt::Write>(&self, f: &mut fmt::Formatter<W>) -> fmt::Result {
        match self.0 {
            Some(digest) => write!(f, "the key of digest {digest}"),
            None => f.write_str("no encryption"),
        }
    }
}

/// The place of the part in hand.
#[derive(Clone, Copy)]
struct PartWords(Option<Hotzone>);

impl fmt::Display for PartWords {
    ghost output = { λ part. Some (hand_words part.0) };

    fn fmt<W: fmt::Write>(&self, f: &mut fmt::Formatter<W>) -> fmt::Result {
        let Some(part) = self.0 else {
            return f.write_str(", no part is in hand");
        };
        let offset = part.offset;
        let length = LengthWords(part.size);
        write!(
            f,
            ", the part in hand begins at byte {offset} and has {length}"
        )
    }
}

/// How long it is.
#[derive(Clone, Copy)]
struct LengthWords(Extent);

impl fmt::Display for LengthWords {
    ghost output = { λ length. Some (length_words length.0) };

    fn fmt<W: fmt::Write>(&self, f: &mut fmt::Formatter<W>) -> fmt::Result {
        match self.0 {
            Extent::Fixed(bytes) => write!(f, "{bytes} bytes"),
            Extent::Dynamic => f.write_str("the rest"),
        }
    }
}

/// Says of the keyslot `n`, which a passphrase has opened, which key of the reencryption it gives.
pub fn note_side<E: Write>(meta: &Underway, n: u8, err: &mut E) -> io::Result<()>
    requires { n < 32 }
    ensures { (old new : Option ℕ) → IsSide (content meta.now) (codes "backup-previous") old
        → IsSide (content meta.now) (codes "backup-final") new
        → OnOk result (Appends (E.contents err.old) (E.contents err.new)
        (side_line n (side_by (content meta.now) n old new))) }
{
    let side = keyslot_side(meta.value(), n);
    say_side(n, side, err)
}

fn say_side<E: Write>(n: u8, side: Side, err: &mut E) -> io::Result<()>
    ensures { OnOk result (Appends (E.contents err.old) (E.contents err.new) (side_line n side)) }
{
    let gives = side_name(side);
    writeln!(err, "luks: keyslot {n}: it gives {gives}")
}

fn side_name(side: Side) -> &'static str
    ensures { result.now ≡ side_words side }
{
    match side {
        Side::Old => "the old key of the reencryption",
        Side::New => "the new key of the reencryption",
        Side::Both => "the key of both sides of the reencryption",
        Side::Neither => "the key of neither side of the reencryption",
    }
}

/// Says of a passphrase that has opened these keyslots which key of the reencryption none of them gives: without
/// both it can't be resumed.
pub fn note_missing_key<E: Write>(meta: &Underway, opened: &[u8], err: &mut E) -> io::Result<()>
    ensures { (old new : Option ℕ) → IsSide (content meta.now) (codes "backup-previous") old
        → IsSide (content meta.now) (codes "backup-final") new
        → OnOk result (Appends (E.contents err.old) (E.contents err.new)
        (missing_text (content meta.now) opened.now old new)) }
{
    let sides = meta.sides();
    let old = is_missing(meta, opened, sides.old);
    let new = is_missing(meta, opened, sides.new);
    note_missing(old, "old", err)?;
    note_missing(new, "new", err)
}

fn note_missing<E: Write>(is: bool, which: &str, err: &mut E) -> io::Result<()>
    ensures { OnOk result (Appends (E.contents err.old) (E.contents err.new) (missing_as is which.now)) }
{
    if !is {
        return Ok(());
    }
    writeln!(
        err,
        "luks: no keyslot that opens gives the {which} key: cryptsetup reencrypt --resume-only asks for both by one passphrase, and fails"
    )
}

/// There is a key of this digest, and none of the keyslots gives it.
fn is_missing(meta: &Underway, opened: &[u8], digest: Option<u8>) -> bool
    ensures { result ≡ is_missing (content meta.now) opened.now digest }
{
    match digest {
        Some(digest) => digest < 32 && !one_gives(meta.value(), opened, digest),
        None => false,
    }
}

/// One of the keyslots is assigned to the digest.
fn one_gives(value: &Value, opened: &[u8], digest: u8) -> bool
    requires { digest < 32 }
    ensures { result ≡ list_any (gives (view value.now) digest) opened.now }
{
    for n in opened.iter() {
        if gives(value, *n, digest) {
            return true;
        }
    }
    false
}

fn gives(value: &Value, n: u8, digest: u8) -> bool
    requires { digest < 32 }
    ensures { result ≡ gives (view value.now) digest n }
{
    n < 32 && is_named(value, "keyslots", n, digest)
}
