//! The line of a part of the data.

ghost use Rattle.std.specs.Prelude.{◌≡◌, ◌≤◌, Some};
ghost use Rattle.std.specs.Fmt.{WritesOnOk};
ghost use Rattle.luks_underway_tables.specs.Parts.{crypt_text, length_of, part_text, sector_size_text, sectors_of, target_text};
ghost use Rattle.luks_underway_tables.specs.Table.{key_word, place_text};

use luks_meta::{Encryption, Extent};
use luks_show::Escaped;
use luks_underway::{WideKind, WideSegment};
use std::fmt;

/// The sectors of a table are of so many bytes.
const SECTOR: u64 = 512;

/// How many sectors of a table the segment has, where data ends at byte `end`; a backup has none.
pub(crate) fn sectors_of(segment: &WideSegment<'_>, end: u64) -> u64
    ensures are { result ≡ sectors_of end segment.now }
    ensures few { result ≤ 36028797018963967 }
{
    if segment.flags.backup {
        return 0;
    }
    length_of(segment, end) / SECTOR
}

fn length_of(segment: &WideSegment<'_>, end: u64) -> u64
    ensures { result ≡ length_of end segment.now }
{
    match segment.size {
        Extent::Fixed(size) => size,
        Extent::Dynamic => end.saturating_sub(segment.offset),
    }
}

/// A part of the data, where it begins in the table and its length, both in sectors, and the digest of its key; it
/// prints as its line.
#[derive(Clone, Copy)]
pub(crate) struct PartLine<'a> {
    pub(crate) place: u64,
    pub(crate) sectors: u64,
    pub(crate) key: Option<u8>,
    pub(crate) segment: &'a WideSegment<'a>,
}

impl fmt::Display for PartLine<'_> {
    ghost output = { λ l. Some (part_text l.place l.sectors l.key l.segment.now) };

    fn fmt<W: fmt::Write>(&self, f: &mut fmt::Formatter<W>) -> fmt::Result {
        list_place(self.place, self.sectors, f)?;
        list_target(self.segment, self.key, f)
    }
}

fn list_place<W: fmt::Write>(place: u64, sectors: u64, f: &mut fmt::Formatter<W>) -> fmt::Result
    ensures { WritesOnOk W.write_str_gives f.old result (place_text place sectors) f.new }
{
    write!(f, "{place} {sectors} ")
}

/// Lists how the part is read: not at all where it is in hand, else by its key, or as it is.
fn list_target<W: fmt::Write>(
    segment: &WideSegment<'_>,
    key: Option<u8>,
    f: &mut fmt::Formatter<W>,
) -> fmt::Result
    ensures { WritesOnOk W.write_str_gives f.old result (target_text key segment.now) f.new }
{
    if segment.flags.in_reencryption {
        return f.write_str("error\n");
    }
    let start = segment.offset / SECTOR;
    match segment.kind {
        WideKind::Linear | WideKind::HwOpal(_) => writeln!(f, "linear DEVICE {start}"),
        WideKind::Crypt(encryption) | WideKind::HwOpalCrypt(_, encryption) => {
            list_crypt(&encryption, key, start, f)
        }
    }
}

fn list_crypt<W: fmt::Write>(
    encryption: &Encryption<'_>,
    key: Option<u8>,
    start: u64,
    f: &mut fmt::Formatter<W>,
) -> fmt::Result
    ensures { WritesOnOk W.write_str_gives f.old result (crypt_text key start encryption.now) f.new }
{
    let cipher = Escaped(encryption.cipher.as_bytes());
    let key = KeyWord(key);
    let tweak = encryption.iv_tweak;
    write!(f, "crypt {cipher} {key} {tweak} DEVICE {start}")?;
    list_sector_size(encryption.sector_size, f)
}

/// Lists the size of the sectors that are encrypted each by itself, where it is another than that of the table's.
fn list_sector_size<W: fmt::Write>(size: u16, f: &mut fmt::Formatter<W>) -> fmt::Result
    ensures { WritesOnOk W.write_str_gives f.old result (sector_size_text size) f.new }
{
    if size == 512 {
        return f.write_str("\n");
    }
    writeln!(f, " 1 sector_size:{size}")
}

/// What stands for the key of this digest.
#[derive(Clone, Copy)]
struct KeyWord(Option<u8>);

impl fmt::Display for KeyWord {
    ghost output = { λ key. Some (key_word key.0) };

    fn fmt<W: fmt::Write>(&self, f: &mut fmt::Formatter<W>) -> fmt::Result {
        match self.0 {
            Some(digest) => write!(f, "KEY-{digest}"),
            None => f.write_str("KEY"),
        }
    }
}
