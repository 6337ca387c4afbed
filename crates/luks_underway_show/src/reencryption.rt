//! The line of the keyslot that says what is under way.

ghost use Rattle.std.specs.Prelude.{◌≡◌, Some};
ghost use Rattle.std.specs.Fmt.{WritesOnOk};
ghost use Rattle.luks_underway_show.specs.KeyslotLines.{direction_text, mode_text};
ghost use Rattle.luks_underway_show.specs.RecordLines.{checksum_text, kept_words, mode_words, reencryption_text, resilience_text, shift_text};
ghost use Rattle.luks_underway_show.specs.Shown.{digest_shown};

use luks_show::Escaped;
use luks_underway::{Checksum, Direction, Mode, ReencryptArea, Reencryption, Resilience};
use std::fmt;

/// What is done with the data.
pub fn mode_name(mode: Mode) -> &'static str
    ensures { result.now ≡ mode_text mode }
{
    match mode {
        Mode::Reencrypt => "reencrypt",
        Mode::Encrypt => "encrypt",
        Mode::Decrypt => "decrypt",
    }
}

/// Where it begins.
pub fn direction_name(direction: Direction) -> &'static str
    ensures { result.now ≡ direction_text direction }
{
    match direction {
        Direction::Forward => "forward",
        Direction::Backward => "backward",
    }
}

/// The keyslot of this number that says what is under way, and the digest that names it; it prints as its line.
#[derive(Clone, Copy)]
pub(crate) struct ReencryptionLine<'a>(
    pub(crate) u8,
    pub(crate) Reencryption<'a>,
    pub(crate) Option<u8>,
);

impl fmt::Display for ReencryptionLine<'_> {
    ghost output = { λ l. Some (reencryption_text l.0 l.1 l.2) };

    fn fmt<W: fmt::Write>(&self, f: &mut fmt::Formatter<W>) -> fmt::Result {
        let members = self.1;
        list_mode(self.0, &members, f)?;
        list_area(&members.area, self.2, f)
    }
}

fn list_mode<W: fmt::Write>(
    n: u8,
    members: &Reencryption<'_>,
    f: &mut fmt::Formatter<W>,
) -> fmt::Result
    ensures { WritesOnOk W.write_str_gives f.old result (mode_words n members.now) f.new }
{
    let mode = mode_name(members.mode);
    let direction = direction_name(members.direction);
    write!(f, "keyslot {n} reencrypt {mode} {direction}")
}

fn list_area<W: fmt::Write>(
    area: &ReencryptArea<'_>,
    digest: Option<u8>,
    f: &mut fmt::Formatter<W>,
) -> fmt::Result
    ensures { WritesOnOk W.write_str_gives f.old result (kept_words area.now digest) f.new }
{
    let offset = area.offset;
    let size = area.size;
    let resilience = ResilienceText(area.resilience);
    let digest = DigestText(digest);
    writeln!(f, " area {offset} {size} {resilience} digest {digest}")
}

/// A digest, or a hyphen.
#[derive(Clone, Copy)]
struct DigestText(Option<u8>);

impl fmt::Display for DigestText {
    ghost output = { λ digest. Some (digest_shown digest.0) };

    fn fmt<W: fmt::Write>(&self, f: &mut fmt::Formatter<W>) -> fmt::Result {
        match self.0 {
            Some(digest) => write!(f, "{digest}"),
            None => f.write_str("-"),
        }
    }
}

/// What mends it: the type of the area, then the hash and the unit of checksums, then the number of bytes by which
/// the data moves.
#[derive(Clone, Copy)]
struct ResilienceText<'a>(Resilience<'a>);

impl fmt::Display for ResilienceText<'_> {
    ghost output = { λ resilience. Some (resilience_text resilience.0) };

    fn fmt<W: fmt::Write>(&self, f: &mut fmt::Formatter<W>) -> fmt::Result {
        match self.0 {
            Resilience::Nothing => f.write_str("none"),
            Resilience::Journal => f.write_str("journal"),
            Resilience::Checksum(sums) => {
                let sums = ChecksumText(sums);
                write!(f, "checksum{sums}")
            }
            Resilience::Datashift(shift) => {
                let shift = ShiftText(shift);
                write!(f, "datashift{shift}")
            }
            Resilience::DatashiftJournal(shift) => {
                let shift = ShiftText(shift);
                write!(f, "datashift-journal{shift}")
            }
            Resilience::DatashiftChecksum(sums, shift) => {
                let sums = ChecksumText(sums);
                let shift = ShiftText(shift);
                write!(f, "datashift-checksum{sums}{shift}")
            }
        }
    }
}

/// How checksums are taken.
#[derive(Clone, Copy)]
struct ChecksumText<'a>(Checksum<'a>);

impl fmt::Display for ChecksumText<'_> {
    ghost output = { λ sums. Some (checksum_text sums.0) };

    fn fmt<W: fmt::Write>(&self, f: &mut fmt::Formatter<W>) -> fmt::Result {
        let hash = Escaped(self.0.hash.as_bytes());
        let unit = self.0.sector_size;
        write!(f, " {hash} {unit}")
    }
}

/// The number of bytes by which the data moves.
#[derive(Clone, Copy)]
struct ShiftText(u64);

impl fmt::Display for ShiftText {
    ghost output = { λ shift. Some (shift_text shift.0) };

    fn fmt<W: fmt::Write>(&self, f: &mut fmt::Formatter<W>) -> fmt::Result {
        let shift = self.0;
        write!(f, " {shift}")
    }
}
