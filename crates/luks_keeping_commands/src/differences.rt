//! The keyslots of a volume that restoring a backup would change, as standard error has them.
ghost use Rattle.std.specs.Fmt.{WritesOnOk};
ghost use Rattle.luks_keeping_commands.specs.Differences.{difference_line, difference_lines};

use luks_keeping::Keeping;
use std::fmt;

/// How the keyslots of a backup stand to those of the volume of this name. It prints as a line for each that
/// isn't the same in both, the lowest number first, in the words of the command `compare`.
#[derive(Clone, Copy)]
pub(crate) struct Differences<'a> {
    /// The volume's name.
    pub(crate) volume: &'a str,
    /// How each keyslot stands, by its number.
    pub(crate) keyslots: [Keeping; 32],
}

impl fmt::Display for Differences<'_> {
    ghost use Rattle.std.specs.Prelude.{Some};
    ghost use Rattle.luks_keeping_commands.specs.Differences.{difference_lines};

    ghost output = { λ d. Some (difference_lines d.volume.now 0 d.keyslots) };

    fn fmt<W: fmt::Write>(&self, f: &mut fmt::Formatter<W>) -> fmt::Result {
        write_differences(self.volume, &self.keyslots, f)
    }
}

/// A line for each of these keyslots that isn't the same in both. They are numbered from 0 on.
fn write_differences<W: fmt::Write>(
    volume: &str,
    keyslots: &[Keeping],
    f: &mut fmt::Formatter<W>,
) -> fmt::Result
    ensures { WritesOnOk W.write_str_gives f.old result
        (difference_lines volume.now 0 keyslots.now) f.new }
{
    for (n, keeping) in keyslots.iter().enumerate() {
        write_difference(volume, n, *keeping, f)?;
    }
    Ok(())
}

/// The line of the keyslot `n`, where it isn't the same in both.
fn write_difference<W: fmt::Write>(
    volume: &str,
    n: usize,
    keeping: Keeping,
    f: &mut fmt::Formatter<W>,
) -> fmt::Result
    ensures { WritesOnOk W.write_str_gives f.old result
        (difference_line volume.now n keeping) f.new }
{
    match keeping {
        Keeping::Absent | Keeping::Same => Ok(()),
        Keeping::Older => writeln!(f, "luks: {volume}: keyslot {n} older"),
        Keeping::Missing => writeln!(f, "luks: {volume}: keyslot {n} missing"),
        Keeping::Removed => writeln!(f, "luks: {volume}: keyslot {n} removed"),
        Keeping::Damaged => writeln!(f, "luks: {volume}: keyslot {n} damaged"),
    }
}
