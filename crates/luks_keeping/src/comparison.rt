//! How a backup stands to a volume.
ghost use Rattle.std.specs.Prelude.{◌≡◌, ◌↔◌, IsTrue};
ghost use Rattle.std.specs.Fmt.{WritesOnOk};
ghost use Rattle.luks_keeping.specs.ComparisonTexts.{are_alike, is_alike, keyslot_line, keyslot_lines, state_text};

use std::fmt;

/// How a keyslot of a backup stands to that of a volume with the same number: by their salts, of which
/// each keyslot gets a new one when it is made, and by their key areas where these are read.
#[derive(Clone, Copy, PartialEq, Eq)]
pub enum Keeping {
    /// Neither has it.
    Absent,
    /// Both have it, with one salt.
    Same,
    /// Both have it, with two salts: one was made anew since.
    Older,
    /// The volume alone has it: restoring the backup would take it away.
    Missing,
    /// The backup alone has it: restoring the backup would bring it back.
    Removed,
    /// Both have it, with one salt, and key areas that differ: one of the two is damaged, and its passphrase
    /// opens the other alone.
    Damaged,
}

/// How a backup stands to a volume. It prints as the command `compare` prints it: whether the backup is
/// current, and a line for each keyslot of either, the lowest number first.
#[derive(Clone, Copy, Drop)]
pub struct Comparison {
    /// Whether a digest of the backup's volume key is one of the volume's, with the same salt.
    pub same_key: bool,
    /// How each keyslot stands, by its number.
    pub keyslots: [Keeping; 32],
}

impl Comparison {
    ghost use Rattle.luks_keeping.specs.ComparisonTexts.{is_current, IsCurrent};

    /// Whether restoring the backup would change no keyslot.
    pub fn is_current(&self) -> bool
        ensures told { result ≡ is_current self.now }
        ensures each { IsTrue result ↔ IsCurrent self.now }
    {
        let keyslots = self.keyslots;
        are_all_alike(&keyslots)
    }
}

impl fmt::Display for Comparison {
    ghost use Rattle.std.specs.Prelude.{Some};
    ghost use Rattle.luks_keeping.specs.ComparisonTexts.{comparison_text};

    ghost output = { λ c. Some (comparison_text c) };

    fn fmt<W: fmt::Write>(&self, f: &mut fmt::Formatter<W>) -> fmt::Result {
        let state = state_name(self.is_current());
        writeln!(f, "{state}")?;
        write_keyslots(&self.keyslots, f)
    }
}

/// What is said of a backup that is current, or isn't.
fn state_name(current: bool) -> &'static str
    ensures { result.now ≡ state_text current }
{
    if current { "current" } else { "outdated" }
}

/// Whether each of these keyslots is the same in both, or in neither.
fn are_all_alike(keyslots: &[Keeping]) -> bool
    ensures { result ≡ are_alike keyslots.now }
{
    for keeping in keyslots {
        if !stands_alike(*keeping) {
            return false;
        }
    }
    true
}

fn stands_alike(keeping: Keeping) -> bool
    ensures { result ≡ is_alike keeping }
{
    match keeping {
        Keeping::Absent | Keeping::Same => true,
        Keeping::Older | Keeping::Missing | Keeping::Removed | Keeping::Damaged => false,
    }
}

/// A line for each of these keyslots, which are numbered from 0 on.
fn write_keyslots<W: fmt::Write>(keyslots: &[Keeping], f: &mut fmt::Formatter<W>) -> fmt::Result
    ensures { WritesOnOk W.write_str_gives f.old result (keyslot_lines 0 keyslots.now) f.new }
{
    for (n, keeping) in keyslots.iter().enumerate() {
        write_keyslot(n, *keeping, f)?;
    }
    Ok(())
}

/// The line of the keyslot `n`, where either has it.
pub(crate) fn write_keyslot<W: fmt::Write>(
    n: usize,
    keeping: Keeping,
    f: &mut fmt::Formatter<W>,
) -> fmt::Result
    ensures { WritesOnOk W.write_str_gives f.old result (keyslot_line n keeping) f.new }
{
    match keeping {
        Keeping::Absent => Ok(()),
        Keeping::Same => writeln!(f, "keyslot {n} same"),
        Keeping::Older => writeln!(f, "keyslot {n} older"),
        Keeping::Missing => writeln!(f, "keyslot {n} missing"),
        Keeping::Removed => writeln!(f, "keyslot {n} removed"),
        Keeping::Damaged => writeln!(f, "keyslot {n} damaged"),
    }
}
