//! The keyslots that a rescued backup costs.
ghost use Rattle.std.specs.Prelude.{◌≡◌};
ghost use Rattle.std.specs.Fmt.{WritesOnOk};
ghost use Rattle.luks_keeping.specs.LostTexts.{lost_lines, lost_state};

use crate::comparison::{Keeping, write_keyslot};
use std::fmt;

/// The keyslots whose key areas couldn't be read in full, so that the backup has zeros in them. It prints as
/// the command `backup` prints it: a line for each, the lowest number first, and that the backup was rescued.
#[derive(Clone, Copy, Drop)]
pub struct LostKeyslots {
    /// Whether it is so of each keyslot, by its number.
    pub keyslots: [bool; 32],
}

impl fmt::Display for LostKeyslots {
    ghost use Rattle.std.specs.Prelude.{Some};
    ghost use Rattle.luks_keeping.specs.LostTexts.{rescued_text};

    ghost output = { λ lost. Some (rescued_text lost) };

    fn fmt<W: fmt::Write>(&self, f: &mut fmt::Formatter<W>) -> fmt::Result {
        write_lost(&self.keyslots, f)?;
        writeln!(f, "rescued")
    }
}

/// A line for each of these keyslots that is lost; they are numbered from 0 on.
fn write_lost<W: fmt::Write>(keyslots: &[bool], f: &mut fmt::Formatter<W>) -> fmt::Result
    ensures { WritesOnOk W.write_str_gives f.old result (lost_lines 0 keyslots.now) f.new }
{
    for (n, is_lost) in keyslots.iter().enumerate() {
        write_keyslot(n, state_of(*is_lost), f)?;
    }
    Ok(())
}

/// How the keyslot stands to that of the volume, as far as anything is said of it.
fn state_of(is_lost: bool) -> Keeping
    ensures { result ≡ lost_state is_lost }
{
    if is_lost {
        Keeping::Damaged
    } else {
        Keeping::Absent
    }
}
