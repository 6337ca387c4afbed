//! What the commands on header backups say and answer where something is under way in the metadata.
ghost use Rattle.std.specs.Prelude.{◌≡◌, ℕ, List, OnOk};
ghost use Rattle.std.specs.Io.KnownBytes.{Appends};
ghost use Rattle.luks_commands.specs.declared.answers.Answer.TheVariants.{Refused as IsRefused};
ghost use Rattle.luks_commands.specs.declared.answers.Refusal.TheVariants.{Underway as ByUnderway};
ghost use Rattle.luks_commands.specs.declared.underway_refusal.UnderwayRefusal.TheVariants.{Metadata as ByMetadata};
ghost use Rattle.luks_keeping_commands.specs.UnderwayTexts.{IsMomentSaid, moment_line};
ghost use Rattle.luks_commands.specs.Answer.{restore_fault_answer};
ghost use Rattle.luks_keeping.specs.RestoreFaults.{checked_restore};
ghost use Rattle.luks_wider.specs.Underways.{content};

use luks_commands::{Answer, Refusal, UnderwayRefusal};
use luks_keeping::RestoreFault;
use luks_reading::CheckFault;
use luks_wide_reading::{Underway, WideFault};
use std::io::{self, Write};

/// What is answered where the metadata breaks a rule of what is under way.
pub(crate) fn underway_answer(fault: WideFault) -> Answer
    ensures { result ≡ IsRefused (ByUnderway (ByMetadata fault)) }
{
    Answer::Refused(Refusal::Underway(UnderwayRefusal::Metadata(fault)))
}

/// What is answered where `check` refuses a backup by this fault, and nothing is under way in its metadata.
pub(crate) fn refused_backup(fault: CheckFault) -> Answer
    ensures { result ≡ restore_fault_answer (checked_restore fault) }
{
    Answer::from(RestoreFault::from(fault))
}

/// Says of a reencryption that the backup of the volume of this name is of one moment.
pub(crate) fn note_moment<E: Write>(meta: &Underway, volume: &str, err: &mut E) -> io::Result<()>
    ensures { OnOk result ((text : List ℕ) × IsMomentSaid (content meta.now) volume.now text
        × Appends (E.contents err.old) (E.contents err.new) text) }
{
    let Some(slot) = meta.reencryption() else {
        return Ok(());
    };
    say_moment(volume, err)
}

fn say_moment<E: Write>(volume: &str, err: &mut E) -> io::Result<()>
    ensures { OnOk result
        (Appends (E.contents err.old) (E.contents err.new) (moment_line volume.now)) }
{
    writeln!(
        err,
        "luks: {volume}: a reencryption is under way: the backup is of this moment, and once that went on, restoring it destroys data"
    )
}
