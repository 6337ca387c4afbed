//! What standard error says of the keyslots before a backup is restored.
ghost use Rattle.std.specs.Prelude.{◌≡◌, ◌+◌, ◌<◌, ◌^◌, OnOk};
ghost use Rattle.std.specs.Io.KnownBytes.{Appends};
ghost use Rattle.luks_keeping_commands.specs.Differences.{difference_lines};
ghost use Rattle.luks_area.specs.Device.{CountsFailure, IsUnchanged, is_failure};

use crate::differences::Differences;
use luks_area::DeviceFault;
use luks_keeping::{Comparison, Keeping, Outline, compare, read_outline};
use luks_reading::{CheckFault, Data, Device};
use std::alloc::Global;
use std::io::{self, Write};

/// Says how many keyslots the backup has, and where an accepted header is on the volume too, how
/// many of that the backup lacks, how many it alone has, and which these are, by their salts.
pub(crate) fn note_keyslots<E: Write>(
    backup: &Outline,
    volume: Option<Outline>,
    backup_name: &str,
    volume_name: &str,
    err: &mut E,
) {
    let count = counted(&compare(backup, backup).keyslots, Keeping::Same);
    let plural = if count == 1 { "" } else { "s" };
    let _ = writeln!(
        err,
        "luks: {backup_name}: the backup has {count} keyslot{plural}"
    );
    if let Some(there) = volume {
        note_differences(&compare(backup, &there), volume_name, err);
    }
}

/// The outline of the device's header, if that is accepted as a detached one and memory for it isn't refused.
pub(crate) fn outline_there<D: Device>(
    alloc: Global,
    device: &mut D,
) -> Result<Option<Outline>, DeviceFault>
    requires { D.failed device.old + 1 < 2 ^ 64 }
    ensures unchanged { IsUnchanged D.tells D.size D.bytes D.unsettled device.old device.new }
    ensures count { CountsFailure is_failure result (D.failed device.old) (D.failed device.new) }
{
    match read_outline(alloc, device, Data::Elsewhere) {
        Ok(found) => Ok(Some(found)),
        Err(CheckFault::Device) => Err(DeviceFault),
        Err(_) => Ok(None),
    }
}

/// Says how many keyslots of the volume the backup lacks, and how many it alone has, of a keyslot that
/// was made anew since both; and which these are.
fn note_differences<E: Write>(comparison: &Comparison, volume_name: &str, err: &mut E) {
    let older = counted(&comparison.keyslots, Keeping::Older);
    let lacking = older.saturating_add(counted(&comparison.keyslots, Keeping::Missing));
    let alone = older.saturating_add(counted(&comparison.keyslots, Keeping::Removed));
    let _ = writeln!(
        err,
        "luks: {volume_name}: the backup lacks {lacking} of its keyslots, and alone has {alone}"
    );
    let _ = note_each(comparison, volume_name, err);
}

/// Says which keyslots come and go.
fn note_each<E: Write>(comparison: &Comparison, volume_name: &str, err: &mut E) -> io::Result<()>
    ensures { OnOk result (Appends (E.contents err.old) (E.contents err.new)
        (difference_lines volume_name.now 0 comparison.now.keyslots)) }
{
    let differences = Differences {
        volume: volume_name,
        keyslots: comparison.keyslots,
    };
    write!(err, "{differences}")
}

/// How many of these keyslots stand so.
fn counted(keyslots: &[Keeping], keeping: Keeping) -> usize {
    keyslots.iter().filter(|it| **it == keeping).count()
}
