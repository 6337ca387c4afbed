//! What standard error says of what was found.

use luks_commands::{Answer, Refusal};
use luks_reading::{CheckFault, MetaFault};
use std::io::Write;

/// Says what to do next with the volume that begins at this byte of the file, of which `check` answers
/// so; `luks1` says whether what is there is a LUKS1 header, whatever its magic.
pub(crate) fn note_next<E: Write>(
    verdict: &Answer,
    luks1: bool,
    name: &str,
    offset: u128,
    err: &mut E,
) {
    if let Answer::Accepted { .. } = verdict {
        let _ = writeln!(err, "luks: luks open {name} --offset {offset} ..");
        let _ = writeln!(err, "luks: losetup --find --show --offset {offset} {name}");
    } else if luks1 {
        let _ = writeln!(
            err,
            "luks: what is left of a LUKS1 header: luks rebuild {name} TARGET --offset {offset} .."
        );
    } else if has_other_type(verdict) {
        let _ = writeln!(
            err,
            "luks: luks show {name} --offset {offset} .., if a reencryption is under way"
        );
    } else {
        let _ = writeln!(
            err,
            "luks: luks rebuild {name} TARGET --offset {offset} .., if its metadata is whole"
        );
    }
}

/// Whether `check` refuses the volume by the type of an object, as where something is under way in it.
fn has_other_type(verdict: &Answer) -> bool {
    match verdict {
        Answer::Refused(Refusal::Check(fault)) => is_of_type(fault),
        _ => false,
    }
}

/// Whether the fault is the type of an object of the metadata.
fn is_of_type(fault: &CheckFault) -> bool {
    match fault {
        CheckFault::Meta(fault) => matches!(fault, MetaFault::Kind(_)),
        _ => false,
    }
}

/// Says how many were found.
pub(crate) fn note_found<E: Write>(found: u64, err: &mut E) {
    let _ = writeln!(err, "luks: {found} found");
}

/// Says of the file of this name that reading it failed.
pub(crate) fn note_fault<E: Write>(name: &str, err: &mut E) {
    let _ = writeln!(err, "luks: {name}: reading failed");
}

/// Says that not all could be read of the volume that begins at this byte of the file.
pub(crate) fn note_unread<E: Write>(name: &str, offset: u128, err: &mut E) {
    let _ = writeln!(
        err,
        "luks: {name}: not all of the header at byte {offset} can be read"
    );
}
