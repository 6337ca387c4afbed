//! Which keyslots were passed over where none opens, and why.
ghost use Rattle.std.specs.Prelude.{◌<◌};
ghost use Rattle.luks_reading.specs.Header.{IsAcceptedHeader};

use crate::telling::note_refused;
use luks_reading::{Allowed, Header, OpenFault, refused_slot};
use std::io::Write;

/// Says which keyslots of a volume of `total` bytes were passed over and why, after the passphrase
/// opened none.
///
/// The reason is that of the keyslot's own refusal where so much is allowed, with what would let it be
/// tried. One of priority 0 is passed over whatever it says, and one that isn't
/// there or isn't in use isn't spoken of.
pub fn note_passed_over<E: Write>(header: &Header, total: u64, allowed: Allowed, err: &mut E)
    requires { IsAcceptedHeader header.now }
{
    for n in 0..32 {
        if is_unasked(header, n) {
            let _ = writeln!(err, "luks: keyslot {n} was passed over: priority 0");
            continue;
        }
        match refused_slot(header, n, total, allowed) {
            None | Some(OpenFault::NoSuchSlot | OpenFault::SlotFree) => {}
            Some(fault) => {
                let _ = writeln!(err, "luks: keyslot {n} was passed over: {fault}");
                note_refused(header, n, total, allowed, err);
            }
        }
    }
}

/// Whether the keyslot `n` is tried only where it is named.
pub(crate) fn is_unasked(header: &Header, n: u8) -> bool
    requires { n < 32 }
{
    match header {
        Header::Luks1(_) => false,
        Header::Luks2(copy) => copy
            .meta
            .keyslot(n)
            .is_some_and(|keyslot| keyslot.priority == Some(0)),
    }
}
