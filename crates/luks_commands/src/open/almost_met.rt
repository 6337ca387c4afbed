//! What is said of a passphrase that opened nothing: that a digest is damaged, or what of its file's end was
//! taken.

use luks_notes::note_tried_passphrase;
use luks_reading::Nearest;
use std::io::Write;

/// In how many bits a digest differs at most that is damaged. Chance gives no wrong passphrase so few:
/// a digest has 160 bits or more.
const FEW_BITS: u32 = 8;

/// Says of a passphrase that opened nothing what its reader may not know: that a digest is damaged, or
/// else that it is empty, or ends in what nobody types.
pub(crate) fn note_unopened<E: Write>(nearest: Option<Nearest>, passphrase: &[u8], err: &mut E) {
    match nearest {
        Some(near) if near.bits <= FEW_BITS => note_almost_met(near, err),
        _ => {
            let _ = note_tried_passphrase(passphrase, err);
        }
    }
}

/// Says that a keyslot would open except for a few bits of its digest.
fn note_almost_met<E: Write>(near: Nearest, err: &mut E) {
    let Nearest { slot, bits } = near;
    let unit = if bits == 1 { "bit" } else { "bits" };
    let _ = writeln!(
        err,
        "luks: keyslot {slot} is almost met: its digest differs in {bits} {unit}, so the passphrase is right and the digest is damaged"
    );
}
