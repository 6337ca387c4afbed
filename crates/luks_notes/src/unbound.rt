//! That a keyslot that opens gives the key of no segment.
ghost use Rattle.std.specs.Prelude.{◌≡◌, ◌↔◌, IsOk, IsTrue, OnOk};
ghost use Rattle.std.specs.Io.KnownBytes.{Appends};
ghost use Rattle.luks_meta.specs.Content.{content};
ghost use Rattle.luks_notes.specs.Unbound.{IsUnbound, IsUnboundIn, unbound_line};

use luks_meta::Meta;
use luks_reading::Header;
use std::io::{self, Write};

/// Says of the keyslot `n`, which a passphrase has opened, if no segment has its key.
pub fn note_unbound<E: Write>(header: &Header, n: u8, err: &mut E) -> io::Result<()>
    ensures said { IsUnbound header.now n → OnOk result
        (Appends (E.contents err.old) (E.contents err.new) (unbound_line n)) }
    ensures unsaid { (IsUnbound header.now n → ⊥) → (err.new ≡ err.old) × IsOk result }
{
    if is_unbound(header, n) {
        return writeln!(
            err,
            "luks: keyslot {n}: its key is of no segment, so that it opens no data"
        );
    }
    Ok(())
}

/// Whether the digest that names the keyslot `n` names no segment. Each keyslot of LUKS1 has the key of its data.
pub fn is_unbound(header: &Header, n: u8) -> bool
    ensures { IsTrue result ↔ IsUnbound header.now n }
{
    match header {
        Header::Luks1(_) => false,
        Header::Luks2(copy) => is_unbound_in(&copy.meta, n),
    }
}

fn is_unbound_in(meta: &Meta, n: u8) -> bool
    ensures { IsTrue result ↔ IsUnboundIn (content meta.now) n }
{
    let Some(number) = meta.digest_of_keyslot(n) else {
        return false;
    };
    match meta.digest(number) {
        Some(digest) => digest.segments.is_empty(),
        None => false,
    }
}
