//! The lines on a keyslot that was refused, or that was refused memory.
ghost use Rattle.luks_reading.specs.Header.{IsAcceptedHeader};

use crate::memory::memory_note;
use crate::older_keyslot::older_note;
use crate::passed_over::is_unasked;
use luks_reading::{Allowed, Header};
use std::io::Write;

/// Says of the keyslot `n` of a volume of `total` bytes, which was refused where so much is allowed, what
/// would have to be: so much memory, ciphers and hashes of older disks, or both.
pub fn note_refused<E: Write>(header: &Header, n: u8, total: u64, allowed: Allowed, err: &mut E)
    requires { IsAcceptedHeader header.now }
{
    if let Some(note) = memory_note(header, n, total, allowed) {
        let _ = note.say_refused(err);
    }
    if let Some(note) = older_note(header, n, total, allowed) {
        let _ = note.say(err);
    }
}

/// Says of the keyslot `n` how much memory it asked for, where so much is allowed.
pub fn note_wanting<E: Write>(header: &Header, n: u8, total: u64, allowed: Allowed, err: &mut E)
    requires { IsAcceptedHeader header.now }
{
    if let Some(note) = memory_note(header, n, total, allowed) {
        let _ = note.say_wanting(err);
    }
}

/// Notes how much memory each keyslot wants that is tried.
pub fn note_all_wanting<E: Write>(header: &Header, total: u64, allowed: Allowed, err: &mut E)
    requires { IsAcceptedHeader header.now }
{
    for n in 0..32 {
        if !is_unasked(header, n) {
            note_wanting(header, n, total, allowed, err);
        }
    }
}
