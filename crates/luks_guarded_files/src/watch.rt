//! A target that turns out to be its source, by a name of which the system tells nothing.
ghost use Rattle.std.specs.Prelude.{◌≤◌, IfOk, length};
ghost use Rattle.std.specs.Io.{WritesAtMost};

use std::alloc::{AllocError, Global};
use std::cell::Cell;
use std::fs::File;
use std::io::{self, ErrorKind};
use std::os::unix::fs::FileExt;
use std::rc::Rc;

/// How many bytes of the target are written at most before its source is looked at once more.
const PIECE: usize = 512;

/// How many bytes of the source's beginning are compared.
const HEAD: usize = 32768;

/// The beginning of a source, as it was before its target was written.
#[derive(Drop)]
pub struct Watch {
    source: File,
    /// The place in its file where it begins.
    at: u64,
    seen: Vec<u8>,
    is_over: Cell<bool>,
    is_source: Rc<Cell<bool>>,
}

impl Watch {
    /// That of the source which begins at this place of its file. `is_source` becomes true where the
    /// target turns out to be it. Bytes that can't be read, as of a failing disk, count as zeros.
    pub fn new(
        alloc: Global,
        source: File,
        at: u64,
        is_source: Rc<Cell<bool>>,
    ) -> Result<Self, AllocError> {
        let mut seen = vec![in alloc; 0u8; HEAD]?;
        let mut place = at;
        for piece in seen.chunks_mut(PIECE) {
            read_piece(&source, piece, place);
            place = place.saturating_add(PIECE as u64);
        }
        Ok(Watch {
            source,
            at,
            seen,
            is_over: Cell::new(false),
            is_source,
        })
    }

    /// Writes the first 512 bytes of these at most to the target, and answers how many. If that changes
    /// a byte of it, the source is read again; and where that has changed, the target is its source: these
    /// bytes are put back, and the write fails.
    pub(crate) fn write(&self, target: &File, from: &[u8], at: u64) -> io::Result<usize>
        ensures { WritesAtMost result from.now }
    {
        let piece = &from[..from.len().min(PIECE)];
        let mut room = [0; PIECE];
        let count = read_front(target, &mut room[..piece.len()], at).unwrap_or(0);
        let before = &room[..count];
        if *before == *piece {
            target.write_all_at(piece, at)?;
            return Ok(piece.len());
        }
        self.is_over.set(true);
        let beside = self.beside(at);
        target.write_all_at(piece, at)?;
        target.sync_all()?;
        if self.is_as_seen() && self.beside(at) == beside {
            return Ok(piece.len());
        }
        self.is_source.set(true);
        target.write_all_at(before, at)?;
        target.sync_all()?;
        Err(io::Error::from(ErrorKind::InvalidInput))
    }

    /// Whether a byte of the target was changed, and the source didn't change with it: nothing more is to be
    /// looked for.
    pub(crate) fn is_over(&self) -> bool {
        self.is_over.get()
    }

    /// The bytes of the source at a place of its own.
    fn beside(&self, at: u64) -> [u8; PIECE] {
        let mut bytes = [0; PIECE];
        read_piece(&self.source, &mut bytes, self.at.saturating_add(at));
        bytes
    }

    /// Whether the source begins as it did.
    fn is_as_seen(&self) -> bool {
        let mut at = 0;
        for piece in self.seen.chunks(PIECE) {
            if self.beside(at).as_slice() != piece {
                return false;
            }
            at = at.saturating_add(PIECE as u64);
        }
        true
    }
}

/// Reads the bytes of the file from the place on, with zeros where it ends or can't be read.
fn read_piece(file: &File, into: &mut [u8], at: u64) {
    if read_front(file, into, at).is_err() {
        into.fill(0);
    }
}

/// Reads the bytes of the file from the place on, as many as there is room for; answers how many there are.
fn read_front(file: &File, into: &mut [u8], at: u64) -> io::Result<usize>
    ensures { IfOk result (λ count. count ≤ length into.old) }
{
    let mut len = 0;
    while len < into.len() {
        match file.read_at(&mut into[len..], at.saturating_add(len as u64)) {
            Ok(0) => return Ok(len),
            Ok(count) => len += count,
            Err(error) => return Err(error),
        }
    }
    Ok(len)
}
