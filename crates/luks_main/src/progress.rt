//! How far a search of a disk is, what it passes over, and which volumes have one uuid.
use crate::written_over::WrittenOver;
use luks_files::{ERROR, is_terminal};
use luks_find_command::{Progress, SameUuid, Unread};
use std::fs::File;
use std::io::Write;
use std::rt::{Clock, Files};

/// The length in bytes from which on a disk's progress is shown.
const LONG: u64 = 1 << 30;

/// How far a search is and how fast, in one line of standard error that is written over: where that is a
/// terminal, and the disk has more than 1 GiB. What is passed over is said always, by a line of its own;
/// which volumes have one uuid is held where it isn't wanted.
#[derive(Drop)]
pub(crate) struct ProgressLine<'a, R> {
    rt: &'a R,
    /// The disk's name.
    name: &'a str,
    /// The line of the search.
    over: WrittenOver<'a, R>,
    /// What is held of volumes with one uuid; nothing where that is said at once.
    held: Option<Vec<u8>>,
}

impl<'a, R: Clock + Files<File = File> + Eprint> ProgressLine<'a, R> {
    /// The line of a search that begins now, of the disk of this name; it is never written where what is
    /// noted is to be held.
    pub(crate) fn new(rt: &'a R, name: &'a str, held: Option<Vec<u8>>) -> Self {
        let mut over = WrittenOver::new(rt);
        over.begin(held.is_none() && is_terminal(rt, ERROR));
        ProgressLine {
            rt,
            name,
            over,
            held,
        }
    }

    /// What was held.
    pub(crate) fn held(&self) -> &[u8] {
        match &self.held {
            Some(held) => held.as_slice(),
            None => &[],
        }
    }
}

impl<R: Clock + Files<File = File> + Eprint> Progress for ProgressLine<'_, R> {
    ghost use Rattle.std.specs.Prelude.{None};

    ghost heard = { λ _. None };

    ghost paired = { λ _. None };

    fn looked(&mut self, at: u64, total: u64) {
        if total <= LONG {
            return;
        }
        if at >= total {
            self.clear();
            return;
        }
        let Some(elapsed) = self.over.due() else {
            return;
        };
        let (done, all) = (at >> 20, total >> 20);
        let rate = u128::from(at) / elapsed.max(1) / 1000;
        let _ = eprint!(self.rt; "\rluks: {done} of {all} MiB, {rate} MB/s    ");
        self.over.set_written(elapsed);
    }

    fn clear(&mut self) {
        self.over.clear();
    }

    fn pass(&mut self, unread: Unread) {
        self.clear();
        let _ = eprintln!(self.rt; "luks: {}: {unread}", self.name);
    }

    fn pair(&mut self, pair: SameUuid) {
        match &mut self.held {
            Some(held) => {
                let _ = writeln!(held, "luks: {}: {pair}", self.name);
            }
            None => {
                let _ = eprintln!(self.rt; "luks: {}: {pair}", self.name);
            }
        }
    }
}
