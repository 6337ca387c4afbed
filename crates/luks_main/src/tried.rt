//! What `rebuild` tries, and how far it is.
use crate::written_over::WrittenOver;
use luks_execution::{Command, DerivationProgress, Line, Progress, SearchProgress, Tally};
use luks_files::{ERROR, is_terminal};
use luks2_header::Luks1Common;
use std::fs::File;
use std::rt::{Clock, Files};

/// The clock is read once for so many compositions.
const TURN: u64 = 64;

/// What `rebuild` tries, on standard error where that is a terminal: a line for each combination that a passphrase is
/// tried with; and of a search for what checksums vouch for how many compositions were tried, or of one by a passphrase
/// how many derivations were made, in one line that is written over. How many derivations that may take, and how
/// long, is said on any standard error.
#[derive(Drop)]
pub(crate) struct TriedLines<'a, R> {
    rt: &'a R,
    /// Whether what a search may take is said.
    told: bool,
    /// Whether the lines are written.
    wanted: bool,
    /// The line of a search.
    over: WrittenOver<'a, R>,
    /// How many compositions it has.
    all: u64,
    /// How many of them were tried.
    tried: u64,
}

impl<'a, R: Clock + Files<File = File> + Eprint> TriedLines<'a, R> {
    /// The lines of this command line; none of another command's, or where they aren't wanted.
    pub(crate) fn new(rt: &'a R, line: &Line<'_>, quiet: bool) -> Self {
        let told = !quiet && is_rebuild(line);
        TriedLines {
            rt,
            told,
            wanted: told && is_terminal(rt, ERROR),
            over: WrittenOver::new(rt),
            all: 0,
            tried: 0,
        }
    }
}

impl<R: Clock + Eprint> TriedLines<'_, R> {
    /// Takes the line of a search away.
    pub(crate) fn clear(&mut self) {
        self.over.clear();
    }
}

/// Whether the command is `rebuild`.
fn is_rebuild(line: &Line<'_>) -> bool {
    match line.command {
        Command::Rebuild(_) => true,
        _ => false,
    }
}

impl<R: Clock + Eprint> Progress for TriedLines<'_, R> {
    fn tries(&mut self, fields: &Luks1Common) {
        if !self.wanted {
            return;
        }
        let (name, mode) = (fields.cipher_name.as_str(), fields.cipher_mode.as_str());
        let (hash, len) = (fields.hash_spec.as_str(), fields.key_bytes);
        let _ = eprintln!(self.rt; "luks: trying {name} {mode}, {hash}, {len} bytes");
    }
}

impl<R: Clock + Eprint> SearchProgress for TriedLines<'_, R> {
    fn seeks(&mut self, differing: usize) {
        self.over.begin(self.wanted);
        self.all = if differing < 64 {
            1 << differing
        } else {
            u64::MAX
        };
        self.tried = 0;
    }

    fn tried(&mut self) {
        self.tried = self.tried.saturating_add(1);
        if self.tried % TURN != 0 {
            return;
        }
        let Some(elapsed) = self.over.due() else {
            return;
        };
        let (tried, all) = (self.tried, self.all);
        let rate = u128::from(tried) * 1000 / elapsed.max(1);
        let _ = eprint!(self.rt; "\rluks: {tried} of {all} compositions, {rate} a second    ");
        self.over.set_written(elapsed);
    }
}

impl<R: Clock + Eprint> DerivationProgress for TriedLines<'_, R> {
    fn counts(&mut self, tally: &Tally) {
        match tally.done() {
            1 => self.tell_most(tally.most()),
            2 => self.tell_time(tally.most()),
            done => self.tell_done(done, tally.most()),
        }
    }
}

impl<R: Clock + Eprint> TriedLines<'_, R> {
    /// Says how many derivations a search may make, before the first.
    fn tell_most(&mut self, most: u32) {
        self.over.begin(self.told);
        if self.told {
            let _ = eprintln!(self.rt;
                "luks: at most {most} derivations are made by the passphrase: Ctrl-C ends it, and nothing is written then"
            );
        }
    }

    /// Says how long that may take, by the first.
    fn tell_time(&mut self, most: u32) {
        let Some(sample) = self.over.elapsed() else {
            return;
        };
        let seconds = sample.saturating_mul(u128::from(most)) / 1000;
        if seconds < 120 {
            let _ = eprintln!(self.rt;
                "luks: the first took {sample} ms, so all take some {seconds} s"
            );
        } else {
            let minutes = seconds / 60;
            let _ = eprintln!(self.rt;
                "luks: the first took {sample} ms, so all take some {minutes} minutes"
            );
        }
    }

    /// Says how many were made, where that is wanted.
    fn tell_done(&mut self, done: u32, most: u32) {
        if !self.wanted {
            return;
        }
        let Some(elapsed) = self.over.due() else {
            return;
        };
        let _ = eprint!(self.rt; "\rluks: {done} of {most} derivations    ");
        self.over.set_written(elapsed);
    }
}
