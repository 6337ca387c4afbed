//! A disk in memory, and where volumes begin on it.
use crate::bad_disk::BadDisk;
use luks_area::{FaultyDevice, Leave, MemDevice};
use luks_commands::CountingPrinter;
use luks_find_command::{Progress, SameUuid, Unread, Untold, find, fragments};
use luks_finding::all_starts;
use luks_request::Place;
use luks_vector_lines::{Functions, Malformed, Words, demand, shown};
use std::alloc::Global;
use std::io::Write;
use std::str;

/// What `find` passes over, and which volumes have one uuid, each behind a semicolon.
#[derive(Drop)]
struct Passes {
    text: Vec<u8>,
}

impl Progress for Passes {
    ghost use Rattle.std.specs.Prelude.{None};

    ghost heard = { λ _. None };

    ghost paired = { λ _. None };

    fn looked(&mut self, _at: u64, _total: u64) {}

    fn clear(&mut self) {}

    fn pass(&mut self, unread: Unread) {
        let _ = write!(self.text, "; {unread}");
    }

    fn pair(&mut self, pair: SameUuid) {
        let _ = write!(self.text, "; {pair}");
    }
}

/// The disk that lines make.
#[derive(Drop)]
pub struct Disk {
    bytes: Vec<u8>,
    /// From where up to where it can't be read.
    bad: Vec<(u64, u64)>,
}

impl Disk {
    /// A disk of no bytes.
    pub fn new(alloc: Global) -> Disk {
        Disk {
            bytes: Vec::new(alloc),
            bad: Vec::new(alloc),
        }
    }

    /// `disk LEN`: it has so many zeros.
    fn clear(&mut self, alloc: Global, words: &mut Words<'_>) -> Result<(), Malformed> {
        self.bytes = vec![in alloc; 0u8; words.len()?]?;
        self.bad = Vec::new(alloc);
        Ok(())
    }

    /// `bad FROM TO`: the bytes from one place up to the other can't be read.
    fn spoil(&mut self, words: &mut Words<'_>) -> Result<(), Malformed> {
        let from = words.number()?;
        let to = words.number()?;
        match self.bad.push((from, to)) {
            Ok(()) => Ok(()),
            Err(_) => Err(Malformed::Memory),
        }
    }

    /// `find`: the status of `luks find`, its lines, what it passes over and which volumes have one uuid.
    fn find(&self, alloc: Global) -> Result<String, Malformed> {
        let mut volume = Ok(BadDisk::new(self.bytes.clone()?, self.bad.clone()?));
        let mut out = CountingPrinter::new(Vec::new(alloc));
        let mut err = Vec::new(alloc);
        let mut passes = Passes {
            text: Vec::new(alloc),
        };
        let place = Place {
            offset: 0,
            length: None,
        };
        let status = find::run(
            alloc,
            &mut volume,
            "disk",
            place,
            &mut out,
            &mut err,
            &mut passes,
        );
        let mut text = told(alloc, status, out.writer.as_slice())?;
        text.push_str(str::from_utf8(passes.text.as_slice()).unwrap_or("no text"))?;
        Ok(text)
    }

    /// `fragments OFFSET`: the status of `luks find --fragments`, and its lines, where the disk begins at that byte of
    /// its file; `objects OFFSET`: the same with `--json`.
    fn fragments(
        &self,
        alloc: Global,
        as_json: bool,
        words: &mut Words<'_>,
    ) -> Result<String, Malformed> {
        let place = Place {
            offset: words.number()?,
            length: None,
        };
        let mut volume = Ok(BadDisk::new(self.bytes.clone()?, self.bad.clone()?));
        let mut out = CountingPrinter::new(Vec::new(alloc));
        let mut err = Vec::new(alloc);
        let status = fragments::run(
            alloc,
            &mut volume,
            "disk",
            place,
            as_json,
            &mut out,
            &mut err,
            &mut Untold,
        );
        told(alloc, status, out.writer.as_slice())
    }

    /// `put AT BYTES`: these bytes stand there.
    fn put(&mut self, alloc: Global, words: &mut Words<'_>) -> Result<(), Malformed> {
        let at = words.len()?;
        let bytes = words.bytes(alloc)?;
        demand(at <= self.bytes.len() && bytes.len() <= self.bytes.len() - at)?;
        luks_test_devices::put(&mut self.bytes, at, &bytes);
        Ok(())
    }

    /// `starts [CALL]`: all starts, in bytes; the device call of this number fails, counted from 0.
    fn starts(&self, alloc: Global, words: &mut Words<'_>) -> Result<String, Malformed> {
        let call = if words.is_empty() {
            u64::MAX
        } else {
            words.number()?
        };
        let behind = MemDevice::new(self.bytes.clone()?);
        let mut device = FaultyDevice::new(behind, call, Leave::Old);
        shown(alloc, all_starts(alloc, &mut device))
    }
}

/// The exit status, and the lines, each behind a semicolon.
fn told(alloc: Global, status: u8, printed: &[u8]) -> Result<String, Malformed> {
    let mut text = format!(in alloc; "{status}")?;
    let lines = str::from_utf8(printed).unwrap_or("no text");
    for line in lines.lines() {
        text.push_str("; ")?;
        text.push_str(line)?;
    }
    Ok(text)
}

impl Functions for Disk {
    fn answer(
        &mut self,
        alloc: Global,
        function: &str,
        words: &mut Words<'_>,
    ) -> Result<Option<String>, Malformed> {
        match function {
            "disk" => self.clear(alloc, words)?,
            "put" => self.put(alloc, words)?,
            "bad" => self.spoil(words)?,
            "find" => return Ok(Some(self.find(alloc)?)),
            "fragments" => return Ok(Some(self.fragments(alloc, false, words)?)),
            "objects" => return Ok(Some(self.fragments(alloc, true, words)?)),
            "starts" => return Ok(Some(self.starts(alloc, words)?)),
            _ => return Err(Malformed::Function),
        }
        Ok(None)
    }
}
