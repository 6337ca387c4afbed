//! The file of a key or a token.

use crate::target::{Shape, Source, Target};
use crate::volume::Volume;
use luks_commands::InputFault;
use luks_guarded_files::Found;
use luks_keeping_commands::MakesFile;
use luks_request::{Command, Line};
use std::cell::Cell;
use std::fs::File;
use std::rc::Rc;
use std::rt::{Clock, Files};

/// The file of the key or the token of a command line, which is opened, or made, once its bytes are there.
#[derive(Drop)]
pub struct KeptFile<'a, R> {
    rt: &'a R,
    line: &'a Line<'a>,
    /// What is noted as it is opened.
    pub notes: Vec<u8>,
    /// What it is, where it was made; the command takes it away where its bytes aren't written.
    pub made: Option<Found>,
    /// Whether it has turned out to be the volume, as of any target.
    pub is_source: Option<Rc<Cell<bool>>>,
}

impl<'a, R: AllocGlobal> KeptFile<'a, R> {
    /// That of this line. None is made for another command than `key` and `token export`.
    pub fn of(rt: &'a R, line: &'a Line<'a>) -> Self {
        KeptFile {
            rt,
            line,
            notes: Vec::new(rt.alloc()),
            made: None,
            is_source: None,
        }
    }
}

/// The name of the file that the line keeps a key or a token in, and as what it is opened for so many bytes.
fn kept_by<'a>(line: &Line<'a>, length: u64) -> Option<(&'a str, Shape)> {
    match line.command {
        Command::KeepKey(keeping) => {
            let over = keeping.over;
            Some((keeping.target, Shape::Key { length, over }))
        }
        Command::KeepToken(keeping) => {
            let over = keeping.over;
            Some((keeping.target, Shape::Fitted { length, over }))
        }
        _ => None,
    }
}

impl<R: AllocGlobal + Clock + Files<File = File>> MakesFile<Volume> for KeptFile<'_, R> {
    fn make(&mut self, length: u64) -> Result<Volume, InputFault> {
        let Some((name, shape)) = kept_by(self.line, length) else {
            return Err(InputFault::Absent);
        };
        let source = Source {
            name: self.line.volume,
            at: self.line.place.offset,
        };
        let Target {
            volume,
            made,
            is_source,
        } = Target::open(self.rt, source, name, shape, &mut self.notes);
        self.made = made;
        self.is_source = is_source;
        volume
    }
}
