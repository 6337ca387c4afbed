//! The subjects of the lines, and which of them a line is of.
use crate::disk::Disk;
use crate::luks1_headers::DamagedLuks1;
use crate::luks2_headers::DamagedLuks2;
use luks_vector_lines::{Functions, Malformed, Words};
use std::alloc::Global;

/// What a line is of.
#[derive(Clone, Copy)]
enum Subject {
    Luks2,
    Luks1,
    Disk,
}

/// The subjects, each as the lines before have left it.
#[derive(Drop)]
pub struct Subjects {
    luks2: DamagedLuks2,
    luks1: DamagedLuks1,
    disk: Disk,
    /// That of the next lines.
    now: Subject,
}

impl Subjects {
    /// Volumes and a disk of no bytes.
    pub fn new(alloc: Global) -> Subjects {
        Subjects {
            luks2: DamagedLuks2::new(alloc),
            luks1: DamagedLuks1::new(alloc),
            disk: Disk::new(alloc),
            now: Subject::Luks2,
        }
    }

    /// `on SUBJECT`: the next lines are of this one. `faulty` is the disk, too: lines on what of it can't be
    /// read; and `near1` and `near2` are the volumes: lines on what is found near to what stands.
    fn pick(&mut self, words: &mut Words<'_>) -> Result<(), Malformed> {
        self.now = match words.word()? {
            "luks2" | "near2" => Subject::Luks2,
            "luks1" | "near1" => Subject::Luks1,
            "disk" | "faulty" => Subject::Disk,
            _ => return Err(Malformed::Name),
        };
        Ok(())
    }
}

impl Functions for Subjects {
    fn answer(
        &mut self,
        alloc: Global,
        function: &str,
        words: &mut Words<'_>,
    ) -> Result<Option<String>, Malformed> {
        if function == "on" {
            self.pick(words)?;
            return Ok(None);
        }
        match self.now {
            Subject::Luks2 => self.luks2.answer(alloc, function, words),
            Subject::Luks1 => self.luks1.answer(alloc, function, words),
            Subject::Disk => self.disk.answer(alloc, function, words),
        }
    }
}
