ghost use Rattle.std.specs.Prelude.{◌≤◌, length};

use crate::system::{Kind, System};
use crate::watch::Watch;
use std::cell::Cell;
use std::fs::{File, Metadata, OpenFile, Permissions};
use std::io::{self, ErrorKind, Seek, SeekFrom};
use std::os::unix::fs::{FileExt, PermissionsExt};

/// That a file's owner alone may read and write it.
const OWNERS: u32 = 0o600;

/// A file that gets its length with the first write that changes it, and is as it was till then. It tells that
/// length from the start.
#[derive(Drop)]
pub struct FittedFile {
    file: File,
    /// The length that it is still to get.
    length: Cell<Option<u64>>,
    /// Whether its first write gives it that length, though it changes no byte.
    is_exact: bool,
    /// The source whose target it is, until a byte of it was changed.
    watch: Cell<Option<Watch>>,
}

impl FittedFile {
    ghost use Rattle.std.specs.Prelude.{◌≡◌, ◌↔◌, false, IfOk, IsSomeAnd, None};
    ghost use Rattle.luks_guarded_files.specs.Kinds.{HoldsSomething};

    /// The file of a backup of this length, whose lock is held: a regular file that gets the length, or a
    /// block device, which keeps its own. None where it holds something, and may not be written over.
    pub fn of_backup<S: System>(
        system: &mut S,
        file: File,
        length: u64,
        over: bool,
    ) -> io::Result<Option<Self>>
        ensures answers { S.answers system.new ≡ S.answers system.old }
        ensures kept { IfOk result (λ fitted. (fitted ≡ None)
            ↔ ((over ≡ false) × IsSomeAnd (S.found system.new) HoldsSomething)) }
    {
        let found = system.fstat(&file)?;
        if !over && found.holds_something() {
            return Ok(None);
        }
        if found.kind == Kind::Regular {
            return Ok(Some(FittedFile::with_length(file, length)));
        }
        Ok(Some(FittedFile::new(file)))
    }

    /// The file of a key of this length, whose lock is held: a regular file, which its owner alone may read from
    /// now on, and which has exactly the key's bytes once they are written, though they stood there before.
    /// None as of a backup; an error where it isn't regular.
    pub fn of_key<S: System>(
        system: &mut S,
        file: File,
        length: u64,
        over: bool,
        is_made: bool,
    ) -> io::Result<Option<Self>>
        ensures answers { S.answers system.new ≡ S.answers system.old }
        ensures kept { IfOk result (λ fitted. (fitted ≡ None)
            ↔ ((over ≡ false) × IsSomeAnd (S.found system.new) HoldsSomething)) }
    {
        let Some(mut fitted) = FittedFile::of_backup(system, file, length, over)? else {
            return Ok(None);
        };
        if fitted.length.get().is_none() {
            return Err(io::Error::from(ErrorKind::InvalidInput));
        }
        if !is_made {
            fitted.file.set_permissions(Permissions::from_mode(OWNERS))?;
        }
        fitted.is_exact = true;
        Ok(Some(fitted))
    }

    /// A file that keeps its length.
    pub fn new(file: File) -> Self {
        FittedFile {
            file,
            length: Cell::new(None),
            is_exact: false,
            watch: Cell::new(None),
        }
    }

    /// A regular file that gets this length.
    pub fn with_length(file: File, length: u64) -> Self {
        FittedFile {
            file,
            length: Cell::new(Some(length)),
            is_exact: false,
            watch: Cell::new(None),
        }
    }

    /// This file as a target: the first write that changes a byte fails if the file turns out to be its source.
    pub fn watching(self, watch: Watch) -> Self {
        self.watch.set(Some(watch));
        self
    }

    /// Zeros for what lies behind the file's end and before the length that it is still to get; how many.
    fn zeros(&self, buf: &mut [u8], offset: u64) -> usize
        ensures { result ≤ length buf.old }
    {
        let left = self.length.get().unwrap_or(0).saturating_sub(offset);
        let count = buf.len().min(usize::try_from(left).unwrap_or(usize::MAX));
        buf[..count].fill(0);
        count
    }

    fn fit(&self) -> io::Result<()> {
        if let Some(length) = self.length.get() {
            self.file.set_len(length)?;
            self.length.set(None);
        }
        Ok(())
    }
}

impl Seek for FittedFile {
    fn seek(&mut self, to: SeekFrom) -> io::Result<u64> {
        match (self.length.get(), to) {
            (Some(length), SeekFrom::End(0)) => Ok(length),
            _ => self.file.seek(to),
        }
    }
}

impl FileExt for FittedFile {
    fn read_at(&self, buf: &mut [u8], offset: u64) -> io::Result<usize> {
        match self.file.read_at(buf, offset)? {
            0 => Ok(self.zeros(buf, offset)),
            count => Ok(count),
        }
    }

    fn write_at(&self, buf: &[u8], offset: u64) -> io::Result<usize> {
        if let Some(watch) = self.watch.replace(None) {
            let count = watch.write(&self.file, buf, offset)?;
            if watch.is_over() || self.is_exact {
                self.fit()?;
            }
            if !watch.is_over() {
                self.watch.set(Some(watch));
            }
            return Ok(count);
        }
        self.fit()?;
        self.file.write_at(buf, offset)
    }
}

impl OpenFile for FittedFile {
    fn metadata(&self) -> io::Result<Metadata> {
        self.file.metadata()
    }

    fn set_len(&self, size: u64) -> io::Result<()> {
        self.file.set_len(size)
    }

    fn sync_all(&self) -> io::Result<()> {
        self.file.sync_all()
    }

    fn sync_data(&self) -> io::Result<()> {
        self.file.sync_data()
    }
}
