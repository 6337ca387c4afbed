ghost use Rattle.std.specs.Prelude.{◌≡◌, ◌+◌, ◌<◌, ◌^◌, ◌↔◌, IsOk};

use crate::device::{Device, DeviceFault};
use std::fs::OpenFile;
use std::io::{self, ErrorKind, Seek, SeekFrom};
use std::os::unix::fs::{FileExt, FileTypeExt};

/// A device over an opened file: an image, or a block device such as a disk.
///
/// It tells no bytes, since others may write the file, and counts the calls that fail. The file is
/// read and written at places alone; nothing of it is kept in memory.
#[derive(Drop)]
pub struct FileDevice<F> {
    file: F,
    total: u64,
    failures: u64,
    ghost fits: { total < 2 ^ 64 },
}

impl<F: Seek + OpenFile + Drop> FileDevice<F> {
    ghost use Rattle.std.specs.Prelude.{IfOk, IfSome, length};
    ghost use Rattle.luks_area.specs.Files.{file_failures, file_size};

    /// A device over the whole of `file`. Its length is found once, by seeking to the file's end.
    ///
    /// An error where the file is neither a regular file nor a block device, and so has no length,
    /// or where the system tells none. Writing wants a file that was opened for it.
    pub fn new(file: F) -> io::Result<Self>
        ensures length { IfSome (F.stream_position file) (λ _.
            IfSome (F.stream_bytes file) (λ bytes.
            IfOk result (λ device. file_size device ≡ length bytes))) }
        ensures count { IfOk result (λ device. file_failures device ≡ 0) }
    {
        let kind = file.metadata()?.file_type();
        if !kind.is_file() && !kind.is_block_device() {
            return Err(io::Error::from(ErrorKind::NotSeekable));
        }
        let mut file = file;
        let total = file.seek(SeekFrom::End(0))?;
        Ok(FileDevice {
            file,
            total,
            failures: 0,
        })
    }
}

impl<F> FileDevice<F> {
    ghost use Rattle.luks_area.specs.Device.{CountsFailure, is_failure};
    ghost use Rattle.luks_area.specs.Files.{file_failures, file_size};

    /// Counts a call of the file that failed.
    fn counted(&mut self, outcome: io::Result<()>) -> Result<(), DeviceFault>
        requires { file_failures self.old + 1 < 2 ^ 64 }
        ensures outcome { IsOk result ↔ IsOk outcome }
        ensures count { CountsFailure is_failure result
            (file_failures self.old) (file_failures self.new) }
        ensures size { file_size self.new ≡ file_size self.old }
    {
        match outcome {
            Ok(()) => Ok(()),
            Err(_) => {
                self.failures += 1;
                Err(DeviceFault)
            }
        }
    }
}

impl<F: OpenFile + FileExt + Drop> Device for FileDevice<F> {
    ghost use Rattle.std.specs.Prelude.{[]};
    ghost use Rattle.luks_area.specs.Files.{file_failures, file_size};

    ghost tells = { ⊥ };

    ghost bytes = { λ _. [] };

    ghost unsettled = { λ _ _. ⊥ };

    ghost size = { file_size };

    ghost failed = { file_failures };

    fn len(&self) -> u64 {
        self.total
    }

    fn failures(&self) -> u64 {
        self.failures
    }

    fn read_at(&mut self, at: u64, into: &mut [u8]) -> Result<(), DeviceFault> {
        let outcome = self.file.read_exact_at(into, at);
        self.counted(outcome)
    }

    fn write_at(&mut self, at: u64, from: &[u8]) -> Result<(), DeviceFault> {
        let outcome = self.file.write_all_at(from, at);
        self.counted(outcome)
    }

    fn flush(&mut self) -> Result<(), DeviceFault> {
        let outcome = self.file.sync_all();
        self.counted(outcome)
    }

    ghost sized = { λ d t. absurd t };

    ghost bounded = { λ d. d.fits };
}
