ghost use Rattle.std.specs.Prelude.{◌≡◌, ◌<◌, IfSome, length};
ghost use Rattle.luks_guarded_files.specs.Hosts.{answers_of};
ghost use Rattle.luks_guarded_files.specs.System.{no_answers};

use crate::system::{Access, Answer, Answers, Found, Share, System};
use std::fs::{self, DirBuilder, File, Metadata, OpenOptions, TryLockError};
use std::io::{self, Read};
use std::os::unix::fs::{DirBuilderExt, MetadataExt, OpenOptionsExt};
use std::rt::{Clock, Files};
use std::thread;
use std::time::Duration;

/// The system that a program runs on, by its runtime.
#[derive(Drop)]
pub struct Host<'a, R> {
    rt: &'a R,
    answers: Answers,
    found: Option<Found>,
}

impl<'a, R> Host<'a, R> {
    /// The system behind this runtime, of which no lock was asked for yet.
    pub fn new(rt: &'a R) -> Self
        ensures { answers_of result ≡ no_answers }
    {
        Host {
            rt,
            answers: Answers::NONE,
            found: None,
        }
    }
}

/// Reads all that there is into the buffer, and answers how many bytes that are: fewer than it holds.
fn read_whole<F: Read>(file: &mut F, into: &mut [u8]) -> Option<usize>
    ensures { IfSome result (λ len. len < length into.old) }
{
    let mut len = 0;
    while len < into.len() {
        match file.read(&mut into[len..]) {
            Ok(0) => return Some(len),
            Ok(count) => len += count,
            Err(_) => return None,
        }
    }
    None
}

impl<R> Host<'_, R> {
    ghost use Rattle.std.specs.Prelude.{None, Some, IfErr, IfOk};
    ghost use Rattle.std.specs.Fs.{metadata_len, metadata_mode};
    ghost use Rattle.luks_guarded_files.specs.Hosts.{found_of};
    ghost use Rattle.luks_guarded_files.specs.Kinds.{IsOfMode};

    /// What the system has told of a file, which is noted.
    fn told(&mut self, metadata: io::Result<Metadata>) -> io::Result<Found>
        ensures answers { answers_of self.new ≡ answers_of self.old }
        ensures found { IfOk result (λ f. found_of self.new ≡ Some f) }
        ensures unfound { IfErr result (λ _. found_of self.new ≡ None) }
        ensures kind { IfOk metadata (λ m. IfOk result (λ f. IsOfMode (metadata_mode m) f.kind)) }
        ensures len { IfOk metadata (λ m. IfOk result (λ f. f.len ≡ metadata_len m)) }
    {
        self.found = None;
        let found = Found::of(&metadata?);
        self.found = Some(found);
        Ok(found)
    }
}

impl<R: Clock + Files<File = File>> System for Host<'_, R> {
    ghost answers = { λ host. host.answers };

    ghost found = { λ host. host.found };

    fn stat(&mut self, path: &str) -> io::Result<Found> {
        let metadata = fs::metadata(self.rt, path);
        self.told(metadata)
    }

    fn lstat(&mut self, path: &str) -> io::Result<Found> {
        let metadata = fs::symlink_metadata(self.rt, path);
        self.told(metadata)
    }

    fn fstat(&mut self, file: &File) -> io::Result<Found> {
        self.told(file.metadata())
    }

    fn open(&mut self, path: &str, access: Access) -> io::Result<File> {
        let mut options = OpenOptions::new();
        let options = options.read(true).write(access != Access::Read);
        let options = options.create_new(access == Access::Make).mode(0o600);
        options.open(self.rt, path)
    }

    fn mkdir(&mut self, path: &str) {
        let _made = DirBuilder::new().mode(0o700).create(self.rt, path);
    }

    fn first_byte(&mut self, path: &str) -> Option<u8> {
        let mut file = File::open(self.rt, path).ok()?;
        let mut byte = [0];
        match file.read(&mut byte) {
            Ok(1) => Some(byte[0]),
            _ => None,
        }
    }

    fn text(&mut self, path: &str, into: &mut [u8]) -> Option<usize> {
        let mut file = File::open(self.rt, path).ok()?;
        read_whole(&mut file, into)
    }

    fn names(&mut self, path: &str, into: &mut [u8]) -> Option<usize> {
        let mut folder = self.rt.open_dir(path).ok()?;
        read_whole(&mut folder, into)
    }

    fn caller(&mut self) -> Option<u32> {
        Some(fs::metadata(self.rt, "/proc/self").ok()?.uid())
    }

    fn flock(&mut self, file: &File, share: Share) -> Answer {
        let answered = match share {
            Share::Shared => file.try_lock_shared(),
            Share::Exclusive => file.try_lock(),
        };
        let answer = match answered {
            Ok(()) => Answer::Held,
            Err(TryLockError::WouldBlock) => Answer::Taken,
            Err(TryLockError::Error(_)) => Answer::Unknown,
        };
        self.answers.add(share, answer);
        answer
    }

    fn fsync(&mut self, file: &File) -> io::Result<()> {
        file.sync_all()
    }

    fn sleep(&mut self, milliseconds: u64) {
        thread::sleep(self.rt, Duration::from_millis(milliseconds));
    }
}
