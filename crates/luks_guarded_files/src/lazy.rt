ghost use Rattle.std.specs.Prelude.{◌≡◌, None, IsSome, OnOk};
ghost use Rattle.std.specs.Io.{ReadsAtMost};
ghost use Rattle.std.specs.Io.KnownBytes.{ReadConsumes};
ghost use Rattle.luks_guarded_files.specs.Lazy.{file_name, opened_file};

use std::fs::File;
use std::io::{self, Read};
use std::rt::Files;

/// A file that is opened when it is first read, and stays open then. Opening a pipe waits for its
/// writer, so a command that ends before it reads the file doesn't wait, and finds no fault in it.
///
/// If it can't be opened, the read answers that error, and the next read tries again. It tells no
/// bytes, as no file does.
#[derive(Drop)]
pub struct LazyFile<'a, R: Files> {
    rt: &'a R,
    path: &'a str,
    file: Option<R::File>,
}

impl<'a, R: Files> LazyFile<'a, R> {
    /// The file of this name, to be read from its beginning. It isn't looked at yet.
    pub fn new(rt: &'a R, path: &'a str) -> Self
        ensures opened { opened_file result ≡ None }
        ensures name { file_name result ≡ path.entry.now }
    {
        LazyFile {
            rt,
            path,
            file: None,
        }
    }
}

impl<R: Files> Read for LazyFile<'_, R> {
    fn read(&mut self, buf: &mut [u8]) -> io::Result<usize>
        ensures bound { ReadsAtMost result buf.new }
        ensures bytes { ReadConsumes None None result buf.new }
        ensures opened { OnOk result (IsSome (opened_file self.new)) }
        ensures name { file_name self.new ≡ file_name self.old }
    {
        let file = match self.file.take() {
            Some(file) => file,
            None => File::open(self.rt, self.path)?,
        };
        self.file.insert(file).read(buf)
    }
}
