//! A passphrase that is typed.
use luks_guarded_files::Node;
use std::fs::{self, File};
use std::os::unix::fs::{FileTypeExt, MetadataExt};
use std::rt::Files;

/// Says how a passphrase on standard input is typed, where that is a terminal: there it is shown, and
/// a newline ends it where its line is taken, and is else a part of it.
pub(crate) fn tell_typing<R: Files<File = File> + Eprint>(rt: &R, line: bool) {
    if is_terminal(rt, INPUT) {
        let keys = if line {
            "press Enter"
        } else {
            "press Ctrl-D twice"
        };
        let _ = eprintln!(rt;
            "luks: type it and {keys}; it is shown: systemd-ask-password -n | luks .. hides it"
        );
    }
}

/// The name of standard input's file.
const INPUT: &str = "/proc/self/fd/0";

/// The name of standard error's.
pub const ERROR: &str = "/proc/self/fd/2";

/// Whether the stream of this name is a terminal, by the number of its device (Linux, "Linux allocated devices"):
/// consoles and serial lines, the terminal of a process, pseudoterminals. If /proc isn't mounted it
/// isn't known to be one.
pub fn is_terminal<R: Files<File = File>>(rt: &R, name: &str) -> bool {
    match fs::metadata(rt, name) {
        Ok(found) => {
            found.file_type().is_char_device()
                && matches!(Node::of(found.rdev()).major, 4 | 5 | 136..=143)
        }
        Err(_) => false,
    }
}
