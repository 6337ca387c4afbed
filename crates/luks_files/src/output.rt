//! Files that are never written, since what the program prints goes there.
use luks_commands::{InputFault, Reason};
use luks_guarded_files::{Host, is_same_file};
use std::fs::File;
use std::io::Write;
use std::rt::{Clock, Files};

/// The names of the files of standard output and standard error.
const STREAMS: [&str; 2] = ["/proc/self/fd/1", "/proc/self/fd/2"];

/// Why nothing is written to the file of this name: it is standard output or standard error, or their
/// word, `-`, of which a note tells how a file of that name is named. What is printed would land in it.
pub(crate) fn refused_name<R: Clock + Files<File = File>>(
    rt: &R,
    name: &str,
    notes: &mut Vec<u8>,
) -> Option<InputFault> {
    if name == "-" {
        let _ = writeln!(
            notes,
            "luks: -: nothing is written to standard output; a file of this name is ./-"
        );
        return Some(InputFault::Unreadable(Reason::NoVolume));
    }
    is_stream(rt, name).then_some(InputFault::Unreadable(Reason::Stream))
}

/// Whether what is printed goes to the file of this name.
fn is_stream<R: Clock + Files<File = File>>(rt: &R, name: &str) -> bool {
    STREAMS
        .iter()
        .any(|stream| is_same_file(&mut Host::new(rt), name, stream))
}
