ghost use Rattle.std.specs.Prelude.{◌≡◌, ◌≢◌};
ghost use Rattle.std.specs.IoError.{error_kind};
ghost use Rattle.luks_commands.specs.Files.{IsFaultOf};

use std::io::ErrorKind;
use std::{fmt, io};

/// Why a file can't be opened or read, where the system tells a reason that helps.
#[derive(Clone, Copy)]
pub enum Reason {
    /// There is none of this name.
    NotFound,
    /// The user may not read it, or not write it.
    Denied,
    /// It is a folder.
    Folder,
    /// A device that something else holds for itself alone.
    Busy,
    /// A volume is neither a regular file nor a block device.
    NoVolume,
    /// A volume that is to be written, whose lock another program holds.
    Edited,
    /// What is to be written beside the volume, or compared with it, is the volume itself: neither
    /// was opened.
    SameFile,
    /// What a backup is to be written to is there and isn't empty: neither was opened.
    Exists,
    /// What is to be written is the file of standard output or standard error: what is printed would
    /// land in it.
    Stream,
    /// Anything else, as a disk's failure.
    Other,
}

impl fmt::Display for Reason {
    fn fmt<W: fmt::Write>(&self, f: &mut fmt::Formatter<W>) -> fmt::Result {
        f.write_str(match *self {
            Reason::NotFound => "no such file",
            Reason::Denied => "permission denied",
            Reason::Folder => "is a folder",
            Reason::Busy => "is in use",
            Reason::NoVolume => "neither a regular file nor a block device",
            Reason::Edited => "another program is editing it",
            Reason::SameFile => "is the volume itself",
            Reason::Exists => "is there and isn't empty",
            Reason::Stream => "what is printed goes there, so nothing else is written to it",
            Reason::Other => "can't be opened or read",
        })
    }
}

/// Why a file that a command may need can't be read.
#[derive(Clone, Copy)]
pub enum InputFault {
    /// The command line names none.
    Absent,
    /// It isn't there, or can't be opened or read.
    Unreadable(Reason),
    /// Memory was refused while it was opened or read.
    NoMemory,
}

impl From<io::Error> for InputFault {
    ghost from_gives = { λ error fault. IsFaultOf (error_kind error) fault };

    fn from(error: io::Error) -> InputFault {
        match error.kind() {
            ErrorKind::OutOfMemory => InputFault::NoMemory,
            ErrorKind::NotFound => InputFault::Unreadable(Reason::NotFound),
            ErrorKind::PermissionDenied => InputFault::Unreadable(Reason::Denied),
            ErrorKind::IsADirectory => InputFault::Unreadable(Reason::Folder),
            ErrorKind::ResourceBusy => InputFault::Unreadable(Reason::Busy),
            _ => InputFault::Unreadable(Reason::Other),
        }
    }
}

/// The files of a command line: the volume's device and the readers of the others.
#[derive(Drop)]
pub struct Inputs<D, R, N> {
    /// The volume.
    pub volume: Result<D, InputFault>,
    /// The device beside the volume: what a header or a backup is written to, or the backup that is put
    /// back or compared.
    pub target: Result<D, InputFault>,
    /// The passphrase: all bytes that this reader gives, a last newline too.
    pub passphrase: Result<R, InputFault>,
    /// The new passphrase, likewise.
    pub new_passphrase: Result<R, InputFault>,
    /// The random bytes, of which no more are read than the command needs.
    pub random: Result<N, InputFault>,
}
