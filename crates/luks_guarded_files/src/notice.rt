use std::fmt;

/// What a person is to know of a lock that isn't held, though the command goes on.
#[derive(Clone, Copy, PartialEq, Eq)]
pub enum Notice {
    /// Another program holds it; of a command that only reads.
    Edited,
    /// The file system knows no locks.
    NoLock,
    /// The file that cryptsetup locks for the block device can't be made or opened.
    NoName,
}

impl fmt::Display for Notice {
    ghost use Rattle.std.specs.Prelude.{Some};
    ghost use Rattle.luks_guarded_files.specs.Notices.{notice_text};

    ghost output = { λ notice. Some (notice_text notice) };

    fn fmt<W: fmt::Write>(&self, f: &mut fmt::Formatter<W>) -> fmt::Result {
        f.write_str(match *self {
            Notice::Edited => {
                "another program is editing it, so the answer may be of an unfinished edit"
            }
            Notice::NoLock => "no lock is held, since its file system knows none",
            Notice::NoName => "no lock is held in /run/cryptsetup, so cryptsetup isn't kept out",
        })
    }
}
