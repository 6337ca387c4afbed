ghost use Rattle.std.specs.Prelude.{◌≡◌, ◌≢◌};
ghost use Rattle.luks_guarded_files.specs.Locked.{IsOfName};
ghost use Rattle.luks_guarded_files.specs.declared.names.Named.TheVariants as named;

use crate::node::Node;
use crate::system::{Access, Answer, Kind, Share, System};
use std::alloc::Global;
use std::fs::File;
use std::io::{self, ErrorKind};

/// What became of the lock on the file that stands for a block device.
#[derive(Drop)]
pub enum Named {
    /// None is needed: the volume is a regular file.
    Unneeded,
    /// It is held by this file.
    Held(File),
    /// Another open of the file holds it, or the file has just been removed or made by another
    /// program. It may be had by another try.
    Taken,
    /// The file can't be made, opened or locked.
    Unheld,
}

/// Asks once for the lock on the file that stands for a block device in `folder`, L_MAJOR:MINOR, as
/// cryptsetup does: the folder is made with mode 0700 and the file with mode 0600 where they are
/// missing, and neither may be a symbolic link.
///
/// cryptsetup removes the file when it lets go, and a lock on a removed file is worth nothing: so the
/// name is looked up again, and where it is no longer this file, the lock isn't held.
pub fn hold_name<S: System>(
    alloc: Global,
    system: &mut S,
    folder: &str,
    node: Node,
    share: Share,
) -> Named
    ensures needed { result ≢ named.Unneeded }
    ensures answered { IsOfName share (S.answers system.old).last (S.answers system.new) result }
{
    let Ok(path) = format!(in alloc; "{folder}/{node}") else {
        return Named::Unheld;
    };
    if !is_folder(system, folder) {
        return Named::Unheld;
    }
    match open_name(system, path.as_str()) {
        Ok(file) => hold_file(system, file, path.as_str(), share),
        Err(ErrorKind::NotFound | ErrorKind::AlreadyExists) => Named::Taken,
        Err(_) => Named::Unheld,
    }
}

/// Asks once for the lock on this file, and looks then whether the name is still its.
fn hold_file<S: System>(system: &mut S, file: File, path: &str, share: Share) -> Named
    ensures needed { result ≢ named.Unneeded }
    ensures answered { IsOfName share (S.answers system.old).last (S.answers system.new) result }
{
    match system.flock(&file, share) {
        Answer::Held if is_at(system, &file, path) => Named::Held(file),
        Answer::Held | Answer::Taken => Named::Taken,
        Answer::Unknown => Named::Unheld,
    }
}

/// Whether the folder is there; it is made where it is missing.
fn is_folder<S: System>(system: &mut S, folder: &str) -> bool
    ensures { S.answers system.new ≡ S.answers system.old }
{
    system.mkdir(folder);
    match system.lstat(folder) {
        Ok(found) => found.kind == Kind::Folder,
        Err(_) => false,
    }
}

/// Opens the file of this name, or makes it. What isn't a regular file is refused, a symbolic link
/// too.
fn open_name<S: System>(system: &mut S, path: &str) -> Result<File, ErrorKind>
    ensures { S.answers system.new ≡ S.answers system.old }
{
    let access = match system.lstat(path) {
        Ok(found) if found.kind == Kind::Regular => Access::Write,
        Ok(_) => return Err(ErrorKind::InvalidInput),
        Err(error) if error.kind() == ErrorKind::NotFound => Access::Make,
        Err(error) => return Err(error.kind()),
    };
    system.open(path, access).map_err(|error| error.kind())
}

/// Whether the name is that of this file still.
fn is_at<S: System>(system: &mut S, file: &File, path: &str) -> bool
    ensures { S.answers system.new ≡ S.answers system.old }
{
    match same_file(system, file, path) {
        Ok(same) => same,
        Err(_) => false,
    }
}

fn same_file<S: System>(system: &mut S, file: &File, path: &str) -> io::Result<bool>
    ensures { S.answers system.new ≡ S.answers system.old }
{
    let held = system.fstat(file)?;
    let named = system.lstat(path)?;
    Ok(held.is_of_one_file(&named))
}
