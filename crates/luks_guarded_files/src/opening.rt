ghost use Rattle.std.specs.Prelude.{◌≡◌, ◌≢◌, IfErr, IfOk, IsSomeAnd, IsTrue};
ghost use Rattle.luks_area.specs.Files.{file_failures};
ghost use Rattle.luks_guarded_files.specs.Kinds.{HasBytes, IsNoVolume};
ghost use Rattle.luks_guarded_files.specs.Locked.{IsAnswered, IsHeldByAnother, device_inside, lock_of, share_for};

use crate::fitted::FittedFile;
use crate::locked::{Lock, LockedDevice};
use crate::names::{Named, hold_name};
use crate::node::Node;
use crate::read_only::is_read_only;
use crate::system::{Access, Answer, Kind, Share, System};
use luks_area::FileDevice;
use std::alloc::Global;
use std::fs::File;
use std::io;

/// The folder of cryptsetup's files for block devices.
pub const FOLDER: &str = "/run/cryptsetup";

/// How often a lock is asked for: with the pauses between, for at most 3 s.
const TRIES: u32 = 60;

/// The pause before it is asked for again, in milliseconds.
const PAUSE: u64 = 50;

/// Why a volume isn't opened.
#[derive(Debug, Drop)]
pub enum OpenFault {
    /// It is neither a regular file nor a block device.
    NoVolume,
    /// It is to be written, and another program holds its lock.
    Edited,
    /// It is to be written, and its file system or device is read-only.
    ReadOnly,
    /// Its name is a symbolic link of another user.
    ForeignLink,
    /// Another file has taken its place while it was opened.
    Exchanged,
    /// It can't be opened, or its length can't be told.
    File(io::Error),
}

impl From<io::Error> for OpenFault {
    ghost use Rattle.luks_guarded_files.specs.OpenFaults.{IsOfError};

    ghost from_gives = { IsOfError };

    fn from(error: io::Error) -> OpenFault {
        if error.kind() == io::ErrorKind::ReadOnlyFilesystem {
            return OpenFault::ReadOnly;
        }
        OpenFault::File(error)
    }
}

/// Opens a volume for reading, or for writing too, takes its lock, and measures it then: nothing is
/// known of it from before the lock.
///
/// To write, the lock is exclusive, and where another program holds it for 3 s, nothing is opened; to
/// read, it is shared, and where it can't be had, the device comes without it. A volume that is to be
/// written is asked to settle first what an earlier program may have left unsettled. A block device that
/// is read-only isn't opened to be written, though the system would open it. A file of another kind, as a folder or a pipe, has no length, and isn't opened at all: opening a pipe would wait for
/// its writer. `folder` has the files that stand for block devices.
pub fn open_locked<S: System>(
    alloc: Global,
    system: &mut S,
    path: &str,
    writes: bool,
    folder: &str,
) -> Result<LockedDevice<FileDevice<FittedFile>>, OpenFault>
    ensures alone { IsTrue writes → IfOk result (λ device. IsHeldByAnother (lock_of device) → ⊥) }
    ensures share { IfOk result (λ device. (lock_of device).share ≡ share_for writes) }
    ensures answered { IfOk result (λ device. IsAnswered (lock_of device) (S.answers system.new)) }
    ensures count { IfOk result (λ device. file_failures (device_inside device) ≡ 0) }
    ensures refused { IfErr result (λ fault. fault ≡ OpenFault.NoVolume
        → IsSomeAnd (S.found system.new) IsNoVolume) }
{
    let file = open_file(system, path, writes)?;
    let lock = take_lock(alloc, system, &file, writes, folder)?;
    Ok(LockedDevice::new(FileDevice::new(FittedFile::new(file))?, lock))
}

/// Opens the file of a volume for reading, or for writing too; its lock isn't taken yet. As `open_locked`
/// says, one of another kind isn't opened.
pub fn open_file<S: System>(system: &mut S, path: &str, writes: bool) -> Result<File, OpenFault>
    ensures answers { S.answers system.new ≡ S.answers system.old }
    ensures opened { IfOk result (λ _. IsSomeAnd (S.found system.new) (λ f. HasBytes f.kind)) }
    ensures refused { IfErr result (λ fault. fault ≡ OpenFault.NoVolume
        → IsSomeAnd (S.found system.new) IsNoVolume) }
{
    if !system.stat(path)?.kind.has_bytes() {
        return Err(OpenFault::NoVolume);
    }
    Ok(system.open(path, access_for(writes))?)
}

/// Takes the lock of a volume's file, which is open for reading, or for writing too; what is to be
/// written is settled then. As `open_locked` says of one that it opens.
pub fn take_lock<S: System>(
    alloc: Global,
    system: &mut S,
    file: &File,
    writes: bool,
    folder: &str,
) -> Result<Lock, OpenFault>
    ensures alone { IsTrue writes → IfOk result (λ lock. IsHeldByAnother lock → ⊥) }
    ensures share { IfOk result (λ lock. lock.share ≡ share_for writes) }
    ensures answered { IfOk result (λ lock. IsAnswered lock (S.answers system.new)) }
    ensures refused { IfErr result (λ fault. fault ≢ OpenFault.NoVolume) }
{
    let node = block_node(system, file)?;
    if writes && node.is_some_and(|node| is_read_only(alloc, system, node)) {
        return Err(OpenFault::ReadOnly);
    }
    let lock = hold(alloc, system, file, node, share_of(writes), folder);
    if writes && lock.is_taken() {
        return Err(OpenFault::Edited);
    }
    if writes {
        system.fsync(file)?;
    }
    Ok(lock)
}

/// For what a volume is opened.
fn access_for(writes: bool) -> Access {
    if writes { Access::Write } else { Access::Read }
}

/// How its lock is asked for.
fn share_of(writes: bool) -> Share
    ensures { result ≡ share_for writes }
{
    if writes {
        Share::Exclusive
    } else {
        Share::Shared
    }
}

/// The numbers of a block device; none of a regular file.
fn block_node<S: System>(system: &mut S, file: &File) -> io::Result<Option<Node>> {
    let found = system.fstat(file)?;
    if found.kind == Kind::Block {
        Ok(Some(Node::of(found.device)))
    } else {
        Ok(None)
    }
}

/// Asks for the lock until no other program holds it, for at most 3 s.
fn hold<S: System>(
    alloc: Global,
    system: &mut S,
    file: &File,
    node: Option<Node>,
    share: Share,
    folder: &str,
) -> Lock
    ensures share { result.share ≡ share }
    ensures answered { IsAnswered result (S.answers system.new) }
{
    for _ in 1..TRIES {
        let lock = hold_once(alloc, system, file, node, share, folder);
        if !lock.is_taken() {
            return lock;
        }
        system.sleep(PAUSE);
    }
    hold_once(alloc, system, file, node, share, folder)
}

/// Asks once for the lock of the file or node, and of a block device for that of its name.
fn hold_once<S: System>(
    alloc: Global,
    system: &mut S,
    file: &File,
    node: Option<Node>,
    share: Share,
    folder: &str,
) -> Lock
    ensures share { result.share ≡ share }
    ensures answered { IsAnswered result (S.answers system.new) }
{
    let answer = system.flock(file, share);
    let name = match node {
        Some(node) if answer != Answer::Taken => hold_name(alloc, system, folder, node, share),
        _ => Named::Unneeded,
    };
    Lock {
        share,
        node: answer,
        name,
    }
}
