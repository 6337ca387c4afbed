//! The volumes of a command line.
ghost use Rattle.std.specs.Prelude.{◌≡◌, ◌≢◌, ◌↔◌, ◌+◌, ◌^◌, ◌<◌, false, true, Err, Ok, IfOk, IfSome, IsErr, IsOkAnd, IsTrue, None};
ghost use Rattle.luks_guarded_files.specs.Cached.{cached_failures, changes_seen, device_behind};
ghost use Rattle.luks_guarded_files.specs.Locked.{lock_of, share_for};
ghost use Rattle.luks_files.specs.Opened.{beside_of};
ghost use Rattle.luks_window.specs.Windows.{behind};

use crate::openings::{Opening, Openings};
use crate::output::refused_name;
use crate::target::{Shape, Source, Target};
use crate::volume::{Volume, WHOLE, told, volume_of};
use luks_commands::{InputFault, Reason};
use luks_guarded_files::{
    BLOCKS, CachedDevice, FOLDER, Found, Host, Stretch, have_common_bytes, holds_something,
    open_locked,
};
use luks_keeping::{BackupFault, backup_length};
use luks_reading::{CheckFault, MetaFault, ReadFault};
use luks_request::{BackingUp, Command, Line, Place};
use luks_wide_keeping::underway_length;
use luks_wide_reading::{WideHeader, WideReadFault, read_wide_header};
use luks_window::Window;
use std::alloc::{AllocError, Global};
use std::cell::Cell;
use std::fs::File;
use std::rc::Rc;
use std::rt::{Clock, Files};

/// The volumes of a command line.
pub struct Volumes {
    /// The volume.
    pub volume: Result<Volume, InputFault>,
    /// What is opened beside it.
    pub target: Result<Volume, InputFault>,
    /// What the target is, where it was made for a backup; the command takes it away where the backup
    /// isn't done.
    pub made: Option<Found>,
    /// Whether the target has turned out to be the volume, by a name of which the system tells nothing; it
    /// is told by a write that fails, and that write's bytes were put back.
    pub is_source: Option<Rc<Cell<bool>>>,
}

impl Volumes {
    /// Neither of them, for this reason on the target's side.
    fn unopened(target: InputFault) -> Self
        ensures volume { result.volume ≡ Err InputFault.Absent }
        ensures target { result.target ≡ Err target }
    {
        Volumes {
            volume: Err(InputFault::Absent),
            target: Err(target),
            made: None,
            is_source: None,
        }
    }

    /// Neither of them, since memory was refused.
    fn without_memory() -> Self
        ensures volume { result.volume ≡ Err InputFault.NoMemory }
        ensures target { result.target ≡ Err InputFault.NoMemory }
    {
        Volumes {
            volume: Err(InputFault::NoMemory),
            target: Err(InputFault::NoMemory),
            made: None,
            is_source: None,
        }
    }
}

/// Opens the volume, and then what the command writes or reads beside it; neither where a passphrase has
/// ended the command, and nothing beside a volume that can't be opened. If both are one file, by
/// whichever names, or the system tells that they have bytes in common, nothing is opened; nor where the file
/// of a key is that of its passphrase. Each is locked as what it is opened for. The file of a key or a token
/// isn't opened yet: `KeptFile` makes it.
pub fn open_volumes<R: AllocGlobal + Clock + Files<File = File>>(
    rt: &R,
    line: &Line<'_>,
    openings: &Openings<'_>,
    ended: bool,
    notes: &mut Vec<u8>,
) -> Volumes
    ensures volume { IfOk result.volume (λ device. cached_failures device ≡ 0) }
    ensures target { IfOk result.target (λ device. cached_failures device ≡ 0) }
    ensures volume_share { IfOk result.volume (λ device.
        (lock_of (behind (device_behind device))).share ≡ share_for openings.now.volume.writes) }
    ensures target_share { IfSome (beside_of openings.now) (λ opening. IfOk result.target (λ device.
        (lock_of (behind (device_behind device))).share ≡ share_for opening.writes)) }
    ensures ended { IsTrue ended → IsErr result.volume }
    ensures same { IfSome (beside_of openings.now) (λ opening.
        opening.name.now ≡ openings.now.volume.name.now → IsErr result.volume × IsErr result.target) }
    ensures beside { beside_of openings.now ≡ None → result.target ≡ Err InputFault.Absent }
{
    if ended {
        return Volumes::unopened(InputFault::Absent);
    }
    let Some(beside) = openings.beside() else {
        return Volumes {
            volume: open_volume(rt, openings.volume, openings.place, notes),
            target: Err(InputFault::Absent),
            made: None,
            is_source: None,
        };
    };
    match are_one(rt, line, openings, beside) {
        Ok(false) => {}
        Ok(true) => return Volumes::unopened(InputFault::Unreadable(Reason::SameFile)),
        Err(AllocError) => return Volumes::without_memory(),
    }
    if is_kept(rt, line) {
        return Volumes::unopened(InputFault::Unreadable(Reason::Exists));
    }
    let volume = open_volume(rt, openings.volume, openings.place, notes);
    let Target {
        volume: target,
        made,
        is_source,
    } = match &volume {
        Ok(_) => open_beside(rt, line, openings, beside, notes),
        Err(_) => Target::missed(InputFault::Absent),
    };
    Volumes {
        volume,
        target,
        made,
        is_source,
    }
}

/// Whether the volume and what is opened beside it have a byte in common, as far as the system tells, or the
/// file of a key is that of its passphrase.
fn are_one<R: AllocGlobal + Clock + Files<File = File>>(
    rt: &R,
    line: &Line<'_>,
    openings: &Openings<'_>,
    beside: Opening<'_>,
) -> Result<bool, AllocError>
    ensures { beside.entry.name.now ≡ openings.now.volume.name.now → result ≡ Ok true }
{
    let Place { offset, length } = openings.place;
    let volume = Stretch {
        name: openings.volume.name,
        start: offset,
        end: match length {
            Some(length) => offset.saturating_add(length),
            None => u64::MAX,
        },
    };
    let other = whole_file(beside.name);
    if have_common_bytes(rt.alloc(), &mut Host::new(rt), volume, other, BLOCKS)? {
        return Ok(true);
    }
    is_of_passphrase(rt, line)
}

/// All bytes of the file of this name.
fn whole_file(name: &str) -> Stretch<'_>
    ensures { result.name.now ≡ name.now }
{
    Stretch {
        name,
        start: 0,
        end: u64::MAX,
    }
}

/// Whether the file of a key is that of its passphrase, as far as the system tells.
fn is_of_passphrase<R: AllocGlobal + Clock + Files<File = File>>(
    rt: &R,
    line: &Line<'_>,
) -> Result<bool, AllocError> {
    match line.command {
        Command::KeepKey(keeping) if keeping.passphrase != "-" => {
            let passphrase = whole_file(keeping.passphrase);
            let key = whole_file(keeping.target);
            have_common_bytes(rt.alloc(), &mut Host::new(rt), passphrase, key, BLOCKS)
        }
        _ => Ok(false),
    }
}

/// Whether a backup, a key or a token is to be written over something that isn't to be written over.
fn is_kept<R: Clock + Files<File = File>>(rt: &R, line: &Line<'_>) -> bool {
    let (target, over) = match line.command {
        Command::Backup(backing_up) => (backing_up.target, backing_up.over),
        Command::KeepKey(keeping) => (keeping.target, keeping.over),
        Command::KeepToken(keeping) => (keeping.target, keeping.over),
        _ => return false,
    };
    !over && holds_something(&mut Host::new(rt), target)
}

/// Opens what the command has beside the volume. The file of a backup is opened for as many bytes as that
/// has, and isn't where the volume's header isn't accepted, which the command finds then.
fn open_beside<R: AllocGlobal + Clock + Files<File = File>>(
    rt: &R,
    line: &Line<'_>,
    openings: &Openings<'_>,
    beside: Opening<'_>,
    notes: &mut Vec<u8>,
) -> Target
    ensures count { IfOk result.volume (λ device. cached_failures device ≡ 0) }
    ensures share { IfOk result.volume (λ device.
        (lock_of (behind (device_behind device))).share ≡ share_for beside.entry.writes) }
{
    if !beside.writes {
        return Target {
            volume: open_volume(rt, beside, WHOLE, notes),
            made: None,
            is_source: None,
        };
    }
    let source = Source {
        name: openings.volume.name,
        at: openings.place.offset,
    };
    match shape_of(rt, line) {
        Ok(shape) => Target::open(rt, source, beside.name, shape, notes),
        Err(fault) => Target::missed(fault),
    }
}

/// As what the command's target is opened; that of a key or a token isn't yet.
fn shape_of<R: AllocGlobal + Clock + Files<File = File>>(
    rt: &R,
    line: &Line<'_>,
) -> Result<Shape, InputFault> {
    match line.command {
        Command::Backup(backing_up) => Ok(Shape::Fitted {
            length: length_of_backup(rt, line, &backing_up)?,
            over: backing_up.over,
        }),
        Command::KeepKey(_) | Command::KeepToken(_) => Err(InputFault::Absent),
        _ => Ok(Shape::AsItIs),
    }
}

/// How many bytes the backup has; absent where the volume can't be looked at, or its header isn't accepted.
/// It isn't inlined, so that it takes no stack beside the command.
#[inline(never)]
fn length_of_backup<R: AllocGlobal + Clock + Files<File = File>>(
    rt: &R,
    line: &Line<'_>,
    backing_up: &BackingUp<'_>,
) -> Result<u64, InputFault> {
    let opening = Opening {
        name: line.volume,
        writes: false,
    };
    let mut unsaid = Vec::new(rt.alloc());
    let mut device = match open_volume(rt, opening, line.place, &mut unsaid) {
        Ok(device) => device,
        Err(InputFault::NoMemory) => return Err(InputFault::NoMemory),
        Err(_) => return Err(InputFault::Absent),
    };
    match backup_length(rt.alloc(), &mut device, backing_up.payload) {
        Ok(length) => Ok(length),
        Err(BackupFault::Memory) => Err(InputFault::NoMemory),
        Err(BackupFault::NotAccepted(CheckFault::Meta(_))) if !backing_up.rescue => {
            length_under_way(rt.alloc(), &mut device)
        }
        Err(_) => Err(InputFault::Absent),
    }
}

/// The same where something is under way in the volume's metadata; absent where nothing is.
fn length_under_way(alloc: Global, device: &mut Volume) -> Result<u64, InputFault>
    requires { cached_failures device.old + 1 < 2 ^ 64 }
{
    match read_wide_header(alloc, device) {
        Ok(WideHeader::Underway(copy)) => match underway_length(device, &copy) {
            Ok(length) => Ok(length),
            Err(_) => Err(InputFault::Absent),
        },
        Ok(WideHeader::Narrow(_)) => Err(InputFault::Absent),
        Err(WideReadFault::Read(ReadFault::Memory)) => Err(InputFault::NoMemory),
        Err(_) => Err(InputFault::Absent),
    }
}

/// The volume of this name, opened under its lock, at this place of its file; what of the lock isn't held is
/// noted. Its first bytes are remembered, so that an edit, which looks at the header to know how many random bytes it takes and then to
/// do it, reads it once.
pub fn open_volume<R: AllocGlobal + Clock + Files<File = File>>(
    rt: &R,
    opening: Opening<'_>,
    place: Place,
    notes: &mut Vec<u8>,
) -> Result<Volume, InputFault>
    ensures count { IfOk result (λ device. cached_failures device ≡ 0) }
    ensures share { IfOk result (λ device.
        (lock_of (behind (device_behind device))).share ≡ share_for opening.entry.writes) }
{
    let name = opening.name;
    if opening.writes {
        if let Some(fault) = refused_name(rt, name, notes) {
            return Err(fault);
        }
    }
    match open_locked(rt.alloc(), &mut Host::new(rt), name, opening.writes, FOLDER) {
        Ok(device) => volume_of(rt.alloc(), device, name, place, notes),
        Err(fault) => Err(told(fault, name, notes)),
    }
}

/// The volume of this name, opened once more at this place of its file, to be read. None where that can't
/// be, or memory is refused.
pub fn reopened<R: AllocGlobal + Clock + Files<File = File>>(
    rt: &R,
    volume: &str,
    place: Place,
) -> Option<Volume>
    ensures count { IfSome result (λ device. cached_failures device ≡ 0) }
    ensures share { IfSome result (λ device.
        (lock_of (behind (device_behind device))).share ≡ share_for false) }
{
    let device = open_locked(rt.alloc(), &mut Host::new(rt), volume, false, FOLDER).ok()?;
    CachedDevice::new(rt.alloc(), Window::new(device, place.offset, place.length)).ok()
}

/// Whether an edit of the volume ended since another program had written its header.
pub fn has_changed(volume: &Result<Volume, InputFault>) -> bool
    ensures { IsTrue result ↔ IsOkAnd volume.now (λ device. changes_seen device ≢ 0) }
{
    match volume {
        Ok(device) => device.has_changed(),
        Err(_) => false,
    }
}
