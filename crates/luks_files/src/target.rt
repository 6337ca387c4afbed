//! What a command writes beside the volume: TARGET, and the FILE of a backup, a key or a token.
ghost use Rattle.std.specs.Prelude.{◌≡◌, IfOk, true};
ghost use Rattle.luks_guarded_files.specs.Cached.{cached_failures, device_behind};
ghost use Rattle.luks_guarded_files.specs.Locked.{lock_of, share_for};
ghost use Rattle.luks_window.specs.Windows.{behind};

use crate::output::refused_name;
use crate::volume::{Volume, WHOLE, told, volume_of};
use luks_area::FileDevice;
use luks_commands::{InputFault, Reason};
use luks_guarded_files::{
    FOLDER, FittedFile, Found, Host, LockedDevice, System, Watch, open_file, open_or_make,
    take_lock,
};
use std::cell::Cell;
use std::fs::{self, File};
use std::io;
use std::rc::Rc;
use std::rt::{Clock, Files};

/// As what a target is opened.
#[derive(Clone, Copy)]
pub(crate) enum Shape {
    /// TARGET, which is there, and keeps its length.
    AsItIs,
    /// The FILE of a backup or a token, which is made where it isn't there, with mode 0600. A regular file
    /// gets the length of what it is to hold with the first write that changes it, and is as it was till then.
    /// Where it holds something once its lock is held, it is opened only where it may be written over.
    Fitted {
        /// The length in bytes.
        length: u64,
        /// Whether it may be written over.
        over: bool,
    },
    /// The FILE of a key, likewise, which its owner alone may read from then on.
    Key {
        /// The length in bytes.
        length: u64,
        /// Whether it may be written over.
        over: bool,
    },
}

/// The source of a target, as it was opened.
#[derive(Clone, Copy)]
pub(crate) struct Source<'a> {
    /// The name of its file.
    pub(crate) name: &'a str,
    /// The place where it begins there, in bytes.
    pub(crate) at: u64,
}

/// A target that was opened, or what is opened in its place.
pub(crate) struct Target {
    /// Its bytes.
    pub(crate) volume: Result<Volume, InputFault>,
    /// What it is, where it was made for this.
    pub(crate) made: Option<Found>,
    /// Whether it has turned out to be its source.
    pub(crate) is_source: Option<Rc<Cell<bool>>>,
}

impl Target {
    /// None, by this fault.
    pub(crate) fn missed(fault: InputFault) -> Self
        ensures { IfOk result.volume (λ _. ⊥) }
    {
        Target {
            volume: Err(fault),
            made: None,
            is_source: None,
        }
    }

    /// Opens the target of this name by one call. Its first write that changes a byte fails where it turns
    /// out to be its source.
    pub(crate) fn open<R: AllocGlobal + Clock + Files<File = File>>(
        rt: &R,
        source: Source<'_>,
        name: &str,
        shape: Shape,
        notes: &mut Vec<u8>,
    ) -> Self
        ensures count { IfOk result.volume (λ volume. cached_failures volume ≡ 0) }
        ensures share { IfOk result.volume (λ volume.
            (lock_of (behind (device_behind volume))).share ≡ share_for true) }
    {
        if let Some(fault) = refused_name(rt, name, notes) {
            return Target::missed(fault);
        }
        let (file, made) = match opened(rt, name, shape, notes) {
            Ok(opened) => opened,
            Err(fault) => return Target::missed(fault),
        };
        match watch_of(rt, source, notes) {
            Ok((watch, is_source)) => Target {
                volume: volume_over(rt, file, name, shape, made.is_some(), watch, notes),
                made,
                is_source: Some(is_source),
            },
            Err(fault) => Target {
                volume: Err(fault),
                made,
                is_source: None,
            },
        }
    }
}

/// The file of the target, open, and what it is, where it was made.
fn opened<R: Clock + Files<File = File>>(
    rt: &R,
    name: &str,
    shape: Shape,
    notes: &mut Vec<u8>,
) -> Result<(File, Option<Found>), InputFault> {
    let mut host = Host::new(rt);
    if let Shape::AsItIs = shape {
        return match open_file(&mut host, name, true) {
            Ok(file) => Ok((file, None)),
            Err(fault) => Err(told(fault, name, notes)),
        };
    }
    match open_or_make(&mut host, name) {
        Ok((file, true)) => {
            let made = host.fstat(&file).ok();
            Ok((file, made))
        }
        Ok((file, false)) => Ok((file, None)),
        Err(fault) => Err(told(fault, name, notes)),
    }
}

/// The beginning of the source, as it is now, and whether the target turns out to be it.
fn watch_of<R: AllocGlobal + Clock + Files<File = File>>(
    rt: &R,
    source: Source<'_>,
    notes: &mut Vec<u8>,
) -> Result<(Watch, Rc<Cell<bool>>), InputFault> {
    let file = match open_file(&mut Host::new(rt), source.name, false) {
        Ok(file) => file,
        Err(fault) => return Err(told(fault, source.name, notes)),
    };
    let Ok(is_source) = Rc::new(rt.alloc(), Cell::new(false)) else {
        return Err(InputFault::NoMemory);
    };
    let Ok(told) = is_source.clone() else {
        return Err(InputFault::NoMemory);
    };
    match Watch::new(rt.alloc(), file, source.at, told) {
        Ok(watch) => Ok((watch, is_source)),
        Err(_) => Err(InputFault::NoMemory),
    }
}

/// The volume over the target's file, which is open.
fn volume_over<R: AllocGlobal + Clock + Files<File = File>>(
    rt: &R,
    file: File,
    name: &str,
    shape: Shape,
    is_made: bool,
    watch: Watch,
    notes: &mut Vec<u8>,
) -> Result<Volume, InputFault>
    ensures count { IfOk result (λ volume. cached_failures volume ≡ 0) }
    ensures share { IfOk result (λ volume.
        (lock_of (behind (device_behind volume))).share ≡ share_for true) }
{
    let mut host = Host::new(rt);
    let lock = match take_lock(rt.alloc(), &mut host, &file, true, FOLDER) {
        Ok(lock) => lock,
        Err(fault) => return Err(told(fault, name, notes)),
    };
    let file = match shape {
        Shape::AsItIs => FittedFile::new(file),
        Shape::Fitted { length, over } => {
            unless_kept(FittedFile::of_backup(&mut host, file, length, over))?
        }
        Shape::Key { length, over } => {
            unless_kept(FittedFile::of_key(&mut host, file, length, over, is_made))?
        }
    };
    let device = FileDevice::new(file.watching(watch))?;
    volume_of(
        rt.alloc(),
        LockedDevice::new(device, lock),
        name,
        WHOLE,
        notes,
    )
}

/// FILE as it was opened; where it holds something that isn't to be written over, it isn't.
fn unless_kept(opened: io::Result<Option<FittedFile>>) -> Result<FittedFile, InputFault> {
    match opened? {
        Some(file) => Ok(file),
        None => Err(InputFault::Unreadable(Reason::Exists)),
    }
}

/// Takes away the file of this name that was made for a backup, a key or a token that wasn't written, where the name is still
/// that file's.
pub fn take_away<R: Clock + Files<File = File>>(rt: &R, name: &str, made: &Found) {
    if let Ok(named) = Host::new(rt).lstat(name) {
        if named.is_of_one_file(made) {
            let _ = fs::remove_file(rt, name);
        }
    }
}
