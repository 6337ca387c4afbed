//! A volume of a command line.
ghost use Rattle.std.specs.Prelude.{◌≡◌, IfOk};
ghost use Rattle.luks_area.specs.Files.{file_failures};
ghost use Rattle.luks_guarded_files.specs.Cached.{cached_failures, device_behind};
ghost use Rattle.luks_guarded_files.specs.Locked.{device_inside};
ghost use Rattle.luks_window.specs.Windows.{behind};

use luks_area::FileDevice;
use luks_commands::{InputFault, Reason};
use luks_guarded_files::{CachedDevice, FittedFile, LockedDevice, OpenFault};
use luks_request::Place;
use luks_window::Window;
use std::alloc::Global;
use std::io::Write;
use std::marker::Brand;

/// The volume of a command line: the bytes of its file where it lies, its first ones remembered. The file
/// is measured whole, under the lock of the whole. No byte beside the window is written, as its type says
/// of any device; a file tells no bytes, so that nothing more can be said of one here.
pub type Volume = CachedDevice<Window<LockedDevice<FileDevice<FittedFile>>, Brand>>;

/// All bytes of a file.
pub const WHOLE: Place = Place {
    offset: 0,
    length: None,
};

/// The bytes of a locked file that lie at this place; nothing of them is remembered yet. What of the lock
/// isn't held is noted.
pub(crate) fn volume_of(
    alloc: Global,
    device: LockedDevice<FileDevice<FittedFile>>,
    name: &str,
    place: Place,
    notes: &mut Vec<u8>,
) -> Result<Volume, InputFault>
    requires { file_failures (device_inside device) ≡ 0 }
    ensures count { IfOk result (λ volume. cached_failures volume ≡ 0) }
    ensures device { IfOk result (λ volume. behind (device_behind volume) ≡ device) }
{
    for notice in device.lock().notices().iter().flatten() {
        let _ = writeln!(notes, "luks: {name}: {notice}");
    }
    CachedDevice::new(alloc, Window::new(device, place.offset, place.length)).map_err(
        |_| InputFault::NoMemory,
    )
}

/// What is said of a file that isn't opened by this fault; what no reason has a word for is noted.
pub(crate) fn told(fault: OpenFault, name: &str, notes: &mut Vec<u8>) -> InputFault {
    let more = match fault {
        OpenFault::NoVolume => return InputFault::Unreadable(Reason::NoVolume),
        OpenFault::Edited => return InputFault::Unreadable(Reason::Edited),
        OpenFault::File(error) => return InputFault::from(error),
        OpenFault::ReadOnly => "its file system or its device is read-only",
        OpenFault::ForeignLink => "a link that another user owns isn't followed",
        OpenFault::Exchanged => "another file has taken its place meanwhile",
    };
    let _ = writeln!(notes, "luks: {name}: {more}");
    InputFault::Unreadable(Reason::Other)
}
