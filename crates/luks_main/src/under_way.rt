//! What standard error says of a volume that is refused by the type of an object, since something is under way in
//! its metadata.
ghost use Rattle.std.specs.Prelude.{◌+◌, ◌<◌, ◌^◌};

use luks_area::Device;
use luks_wide_reading::{Underway, WideHeader, read_wide_header};
use std::alloc::Global;
use std::io::Write;

/// Notes by which commands the volume of this name is read all the same, where something is under way in it.
pub(crate) fn tell_readable<D: Device>(
    alloc: Global,
    device: &mut D,
    file: &str,
    notes: &mut Vec<u8>,
)
    requires { D.failed device.old + 1 < 2 ^ 64 }
{
    match read_wide_header(alloc, device) {
        Ok(header) => note_header(&header, file, notes),
        Err(_) => {}
    }
}

/// Notes on the volume with this header.
fn note_header(header: &WideHeader, file: &str, notes: &mut Vec<u8>) {
    match header {
        WideHeader::Underway(copy) => note_readable(&copy.meta, file, notes),
        WideHeader::Narrow(_) => {}
    }
}

/// Notes what `show` and `open` tell of it, by whether it is a reencryption.
fn note_readable(meta: &Underway, file: &str, notes: &mut Vec<u8>) {
    let opened = match meta.reencryption() {
        Some(_) => "tells which key each keyslot gives",
        None => "tries its keyslots",
    };
    let _ = writeln!(
        notes,
        "luks: {file}: luks show lists it, luks open {opened}"
    );
}
