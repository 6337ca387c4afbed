ghost use Rattle.std.specs.Prelude.{◌≡◌, true, Ok, IsTrue};

use crate::extent::{Extent, Holder};
use crate::layers::Sysfs;
use crate::system::System;
use std::alloc::{AllocError, Global};

/// The folder in which sysfs has a folder for each block device, MAJOR:MINOR.
pub const BLOCKS: &str = "/sys/dev/block";

/// How many ranges are followed down at most, beneath one name.
const MOST: usize = 256;

/// Bytes of the file or device of this name: those from `start` on and before `end`, as many as there are.
#[derive(Clone, Copy)]
pub struct Stretch<'a> {
    /// The name.
    pub name: &'a str,
    /// The place of the first byte.
    pub start: u64,
    /// The place behind the last one.
    pub end: u64,
}

/// Whether both names are of one file: they are equal, or lead to one file by symbolic or hard links,
/// or to one block device by two nodes. If one of them leads to no file, they aren't. No file is
/// opened.
pub fn is_same_file<S: System>(system: &mut S, one: &str, other: &str) -> bool
    ensures { one.now ≡ other.now → IsTrue result }
{
    if one == other {
        return true;
    }
    match (system.stat(one), system.stat(other)) {
        (Ok(one), Ok(other)) => one.is_of_one_file(&other),
        _ => false,
    }
}

/// Whether both are of one file, or have a byte in common by what the system tells of block devices: a
/// partition is bytes of its disk, a loop device bytes of its file, and a mapping any bytes of each device
/// beneath it. `folder` has a folder for each block device, as `BLOCKS` does. No volume is opened.
pub fn have_common_bytes<S: System>(
    alloc: Global,
    system: &mut S,
    one: Stretch<'_>,
    other: Stretch<'_>,
    folder: &str,
) -> Result<bool, AllocError>
    ensures { one.entry.name.now ≡ other.entry.name.now → result ≡ Ok true }
{
    if is_same_file(system, one.name, other.name) {
        return Ok(true);
    }
    let sysfs = Sysfs { alloc, folder };
    let one = extents_of(system, sysfs, one)?;
    let other = extents_of(system, sysfs, other)?;
    Ok(any_meet(one.as_slice(), other.as_slice()))
}

/// What these bytes are, down to whole disks and files: of each layer a range, or several.
fn extents_of<S: System>(
    system: &mut S,
    sysfs: Sysfs<'_>,
    stretch: Stretch<'_>,
) -> Result<Vec<Extent>, AllocError> {
    let mut found = Vec::new(sysfs.alloc);
    let Ok(named) = system.stat(stretch.name) else {
        return Ok(found);
    };
    let whole = sysfs.whole(system, Holder::from(&named), true)?;
    found.push(whole.cut(stretch.start, stretch.end))?;
    for next in 0..MOST {
        let Some(extent) = found.get(next).copied() else {
            break;
        };
        if let Holder::Device(node) = extent.holder {
            sysfs.beneath(system, node, &extent, &mut found)?;
        }
    }
    Ok(found)
}

/// Whether a range of the ones meets a range of the others.
fn any_meet(ones: &[Extent], others: &[Extent]) -> bool {
    ones.iter()
        .any(|one| others.iter().any(|other| one.meets(other)))
}
