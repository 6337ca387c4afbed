//! The lines of further candidates: other metadata that is whole in the volume.
ghost use Rattle.std.specs.Prelude.{◌+◌, ◌^◌, ◌<◌, ◌≤◌};
ghost use Rattle.luks_area.specs.Device.{CountsFailure, IsUnchanged};
ghost use Rattle.luks2_header.specs.Sizes.{IsListed};
ghost use Rattle.luks_rebuilding.specs.RebuildFaults.{is_rebuild_failure};
ghost use Rattle.luks_notes.specs.Hashed.{IsOfCommand};

use crate::hashing::Hashing;
use crate::metadata::keyslots_of;
use crate::older::say_older;
use crate::seeking::{has_standing, sought, whole_of};
use crate::told::Told;
use crate::untried::say_untried;
use luks_area::Device;
use luks_rebuilding::{Copies, Effort, RebuildFault, Which};
use std::alloc::Global;
use std::io::Write;

/// The sizes that a copy may have, in bytes.
const SIZES: [u64; 9] = [
    0x4000, 0x8000, 0x1_0000, 0x2_0000, 0x4_0000, 0x8_0000, 0x10_0000, 0x20_0000, 0x40_0000,
];

/// Says to `err` what other metadata is whole, of a second copy or of a header of another size, how
/// many keyslots it has that this hasn't, and by which option `rebuild` takes it. Where it is known that no
/// checksum vouches for any, that isn't sought once more; else it is sought with the least effort, and what
/// wasn't tried is said.
pub(crate) fn say_further<D: Device, E: Write>(
    alloc: Global,
    device: &mut D,
    found: &Told,
    seek: Seek,
    hashing: &mut Hashing,
    err: &mut E,
) -> Result<(), RebuildFault>
    requires room { D.failed device.old + 1 < 2 ^ 64 }
    requires of_command { IsOfCommand hashing.old }
    ensures unchanged { IsUnchanged D.tells D.size D.bytes D.unsettled device.old device.new }
    ensures of_command { IsOfCommand hashing.new }
    ensures more { hashing.old.hashed ≤ hashing.new.hashed }
{
    let second = second_of(alloc, device, found, seek, hashing, err)?;
    if let Some(further) = &second {
        if !found.is_same(further) {
            say_second(found, further, err);
            say_older(device, further, err)?;
        }
    }
    let said = Said {
        found,
        second: &second,
    };
    say_sizes(alloc, device, said, seek, hashing, err)
}

/// What is sought of other copies.
#[derive(Clone, Copy)]
pub(crate) enum Seek {
    /// What a checksum vouches for, or else what is whole.
    Any,
    /// What is whole: no checksum vouches for any.
    Whole,
}

/// What was said already.
#[derive(Clone, Copy)]
struct Said<'a> {
    /// That of which a header is made.
    found: &'a Told,
    /// That of the second copy, if there is any.
    second: &'a Option<Told>,
}

impl Said<'_> {
    /// Whether this is the same as one of them.
    fn has(&self, other: &Told) -> bool {
        match self.second {
            Some(second) if second.is_same(other) => true,
            _ => self.found.is_same(other),
        }
    }
}

/// What is found so of second copies, if there is anything.
fn second_of<D: Device, E: Write>(
    alloc: Global,
    device: &mut D,
    found: &Told,
    seek: Seek,
    hashing: &mut Hashing,
    err: &mut E,
) -> Result<Option<Told>, RebuildFault>
    requires room { D.failed device.old + 1 < 2 ^ 64 }
    requires of_command { IsOfCommand hashing.old }
    ensures unchanged { IsUnchanged D.tells D.size D.bytes D.unsettled device.old device.new }
    ensures count { CountsFailure is_rebuild_failure result
        (D.failed device.old) (D.failed device.new) }
    ensures of_command { IsOfCommand hashing.new }
    ensures more { hashing.old.hashed ≤ hashing.new.hashed }
{
    let which = Which {
        copies: Copies::Second,
        effort: Effort::Brief,
    };
    if matches!(seek, Seek::Whole) {
        return whole_of(alloc, device, Copies::Second);
    }
    let search = sought(alloc, device, which, hashing, err)?;
    if found.place.at == 0 && search.is_in_doubt() {
        say_untried(alloc, device, which, err)?;
    }
    Ok(search.found)
}

/// What is found by a header of this size, if anything is. If there is no copy of it, nothing is hashed.
fn size_of<D: Device, E: Write>(
    alloc: Global,
    device: &mut D,
    size: u64,
    seek: Seek,
    hashing: &mut Hashing,
    err: &mut E,
) -> Result<Option<Told>, RebuildFault>
    requires listed { IsListed size }
    requires room { D.failed device.old + 1 < 2 ^ 64 }
    requires of_command { IsOfCommand hashing.old }
    ensures unchanged { IsUnchanged D.tells D.size D.bytes D.unsettled device.old device.new }
    ensures count { CountsFailure is_rebuild_failure result
        (D.failed device.old) (D.failed device.new) }
    ensures of_command { IsOfCommand hashing.new }
    ensures more { hashing.old.hashed ≤ hashing.new.hashed }
{
    let copies = Copies::OfSize(size);
    if matches!(seek, Seek::Whole) {
        return whole_of(alloc, device, copies);
    }
    if !has_standing(device, size)? {
        return whole_of(alloc, device, copies);
    }
    let which = Which {
        copies,
        effort: Effort::Brief,
    };
    let search = sought(alloc, device, which, hashing, err)?;
    if search.is_in_doubt() {
        say_untried(alloc, device, which, err)?;
    }
    Ok(search.found)
}

/// Says what is whole of headers of other sizes than that of which a header is made, except for what is the second
/// copy's.
fn say_sizes<D: Device, E: Write>(
    alloc: Global,
    device: &mut D,
    said: Said<'_>,
    seek: Seek,
    hashing: &mut Hashing,
    err: &mut E,
) -> Result<(), RebuildFault>
    requires room { D.failed device.old + 1 < 2 ^ 64 }
    requires of_command { IsOfCommand hashing.old }
    ensures unchanged { IsUnchanged D.tells D.size D.bytes D.unsettled device.old device.new }
    ensures of_command { IsOfCommand hashing.new }
    ensures more { hashing.old.hashed ≤ hashing.new.hashed }
{
    let mut left = SIZES.as_slice();
    while let [size, later @ ..] = left {
        say_size(alloc, device, said, *size, seek, hashing, err)?;
        left = later;
    }
    Ok(())
}

/// Says what is whole of a header of this size, if that is another one.
fn say_size<D: Device, E: Write>(
    alloc: Global,
    device: &mut D,
    said: Said<'_>,
    size: u64,
    seek: Seek,
    hashing: &mut Hashing,
    err: &mut E,
) -> Result<(), RebuildFault>
    requires listed { IsListed size }
    requires room { D.failed device.old + 1 < 2 ^ 64 }
    requires of_command { IsOfCommand hashing.old }
    ensures unchanged { IsUnchanged D.tells D.size D.bytes D.unsettled device.old device.new }
    ensures count { CountsFailure is_rebuild_failure result
        (D.failed device.old) (D.failed device.new) }
    ensures of_command { IsOfCommand hashing.new }
    ensures more { hashing.old.hashed ≤ hashing.new.hashed }
{
    if size == said.found.place.size {
        return Ok(());
    }
    if let Some(further) = size_of(alloc, device, size, seek, hashing, err)? {
        if !said.has(&further) {
            say_of_size(said.found, &further, err);
            say_older(device, &further, err)?;
        }
    }
    Ok(())
}

/// Says of the second copy's metadata how it is taken.
fn say_second<E: Write>(found: &Told, further: &Told, err: &mut E) {
    let count = further.count_beside(found);
    let keyslots = keyslots_of(count);
    let _ = writeln!(
        err,
        "luks: that of the second copy is whole too, and differs, with {count} {keyslots} that this hasn't: luks rebuild --second takes it"
    );
}

/// Says of the metadata of a header of another size how it is taken.
fn say_of_size<E: Write>(found: &Told, further: &Told, err: &mut E) {
    let count = further.count_beside(found);
    let keyslots = keyslots_of(count);
    let size = further.place.size;
    let _ = writeln!(
        err,
        "luks: that of a header of {size} bytes is whole too, and differs, with {count} {keyslots} that this hasn't: luks rebuild --size {size} takes it"
    );
}
