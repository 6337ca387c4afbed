//! The lines of one candidate: where its metadata is whole, how many keyslots it has, and what vouches
//! for it.
ghost use Rattle.std.specs.Prelude.{◌+◌, ◌^◌, ◌<◌, ◌≤◌};
ghost use Rattle.luks_area.specs.Device.{IsUnchanged};
ghost use Rattle.luks_notes.specs.Hashed.{IsOfCommand};

use crate::further::{Seek, say_further};
use crate::hashing::Hashing;
use crate::older::say_older;
use crate::seeking::sought;
use crate::told::Told;
use crate::untried::say_untried;
use luks_area::Device;
use luks_rebuilding::{Copies, Effort, Place, RebuildFault, Which};
use std::alloc::Global;
use std::io::Write;

/// Says to `err` of a volume of which no header counts in which copy metadata is whole, the first in
/// the order of `rebuild`, and that a header can be made of it; whether a checksum vouches for it, and
/// whether it is of an older volume; and what other metadata is whole there. If no metadata is whole it
/// says of which copy not all was tried; where a header counts nothing, and where the device fails or memory
/// is refused no more. What its searches may hash is counted.
pub fn note_whole<D: Device, E: Write>(
    alloc: Global,
    device: &mut D,
    hashing: &mut Hashing,
    err: &mut E,
)
    requires room { D.failed device.old + 1 < 2 ^ 64 }
    requires of_command { IsOfCommand hashing.old }
    ensures unchanged { IsUnchanged D.tells D.size D.bytes D.unsettled device.old device.new }
    ensures of_command { IsOfCommand hashing.new }
    ensures more { hashing.old.hashed ≤ hashing.new.hashed }
{
    let _ = say_whole(alloc, device, hashing, err);
}

/// Says it until a fault ends it.
fn say_whole<D: Device, E: Write>(
    alloc: Global,
    device: &mut D,
    hashing: &mut Hashing,
    err: &mut E,
) -> Result<(), RebuildFault>
    requires room { D.failed device.old + 1 < 2 ^ 64 }
    requires of_command { IsOfCommand hashing.old }
    ensures unchanged { IsUnchanged D.tells D.size D.bytes D.unsettled device.old device.new }
    ensures of_command { IsOfCommand hashing.new }
    ensures more { hashing.old.hashed ≤ hashing.new.hashed }
{
    let which = Which {
        copies: Copies::Any,
        effort: Effort::Usual,
    };
    let search = sought(alloc, device, which, hashing, err)?;
    let Some(found) = &search.found else {
        if search.is_in_doubt() {
            say_untried(alloc, device, which, err)?;
        }
        return Ok(());
    };
    let count = found.count();
    let keyslots = keyslots_of(count);
    let copy = copy_of(&found.place);
    let _ = writeln!(
        err,
        "luks: metadata of {count} {keyslots} is whole in the {copy} copy: luks rebuild makes a header of it"
    );
    say_vouch(found, err);
    if search.is_in_doubt() {
        say_untried(alloc, device, which, err)?;
    }
    say_others(alloc, device, which.copies, found, hashing, err)
}

/// Says whether the metadata, which was found first of these copies, is of an older volume, and what other metadata
/// is whole.
pub(crate) fn say_others<D: Device, E: Write>(
    alloc: Global,
    device: &mut D,
    copies: Copies,
    found: &Told,
    hashing: &mut Hashing,
    err: &mut E,
) -> Result<(), RebuildFault>
    requires room { D.failed device.old + 1 < 2 ^ 64 }
    requires of_command { IsOfCommand hashing.old }
    ensures unchanged { IsUnchanged D.tells D.size D.bytes D.unsettled device.old device.new }
    ensures of_command { IsOfCommand hashing.new }
    ensures more { hashing.old.hashed ≤ hashing.new.hashed }
{
    say_older(device, found, err)?;
    let seek = seek_of(copies, found);
    say_further(alloc, device, found, seek, hashing, err)
}

/// What is left to be sought of other copies, of a volume in which this was found first.
fn seek_of(copies: Copies, found: &Told) -> Seek {
    match copies {
        Copies::Any if !found.is_vouched => Seek::Whole,
        _ => Seek::Any,
    }
}

/// Says whether a checksum vouches for the metadata.
pub(crate) fn say_vouch<E: Write>(found: &Told, err: &mut E) {
    let copy = copy_of(&found.place);
    let _ = if found.is_vouched {
        writeln!(err, "luks: vouched by the checksum of the {copy} copy")
    } else {
        writeln!(
            err,
            "luks: no checksum vouches for it: compare with luks open before you restore it"
        )
    };
}

/// Which copy the metadata was read from.
pub(crate) fn copy_of(place: &Place) -> &'static str {
    if place.at == 0 { "first" } else { "second" }
}

/// What so many keyslots are called.
pub(crate) fn keyslots_of(count: u8) -> &'static str {
    if count == 1 { "keyslot" } else { "keyslots" }
}
