//! The lines of the metadata of which a header was made.
ghost use Rattle.std.specs.Prelude.{◌+◌, ◌^◌, ◌<◌, ◌≤◌};
ghost use Rattle.luks_area.specs.Device.{CountsFailure, IsUnchanged};
ghost use Rattle.luks_rebuilding.specs.RebuildFaults.{is_rebuild_failure};
ghost use Rattle.luks_notes.specs.Hashed.{IsOfCommand};

use crate::hashing::Hashing;
use crate::metadata::{copy_of, keyslots_of, say_others, say_vouch};
use crate::older::header_at;
use crate::seeking::whole_of;
use crate::told::Told;
use crate::untried::say_untried;
use luks_area::Device;
use luks_rebuilding::{Candidate, Copies, Place, RebuildFault, Which, find_plain, find_voucher};
use std::alloc::Global;
use std::io::Write;

/// Says to `err` of which copy's metadata the header on the target was made, if that is one of LUKS2, and how many
/// keyslots it has; and the same of it as `note_whole`. The metadata is read from the target, so that what checksums
/// vouch for isn't sought once more; where a device fails it says nothing.
pub fn note_taken<S: Device, T: Device, E: Write>(
    alloc: Global,
    source: &mut S,
    target: &mut T,
    which: Which,
    hashing: &mut Hashing,
    err: &mut E,
)
    requires source { S.failed source.old + 1 < 2 ^ 64 }
    requires target { T.failed target.old + 1 < 2 ^ 64 }
    requires of_command { IsOfCommand hashing.old }
    ensures source { IsUnchanged S.tells S.size S.bytes S.unsettled source.old source.new }
    ensures target { IsUnchanged T.tells T.size T.bytes T.unsettled target.old target.new }
    ensures of_command { IsOfCommand hashing.new }
    ensures more { hashing.old.hashed ≤ hashing.new.hashed }
{
    if let Ok(made) = made_on(alloc, target) {
        let _ = say_taken(alloc, source, which, made, hashing, err);
    }
}

/// The metadata of the LUKS2 header that begins the target; `NoMetadata` where none does.
fn made_on<T: Device>(alloc: Global, target: &mut T) -> Result<Candidate, RebuildFault>
    requires { T.failed target.old + 1 < 2 ^ 64 }
    ensures unchanged { IsUnchanged T.tells T.size T.bytes T.unsettled target.old target.new }
    ensures count { CountsFailure is_rebuild_failure result
        (T.failed target.old) (T.failed target.new) }
{
    match header_at(target, 0)? {
        Some(header) if header.version == 2 => {
            find_plain(alloc, target, Copies::OfSize(header.hdr_size))
        }
        _ => Err(RebuildFault::NoMetadata),
    }
}

/// The lines of this metadata, until a fault ends them.
fn say_taken<S: Device, E: Write>(
    alloc: Global,
    source: &mut S,
    which: Which,
    made: Candidate,
    hashing: &mut Hashing,
    err: &mut E,
) -> Result<(), RebuildFault>
    requires room { S.failed source.old + 1 < 2 ^ 64 }
    requires of_command { IsOfCommand hashing.old }
    ensures unchanged { IsUnchanged S.tells S.size S.bytes S.unsettled source.old source.new }
    ensures of_command { IsOfCommand hashing.new }
    ensures more { hashing.old.hashed ≤ hashing.new.hashed }
{
    let size = made.place.size;
    let voucher = find_voucher(source, of_size(which.copies, size), &made.json)?;
    let mut found = Told::of(made);
    let Some(place) = place_of(alloc, source, which.copies, voucher)? else {
        return Ok(());
    };
    found.place = place;
    found.is_vouched = voucher.is_some();
    let count = found.count();
    let keyslots = keyslots_of(count);
    let copy = copy_of(&place);
    let _ = writeln!(
        err,
        "luks: made of the metadata in the {copy} copy, which has {count} {keyslots}"
    );
    say_vouch(&found, err);
    if !found.is_vouched {
        say_untried(alloc, source, which, err)?;
    }
    say_others(alloc, source, which.copies, &found, hashing, err)
}

/// Those of the copies that are asked for that have this size: what a checksum vouches for is of its own, so that an
/// area is hashed twice at most.
fn of_size(copies: Copies, size: u64) -> Copies {
    match copies {
        Copies::Any | Copies::OfSize(_) => Copies::OfSize(size),
        Copies::Second | Copies::SecondOfSize(_) => Copies::SecondOfSize(size),
    }
}

/// The place of its copy: the copy whose checksum vouches for it, else the first that is whole.
fn place_of<S: Device>(
    alloc: Global,
    source: &mut S,
    copies: Copies,
    voucher: Option<Place>,
) -> Result<Option<Place>, RebuildFault>
    requires { S.failed source.old + 1 < 2 ^ 64 }
    ensures unchanged { IsUnchanged S.tells S.size S.bytes S.unsettled source.old source.new }
    ensures count { CountsFailure is_rebuild_failure result
        (S.failed source.old) (S.failed source.new) }
{
    if voucher.is_some() {
        return Ok(voucher);
    }
    match whole_of(alloc, source, copies)? {
        Some(found) => Ok(Some(found.place)),
        None => Ok(None),
    }
}
