//! Making a header out of metadata that is still whole.
ghost use Rattle.std.specs.Prelude.{◌≡◌, ◌↔◌, ◌+◌, ◌++◌, ◌^◌, ◌<◌, List, IfErr, IfOk, OnOk, false, length, ℕ, option_map, replicate};
ghost use Rattle.luks_area.specs.Device.{IsSettled, IsUnchanged, is_failure};
ghost use Rattle.luks_area.specs.First.{IsLeast};
ghost use Rattle.luks_area.specs.Ranges.{SameBut};
ghost use Rattle.luks_writing.specs.TwoDevices.{CountsEither};
ghost use Rattle.luks_meta.specs.Content.{content};
ghost use Rattle.luks_slot.specs.declared.allowed.Allowed.{Allowed};
ghost use Rattle.luks_reading.specs.Answer.{AnswerWithin, Opened};
ghost use Rattle.luks_reading.specs.Checked.{WellFormed};
ghost use Rattle.luks_reading.specs.declared.report.Data.TheVariants.{Elsewhere};
ghost use Rattle.luks_meta.specs.Accepted.{IsMeta};
ghost use Rattle.luks_rebuilding.specs.Candidates.{IsPlace, OfTaken};
ghost use Rattle.luks_rebuilding.specs.Found.{source_of, AreSlotsApart, HasRegionInside, HasSlotsInside, IsNoMeta, IsOfWhole, IsWhole, IsWholeWritten, WritesWholeInTurn, WritesWholeLast};
ghost use Rattle.luks_rebuilding.specs.Gives.{Gives};
ghost use Rattle.luks_rebuilding.specs.Making.{source_with, IsAnsweredMaking, IsMakeable, IsMakingFault, MakesFirstLast};
ghost use Rattle.luks_rebuilding.specs.Outcome.{IsAnsweredFault, IsRebuildable, IsRebuildFault};
ghost use Rattle.luks_rebuilding.specs.RebuildFaults.{is_rebuild_failure, rebuild_key};
ghost use Rattle.luks_rebuilding.specs.Rebuilt.{random_size, IsMade, IsOfHeader, IsOfRebuilt, IsRebuilt, WritesFirstLast};
ghost use Rattle.luks_rebuilding.specs.declared.rebuild_fault.RebuildFault.{RebuildFault as TheFault};

use crate::candidate::{Candidate, find_candidate};
use crate::copies::{FIRST_SALT, SECOND_SALT, taken_salt, write_rebuilt_copy};
use crate::judging::judge;
use crate::key_areas::copy_areas;
use crate::own_uuid::own_field;
use crate::place::{Place, Which};
use crate::rebuild_fault::RebuildFault;
use luks_area::{Device, DeviceFault};
use luks_meta::{Meta, MetaFault};
use luks_vouching::SearchProgress;
use luks_writing::clear_places;
use std::alloc::Global;

/// How many random bytes `rebuild` takes: the salts of the first and the second copy of the header,
/// 64 each, and 16 for a new uuid.
pub const REBUILD_RANDOM: u64 = 144;

/// Makes a detached LUKS2 header of the metadata that a checksum of the source vouches for, or else of
/// the first that is whole there, where no header counts or the second copy or a size is asked for, and
/// writes it to the target, from its start on. What stood there before is overwritten without question.
/// The source never changes.
///
/// The metadata stays byte by byte, and so does the size of the header; each key area has the
/// source's bytes, and so each keyslot opens by its passphrase. The uuid is `uuid`, else that of the
/// source's binary headers, else a new one; label and subsystem are those of the binary header that
/// vouches for it, whose sequence number is followed by the next, or else empty.
///
/// Before all else the first sectors of both copies' places become zeros, with one flush: an older
/// header there would still count while its key areas are overwritten. Then the key areas are written,
/// then the second copy of the header, then the first, a flush after each. Takes memory for the
/// metadata, before the first write. `progress` is told of the search for what checksums vouch for.
pub fn rebuild<S: Device, T: Device, P: SearchProgress>(
    alloc: Global,
    source: &mut S,
    target: &mut T,
    which: Which,
    uuid: Option<&str>,
    random: &[u8],
    progress: &mut P,
) -> Result<(), RebuildFault>
    requires source_room { S.failed source.old + 1 < 2 ^ 64 }
    requires target_room { T.failed target.old + 1 < 2 ^ 64 }
    requires settled { T.tells → IsSettled T.unsettled target.old }

    // The devices: `Device` exactly where a call of one of the two failed.
    ensures count { CountsEither is_rebuild_failure result (S.failed source.old)
        (S.failed source.new) (T.failed target.old) (T.failed target.new) }
    ensures kept { IsUnchanged S.tells S.size S.bytes S.unsettled source.old source.new }
    ensures size { T.size target.new ≡ T.size target.old }
    ensures settled { T.tells → OnOk result (IsSettled T.unsettled target.new) }

    // The first fault that stands, or a failed allocation, and then nothing of the target changed.
    ensures fault { S.tells → IfErr result (IsAnsweredFault (S.bytes source.old) which
        (option_map (λ t. t.now) uuid.entry) (T.size target.old) random.now) }
    ensures faultless { S.tells → OnOk result (IsRebuildable (S.bytes source.old) which
        (option_map (λ t. t.now) uuid.entry) (T.size target.old) random.now) }
    ensures refused { IfErr result (λ f. is_rebuild_failure f ≡ false
        → IsUnchanged T.tells T.size T.bytes T.unsettled target.old target.new) }
    ensures same { S.tells → T.tells → (f : TheFault)
        → IsRebuildFault (S.bytes source.old) which (option_map (λ t. t.now) uuid.entry)
        (T.size target.old) random.now f
        → T.bytes target.new ≡ T.bytes target.old }

    // Which bytes may have changed, also where a device failed.
    ensures rest { S.tells → T.tells
        → SameBut (IsOfRebuilt (S.bytes source.old) which)
        (T.bytes target.old) (T.bytes target.new) }

    // Before any other byte changes the first sectors of both copies' places are cleared, and nothing
    // counts where they are (`cleared_counts_no_more` of luks_writing). The second copy's stays so
    // until the key areas stand, the first copy's until the second copy stands too.
    ensures order { S.tells → T.tells → WritesFirstLast (S.bytes source.old) which
        (option_map (λ t. t.now) uuid.entry) random.now (T.bytes target.old) (T.bytes target.new) }

    // The header that was made: its metadata is the candidate's, and each keyslot gives by each
    // passphrase, whatever is allowed, what the equations give for that metadata and its key areas.
    ensures rebuilt { S.tells → T.tells → OnOk result (IsRebuilt (S.bytes source.old) which
        (option_map (λ t. t.now) uuid.entry) random.now (T.bytes target.old) (T.bytes target.new)) }
    ensures well_formed { S.tells → T.tells
        → OnOk result (WellFormed (T.bytes target.new) Elsewhere) }
    ensures opens { S.tells → T.tells → OnOk result (OfTaken (S.bytes source.old) which
        (λ taken. (allowed : Allowed) (n : ℕ) (p : List ℕ) (a : Opened)
        → Gives allowed taken.json (S.bytes source.old) n p a
        ↔ AnswerWithin allowed (T.bytes target.new) n p a)) }
{
    let found = find_candidate(alloc, source, which, progress)?;
    make_of(source, target, &found, uuid, random)
}

/// Makes a detached LUKS2 header of this JSON area, which was found for the source, and writes it to the target as
/// `rebuild` does, in the same order. `place` is the copy of the source in whose place the JSON area is put: its size
/// is that of the header, and its binary header the first that is asked for a uuid. Label and subsystem are empty, the
/// sequence number is 1.
///
/// Whether a header of the source counts is no matter: `Counts` never comes. `NoMetadata` comes exactly where the JSON
/// area is no metadata that is accepted. The key areas have the source's bytes. The source never changes. Takes memory for the
/// metadata, before the first write.
pub fn rebuild_from<S: Device, T: Device>(
    alloc: Global,
    source: &mut S,
    target: &mut T,
    json: Vec<u8>,
    place: Place,
    uuid: Option<&str>,
    random: &[u8],
) -> Result<(), RebuildFault>
    requires place { IsPlace (S.size source.old) place }
    requires long { 4096 + length json.items ≡ place.size }
    requires source_room { S.failed source.old + 1 < 2 ^ 64 }
    requires target_room { T.failed target.old + 1 < 2 ^ 64 }
    requires settled { T.tells → IsSettled T.unsettled target.old }

    // The devices: `Device` exactly where a call of one of the two failed.
    ensures count { CountsEither is_rebuild_failure result (S.failed source.old)
        (S.failed source.new) (T.failed target.old) (T.failed target.new) }
    ensures kept { IsUnchanged S.tells S.size S.bytes S.unsettled source.old source.new }
    ensures size { T.size target.new ≡ T.size target.old }
    ensures settled { T.tells → OnOk result (IsSettled T.unsettled target.new) }

    // The first fault that stands, or a failed allocation, and then nothing of the target changed.
    ensures fault { S.tells → IfErr result (IsAnsweredMaking (S.bytes source.old)
        (source_with json.items place) (option_map (λ t. t.now) uuid.entry) (T.size target.old)
        random.now) }
    ensures faultless { S.tells → OnOk result (IsMakeable (S.bytes source.old)
        (source_with json.items place) (option_map (λ t. t.now) uuid.entry) (T.size target.old)
        random.now) }
    ensures refused { IfErr result (λ f. is_rebuild_failure f ≡ false
        → IsUnchanged T.tells T.size T.bytes T.unsettled target.old target.new) }
    ensures same { S.tells → T.tells → (f : TheFault)
        → IsMakingFault (S.bytes source.old) (source_with json.items place)
        (option_map (λ t. t.now) uuid.entry) (T.size target.old) random.now f
        → T.bytes target.new ≡ T.bytes target.old }

    // Which bytes may have changed, also where a device failed.
    ensures rest { S.tells → T.tells
        → SameBut (IsOfHeader (source_with json.items place))
        (T.bytes target.old) (T.bytes target.new) }

    // In the order of `rebuild`.
    ensures order { S.tells → T.tells → MakesFirstLast (S.bytes source.old)
        (option_map (λ t. t.now) uuid.entry) random.now (T.bytes target.old) (T.bytes target.new)
        (source_with json.items place) }

    // The header that was made, of this metadata; and each keyslot gives by each passphrase, whatever is allowed, what the
    // equations give for this metadata and the source's key areas.
    ensures rebuilt { S.tells → T.tells → OnOk result (IsMade (S.bytes source.old)
        (option_map (λ t. t.now) uuid.entry) random.now (T.bytes target.old) (T.bytes target.new)
        (source_with json.items place)) }
    ensures well_formed { S.tells → T.tells
        → OnOk result (WellFormed (T.bytes target.new) Elsewhere) }
    ensures opens { S.tells → T.tells → OnOk result ((allowed : Allowed) (n : ℕ) (p : List ℕ) (a : Opened)
        → Gives allowed json.items (S.bytes source.old) n p a
        ↔ AnswerWithin allowed (T.bytes target.new) n p a) }
{
    let meta = accepted(alloc, &json)?;
    let vouch = None;
    let found = Candidate {
        place,
        json,
        meta,
        vouch,
    };
    make_of(source, target, &found, uuid, random)
}

/// The metadata of the JSON area.
fn accepted(alloc: Global, json: &[u8]) -> Result<Meta, RebuildFault>
    ensures meta { IfOk result (λ m. IsMeta json.now (content m)) }
    ensures refused { IfErr result (IsNoMeta json.now) }
{
    match Meta::read(alloc, json) {
        Ok(meta) => Ok(meta),
        Err(MetaFault::Memory) => Err(RebuildFault::Memory),
        Err(_) => Err(RebuildFault::NoMetadata),
    }
}

/// Judges what is found, and makes the header of it.
fn make_of<S: Device, T: Device>(
    source: &mut S,
    target: &mut T,
    found: &Candidate,
    uuid: Option<&str>,
    random: &[u8],
) -> Result<(), RebuildFault>
    requires whole { IsWhole (S.size source.old) found.now }
    requires source_room { S.failed source.old + 1 < 2 ^ 64 }
    requires target_room { T.failed target.old + 1 < 2 ^ 64 }
    requires settled { T.tells → IsSettled T.unsettled target.old }
    ensures count { CountsEither is_rebuild_failure result (S.failed source.old)
        (S.failed source.new) (T.failed target.old) (T.failed target.new) }
    ensures kept { IsUnchanged S.tells S.size S.bytes S.unsettled source.old source.new }
    ensures size { T.size target.new ≡ T.size target.old }
    ensures settled { T.tells → OnOk result (IsSettled T.unsettled target.new) }
    ensures fault { S.tells → IfErr result (λ f. is_rebuild_failure f ≡ false
        → IsLeast rebuild_key (IsMakingFault (S.bytes source.old) (source_of found.now)
        (option_map (λ t. t.now) uuid.entry) (T.size target.old) random.now) f) }
    ensures faultless { S.tells → OnOk result (IsMakeable (S.bytes source.old)
        (source_of found.now) (option_map (λ t. t.now) uuid.entry) (T.size target.old) random.now) }
    ensures refused { IfErr result (λ f. is_rebuild_failure f ≡ false
        → IsUnchanged T.tells T.size T.bytes T.unsettled target.old target.new) }
    ensures same { S.tells → T.tells → (f : TheFault)
        → IsMakingFault (S.bytes source.old) (source_of found.now)
        (option_map (λ t. t.now) uuid.entry) (T.size target.old) random.now f
        → T.bytes target.new ≡ T.bytes target.old }
    ensures rest { S.tells → T.tells → SameBut (IsOfHeader (source_of found.now))
        (T.bytes target.old) (T.bytes target.new) }
    ensures order { S.tells → T.tells → MakesFirstLast (S.bytes source.old)
        (option_map (λ t. t.now) uuid.entry) random.now (T.bytes target.old) (T.bytes target.new)
        (source_of found.now) }
    ensures rebuilt { S.tells → T.tells → OnOk result (IsMade (S.bytes source.old)
        (option_map (λ t. t.now) uuid.entry) random.now (T.bytes target.old) (T.bytes target.new)
        (source_of found.now)) }
    ensures well_formed { S.tells → T.tells
        → OnOk result (WellFormed (T.bytes target.new) Elsewhere) }
    ensures opens { S.tells → T.tells → OnOk result ((allowed : Allowed) (n : ℕ) (p : List ℕ) (a : Opened)
        → Gives allowed found.now.json.items (S.bytes source.old) n p a
        ↔ AnswerWithin allowed (T.bytes target.new) n p a) }
{
    judge(found, source.len(), target.len(), uuid, random)?;
    let field = own_field(source, found.place, uuid, random)?;
    write_rebuilt(source, target, found, field, random)?;
    Ok(())
}

/// Clears the places of both copies, and writes the new header.
fn write_rebuilt<S: Device, T: Device>(
    source: &mut S,
    target: &mut T,
    found: &Candidate,
    field: [u8; 40],
    random: &[u8],
) -> Result<(), DeviceFault>
    requires whole { IsWhole (S.size source.old) found.now }
    requires apart { AreSlotsApart (content found.now.meta) }
    requires there { HasSlotsInside (content found.now.meta) (S.size source.old) }
    requires region { HasRegionInside (content found.now.meta) found.now.place.size (T.size target.old) }
    requires random { length random.now ≡ random_size }
    requires source_room { S.failed source.old + 1 < 2 ^ 64 }
    requires target_room { T.failed target.old + 1 < 2 ^ 64 }
    requires settled { T.tells → IsSettled T.unsettled target.old }
    ensures count { CountsEither is_failure result (S.failed source.old) (S.failed source.new)
        (T.failed target.old) (T.failed target.new) }
    ensures kept { IsUnchanged S.tells S.size S.bytes S.unsettled source.old source.new }
    ensures size { T.size target.new ≡ T.size target.old }
    ensures settled { T.tells → OnOk result (IsSettled T.unsettled target.new) }
    ensures rest { T.tells → SameBut (IsOfWhole found.now) (T.bytes target.old) (T.bytes target.new) }
    ensures order { S.tells → T.tells → (uuid : List ℕ) → field ≡ uuid ++ replicate 4 0
        → WritesWholeLast found.now (S.bytes source.old) uuid random.now
        (T.bytes target.old) (T.bytes target.new) }
    ensures written { S.tells → T.tells → OnOk result ((uuid : List ℕ)
        → field ≡ uuid ++ replicate 4 0
        → IsWholeWritten found.now (S.bytes source.old) uuid random.now (T.bytes target.new)) }
{
    clear_places(target, found.place.size)?;
    write_over_cleared(source, target, found, field, random)
}

/// Writes the new header over cleared places: the key areas, the second copy, the first.
fn write_over_cleared<S: Device, T: Device>(
    source: &mut S,
    target: &mut T,
    found: &Candidate,
    field: [u8; 40],
    random: &[u8],
) -> Result<(), DeviceFault>
    requires whole { IsWhole (S.size source.old) found.now }
    requires apart { AreSlotsApart (content found.now.meta) }
    requires there { HasSlotsInside (content found.now.meta) (S.size source.old) }
    requires region { HasRegionInside (content found.now.meta) found.now.place.size (T.size target.old) }
    requires random { length random.now ≡ random_size }
    requires source_room { S.failed source.old + 1 < 2 ^ 64 }
    requires target_room { T.failed target.old + 1 < 2 ^ 64 }
    requires settled { T.tells → IsSettled T.unsettled target.old }
    ensures count { CountsEither is_failure result (S.failed source.old) (S.failed source.new)
        (T.failed target.old) (T.failed target.new) }
    ensures kept { IsUnchanged S.tells S.size S.bytes S.unsettled source.old source.new }
    ensures size { T.size target.new ≡ T.size target.old }
    ensures settled { T.tells → OnOk result (IsSettled T.unsettled target.new) }
    ensures rest { T.tells → SameBut (IsOfWhole found.now) (T.bytes target.old) (T.bytes target.new) }
    ensures order { S.tells → T.tells → (uuid : List ℕ) → field ≡ uuid ++ replicate 4 0
        → WritesWholeInTurn found.now (S.bytes source.old) uuid random.now
        (T.bytes target.old) (T.bytes target.new) }
    ensures written { S.tells → T.tells → OnOk result ((uuid : List ℕ)
        → field ≡ uuid ++ replicate 4 0
        → IsWholeWritten found.now (S.bytes source.old) uuid random.now (T.bytes target.new)) }
{
    copy_areas(source, target, &found.meta)?;
    let second = taken_salt(random, SECOND_SALT);
    write_rebuilt_copy(target, found, found.place.size, field, second)?;
    let first = taken_salt(random, FIRST_SALT);
    write_rebuilt_copy(target, found, 0, field, first)?;
    Ok(())
}
