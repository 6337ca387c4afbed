//! Making the header of what stands, on the target.
ghost use Rattle.std.specs.Prelude.{◌≡◌, ◌↔◌, ◌+◌, ◌^◌, ◌<◌, ◌≤◌, ℕ, List, false, length, IfErr, OnOk};
ghost use Rattle.luks_area.specs.Device.{IsSettled, IsUnchanged, is_failure};
ghost use Rattle.luks_area.specs.Ranges.{part, SameBut};
ghost use Rattle.luks_area.specs.declared.area.Area.{Area as TheArea};
ghost use Rattle.luks1_header.specs.Header1.{luks1_size};
ghost use Rattle.luks_writing.specs.TwoDevices.{CountsEither};
ghost use Rattle.luks1_header.specs.Written.{WritesLuks1};
ghost use Rattle.luks_slot.specs.declared.allowed.Allowed.{Allowed as TheAllowed};
ghost use Rattle.luks_reading.specs.Answer.{AnswerWithin, Opened};
ghost use Rattle.luks_reading.specs.Checked.{WellFormed};
ghost use Rattle.luks_reading.specs.declared.report.Data.TheVariants.{Elsewhere};
ghost use Rattle.luks1_rebuilding.specs.Gives.{Gives};
ghost use Rattle.luks1_rebuilding.specs.Headed.{headed};
ghost use Rattle.luks1_rebuilding.specs.KeyAreas.{HasKeptArea, IsKeptInUse};
ghost use Rattle.luks1_rebuilding.specs.Outcome.{least_target, IsAnsweredFault, IsAnsweredMaking, IsMakeable, IsMakingFaultIn, IsRebuildable, IsRebuildFault};
ghost use Rattle.luks1_rebuilding.specs.RebuildFaults.{is_rebuild_failure};
ghost use Rattle.luks1_rebuilding.specs.Rebuilt.{ClearsFirst1, IsOfRebuilt, IsRebuilt};
ghost use Rattle.luks1_rebuilding.specs.Used.{AreApart, AreInside, IsOfWritten, IsWritten, WritesFirst1, WritesInTurn1};
ghost use Rattle.luks1_rebuilding.specs.declared.rebuild_fault.Rebuild1Fault.{Rebuild1Fault as TheFault};

use crate::judging::{MadeHeader, first_bytes, is_whole, judged_header};
use crate::key_areas::copy_areas;
use crate::rebuild_fault::Rebuild1Fault;
use luks_area::{Device, DeviceFault};
use luks_writing::{clear_places, write_range};
use luks1_mending::Given;

/// The place of the second copy of an older LUKS2 header of the usual metadata size.
const OLDER_SECOND: u64 = 16384;

/// Makes a detached LUKS1 header of what is left of one in the source and of what is given, and writes it
/// to the target, from its start on. What stood there before is overwritten without question. The source never
/// changes.
///
/// A field stays as it is where it meets its rules, and what is given wins. A keyslot that breaks its own rules,
/// whose area lies outside the source, or meets that of one that comes first, becomes a disabled one. The key
/// areas of the enabled keyslots that are kept have the source's bytes. Whether metadata of LUKS2 is whole in the
/// source is no matter here.
///
/// Before all else the first sectors at 0 and at 16384, where an older header has its copies, become zeros: it
/// would still count while its key areas are overwritten. Then the key areas are written, then the header, a
/// flush after each. Takes no memory.
pub fn rebuild1<S: Device, T: Device>(
    source: &mut S,
    target: &mut T,
    given: &Given,
) -> Result<(), Rebuild1Fault>
    requires source_room { S.failed source.old + 1 < 2 ^ 64 }
    requires target_room { T.failed target.old + 1 < 2 ^ 64 }
    requires settled { T.tells → IsSettled T.unsettled target.old }

    // The devices: `Device` exactly where a call of one of the two failed.
    ensures count { CountsEither is_rebuild_failure result (S.failed source.old)
        (S.failed source.new) (T.failed target.old) (T.failed target.new) }
    ensures kept { IsUnchanged S.tells S.size S.bytes S.unsettled source.old source.new }
    ensures size { T.size target.new ≡ T.size target.old }
    ensures settled { T.tells → OnOk result (IsSettled T.unsettled target.new) }

    // The first fault that stands, and then nothing of the target changed.
    ensures fault { S.tells → IfErr result
        (IsAnsweredFault (S.bytes source.old) given.now (T.size target.old)) }
    ensures faultless { S.tells → OnOk result
        (IsRebuildable (S.bytes source.old) given.now (T.size target.old)) }
    ensures refused { IfErr result (λ f. is_rebuild_failure f ≡ false
        → IsUnchanged T.tells T.size T.bytes T.unsettled target.old target.new) }
    ensures same { S.tells → T.tells → (f : TheFault)
        → IsRebuildFault (S.bytes source.old) given.now (T.size target.old) f
        → T.bytes target.new ≡ T.bytes target.old }

    // Which bytes may have changed, also where a device failed.
    ensures rest { S.tells → T.tells → SameBut (IsOfRebuilt (S.bytes source.old) given.now)
        (T.bytes target.old) (T.bytes target.new) }

    // Before any other byte changes the first sector is cleared, and nothing counts at 0 where it is
    // (`cleared_counts_no_more` of luks_writing). The header comes last.
    ensures order { S.tells → T.tells → ClearsFirst1 (S.bytes source.old) given.now
        (T.bytes target.old) (T.bytes target.new) }

    // The header that was made, which is accepted; and each kept keyslot that is in use gives by each passphrase
    // what the equations give for its entry, its area and the digest in the source, with what is taken of the texts
    // and of the key's length.
    ensures rebuilt { S.tells → T.tells → OnOk result (IsRebuilt (S.bytes source.old) given.now
        (T.bytes target.old) (T.bytes target.new)) }
    ensures well_formed { S.tells → T.tells
        → OnOk result (WellFormed (T.bytes target.new) Elsewhere) }
    ensures opens { S.tells → T.tells → OnOk result ((allowed : TheAllowed) (n : ℕ) (p : List ℕ) (a : Opened)
        → IsKeptInUse (S.bytes source.old) given.now n
        → Gives allowed.older (S.bytes source.old) given.now n p a
        ↔ AnswerWithin allowed (T.bytes target.new) n p a) }
{
    let bytes = first_bytes(source)?;
    if is_whole(bytes.as_slice(), source.len(), given) {
        return Err(Rebuild1Fault::Counts);
    }
    rebuild1_from(source, target, &bytes, given)
}

/// Rebuilds from a header that was found near to the source's: it is made of these 592 bytes in place of the source's
/// first ones, and of what is given. Whether the source's own header, or this one, is accepted as it stands is no matter:
/// `Counts` never comes. The key areas have the source's bytes. The source never changes.
pub fn rebuild1_from<S: Device, T: Device>(
    source: &mut S,
    target: &mut T,
    header: &[u8; 592],
    given: &Given,
) -> Result<(), Rebuild1Fault>
    requires large { luks1_size ≤ S.size source.old }
    requires source_room { S.failed source.old + 1 < 2 ^ 64 }
    requires target_room { T.failed target.old + 1 < 2 ^ 64 }
    requires settled { T.tells → IsSettled T.unsettled target.old }

    // The devices: `Device` exactly where a call of one of the two failed.
    ensures count { CountsEither is_rebuild_failure result (S.failed source.old)
        (S.failed source.new) (T.failed target.old) (T.failed target.new) }
    ensures kept { IsUnchanged S.tells S.size S.bytes S.unsettled source.old source.new }
    ensures size { T.size target.new ≡ T.size target.old }
    ensures settled { T.tells → OnOk result (IsSettled T.unsettled target.new) }

    // The first fault that stands of the volume with this header, and then nothing of the target changed.
    ensures fault { S.tells → IfErr result
        (IsAnsweredMaking (headed (S.bytes source.old) header.now) given.now
        (T.size target.old)) }
    ensures faultless { S.tells → OnOk result
        (IsMakeable (headed (S.bytes source.old) header.now) given.now (T.size target.old)) }
    ensures refused { IfErr result (λ f. is_rebuild_failure f ≡ false
        → IsUnchanged T.tells T.size T.bytes T.unsettled target.old target.new) }
    ensures same { S.tells → T.tells → (f : TheFault)
        → IsMakingFaultIn (headed (S.bytes source.old) header.now) given.now (T.size target.old) f
        → T.bytes target.new ≡ T.bytes target.old }

    // Which bytes may have changed, also where a device failed.
    ensures rest { S.tells → T.tells
        → SameBut (IsOfRebuilt (headed (S.bytes source.old) header.now) given.now)
        (T.bytes target.old) (T.bytes target.new) }

    // In the order of `rebuild1`.
    ensures order { S.tells → T.tells
        → ClearsFirst1 (headed (S.bytes source.old) header.now) given.now
        (T.bytes target.old) (T.bytes target.new) }

    // The header that was made, which is accepted; each key area is the source's; and each kept keyslot that is in
    // use gives by each passphrase what the equations give for this header and the source's key areas.
    ensures rebuilt { S.tells → T.tells
        → OnOk result (IsRebuilt (headed (S.bytes source.old) header.now) given.now
        (T.bytes target.old) (T.bytes target.new)) }
    ensures areas { S.tells → T.tells → OnOk result ((n : ℕ) (a : TheArea)
        → HasKeptArea (headed (S.bytes source.old) header.now) given.now n a
        → part (T.bytes target.new) a.start a.len ≡ part (S.bytes source.old) a.start a.len) }
    ensures well_formed { S.tells → T.tells
        → OnOk result (WellFormed (T.bytes target.new) Elsewhere) }
    ensures opens { S.tells → T.tells → OnOk result ((allowed : TheAllowed) (n : ℕ) (p : List ℕ) (a : Opened)
        → IsKeptInUse (headed (S.bytes source.old) header.now) given.now n
        → Gives allowed.older (headed (S.bytes source.old) header.now) given.now n p a
        ↔ AnswerWithin allowed (T.bytes target.new) n p a) }
{
    let judged = judged_header(header.as_slice(), source.len(), given, target.len())?;
    write_rebuilt(source, target, &judged)?;
    Ok(())
}

/// Clears the places of an older header, and writes the new one.
fn write_rebuilt<S: Device, T: Device>(
    source: &mut S,
    target: &mut T,
    header: &MadeHeader,
) -> Result<(), DeviceFault>
    requires written { WritesLuks1 header.now.bytes header.now.fields }
    requires eight { length header.now.fields.slots ≡ 8 }
    requires apart { AreApart header.now.fields }
    requires there { AreInside header.now.fields (S.size source.old) }
    requires within { AreInside header.now.fields (T.size target.old) }
    requires large { least_target ≤ T.size target.old }
    requires source_room { S.failed source.old + 1 < 2 ^ 64 }
    requires target_room { T.failed target.old + 1 < 2 ^ 64 }
    requires settled { T.tells → IsSettled T.unsettled target.old }
    ensures count { CountsEither is_failure result (S.failed source.old) (S.failed source.new)
        (T.failed target.old) (T.failed target.new) }
    ensures kept { IsUnchanged S.tells S.size S.bytes S.unsettled source.old source.new }
    ensures size { T.size target.new ≡ T.size target.old }
    ensures settled { T.tells → OnOk result (IsSettled T.unsettled target.new) }
    ensures rest { T.tells
        → SameBut (IsOfWritten header.now.fields) (T.bytes target.old) (T.bytes target.new) }
    ensures order { S.tells → T.tells → WritesFirst1 header.now.fields (S.bytes source.old)
        (T.bytes target.old) (T.bytes target.new) }
    ensures written { S.tells → T.tells
        → OnOk result (IsWritten header.now.fields header.now.bytes
        (S.bytes source.old) (T.bytes target.new)) }
{
    clear_places(target, OLDER_SECOND)?;
    write_over_cleared(source, target, header)
}

/// Writes the new header over cleared places: the key areas, then the header.
fn write_over_cleared<S: Device, T: Device>(
    source: &mut S,
    target: &mut T,
    header: &MadeHeader,
) -> Result<(), DeviceFault>
    requires written { WritesLuks1 header.now.bytes header.now.fields }
    requires eight { length header.now.fields.slots ≡ 8 }
    requires apart { AreApart header.now.fields }
    requires there { AreInside header.now.fields (S.size source.old) }
    requires within { AreInside header.now.fields (T.size target.old) }
    requires large { least_target ≤ T.size target.old }
    requires source_room { S.failed source.old + 1 < 2 ^ 64 }
    requires target_room { T.failed target.old + 1 < 2 ^ 64 }
    requires settled { T.tells → IsSettled T.unsettled target.old }
    ensures count { CountsEither is_failure result (S.failed source.old) (S.failed source.new)
        (T.failed target.old) (T.failed target.new) }
    ensures kept { IsUnchanged S.tells S.size S.bytes S.unsettled source.old source.new }
    ensures size { T.size target.new ≡ T.size target.old }
    ensures settled { T.tells → OnOk result (IsSettled T.unsettled target.new) }
    ensures rest { T.tells
        → SameBut (IsOfWritten header.now.fields) (T.bytes target.old) (T.bytes target.new) }
    ensures order { S.tells → T.tells → WritesInTurn1 header.now.fields (S.bytes source.old)
        (T.bytes target.old) (T.bytes target.new) }
    ensures written { S.tells → T.tells
        → OnOk result (IsWritten header.now.fields header.now.bytes
        (S.bytes source.old) (T.bytes target.new)) }
{
    copy_areas(source, target, &header.fields)?;
    write_range(target, 0, header.bytes.as_slice())?;
    Ok(())
}
