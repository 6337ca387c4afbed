//! How many random bytes an edit of a LUKS1 volume takes.
ghost use Rattle.std.specs.Prelude.{◌≡◌, ◌≢◌, ℕ, List, false, length, IfErr, MatchResult};
ghost use Rattle.luks1_header.specs.Header1.{key_bytes_of, HoldsSlots};
ghost use Rattle.luks_edit.specs.EditFaults.{is_edit_failure};
ghost use Rattle.luks_reading.specs.Header.{IsHeader};
ghost use Rattle.luks_reading.specs.declared.header.Header.TheVariants.{Luks1 as OfLuks1};
ghost use Rattle.luks1_edits.specs.Accepted.{IsNewFault, IsNewFree};
ghost use Rattle.luks1_edits.specs.Needed.{TellsNeed1};
ghost use Rattle.luks1_edits.specs.Refused.{NeedsFor};

use crate::accepted::judge_without_key;
use crate::keyslots::{keyslot_need, new_keyslot, number_asked};
use luks_edit::{Deed, Edit, EditFault, uuid_need};
use luks_reading::Data;
use luks2_header::Luks1;

/// How many random bytes the edit takes of the LUKS1 volume of `total` bytes whose header has these
/// 592 bytes, or the first of `NotAccepted`, `NoSuchSlot`, `SameSlot`, `SlotTaken` and `NoFreeSlot`.
///
/// An edit that makes a keyslot takes 32 for its salt, and for each of its stripes but the last as
/// many as the volume key has; one that makes a uuid takes 16; any other edit takes none. No keyslot is
/// opened.
pub fn needed_luks1(
    header: &[u8; 592],
    payload: Data,
    total: u64,
    edit: &Edit<'_>,
) -> Result<u64, EditFault>
    ensures own { IfErr result (λ f. is_edit_failure f ≡ false) }
    ensures memory { IfErr result (λ f. f ≢ EditFault.Memory) }
    ensures tells { (v : List ℕ) → IsHeader v (OfLuks1 header.now) → length v ≡ total
        → TellsNeed1 payload v edit.now result }
{
    let header = match judge_without_key(header, payload, total, edit) {
        Ok(header) => header,
        Err(fault) => return Err(fault),
    };
    match edit.deed() {
        Deed::Seal(sealed) => new_need(&header.fields, number_asked(sealed.place)),
        Deed::Remove(_) => Ok(0),
        Deed::Rewrite(rewritten) => Ok(uuid_need(rewritten.uuid) as u64),
        Deed::Erase => Ok(0),
    }
}

/// What the new keyslot takes. Refused by `SlotTaken`, `NoFreeSlot`.
fn new_need(header: &Luks1, to: Option<u8>) -> Result<u64, EditFault>
    ensures own { IfErr result (λ f. is_edit_failure f ≡ false) }
    ensures memory { IfErr result (λ f. f ≢ EditFault.Memory) }
    ensures need { (v : List ℕ) → HoldsSlots v header.now.slots
        → key_bytes_of v ≡ header.now.common.key_bytes
        → MatchResult result (NeedsFor v (IsNewFree v to)) (IsNewFault v to) }
{
    match new_keyslot(header, to) {
        Ok(n) => Ok(keyslot_need(header, n)),
        Err(fault) => Err(fault),
    }
}
