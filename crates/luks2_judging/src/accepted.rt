//! What is judged of an edit of a LUKS2 volume before a keyslot is opened.
ghost use Rattle.std.specs.Prelude.{◌≡◌, ◌≢◌, ◌<◌, ℕ, List, false, length, IfErr, IfOk, OnOk};
ghost use Rattle.luks_area.specs.declared.area.Area.{Area as TheArea};
ghost use Rattle.luks_area.specs.declared.area.AreaName.{AreaName};
ghost use Rattle.luks_area.specs.Area.{IsInside};
ghost use Rattle.luks_area.specs.Names.{HasArea};
ghost use Rattle.luks_edit.specs.EditFaults.{edit_row, is_edit_failure};
ghost use Rattle.luks_reading.specs.Checked.{AreaOf, WellFormed};
ghost use Rattle.luks_reading.specs.Header.{IsChosenCopy};
ghost use Rattle.luks_reading.specs.Listing.{Lists};
ghost use Rattle.luks_reading.specs.Reported.{HeaderArea};
ghost use Rattle.luks_reading.specs.declared.header.Header.TheVariants.{Luks2 as OfLuks2};
ghost use Rattle.luks2_edit_laws.specs.Refused.{Refusal2};
ghost use Rattle.luks2_judging.specs.Accepted.{IsUnaccepted};
ghost use Rattle.luks2_judging.specs.Judging.{IsAcceptedFor, IsJudgedTo};

use crate::keyslots::{judge_opener, judge_requirements, judge_wanted};
use luks_area::Areas;
use luks_edit::{Edit, EditFault};
use luks_reading::{ChosenCopy, Data, check_copy};

/// The areas of a volume of `total` bytes with this copy, each of them inside, or why the volume isn't
/// accepted.
fn accepted_areas(copy: &ChosenCopy, payload: Data, total: u64) -> Result<Areas, EditFault>
    ensures own { IfErr result (λ f. is_edit_failure f ≡ false) }
    ensures memory { IfErr result (λ f. f ≢ EditFault.Memory) }
    ensures inside { IfOk result (λ areas. (m : AreaName) (a : TheArea) → HasArea areas m a
        → IsInside a total) }
    ensures listed { IfOk result (λ areas.
        Lists areas (HeaderArea (OfLuks2 copy.now) payload total)) }
    ensures well { (v : List ℕ) → IsChosenCopy v copy.now → length v ≡ total
        → OnOk result (WellFormed v payload) }
    ensures areas { (v : List ℕ) → IsChosenCopy v copy.now → length v ≡ total
        → IfOk result (λ areas. Lists areas (AreaOf v payload)) }
    ensures row { IfErr result (λ f. edit_row f ≡ 0) }
    ensures refused { (v : List ℕ) → IsChosenCopy v copy.now → length v ≡ total
        → IfErr result (IsUnaccepted v payload) }
{
    match check_copy(copy, payload, total) {
        Ok(report) => Ok(report.areas),
        Err(fault) => Err(EditFault::NotAccepted(fault)),
    }
}

/// The volume's areas, once the rows are judged that need no key: `NotAccepted`, `Requirements`,
/// `NoSuchSlot` and `SameSlot`.
pub(crate) fn judge_without_key(
    copy: &ChosenCopy,
    payload: Data,
    total: u64,
    edit: &Edit<'_>,
) -> Result<Areas, EditFault>
    ensures own { IfErr result (λ f. is_edit_failure f ≡ false) }
    ensures memory { IfErr result (λ f. f ≢ EditFault.Memory) }
    ensures accepted { IfOk result (λ areas. IsAcceptedFor copy.now areas total edit.now) }
    ensures well { (v : List ℕ) → IsChosenCopy v copy.now → length v ≡ total
        → OnOk result (WellFormed v payload) }
    ensures passed { (v random : List ℕ) → IsChosenCopy v copy.now → length v ≡ total
        → IfOk result (λ areas. IsJudgedTo 4 copy.now areas v payload edit.now random) }
    ensures refused { (v random : List ℕ) → IsChosenCopy v copy.now → length v ≡ total
        → IfErr result (Refusal2 v payload edit.now random) }
    ensures early { IfErr result (λ f. edit_row f < 4) }
{
    let areas = accepted_areas(copy, payload, total)?;
    judge_requirements(&copy.meta)?;
    judge_wanted(&copy.meta, edit)?;
    judge_opener(edit)?;
    Ok(areas)
}
