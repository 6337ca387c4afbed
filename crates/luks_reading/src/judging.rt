ghost use Rattle.std.specs.Prelude.{◌≡◌, ◌≢◌, ℕ, List, length, IfOk, IfErr, OnOk, IsOk, IfSome, IsNone, MatchResult, ⊤};
ghost use Rattle.luks_area.specs.Area.{Fit};
ghost use Rattle.luks_area.specs.First.{IsLeast};
ghost use Rattle.luks_area.specs.Names.{HasArea};
ghost use Rattle.luks_reading.specs.Layout1.{Luks1Area};
ghost use Rattle.luks_reading.specs.Layout2.{Luks2Area};
ghost use Rattle.luks_reading.specs.Listing.{Lists};
ghost use Rattle.luks2_header.specs.Header2.{HoldsBin2};
ghost use Rattle.serde_json.specs.Data.{Data as Value};
ghost use Rattle.luks_meta.specs.Content.{content};
ghost use Rattle.luks_reading.specs.Checked.{check_key, HasLuks2Area, HoldsMeta, IsFirstBelow, IsLuks1Volume, IsLuks1Fault, IsLuks2Fault, IsLuks2Faultless, IsLuks2Layout, SegmentsFollow};

use crate::check_fault::CheckFault;
use crate::layout::{luks1_areas, luks2_areas};
use crate::report::Data;
use luks_area::{AreaName, Areas, fit};
use luks_meta::{Meta, MetaFault};
use luks2_header::{Bin2, Luks1};

/// The areas of a LUKS1 volume of `total` bytes whose first 592 bytes are `header`, or its first
/// fault: of the header, then of the areas.
pub fn judge_luks1(header: &[u8], payload: Data, total: u64) -> Result<Areas, CheckFault>
    requires { length header.now ≡ 592 }
    ensures accepted { OnOk result (IsLuks1Volume header.now payload total) }
    ensures fits { IfOk result (λ areas. Fit (HasArea areas) total) }
    ensures areas { IfOk result (λ areas. Lists areas (Luks1Area header.now payload total)) }
    ensures refused { IfErr result (IsLeast check_key (IsLuks1Fault header.now payload total)) }
    ensures only { IsLuks1Volume header.now payload total → IsOk result }
{
    let read = Luks1::read(header)?;
    let areas = luks1_areas(&read, payload, total);
    fit(&areas, total)?;
    Ok(areas)
}

/// The areas that accepted metadata names in a volume of `total` bytes, or the first fault.
pub(crate) fn judge_layout(
    meta: &Meta,
    header: &Bin2,
    payload: Data,
    total: u64,
) -> Result<Areas, CheckFault>
    ensures fits { IfOk result (λ areas. Fit (HasArea areas) total) }
    ensures listed { IfOk result (λ areas.
        Lists areas (Luks2Area (content meta.now) header.now.hdr_size payload total)) }
    ensures accepted { (b json : List ℕ) → HoldsBin2 b header.now → HoldsMeta json meta.now
        → OnOk result (IsLuks2Layout b json payload total (content meta.now)) }
    ensures areas { (b json : List ℕ) → HoldsBin2 b header.now → HoldsMeta json meta.now
        → IfOk result (λ areas. Lists areas (HasLuks2Area b json payload total)) }
    ensures refused { (b json : List ℕ) → HoldsBin2 b header.now → HoldsMeta json meta.now
        → IsLuks2Faultless b json
        → IfErr result (IsLeast check_key (IsLuks2Fault b json payload total)) }
    ensures only { (b json : List ℕ) (j : Value) → HoldsBin2 b header.now → HoldsMeta json meta.now
        → IsLuks2Layout b json payload total j → IsOk result }
    ensures device { IfErr result (λ f. f ≢ CheckFault.Device) }
    ensures memory { IfErr result (λ f. f ≢ CheckFault.Memory) }
{
    if let Some(n) = segment_below(meta, payload) {
        return Err(CheckFault::Meta(MetaFault::Region(AreaName::Segment(n))));
    }
    let areas = luks2_areas(meta, header.hdr_size, payload, total);
    fit(&areas, total)?;
    Ok(areas)
}

/// With the payload here, the least segment that begins before the end of the key areas' region.
fn segment_below(meta: &Meta, payload: Data) -> Option<u8>
    ensures some { (json : List ℕ) → HoldsMeta json meta.now
        → IfSome result (IsFirstBelow json payload (content meta.now)) }
    ensures none { (json : List ℕ) → HoldsMeta json meta.now → IsNone result → payload ≡ Data.Here
        → SegmentsFollow (length json) (content meta.now) }
{
    match payload {
        Data::Here => meta.first_segment_below(),
        Data::Elsewhere => None,
    }
}
