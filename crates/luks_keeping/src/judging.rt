//! The first fault of a header on a device of any length.
ghost use Rattle.std.specs.Prelude.{◌≡◌, ◌≢◌, ℕ, List, length, IfErr, IfSome, IsNone, IsOk, OnOk};
ghost use Rattle.serde_json.specs.Data.{Data as Value};
ghost use Rattle.luks_area.specs.Area.{Fit};
ghost use Rattle.luks_area.specs.First.{IsLeast};
ghost use Rattle.luks2_header.specs.Header2.{HoldsBin2};
ghost use Rattle.luks_meta.specs.Content.{content};
ghost use Rattle.luks_reading.specs.Checked.{check_key, HoldsMeta, IsFirstBelow, IsLuks2Fault, IsLuks2Faultless, IsLuks2Layout, SegmentsFollow};
ghost use Rattle.luks_reading.specs.Header.{IsAcceptedHeader, IsHeader};
ghost use Rattle.luks_reading.specs.Layout2.{Luks2Area};
ghost use Rattle.luks_reading.specs.Reported.{HeaderArea};
ghost use Rattle.luks_keeping.specs.Judged.{HasFields, IsFaultOn, IsFormedOn};

use luks_area::fit;
use luks_meta::{Meta, MetaFault};
use luks_reading::{AreaName, CheckFault, Data, Header, judge_luks1, luks2_areas};
use luks2_header::Bin2;

/// The first fault of a volume of `total` bytes with this header.
pub(crate) fn judge_header(header: &Header, payload: Data, total: u64) -> Result<(), CheckFault>
    requires { IsAcceptedHeader header.now }
    ensures fields { OnOk result (HasFields header.now) }
    ensures fits { OnOk result (Fit (HeaderArea header.now payload total) total) }
    ensures formed { (v : List ℕ) → IsHeader v header.now
        → OnOk result (IsFormedOn v payload total) }
    ensures refused { (v : List ℕ) → IsHeader v header.now
        → IfErr result (IsLeast check_key (IsFaultOn v payload total)) }
    ensures only { (v : List ℕ) → IsHeader v header.now → IsFormedOn v payload total
        → IsOk result }
    ensures device { IfErr result (λ f. f ≢ CheckFault.Device) }
    ensures memory { IfErr result (λ f. f ≢ CheckFault.Memory) }
{
    match header {
        Header::Luks1(bytes) => {
            judge_luks1(bytes.as_slice(), payload, total)?;
            Ok(())
        }
        Header::Luks2(copy) => judge_luks2(&copy.meta, &copy.header, payload, total),
    }
}

/// Judges a LUKS2 header with accepted metadata.
fn judge_luks2(meta: &Meta, header: &Bin2, payload: Data, total: u64) -> Result<(), CheckFault>
    ensures fits { OnOk result
        (Fit (Luks2Area (content meta.now) header.now.hdr_size payload total) total) }
    ensures accepted { (b json : List ℕ) → HoldsBin2 b header.now → HoldsMeta json meta.now
        → OnOk result (IsLuks2Layout b json payload total (content meta.now)) }
    ensures refused { (b json : List ℕ) → HoldsBin2 b header.now → HoldsMeta json meta.now
        → IsLuks2Faultless b json
        → IfErr result (IsLeast check_key (IsLuks2Fault b json payload total)) }
    ensures only { (b json : List ℕ) (j : Value) → HoldsBin2 b header.now → HoldsMeta json meta.now
        → IsLuks2Layout b json payload total j → IsOk result }
    ensures device { IfErr result (λ f. f ≢ CheckFault.Device) }
    ensures memory { IfErr result (λ f. f ≢ CheckFault.Memory) }
{
    if let Some(n) = segment_below(meta, payload) {
        return Err(CheckFault::Meta(MetaFault::Region(AreaName::Segment(n))));
    }
    let areas = luks2_areas(meta, header.hdr_size, payload, total);
    fit(&areas, total)?;
    Ok(())
}

/// With the payload here, the least segment that begins before the end of the key areas' region.
fn segment_below(meta: &Meta, payload: Data) -> Option<u8>
    ensures some { (json : List ℕ) → HoldsMeta json meta.now
        → IfSome result (IsFirstBelow json payload (content meta.now)) }
    ensures none { (json : List ℕ) → HoldsMeta json meta.now → IsNone result → payload ≡ Data.Here
        → SegmentsFollow (length json) (content meta.now) }
{
    match payload {
        Data::Here => meta.first_segment_below(),
        Data::Elsewhere => None,
    }
}
