//! The segments of LUKS2 metadata, as an array by number.
ghost use Rattle.std.specs.Prelude.{◌≡◌, ◌<◌, codes, IfOk, None, OnOk, option_map};
ghost use Rattle.serde_json.specs.Data.{no_members, object, put as with_member};
ghost use Rattle.serde_json.specs.View.{members_view, view};
ghost use Rattle.luks_meta.specs.Content.{content};
ghost use Rattle.luks_show.specs.SegmentValues.{extent_value, integrity_at, IsSegmentsValue, segment_members};
ghost use Rattle.luks_show.specs.SegmentValues.{with_integrity, with_kind};

use crate::as_json::values::{put_number, put_text};
use luks_meta::Encryption;
use luks_reading::{Extent, Meta, Segment, SegmentKind};
use luks_rules::{Section, object_at};
use serde_json::{Map, Value, put};
use std::alloc::{AllocError, Global};

pub(crate) fn segments_value(alloc: Global, meta: &Meta) -> Result<Value, AllocError>
    ensures { IfOk result (λ v. IsSegmentsValue (content meta.now) (view v)) }
{
    let mut items = Vec::new(alloc);
    for n in 0..32 {
        if let Some(segment) = meta.segment(n) {
            let integrity = integrity_at(meta, n);
            items.push(segment_value(alloc, n, &segment, integrity)?)?;
        }
    }
    Ok(Value::from(items))
}

/// The member `integrity` of a segment as it stands: the metadata's rules don't judge it.
fn integrity_at(meta: &Meta, n: u8) -> Option<&Value>
    requires { n < 32 }
    ensures { option_map (λ v. view v.now) result ≡ integrity_at (content meta.now) n }
{
    object_at(meta.value(), Section::Segments, n)?.get("integrity")
}

fn segment_value(
    alloc: Global,
    n: u8,
    segment: &Segment<'_>,
    integrity: Option<&Value>,
) -> Result<Value, AllocError>
    ensures { IfOk result (λ v. view v
        ≡ object (segment_members n segment.now (option_map (λ v. view v.now) integrity.entry))) }
{
    let mut members = Map::new(alloc);
    put_segment(&mut members, alloc, n, segment)?;
    put_integrity(&mut members, alloc, integrity)?;
    Ok(Value::from(members))
}

fn put_segment(
    members: &mut Map<String, Value>,
    alloc: Global,
    n: u8,
    segment: &Segment<'_>,
) -> Result<(), AllocError>
    requires { members_view members.old.entries ≡ no_members }
    ensures { OnOk result (members_view members.new.entries ≡ segment_members n segment.now None) }
{
    put_number(members, alloc, "number", u64::from(n))?;
    put_number(members, alloc, "offset", segment.offset)?;
    put_extent(members, alloc, segment.size)?;
    match &segment.kind {
        SegmentKind::Crypt(encryption) => put_encryption(members, alloc, encryption),
        SegmentKind::Linear => put_text(members, alloc, "type", "linear"),
    }
}

/// Puts a segment's size: in bytes, or `dynamic` where it runs to the volume's end.
pub fn put_extent(
    members: &mut Map<String, Value>,
    alloc: Global,
    size: Extent,
) -> Result<(), AllocError>
    ensures { OnOk result (members_view members.new.entries
        ≡ with_member (codes "size") (extent_value size) (members_view members.old.entries)) }
{
    match size {
        Extent::Fixed(size) => put_number(members, alloc, "size", size),
        Extent::Dynamic => put_text(members, alloc, "size", "dynamic"),
    }
}

/// Puts how a segment of the type `crypt` is encrypted, and that type.
pub fn put_encryption(
    members: &mut Map<String, Value>,
    alloc: Global,
    encryption: &Encryption<'_>,
) -> Result<(), AllocError>
    ensures { OnOk result (members_view members.new.entries
        ≡ with_kind (SegmentKind.Crypt encryption.now) (members_view members.old.entries)) }
{
    put_text(members, alloc, "cipher", encryption.cipher)?;
    put_number(members, alloc, "iv_tweak", encryption.iv_tweak)?;
    put_number(
        members,
        alloc,
        "sector_size",
        u64::from(encryption.sector_size),
    )?;
    put_text(members, alloc, "type", "crypt")
}

/// Puts the member `integrity` of a segment as it stands, where it is there.
pub fn put_integrity(
    members: &mut Map<String, Value>,
    alloc: Global,
    integrity: Option<&Value>,
) -> Result<(), AllocError>
    ensures { OnOk result (members_view members.new.entries
        ≡ with_integrity (option_map (λ v. view v.now) integrity.entry) (members_view members.old.entries)) }
{
    match integrity {
        Some(value) => put(members, alloc, "integrity", value.clone()?),
        None => Ok(()),
    }
}
