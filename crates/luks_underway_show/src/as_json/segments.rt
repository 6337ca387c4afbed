//! The segments, as an array by number.

ghost use Rattle.std.specs.Prelude.{◌≡◌, ◌+◌, ◌<◌, IfOk, map, MatchOption, OnOk, option_map, unwrap_or};
ghost use Rattle.serde_json.specs.Data.{array, no_items, no_members, object, put as with_member};
ghost use Rattle.serde_json.specs.View.{members_view, view};
ghost use Rattle.luks_rules.specs.declared.table.Section.TheVariants.{Segments};
ghost use Rattle.luks_meta.specs.Objects.{IsMissing};
ghost use Rattle.luks_wider.specs.Underways.{content};
ghost use Rattle.luks_underway_show.specs.WideSegmentValues.{AreWideSegments, IsWideSegmentsValue, IsWideSegmentValue, opal_members, wide_segment_members, with_encryption, with_opal, with_wide_kind};

use luks_meta::Encryption;
use luks_rules::{Outer, Section, object_at};
use luks_show::{put_encryption, put_extent, put_integrity, put_number, put_text};
use luks_underway::{Opal, WideKind, WideSegment, inside_at};
use luks_wider::Underway;
use serde_json::{Map, Value, put};
use std::alloc::{AllocError, Global};

pub(crate) fn segments_value(alloc: Global, meta: &Underway) -> Result<Value, AllocError>
    ensures { IfOk result (λ v. IsWideSegmentsValue (content meta.now) (view v)) }
{
    let mut items = Vec::new(alloc);
    for n in 0..32 {
        add_segment(&mut items, alloc, meta, n)?;
    }
    Ok(Value::from(items))
}

/// Puts the object of the segment of this number behind those of lesser ones, if it is there.
fn add_segment(
    items: &mut Vec<Value>,
    alloc: Global,
    meta: &Underway,
    n: u8,
) -> Result<(), AllocError>
    requires { n < 32 }
    ensures { AreWideSegments (content meta.now) n (map view items.old.items)
        → OnOk result (AreWideSegments (content meta.now) (n + 1) (map view items.new.items)) }
{
    let Some(value) = segment_at(alloc, meta, n)? else {
        return Ok(());
    };
    items.push(value)?;
    Ok(())
}

/// The object of the segment of this number, if it is there.
fn segment_at(alloc: Global, meta: &Underway, n: u8) -> Result<Option<Value>, AllocError>
    requires { n < 32 }
    ensures { IfOk result (λ o. MatchOption o (IsMissing (content meta.now) Segments n)
        (λ v. IsWideSegmentValue (content meta.now) n (view v))) }
{
    let Some(object) = object_at(meta.value(), Section::Segments, n) else {
        return Ok(None);
    };
    let Some(segment) = meta.segment(n) else {
        return Ok(None);
    };
    let flags = flags_value(alloc, inside_at(object, Outer::Top, "flags"))?;
    let value = segment_value(alloc, n, &segment, flags, object.get("integrity"))?;
    Ok(Some(value))
}

/// The flags as they stand, or an empty array.
fn flags_value(alloc: Global, flags: Option<&Value>) -> Result<Value, AllocError>
    ensures { IfOk result (λ value. view value ≡ unwrap_or (option_map (λ v. view v.now) flags.entry) (array no_items)) }
{
    match flags {
        Some(flags) => flags.clone(),
        None => no_flags(alloc),
    }
}

fn no_flags(alloc: Global) -> Result<Value, AllocError>
    ensures { IfOk result (λ v. view v ≡ array no_items) }
{
    let items: Vec<Value> = Vec::new(alloc);
    Ok(Value::from(items))
}

fn segment_value(
    alloc: Global,
    n: u8,
    segment: &WideSegment<'_>,
    flags: Value,
    integrity: Option<&Value>,
) -> Result<Value, AllocError>
    ensures { IfOk result (λ v. view v
        ≡ object (wide_segment_members n segment.now (view flags) (option_map (λ v. view v.now) integrity.entry))) }
{
    let mut members = Map::new(alloc);
    put_number(&mut members, alloc, "number", u64::from(n))?;
    put_number(&mut members, alloc, "offset", segment.offset)?;
    put_extent(&mut members, alloc, segment.size)?;
    put_kind(&mut members, alloc, &segment.kind)?;
    put(&mut members, alloc, "flags", flags)?;
    put_integrity(&mut members, alloc, integrity)?;
    Ok(Value::from(members))
}

fn put_kind(
    members: &mut Map<String, Value>,
    alloc: Global,
    kind: &WideKind<'_>,
) -> Result<(), AllocError>
    ensures { OnOk result (members_view members.new.entries
        ≡ with_wide_kind kind.now (members_view members.old.entries)) }
{
    match kind {
        WideKind::Crypt(encryption) => put_encryption(members, alloc, encryption),
        WideKind::Linear => put_text(members, alloc, "type", "linear"),
        WideKind::HwOpal(opal) => {
            put_opal(members, alloc, opal)?;
            put_text(members, alloc, "type", "hw-opal")
        }
        WideKind::HwOpalCrypt(opal, encryption) => {
            put_opal(members, alloc, opal)?;
            put_cipher(members, alloc, encryption)?;
            put_text(members, alloc, "type", "hw-opal-crypt")
        }
    }
}

fn put_cipher(
    members: &mut Map<String, Value>,
    alloc: Global,
    encryption: &Encryption<'_>,
) -> Result<(), AllocError>
    ensures { OnOk result (members_view members.new.entries
        ≡ with_encryption encryption.now (members_view members.old.entries)) }
{
    put_text(members, alloc, "cipher", encryption.cipher)?;
    put_number(members, alloc, "iv_tweak", encryption.iv_tweak)?;
    put_number(
        members,
        alloc,
        "sector_size",
        u64::from(encryption.sector_size),
    )
}

fn put_opal(members: &mut Map<String, Value>, alloc: Global, opal: &Opal) -> Result<(), AllocError>
    ensures { OnOk result (members_view members.new.entries
        ≡ with_opal opal.now (members_view members.old.entries)) }
{
    put(members, alloc, "opal", opal_value(alloc, opal)?)
}

fn opal_value(alloc: Global, opal: &Opal) -> Result<Value, AllocError>
    ensures { IfOk result (λ v. view v ≡ object (opal_members opal.now)) }
{
    let mut members = Map::new(alloc);
    put_number(&mut members, alloc, "key_bytes", u64::from(opal.key_size))?;
    put_number(
        &mut members,
        alloc,
        "number",
        u64::from(opal.segment_number),
    )?;
    put_number(&mut members, alloc, "size", opal.segment_size)?;
    Ok(Value::from(members))
}
