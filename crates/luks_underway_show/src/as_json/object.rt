//! The JSON object of a copy in which something is under way.

ghost use Rattle.std.specs.Prelude.{◌≡◌, IfOk};
ghost use Rattle.serde_json.specs.View.{members_view, view};
ghost use Rattle.luks_show.specs.Luks2Value.{configured};
ghost use Rattle.luks_wider.specs.Underways.{content};
ghost use Rattle.luks_underway_show.specs.UnderwayValue.{AreUnderwayObjects, copy_members, IsUnderwayValue};

use crate::as_json::keyslots::keyslots_value;
use crate::as_json::segments::segments_value;
use crate::as_json::under_way::under_way_value;
use crate::listing::UnderwayListing;
use luks_reading::{Bin2, Copies};
use luks_show::{
    Objects, Texts, copies_name, digest_value, put_objects, read_texts, sizes_value, token_value,
};
use luks_wider::Underway;
use serde_json::{Map, Value, put};
use std::alloc::{AllocError, Global};

/// The object of the copy, which the metadata's value is moved into: it is never there twice.
pub(crate) fn underway_value(alloc: Global, copy: UnderwayListing) -> Result<Value, AllocError>
    ensures { IfOk result (λ v. IsUnderwayValue copy.header copy.copies (content copy.meta) (view v)) }
{
    let config = copy.meta.config();
    let sizes = sizes_value(alloc, copy.header.hdr_size, config)?;
    let texts = read_texts(alloc, &copy.header)?;
    let mut members = copy_members(alloc, &copy.header, copy.copies, sizes, texts)?;
    let under_way = under_way_value(alloc, &copy.meta)?;
    let objects = read_objects(alloc, copy.meta)?;
    put_objects(&mut members, alloc, objects)?;
    put(&mut members, alloc, "under_way", under_way)?;
    Ok(Value::from(members))
}

fn copy_members(
    alloc: Global,
    header: &Bin2,
    copies: Copies,
    sizes: Value,
    texts: Texts,
) -> Result<Map<String, Value>, AllocError>
    ensures { IfOk result (λ m. members_view m.entries ≡ copy_members header.now copies (view sizes) texts) }
{
    let mut members = Map::new(alloc);
    let copies = Value::try_from_str(alloc, copies_name(copies))?;
    put(&mut members, alloc, "version", Value::from(2u8))?;
    put(&mut members, alloc, "uuid", texts.uuid)?;
    put(&mut members, alloc, "label", texts.label)?;
    put(&mut members, alloc, "subsystem", texts.subsystem)?;
    put(&mut members, alloc, "copies", copies)?;
    put(&mut members, alloc, "seqid", Value::from(header.seqid))?;
    put(&mut members, alloc, "sizes", sizes)?;
    Ok(members)
}

fn read_objects(alloc: Global, meta: Underway) -> Result<Objects, AllocError>
    ensures { IfOk result (AreUnderwayObjects (content meta)) }
{
    Ok(Objects {
        flags: configured(meta.value(), "flags")?,
        requirements: configured(meta.value(), "requirements")?,
        keyslots: keyslots_value(alloc, &meta)?,
        tokens: tokens_value(alloc, &meta)?,
        segments: segments_value(alloc, &meta)?,
        digests: digests_value(alloc, &meta)?,
        metadata: meta.into_value(),
    })
}

/// The member of the metadata's `config` as it stands; null where it isn't there.
fn configured(value: &Value, name: &str) -> Result<Value, AllocError>
    ensures { IfOk result (λ v. view v ≡ configured name.now (view value.now)) }
{
    let Some(config) = value.get("config") else {
        return Ok(Value::Null);
    };
    match config.get(name) {
        Some(value) => value.clone(),
        None => Ok(Value::Null),
    }
}

fn tokens_value(alloc: Global, meta: &Underway) -> Result<Value, AllocError> {
    let mut items = Vec::new(alloc);
    for n in 0..32 {
        if let Some(token) = meta.token(n) {
            items.push(token_value(alloc, n, &token)?)?;
        }
    }
    Ok(Value::from(items))
}

fn digests_value(alloc: Global, meta: &Underway) -> Result<Value, AllocError> {
    let mut items = Vec::new(alloc);
    for n in 0..32 {
        if let Some(digest) = meta.digest(n) {
            items.push(digest_value(alloc, n, &digest)?)?;
        }
    }
    Ok(Value::from(items))
}
