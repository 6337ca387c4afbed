//! The JSON object of a LUKS2 header.
ghost use Rattle.std.specs.Prelude.{◌≡◌, IfOk, OnOk};
ghost use Rattle.serde_json.specs.View.{members_view, view};
ghost use Rattle.luks_meta.specs.Content.{content};
ghost use Rattle.luks_show.specs.Luks2Value.{AreObjectsOf, AreTextsOf, configured, header_members, IsLuks2Value};
ghost use Rattle.luks_show.specs.Luks2Value.{sizes_value, with_objects};

use crate::as_json::objects::{digests_value, keyslots_value, tokens_value};
use crate::as_json::segments::segments_value;
use crate::as_json::values::{put_number, text_value};
use crate::{before_zero, copies_name};
use luks_reading::{ChosenCopy, Config, Meta};
use luks2_header::Bin2;
use serde_json::{Map, Value, put};
use std::alloc::{AllocError, Global};

/// The texts of the binary header.
#[derive(Drop)]
pub struct Texts {
    /// The uuid.
    pub uuid: Value,
    /// The label, empty where there is none.
    pub label: Value,
    /// The subsystem, likewise.
    pub subsystem: Value,
}

/// What the metadata says.
#[derive(Drop)]
pub struct Objects {
    /// The member `flags` of `config`.
    pub flags: Value,
    /// The member `requirements` of `config`.
    pub requirements: Value,
    /// The keyslots, by number.
    pub keyslots: Value,
    /// The tokens, by number.
    pub tokens: Value,
    /// The segments, by number.
    pub segments: Value,
    /// The digests, by number.
    pub digests: Value,
    /// All of it, as it stands.
    pub metadata: Value,
}

/// The object of the chosen copy of a LUKS2 header, which the metadata's value is moved into: it is never
/// there twice.
pub(crate) fn luks2_value(alloc: Global, copy: ChosenCopy) -> Result<Value, AllocError>
    ensures { IfOk result (λ v. IsLuks2Value copy (view v)) }
{
    let config = copy.meta.config();
    let sizes = sizes_value(alloc, copy.header.hdr_size, config)?;
    let texts = read_texts(alloc, &copy.header)?;
    let mut members = header_members(alloc, &copy, sizes, texts)?;
    let objects = read_objects(alloc, copy.meta)?;
    put_objects(&mut members, alloc, objects)?;
    Ok(Value::from(members))
}

/// What the header's parts take, in bytes.
pub fn sizes_value(alloc: Global, header_size: u64, config: Config) -> Result<Value, AllocError>
    ensures { IfOk result (λ v. view v ≡ sizes_value header_size config) }
{
    let mut members = Map::new(alloc);
    put_number(&mut members, alloc, "header", header_size)?;
    put_number(&mut members, alloc, "json", config.json_size)?;
    put_number(&mut members, alloc, "keyslots", config.keyslots_size)?;
    Ok(Value::from(members))
}

fn header_members(
    alloc: Global,
    copy: &ChosenCopy,
    sizes: Value,
    texts: Texts,
) -> Result<Map<String, Value>, AllocError>
    ensures { IfOk result (λ m. members_view m.entries
        ≡ header_members copy.now (view sizes) texts) }
{
    let mut members = Map::new(alloc);
    let copies = Value::try_from_str(alloc, copies_name(copy.copies))?;
    put(&mut members, alloc, "version", Value::from(2u8))?;
    put(&mut members, alloc, "uuid", texts.uuid)?;
    put(&mut members, alloc, "label", texts.label)?;
    put(&mut members, alloc, "subsystem", texts.subsystem)?;
    put(&mut members, alloc, "copies", copies)?;
    put(&mut members, alloc, "seqid", Value::from(copy.header.seqid))?;
    put(&mut members, alloc, "sizes", sizes)?;
    Ok(members)
}

/// Puts what the metadata says.
pub fn put_objects(
    members: &mut Map<String, Value>,
    alloc: Global,
    objects: Objects,
) -> Result<(), AllocError>
    ensures { OnOk result (members_view members.new.entries
        ≡ with_objects objects (members_view members.old.entries)) }
{
    put(members, alloc, "flags", objects.flags)?;
    put(members, alloc, "requirements", objects.requirements)?;
    put(members, alloc, "keyslots", objects.keyslots)?;
    put(members, alloc, "tokens", objects.tokens)?;
    put(members, alloc, "segments", objects.segments)?;
    put(members, alloc, "digests", objects.digests)?;
    put(members, alloc, "metadata", objects.metadata)
}

/// The texts of a binary header.
pub fn read_texts(alloc: Global, header: &Bin2) -> Result<Texts, AllocError>
    ensures { IfOk result (AreTextsOf header.now) }
{
    Ok(Texts {
        uuid: text_value(alloc, before_zero(&header.uuid))?,
        label: text_value(alloc, before_zero(&header.label))?,
        subsystem: text_value(alloc, before_zero(&header.subsystem))?,
    })
}

fn read_objects(alloc: Global, meta: Meta) -> Result<Objects, AllocError>
    ensures { IfOk result (AreObjectsOf meta) }
{
    Ok(Objects {
        flags: configured(alloc, &meta, "flags")?,
        requirements: configured(alloc, &meta, "requirements")?,
        keyslots: keyslots_value(alloc, &meta)?,
        tokens: tokens_value(alloc, &meta)?,
        segments: segments_value(alloc, &meta)?,
        digests: digests_value(alloc, &meta)?,
        metadata: meta.into_value(),
    })
}

/// The member of the metadata's `config` as it stands; null where it isn't there.
fn configured(alloc: Global, meta: &Meta, name: &str) -> Result<Value, AllocError>
    ensures { IfOk result (λ v. view v ≡ configured name.now (content meta.now)) }
{
    let Some(config) = meta.value().get("config") else {
        return Ok(Value::Null);
    };
    match config.get(name) {
        Some(value) => value.clone(),
        None => Ok(Value::Null),
    }
}
