//! Metadata that is put together of three objects.
ghost use Rattle.std.specs.Prelude.{◌≡◌, ◌<◌, ◌≤◌, ◌++◌, length, IfOk, OnOk};
ghost use Rattle.luks_fragments.specs.Made.{area_of, config_text, digest_text, keyslot_text, made_text, segment_text};

use luks_json::number_text;
use std::alloc::{AllocError, Global};

/// The bytes of the JSON area that the metadata is of: that of the shortest header, of 16384.
pub const AREA_LENGTH: usize = 12288;

/// What metadata is put together of.
#[derive(Clone, Copy)]
pub struct Parts<'a> {
    /// The size of the region of key areas, in bytes.
    pub region: u64,
    /// The keyslot's number, 0 to 31.
    pub slot: u8,
    /// The digest's number, 0 to 31.
    pub number: u8,
    /// The keyslot.
    pub keyslot: &'a [u8],
    /// The digest. What it names doesn't count.
    pub digest: &'a [u8],
    /// The segment, which gets the number 0.
    pub segment: &'a [u8],
}

/// The text of metadata of one keyslot, one digest that names it, and one segment. Whether it is JSON, and metadata that is accepted, is for
/// `Meta::read` to say.
///
/// Takes memory for the text.
pub fn made_text(alloc: Global, parts: &Parts<'_>) -> Result<Vec<u8>, AllocError>
    requires slot { parts.now.slot < 32 }
    requires number { parts.now.number < 32 }
    requires some { 1 ≤ length parts.now.digest.now }
    ensures { IfOk result (λ text. text.items ≡ made_text parts.now.region parts.now.slot parts.now.number
        parts.now.keyslot.now parts.now.digest.now parts.now.segment.now) }
{
    let mut text = config_text(alloc, parts.region)?;
    put_digest(&mut text, parts)?;
    put_keyslot(&mut text, parts)?;
    put_segment(&mut text, parts.segment)?;
    Ok(text)
}

fn config_text(alloc: Global, region: u64) -> Result<Vec<u8>, AllocError>
    ensures { IfOk result (λ text. text.items ≡ config_text region) }
{
    let mut text = Vec::new(alloc);
    let size = region.to_string(alloc)?;
    text.extend_from_slice(b"{\"config\":{\"json_size\":\"12288\",\"keyslots_size\":\"")?;
    text.extend_from_slice(size.as_bytes())?;
    text.extend_from_slice(b"\"},")?;
    Ok(text)
}

fn put_digest(text: &mut Vec<u8>, parts: &Parts<'_>) -> Result<(), AllocError>
    requires slot { parts.now.slot < 32 }
    requires number { parts.now.number < 32 }
    requires some { 1 ≤ length parts.now.digest.now }
    ensures { OnOk result (text.new.items ≡ text.old.items
        ++ digest_text parts.now.number parts.now.slot parts.now.digest.now) }
{
    text.extend_from_slice(b"\"digests\":{\"")?;
    text.extend_from_slice(number_text(parts.number).as_bytes())?;
    text.extend_from_slice(b"\":")?;
    text.extend_from_slice(&parts.digest[..parts.digest.len() - 1])?;
    text.extend_from_slice(b",\"keyslots\":[\"")?;
    text.extend_from_slice(number_text(parts.slot).as_bytes())?;
    text.extend_from_slice(b"\"],\"segments\":[\"0\"]}},")?;
    Ok(())
}

fn put_keyslot(text: &mut Vec<u8>, parts: &Parts<'_>) -> Result<(), AllocError>
    requires { parts.now.slot < 32 }
    ensures { OnOk result (text.new.items ≡ text.old.items
        ++ keyslot_text parts.now.slot parts.now.keyslot.now) }
{
    text.extend_from_slice(b"\"keyslots\":{\"")?;
    text.extend_from_slice(number_text(parts.slot).as_bytes())?;
    text.extend_from_slice(b"\":")?;
    text.extend_from_slice(parts.keyslot)?;
    text.extend_from_slice(b"},")?;
    Ok(())
}

fn put_segment(text: &mut Vec<u8>, segment: &[u8]) -> Result<(), AllocError>
    ensures { OnOk result (text.new.items ≡ text.old.items ++ segment_text segment.now) }
{
    text.extend_from_slice(b"\"segments\":{\"0\":")?;
    text.extend_from_slice(segment)?;
    text.extend_from_slice(b"},\"tokens\":{}}")?;
    Ok(())
}

/// The JSON area of the text: zeros follow it, if there is room. Without a zero it is no area of metadata.
pub fn area_of(text: Vec<u8>) -> Result<Vec<u8>, AllocError>
    ensures { IfOk result (λ area. area.items ≡ area_of text.items) }
{
    if text.len() >= AREA_LENGTH {
        return Ok(text);
    }
    let mut area = text;
    area.resize(AREA_LENGTH, 0)?;
    Ok(area)
}
