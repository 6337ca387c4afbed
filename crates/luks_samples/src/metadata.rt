//! The metadata of LUKS2 images.
use std::alloc::{AllocError, Global};

/// A text, and what stands in its place.
pub type Edit = (&'static str, &'static str);

/// The text with each edit made at the first place that it names.
pub fn edited(alloc: Global, text: &str, edits: &[Edit]) -> Result<String, AllocError> {
    let mut text = String::from_str(alloc, text)?;
    for (old, new) in edits.iter() {
        text = edited_once(alloc, text.as_str(), old, new)?;
    }
    Ok(text)
}

/// The text with its first `old` replaced by `new`.
pub fn edited_once(alloc: Global, text: &str, old: &str, new: &str) -> Result<String, AllocError> {
    let Some((before, after)) = text.split_once(old) else {
        return String::from_str(alloc, "no such text");
    };
    let mut edited = String::from_str(alloc, before)?;
    edited.push_str(new)?;
    edited.push_str(after)?;
    Ok(edited)
}

/// The text with a member `"pad":""` filled up, so that the text has so many bytes; the text itself where
/// it has no such member.
pub fn filled(alloc: Global, text: &str, len: usize) -> Result<String, AllocError> {
    let Some((before, after)) = text.split_once(r#""pad":"""#) else {
        return String::from_str(alloc, text);
    };
    let mut filled = String::from_str(alloc, before)?;
    filled.push_str(r#""pad":""#)?;
    for _ in text.len()..len {
        filled.push_str("p")?;
    }
    filled.push_str("\"")?;
    filled.push_str(after)?;
    Ok(filled)
}

/// The metadata of the first copy, of 16384 bytes; none where there is none.
pub fn text_of(image: &[u8]) -> &str {
    match image.get(4096..16384) {
        Some(area) => match area.split(|byte| *byte == 0).next() {
            Some(text) => str::from_utf8(text).unwrap_or_default(),
            None => "",
        },
        None => "",
    }
}

/// One keyslot and one segment; the salts and the digest are 32 zero bytes.
pub const ZEROS: &str = concat!(
    r#"{"config":{"json_size":"12288","keyslots_size":"16744448"},"#,
    r#""digests":{"0":{"digest":"AAAAAAAAAAAAAAAAAAAAAAAAAAAAAAAAAAAAAAAAAAA=","hash":"sha256","#,
    r#""iterations":1000,"keyslots":["0"],"salt":"AAAAAAAAAAAAAAAAAAAAAAAAAAAAAAAAAAAAAAAAAAA=","#,
    r#""segments":["0"],"type":"pbkdf2"}},"keyslots":{"0":{"af":{"hash":"sha256","stripes":4000,"#,
    r#""type":"luks1"},"area":{"encryption":"aes-xts-plain64","key_size":64,"offset":"32768","#,
    r#""size":"258048","type":"raw"},"kdf":{"hash":"sha256","iterations":1000,"#,
    r#""salt":"AAAAAAAAAAAAAAAAAAAAAAAAAAAAAAAAAAAAAAAAAAA=","type":"pbkdf2"},"key_size":64,"#,
    r#""type":"luks2"}},"segments":{"0":{"encryption":"aes-xts-plain64","iv_tweak":"0","#,
    r#""offset":"16777216","sector_size":512,"size":"dynamic","type":"crypt"}},"tokens":{}}"#
);

/// Three keyslots of one key, each of one stripe, in 4096 bytes each from 32768 on. The digest is
/// PBKDF2 of the bytes 0 to 63 with 32 bytes 0x22, by SHA-256 and 1000 iterations; the salts of the
/// keyslots are 32 bytes 0x11.
pub const THREE: &str = concat!(
    r#"{"config":{"json_size":"12288","keyslots_size":"12288"},"#,
    r#""digests":{"0":{"digest":"r0tW0F0ITOoPYBUmFjGzXZTVowAGtTYAjvCjGDabwpo=","hash":"sha256","#,
    r#""iterations":1000,"keyslots":["0","1","2"],"salt":"IiIiIiIiIiIiIiIiIiIiIiIiIiIiIiIiIiIiIiIiIiI=","#,
    r#""segments":[],"type":"pbkdf2"}},"keyslots":{"0":{"af":{"hash":"sha256","stripes":1,"#,
    r#""type":"luks1"},"area":{"encryption":"aes-xts-plain64","key_size":64,"offset":"32768","#,
    r#""size":"4096","type":"raw"},"kdf":{"hash":"sha256","iterations":1000,"#,
    r#""salt":"ERERERERERERERERERERERERERERERERERERERERERE=","type":"pbkdf2"},"key_size":64,"#,
    r#""type":"luks2"},"1":{"af":{"hash":"sha256","stripes":1,"type":"luks1"},"#,
    r#""area":{"encryption":"aes-xts-plain64","key_size":64,"offset":"36864","size":"4096","type":"raw"},"#,
    r#""kdf":{"hash":"sha256","iterations":1000,"salt":"ERERERERERERERERERERERERERERERERERERERERERE=","#,
    r#""type":"pbkdf2"},"key_size":64,"type":"luks2"},"2":{"af":{"hash":"sha256","stripes":1,"#,
    r#""type":"luks1"},"area":{"encryption":"aes-xts-plain64","key_size":64,"offset":"40960","#,
    r#""size":"4096","type":"raw"},"kdf":{"hash":"sha256","iterations":1000,"#,
    r#""salt":"ERERERERERERERERERERERERERERERERERERERERERE=","type":"pbkdf2"},"key_size":64,"#,
    r#""type":"luks2"}},"segments":{},"tokens":{}}"#
);
