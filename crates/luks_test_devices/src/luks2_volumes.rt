//! Small LUKS2 volumes, put together by the layout of the format alone.
ghost use Rattle.std.specs.Prelude.{◌≡◌, length, IfOk};

use crate::bytes::put;
use crate::sealed::key_area;
use luks_kdf::HashName;
use sha2::{Digest, Sha256};
use std::alloc::{AllocError, Global};

/// The uuid of the volumes.
pub const UUID: &[u8] = b"00000000-0000-4000-8000-000000000000";

/// The metadata by SHA-1 of one keyslot of 40 stripes, whose area is the first of eight of 4096 bytes,
/// with data from 65536 on. The digest is PBKDF2 of the volume key with 32 bytes 0x22, by 1000
/// iterations.
const SHA1: &str = concat!(
    r#"{"config":{"json_size":"12288","keyslots_size":"32768"},"#,
    r#""digests":{"0":{"digest":"132QRNuL4ZHE4MgiSqwO0ihmc/M=","hash":"sha1","iterations":1000,"#,
    r#""keyslots":["0"],"salt":"IiIiIiIiIiIiIiIiIiIiIiIiIiIiIiIiIiIiIiIiIiI=","segments":["0"],"#,
    r#""type":"pbkdf2"}},"keyslots":{"0":{"af":{"hash":"sha1","stripes":40,"type":"luks1"},"#,
    r#""area":{"encryption":"aes-xts-plain64","key_size":64,"offset":"32768","size":"4096","type":"raw"},"#,
    r#""kdf":{"hash":"sha1","iterations":1000,"salt":"ERERERERERERERERERERERERERERERERERERERERERE=","#,
    r#""type":"pbkdf2"},"key_size":64,"type":"luks2"}},"segments":{"0":{"encryption":"aes-xts-plain64","#,
    r#""iv_tweak":"0","offset":"65536","sector_size":512,"size":"dynamic","type":"crypt"}},"tokens":{}}"#
);

/// The same by SHA-256.
pub const TEXT: &str = concat!(
    r#"{"config":{"json_size":"12288","keyslots_size":"32768"},"#,
    r#""digests":{"0":{"digest":"r0tW0F0ITOoPYBUmFjGzXZTVowAGtTYAjvCjGDabwpo=","hash":"sha256","#,
    r#""iterations":1000,"keyslots":["0"],"salt":"IiIiIiIiIiIiIiIiIiIiIiIiIiIiIiIiIiIiIiIiIiI=","#,
    r#""segments":["0"],"type":"pbkdf2"}},"keyslots":{"0":{"af":{"hash":"sha256","stripes":40,"#,
    r#""type":"luks1"},"area":{"encryption":"aes-xts-plain64","key_size":64,"offset":"32768","#,
    r#""size":"4096","type":"raw"},"kdf":{"hash":"sha256","iterations":1000,"#,
    r#""salt":"ERERERERERERERERERERERERERERERERERERERERERE=","type":"pbkdf2"},"key_size":64,"#,
    r#""type":"luks2"}},"segments":{"0":{"encryption":"aes-xts-plain64","iv_tweak":"0","offset":"65536","#,
    r#""sector_size":512,"size":"dynamic","type":"crypt"}},"tokens":{}}"#
);

/// The same by SHA-512.
const SHA512: &str = concat!(
    r#"{"config":{"json_size":"12288","keyslots_size":"32768"},"#,
    r#""digests":{"0":{"digest":"elWX7m2TdJO854yMGPJGGk2xh+ztWZ/2TbHPYmWgWz2Dt6jBWTjmMIVGXAAOE3K0KCNlYpnZ"#,
    r#"EZzaSNYB2ZPacw==","hash":"sha512","iterations":1000,"keyslots":["0"],"#,
    r#""salt":"IiIiIiIiIiIiIiIiIiIiIiIiIiIiIiIiIiIiIiIiIiI=","segments":["0"],"type":"pbkdf2"}},"#,
    r#""keyslots":{"0":{"af":{"hash":"sha512","stripes":40,"type":"luks1"},"#,
    r#""area":{"encryption":"aes-xts-plain64","key_size":64,"offset":"32768","size":"4096","type":"raw"},"#,
    r#""kdf":{"hash":"sha512","iterations":1000,"salt":"ERERERERERERERERERERERERERERERERERERERERERE=","#,
    r#""type":"pbkdf2"},"key_size":64,"type":"luks2"}},"segments":{"0":{"encryption":"aes-xts-plain64","#,
    r#""iv_tweak":"0","offset":"65536","sector_size":512,"size":"dynamic","type":"crypt"}},"tokens":{}}"#
);

/// The fields of a copy of a LUKS2 header that differ among the volumes of the tests.
#[derive(Clone, Copy)]
pub struct Fields<'a> {
    /// The bytes of the copy.
    pub size: u32,
    /// The sequence number.
    pub seqid: u64,
    /// The uuid's field, without its zeros.
    pub uuid: &'a [u8],
    /// The metadata.
    pub text: &'a str,
    /// Texts of the metadata, and what stands in their places.
    pub changes: &'a [(&'a str, &'a str)],
}

/// The text in which each change is made in turn, at the first place that it names.
fn changed(alloc: Global, text: &str, changes: &[(&str, &str)]) -> Result<String, AllocError> {
    let mut changed = String::from_str(alloc, text)?;
    for (old, new) in changes.iter() {
        let mut next = String::new(alloc);
        if let Some((before, after)) = changed.as_str().split_once(old) {
            next.push_str(before)?;
            next.push_str(new)?;
            next.push_str(after)?;
        }
        changed = next;
    }
    Ok(changed)
}

/// Writes the fields of the header at the place `at`, and the text.
fn put_fields(copy: &mut [u8], at: u32, fields: &Fields<'_>, text: &str) {
    let magic = if at == 0 {
        b"LUKS\xBA\xBE"
    } else {
        b"SKUL\xBA\xBE"
    };
    put(copy, 0, magic);
    put(copy, 7, &[2]);
    put(copy, 12, &fields.size.to_be_bytes());
    put(copy, 16, &fields.seqid.to_be_bytes());
    put(copy, 72, b"sha256");
    put(copy, 168, fields.uuid);
    put(copy, 260, &at.to_be_bytes());
    put(copy, 4096, text.as_bytes());
}

/// The copy of a LUKS2 header for the place `at`, sound, with a salt of zeros and no label. Where a
/// text that is to be changed isn't there, it has no metadata.
pub fn copy_of(alloc: Global, at: u32, fields: &Fields<'_>) -> Result<Vec<u8>, AllocError>
    ensures { IfOk result (λ copy. length copy.items ≡ fields.now.size) }
{
    let text = changed(alloc, fields.text, fields.changes)?;
    let mut copy = vec![in alloc; 0u8; fields.size as usize]?;
    put_fields(&mut copy, at, fields, text.as_str());
    let digest = Sha256::digest(&copy);
    put(&mut copy, 448, &digest);
    Ok(copy)
}

/// A volume of zeros but for both copies of a header with this metadata, and for the key area of
/// keyslot 0, which opens by the passphrase `one`.
fn volume_of(
    alloc: Global,
    hash: HashName,
    text: &str,
    changes: &[(&str, &str)],
) -> Result<Vec<u8>, AllocError>
    ensures { IfOk result (λ volume. length volume.items ≡ 66048) }
{
    let fields = Fields {
        size: 16384,
        seqid: 1,
        uuid: UUID,
        text,
        changes,
    };
    let first = copy_of(alloc, 0, &fields)?;
    let second = copy_of(alloc, 16384, &fields)?;
    let area = key_area(alloc, hash, b"one")?;
    let mut volume = vec![in alloc; 0u8; 66048]?;
    put(&mut volume, 0, &first);
    put(&mut volume, 16384, &second);
    put(&mut volume, 32768, &area);
    Ok(volume)
}

/// The small LUKS2 volume by this hash, of 66048 bytes: keyslot 0 of 40 stripes opens by `one`.
pub fn small2(alloc: Global, hash: HashName) -> Result<Vec<u8>, AllocError>
    ensures { IfOk result (λ volume. length volume.items ≡ 66048) }
{
    let text = match hash {
        HashName::Sha1 => SHA1,
        HashName::Sha256 => TEXT,
        HashName::Sha512 => SHA512,
    };
    volume_of(alloc, hash, text, &[])
}

/// The changes by which there is a keyslot 1, whose area is the second one.
const SECOND: [(&str, &str); 2] = [
    (r#""keyslots":["0"]"#, r#""keyslots":["0","1"]"#),
    (
        r#"},"segments":{"#,
        concat!(
            r#","1":{"af":{"hash":"sha256","stripes":40,"type":"luks1"},"#,
            r#""area":{"encryption":"aes-xts-plain64","key_size":64,"offset":"36864","size":"4096","#,
            r#""type":"raw"},"kdf":{"hash":"sha256","iterations":1000,"#,
            r#""salt":"ERERERERERERERERERERERERERERERERERERERERERE=","type":"pbkdf2"},"key_size":64,"#,
            r#""type":"luks2"}},"segments":{"#
        ),
    ),
];

/// Those by which there is a keyslot 1 that is derived and split by SHA-512.
const SECOND_BY_SHA512: [(&str, &str); 2] = [
    (r#""keyslots":["0"]"#, r#""keyslots":["0","1"]"#),
    (
        r#"},"segments":{"#,
        concat!(
            r#","1":{"af":{"hash":"sha512","stripes":40,"type":"luks1"},"#,
            r#""area":{"encryption":"aes-xts-plain64","key_size":64,"offset":"36864","size":"4096","#,
            r#""type":"raw"},"kdf":{"hash":"sha512","iterations":1000,"#,
            r#""salt":"ERERERERERERERERERERERERERERERERERERERERERE=","type":"pbkdf2"},"key_size":64,"#,
            r#""type":"luks2"}},"segments":{"#
        ),
    ),
];

/// The small volume by SHA-256 with keyslot 1, which opens by the passphrase `two`.
pub fn two_keyslots(alloc: Global) -> Result<Vec<u8>, AllocError>
    ensures { IfOk result (λ volume. length volume.items ≡ 66048) }
{
    let mut volume = volume_of(alloc, HashName::Sha256, TEXT, &SECOND)?;
    let area = key_area(alloc, HashName::Sha256, b"two")?;
    put(&mut volume, 36864, &area);
    Ok(volume)
}

/// The same with keyslot 1 by SHA-512; the digest and keyslot 0 are by SHA-256.
pub fn two_hashes(alloc: Global) -> Result<Vec<u8>, AllocError>
    ensures { IfOk result (λ volume. length volume.items ≡ 66048) }
{
    let mut volume = volume_of(alloc, HashName::Sha256, TEXT, &SECOND_BY_SHA512)?;
    let area = key_area(alloc, HashName::Sha512, b"two")?;
    put(&mut volume, 36864, &area);
    Ok(volume)
}

/// That volume with a bit of both binary headers turned over: nothing counts.
pub fn damaged(alloc: Global) -> Result<Vec<u8>, AllocError>
    ensures { IfOk result (λ volume. length volume.items ≡ 66048) }
{
    let mut volume = two_hashes(alloc)?;
    put(&mut volume, 104, &[1]);
    put(&mut volume, 16488, &[1]);
    Ok(volume)
}
