//! Volumes put together by the layout of the formats alone.
use crate::metadata::{Edit, THREE, edited};
use sha2::{Digest, Sha256};
use std::alloc::{AllocError, Global};

const UUID: &[u8] = b"00000000-0000-4000-8000-000000000000";

/// Writes `from` over the bytes from `at` on, as far as they reach: where the image ends before, its
/// front alone.
pub fn put_front(image: &mut [u8], at: usize, from: &[u8]) {
    for (i, byte) in from.iter().enumerate() {
        if let Some(place) = image.get_mut(at.wrapping_add(i)) {
            *place = *byte;
        }
    }
}

/// The bytes of the LUKS1 image.
pub const LUKS1: usize = 2097664;

/// Where the key material of the eight keyslots begins, in sectors.
const OFFSETS: [u32; 8] = [8, 512, 1016, 1520, 2024, 2528, 3032, 3536];

/// A LUKS1 volume of 2097664 bytes: aes, xts-plain64, sha256, keys of 64 bytes, all keyslots free,
/// 4000 stripes in each, the payload from sector 4096 on.
pub fn luks1(alloc: Global) -> Result<Vec<u8>, AllocError> {
    let mut image = vec![in alloc; 0u8; LUKS1]?;
    put_front(&mut image, 0, b"LUKS\xBA\xBE\x00\x01aes");
    put_front(&mut image, 40, b"xts-plain64");
    put_front(&mut image, 72, b"sha256");
    put_front(&mut image, 104, &[0, 0, 0x10, 0, 0, 0, 0, 64]);
    put_front(&mut image, 164, &[0, 0, 3, 0xE8]);
    put_front(&mut image, 168, UUID);
    for (n, offset) in OFFSETS.iter().enumerate() {
        let at = n.wrapping_mul(48).wrapping_add(208);
        put_front(&mut image, at, &[0, 0, 0xDE, 0xAD]);
        put_front(&mut image, at.wrapping_add(40), &offset.to_be_bytes());
        put_front(&mut image, at.wrapping_add(44), &[0, 0, 0x0F, 0xA0]);
    }
    Ok(image)
}

/// The fields of a copy of a LUKS2 header that differ among the volumes here.
#[derive(Clone, Copy)]
pub struct Fields<'a> {
    /// The bytes of each copy.
    pub size: u32,
    /// The sequence number.
    pub seqid: u64,
    /// The label, without its zeros.
    pub label: &'a [u8],
    /// The subsystem, without its zeros.
    pub subsystem: &'a [u8],
    /// The uuid's field, without its zeros.
    pub uuid: &'a [u8],
    /// The metadata.
    pub text: &'a str,
}

/// A copy of 16384 bytes with this metadata, of sequence number 1.
pub fn copy_of(text: &str) -> Fields<'_> {
    Fields {
        size: 16384,
        seqid: 1,
        label: b"",
        subsystem: b"",
        uuid: UUID,
        text,
    }
}

/// Puts a sound copy of a LUKS2 header at `at`.
pub fn put_copy(image: &mut [u8], at: u32, fields: &Fields<'_>) {
    let place = at as usize;
    let magic = if at == 0 {
        b"LUKS\xBA\xBE"
    } else {
        b"SKUL\xBA\xBE"
    };
    put_front(image, place, magic);
    put_front(image, place.wrapping_add(7), &[2]);
    put_front(image, place.wrapping_add(12), &fields.size.to_be_bytes());
    put_front(image, place.wrapping_add(16), &fields.seqid.to_be_bytes());
    put_front(image, place.wrapping_add(24), fields.label);
    put_front(image, place.wrapping_add(72), b"sha256");
    put_front(image, place.wrapping_add(168), fields.uuid);
    put_front(image, place.wrapping_add(208), fields.subsystem);
    put_front(image, place.wrapping_add(260), &at.to_be_bytes());
    put_front(image, place.wrapping_add(4096), fields.text.as_bytes());
    if let Some(copy) = image.get(place..place.wrapping_add(fields.size as usize)) {
        let digest = Sha256::digest(copy);
        put_front(image, place.wrapping_add(448), &digest);
    }
}

/// A LUKS2 volume of `len` bytes, zeros but for two sound copies.
pub fn luks2(
    alloc: Global,
    first: &Fields<'_>,
    second: &Fields<'_>,
    len: usize,
) -> Result<Vec<u8>, AllocError> {
    let mut image = vec![in alloc; 0u8; len]?;
    put_copy(&mut image, 0, first);
    put_copy(&mut image, first.size, second);
    Ok(image)
}

/// The bytes of the LUKS2 volume of one keyslot.
pub const LUKS2: usize = 16777728;

/// The volume key's one stripe, which is the key, the bytes 0 to 63, encrypted by AES-XTS in sector
/// 0 under PBKDF2 of the passphrase `one` with 32 bytes 0x11, by SHA-256 and 1000 iterations:
/// Python's hashlib and cryptography.
pub const STRIPE: [u8; 64] = [
    0xCC, 0x14, 0x78, 0x95, 0x68, 0x2F, 0x99, 0x74, 0x2B, 0x5D, 0x57, 0x8B, 0x28, 0x8B, 0x64, 0x68,
    0xA2, 0xEA, 0x01, 0x80, 0xD2, 0x98, 0x16, 0xC1, 0x71, 0x9E, 0xED, 0xC4, 0xA1, 0xC5, 0x41, 0x16,
    0x7F, 0xBB, 0x3A, 0xB8, 0x69, 0x90, 0x18, 0x80, 0xD3, 0xB4, 0x6B, 0xC7, 0x72, 0x9A, 0x88, 0x8A,
    0x0B, 0xEB, 0xDB, 0xD6, 0x37, 0xDD, 0xAB, 0x36, 0x33, 0x70, 0x3B, 0x71, 0xD0, 0x73, 0xC2, 0xE8,
];

/// The same by SHA-512.
pub const STRIPE_BY_SHA512: [u8; 64] = [
    0xA0, 0xDF, 0x7D, 0x59, 0x30, 0x2E, 0x89, 0xEB, 0xAB, 0x8C, 0xDB, 0xD8, 0x13, 0x83, 0x09, 0x2E,
    0x19, 0x80, 0x55, 0xB5, 0xB3, 0xA3, 0x67, 0xB6, 0x35, 0x36, 0x3C, 0x46, 0x44, 0xC8, 0x8D, 0xF3,
    0x6A, 0x4C, 0x0B, 0x38, 0x52, 0x4B, 0x3F, 0x4A, 0x92, 0x4A, 0xB0, 0xC9, 0x45, 0x7B, 0xA3, 0x4F,
    0x0B, 0xFD, 0xB5, 0x51, 0xF9, 0x53, 0x70, 0xA3, 0xB2, 0x1A, 0xB0, 0x86, 0xE2, 0xA2, 0x01, 0x79,
];

/// PBKDF2 of the volume key with 32 bytes 0x22, likewise.
const MK_DIGEST: [u8; 20] = [
    0xAF, 0x4B, 0x56, 0xD0, 0x5D, 0x08, 0x4C, 0xEA, 0x0F, 0x60, 0x15, 0x26, 0x16, 0x31, 0xB3, 0x5D,
    0x94, 0xD5, 0xA3, 0x00,
];

/// The LUKS1 volume with its keyslot 0 in use, of one stripe, which opens by the passphrase `one`.
pub fn opening_luks1(alloc: Global) -> Result<Vec<u8>, AllocError> {
    let mut image = luks1(alloc)?;
    put_front(&mut image, 112, &MK_DIGEST);
    put_front(&mut image, 132, &[0x22; 32]);
    put_front(&mut image, 208, &[0, 0xAC, 0x71, 0xF3, 0, 0, 3, 0xE8]);
    put_front(&mut image, 216, &[0x11; 32]);
    put_front(&mut image, 252, &[0, 0, 0, 1]);
    put_front(&mut image, 4096, &STRIPE);
    Ok(image)
}

/// Puts the key areas of the three keyslots that open by the passphrase `one`.
fn put_stripes(image: &mut [u8]) {
    for at in [32768, 36864, 40960] {
        put_front(image, at, &STRIPE);
    }
}

/// The bytes of the LUKS2 volume of three keyslots with room for a fourth.
const ROOMY: usize = 49152;

/// The keyslots' region, with that room.
const ROOM: Edit = (r#""keyslots_size":"12288""#, r#""keyslots_size":"16384""#);

/// The metadata of the LUKS2 volume of three keyslots with room for a fourth, edited so.
pub fn roomy_text(alloc: Global, edits: &[Edit]) -> Result<String, AllocError> {
    let text = edited(alloc, THREE, &[ROOM])?;
    edited(alloc, text.as_str(), edits)
}

/// The LUKS2 volume of three keyslots with room for a fourth, with this metadata and sequence number.
pub fn roomy_luks2(alloc: Global, text: &str, seqid: u64) -> Result<Vec<u8>, AllocError> {
    let mut copy = copy_of(text);
    copy.seqid = seqid;
    let mut image = luks2(alloc, &copy, &copy, ROOMY)?;
    put_stripes(&mut image);
    Ok(image)
}
