//! Bytes that are written as base64.

ghost use Rattle.std.specs.Prelude.{◌≡◌, length, nat_le, if◌then◌else◌, option_map};
ghost use Rattle.base64.specs.GeneralPurpose.{IsBytes};
ghost use Rattle.luks_json.specs.Encoded.{encoded_of};

use arrayvec::ArrayVec;
use base64::engine::general_purpose::STANDARD;

/// The bytes, at most 128, whose base64 the text is, in the standard alphabet, padded and with zero trailing bits.
pub fn base64_bytes(text: &str) -> Option<ArrayVec<u8, 128>>
    ensures { option_map (λ v. v.items) result ≡ encoded_of text.now }
{
    if text.len() > 172 {
        return None;
    }
    let mut room = [0u8; 132];
    match STANDARD.decode_slice_unchecked(text.as_bytes(), &mut room) {
        Ok(len) => in_place(&room[..len]),
        Err(_) => None,
    }
}

// The bytes, if they are at most 128.
fn in_place(bytes: &[u8]) -> Option<ArrayVec<u8, 128>>
    ensures few { option_map (λ v. v.items) result ≡ (if nat_le (length bytes.now) 128 then Some bytes.now else None) }
    ensures are_bytes { IsBytes bytes.now }
{
    let mut copy = ArrayVec::new();
    match copy.try_extend_from_slice(bytes) {
        Ok(()) => Some(copy),
        Err(_) => None,
    }
}
