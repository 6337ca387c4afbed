//! Words that stand for bytes.
use crate::malformed::Malformed;
use crate::words::number_of;
use std::alloc::{AllocError, Global};

/// The bytes for which a word stands: none for `-`, those of the text behind a `:`, as many of a
/// pattern as a number behind a `*` says, and else two hexadecimal digits each.
pub fn bytes_of(alloc: Global, word: &str) -> Result<Vec<u8>, Malformed> {
    if word == "-" {
        return Ok(Vec::new(alloc));
    }
    if let Some(text) = word.strip_prefix(":") {
        return Ok(text.as_bytes().to_vec(alloc)?);
    }
    match word.split_once('*') {
        Some((name, len)) => Ok(repeated(alloc, pattern_of(name)?, number_of(len)?)?),
        None => hex::decode(alloc, word).ok().ok_or(Malformed::Bytes),
    }
}

/// Bytes by their places.
#[derive(Clone, Copy)]
enum Pattern {
    /// The same byte everywhere.
    Same(u8),
    /// The place modulo this number, 1 to 256.
    Counted(u64),
    /// The high bytes of the numbers of splitmix64 from this state on.
    Random(u64),
    /// The bytes from this place on of the stream that cryptsetup was given in place of random ones.
    Stream(u32),
}

/// The pattern of this name: two hexadecimal digits of a byte, `up` and a modulus, `random` and a
/// state in hexadecimal, or `stream` and a place.
fn pattern_of(name: &str) -> Result<Pattern, Malformed> {
    if let Some(modulus) = name.strip_prefix("up") {
        let modulus = number_of(modulus)?;
        return if 1 <= modulus && modulus <= 256 {
            Ok(Pattern::Counted(modulus))
        } else {
            Err(Malformed::Number)
        };
    }
    if let Some(state) = name.strip_prefix("random") {
        let state = u64::from_str_radix(state, 16)
            .ok()
            .ok_or(Malformed::Number)?;
        return Ok(Pattern::Random(state));
    }
    if let Some(place) = name.strip_prefix("stream") {
        let place = u32::try_from(number_of(place)?)
            .ok()
            .ok_or(Malformed::Number)?;
        return Ok(Pattern::Stream(place));
    }
    let byte = u8::from_str_radix(name, 16).ok().ok_or(Malformed::Bytes)?;
    Ok(Pattern::Same(byte))
}

impl Pattern {
    /// The byte at a place.
    fn byte(self, at: u64) -> u8 {
        match self {
            Pattern::Same(byte) => byte,
            Pattern::Counted(modulus) => {
                let rest = at.checked_rem(modulus).unwrap_or(0);
                u8::try_from(rest).unwrap_or(0)
            }
            Pattern::Random(state) => {
                let turns = at.wrapping_add(1).wrapping_mul(0x9e37_79b9_7f4a_7c15);
                high_byte(state.wrapping_add(turns))
            }
            Pattern::Stream(from) => stream_byte(from.wrapping_add((at % 0x1_0000_0000) as u32)),
        }
    }
}

/// The high byte of the number that splitmix64 gives at this state.
fn high_byte(state: u64) -> u8 {
    let z = (state ^ (state >> 30)).wrapping_mul(0xbf58_476d_1ce4_e5b9);
    let z = (z ^ (z >> 27)).wrapping_mul(0x94d0_49bb_1331_11eb);
    let [high, _, _, _, _, _, _, _] = (z ^ (z >> 31)).to_be_bytes();
    high
}

/// The byte at a place of the stream that testdata/cryptsetup gave to cryptsetup.
fn stream_byte(at: u32) -> u8 {
    let x = at.wrapping_mul(0x9e37_79b1);
    let [first, _, _, _] = (x ^ (x >> 15)).wrapping_mul(0x85eb_ca77).to_be_bytes();
    first
}

fn repeated(alloc: Global, pattern: Pattern, len: u64) -> Result<Vec<u8>, AllocError> {
    let mut bytes = Vec::new(alloc);
    for at in 0..len {
        bytes.push(pattern.byte(at))?;
    }
    Ok(bytes)
}
