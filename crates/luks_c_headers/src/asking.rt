//! What a caller gives of a header by bytes and numbers.
ghost use Rattle.std.specs.Prelude.{◌≡◌, ◌≤◌, ◌<◌, length, option_map, MatchResult, Option};
ghost use Rattle.luks_c_headers.specs.RebuildAnswers.{IsGivenBy, IsMaybeField, IsMaybeNumber, IsMaybeText, IsNoneGivenBy, IsNoText, which_asked};
ghost use Rattle.arrayvec.specs.ArrayString.{ArrayString as TheString};

use arrayvec::ArrayString;
use luks_rebuilding::{Copies, Effort, Which};
use luks1_rebuilding::Given as Fields;
use std::str;

/// Stands for a number that isn't given.
const NO_NUMBER: u32 = 0xFFFF_FFFF;

/// A text that isn't one.
#[derive(Clone, Copy)]
pub struct NoText;

/// The copies that are asked for.
pub fn copies_asked(is_second: bool, size: u64) -> Which
    ensures { result ≡ which_asked is_second size }
{
    let copies = match (is_second, size) {
        (false, 0) => Copies::Any,
        (false, size) => Copies::OfSize(size),
        (true, 0) => Copies::Second,
        (true, size) => Copies::SecondOfSize(size),
    };
    Which {
        copies,
        effort: Effort::Usual,
    }
}

/// The text of these bytes, where there are any.
pub fn text_of(bytes: &[u8]) -> Result<Option<&str>, NoText>
    ensures { MatchResult result (λ text. IsMaybeText bytes.now (option_map (λ t. t.now) text))
        (λ _. IsNoText bytes.now) }
{
    if bytes.is_empty() {
        return Ok(None);
    }
    match str::from_utf8(bytes) {
        Ok(text) => Ok(Some(text)),
        Err(_) => Err(NoText),
    }
}

/// What is given, each text in its place.
pub fn fields_of(
    cipher_name: &[u8],
    cipher_mode: &[u8],
    hash: &[u8],
    uuid: &[u8],
    key_bytes: u32,
    payload: u32,
) -> Result<Fields, NoText>
    ensures { MatchResult result
        (IsGivenBy cipher_name.now cipher_mode.now hash.now uuid.now key_bytes payload)
        (λ _. IsNoneGivenBy cipher_name.now cipher_mode.now hash.now uuid.now key_bytes payload) }
{
    Ok(Fields {
        cipher_name: in_field(cipher_name)?,
        cipher_mode: in_field(cipher_mode)?,
        hash: in_field(hash)?,
        key_bytes: number_of(key_bytes),
        payload: number_of(payload),
        uuid: in_field(uuid)?,
    })
}

/// The text of these bytes in its place, where there are any.
#[tactic(auto, using(crate::proofs::TextFacts::no_field))]
fn in_field<const N: usize>(bytes: &[u8]) -> Result<Option<ArrayString<N>>, NoText>
    ensures { MatchResult result (IsMaybeField N bytes.now)
        (λ _. (text : Option TheString) → IsMaybeField N bytes.now text → ⊥) }
{
    match text_of(bytes) {
        Ok(Some(text)) => Ok(Some(fitting(text)?)),
        Ok(None) => Ok(None),
        Err(NoText) => Err(NoText),
    }
}

/// The text in its place, where it fits.
fn fitting<const N: usize>(text: &str) -> Result<ArrayString<N>, NoText>
    ensures { MatchResult result (λ owned. (owned.bytes ≡ text.now) × (length text.now ≤ N))
        (λ _. N < length text.now) }
{
    if text.len() > N {
        return Err(NoText);
    }
    let mut owned = ArrayString::new();
    owned.push_str(text);
    Ok(owned)
}

/// The number, where one is given.
fn number_of(number: u32) -> Option<u32>
    ensures { IsMaybeNumber number result }
{
    if number == NO_NUMBER {
        None
    } else {
        Some(number)
    }
}
