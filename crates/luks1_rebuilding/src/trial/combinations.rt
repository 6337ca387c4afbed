//! The combinations of what isn't given, in the order in which they are tried.
ghost use Rattle.std.specs.List.{slice_get};
ghost use Rattle.std.specs.Prelude.{◌≡◌, ◌↔◌, ◌+◌, ◌-◌, ◌<◌, ◌≤◌, ℕ, List, Option, Some, None, length, true, IfNone, IfOk, IfSome, IsTrue, OnErr};
ghost use Rattle.luks_area.specs.Text.{is_plain};
ghost use Rattle.luks1_header.specs.Header1.{field_at, field_len, header_text, key_bytes_of, luks1_size};
ghost use Rattle.luks1_mending.specs.declared.given.Given.{Given as TheGiven};
ghost use Rattle.luks1_rebuilding.specs.Combinations.{tried_lengths, tried_texts, IsCombination, IsLengthAt, IsTextAt};
ghost use Rattle.luks1_rebuilding.specs.Tried.{bytes_of};

use arrayvec::ArrayString;
use byteorder::{BigEndian, ByteOrder};
use luks_area::text_field;
use luks1_header::fields::field;
use luks1_mending::Given;
use luks2_header::TextField;

/// How many combinations there are, with those that are left out.
pub(crate) const COMBINATIONS: u8 = 64;

/// The place of the length of the key, in bytes from the header's start.
const KEY_BYTES: usize = 108;

/// A place of a list that isn't tried.
#[derive(Clone, Copy, PartialEq, Eq)]
pub(crate) struct LeftOut;

/// What is given, completed by the combination of this number.
pub(crate) fn combination(header: &[u8], given: &Given, number: u8) -> Result<Given, LeftOut>
    requires long { length header.now ≡ luks1_size }
    requires numbered { number < 64 }
    ensures is { IfOk result (IsCombination header.now given.now number) }
    ensures left_out { OnErr result ((c : TheGiven)
        → IsCombination header.now given.now number c → ⊥) }
{
    let name = number / 32;
    let mode = number / 16 % 2;
    let hash = number / 4 % 4;
    let cipher_name = text(header, TextField::CipherName, given.cipher_name, name)?;
    let cipher_mode = text(header, TextField::CipherMode, given.cipher_mode, mode)?;
    let hash = text(header, TextField::HashSpec, given.hash, hash)?;
    let key_bytes = key_bytes(header, given.key_bytes, number % 4)?;
    Ok(Given {
        cipher_name,
        cipher_mode,
        hash,
        key_bytes,
        payload: given.payload,
        uuid: given.uuid,
    })
}

/// The text at this place of a field's list: at 0 what is given, or none, and then what stands is taken.
fn text(
    header: &[u8],
    of: TextField,
    given: Option<ArrayString<32>>,
    place: u8,
) -> Result<Option<ArrayString<32>>, LeftOut>
    requires { length header.now ≡ luks1_size }
    ensures is { IfOk result (λ t. IsTextAt header.now of (bytes_of given) place (bytes_of t)) }
    ensures left_out { OnErr result ((t : Option (List ℕ))
        → IsTextAt header.now of (bytes_of given) place t → ⊥) }
{
    if place == 0 {
        return Ok(given);
    }
    let Some(text) = tried_text(of, place - 1) else {
        return Err(LeftOut);
    };
    if given.is_some() || stands(header, of, text) {
        return Err(LeftOut);
    }
    Ok(Some(owned(text)))
}

/// The text of the field that is tried at this place, from 0 on.
fn tried_text(of: TextField, place: u8) -> Option<&'static str>
    ensures some { IfSome result (λ t. slice_get (tried_texts of) place ≡ Some t.now) }
    ensures none { IfNone result (slice_get (tried_texts of) place ≡ None) }
    ensures plain { IfSome result (λ t. is_plain t.now ≡ true) }
    ensures short { IfSome result (λ t. length t.now ≤ 32) }
{
    match of {
        TextField::CipherName => match place {
            0 => Some("aes"),
            _ => None,
        },
        TextField::CipherMode => match place {
            0 => Some("xts-plain64"),
            _ => None,
        },
        TextField::HashSpec => match place {
            0 => Some("sha256"),
            1 => Some("sha1"),
            2 => Some("sha512"),
            _ => None,
        },
        TextField::Uuid => None,
    }
}

/// Whether this text is in the field.
fn stands(header: &[u8], of: TextField, text: &str) -> bool
    requires long { length header.now ≡ luks1_size }
    requires plain { is_plain text.now ≡ true }
    ensures { IsTrue result ↔ text.now ≡ header_text header.now of }
{
    match text_field(field(header, place_of(of), size_of(of))) {
        Some(standing) => standing == text,
        None => false,
    }
}

/// The place of the text of a field, in bytes from the header's start.
fn place_of(of: TextField) -> usize
    ensures { result ≡ field_at of }
{
    match of {
        TextField::CipherName => 8,
        TextField::CipherMode => 40,
        TextField::HashSpec => 72,
        TextField::Uuid => 168,
    }
}

/// In how many bytes.
fn size_of(of: TextField) -> usize
    ensures { result ≡ field_len of }
{
    match of {
        TextField::CipherName | TextField::CipherMode | TextField::HashSpec => 32,
        TextField::Uuid => 40,
    }
}

/// The length of the key at this place of its list: at 0 what is given, or none, and then what stands is taken.
fn key_bytes(header: &[u8], given: Option<u32>, place: u8) -> Result<Option<u32>, LeftOut>
    requires { length header.now ≡ luks1_size }
    ensures is { IfOk result (IsLengthAt header.now given place) }
    ensures left_out { OnErr result ((len : Option ℕ) → IsLengthAt header.now given place len → ⊥) }
{
    if place == 0 {
        return Ok(given);
    }
    let Some(len) = tried_length(place - 1) else {
        return Err(LeftOut);
    };
    if given.is_some() || len == standing_length(header) {
        return Err(LeftOut);
    }
    Ok(Some(len))
}

/// The length of the key that is tried at this place, from 0 on, in bytes.
fn tried_length(place: u8) -> Option<u32>
    ensures { result ≡ slice_get tried_lengths place }
{
    match place {
        0 => Some(64),
        1 => Some(32),
        2 => Some(16),
        _ => None,
    }
}

/// The length that stands.
fn standing_length(header: &[u8]) -> u32
    requires { length header.now ≡ luks1_size }
    ensures { result ≡ key_bytes_of header.now }
{
    BigEndian::read_u32(field(header, KEY_BYTES, 4))
}

/// The text, as it is given.
pub(crate) fn owned(text: &str) -> ArrayString<32>
    requires { length text.now ≤ 32 }
    ensures { result.bytes ≡ text.now }
{
    let mut owned = ArrayString::new();
    owned.push_str(text);
    owned
}
