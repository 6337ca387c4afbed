//! The segment that holds the data, as it is given.
ghost use Rattle.std.specs.Prelude.{◌≡◌, ◌↔◌, IfNone, IfOk, IfSome, IsTrue};
ghost use Rattle.std.specs.List.{list_all};
ghost use Rattle.luks_piecing.specs.Given.{given_text, is_unescaped, IsCipherName, IsGivenText};

use std::alloc::{AllocError, Global};

/// A cipher's name has no more bytes.
const LONGEST_NAME: usize = 64;

/// The segment that holds the data, as it is given where none is whole.
#[derive(Debug, Clone, Copy, PartialEq, Eq)]
pub struct GivenSegment<'a> {
    /// Where it begins, in bytes.
    pub offset: u64,
    /// Its cipher, as `aes-xts-plain64`.
    pub cipher: &'a str,
    /// How many bytes its sectors have.
    pub sector_size: u32,
}

/// The text of the segment that is given: none where its cipher can't be a name.
pub(crate) fn given_text(
    alloc: Global,
    given: &GivenSegment<'_>,
) -> Result<Option<Vec<u8>>, AllocError>
    ensures some { IfOk result (λ found. IfSome found (λ text. IsGivenText given.now text.items)) }
    ensures none { IfOk result (λ found. IfNone found (IsCipherName given.now.cipher.now → ⊥)) }
{
    if !is_cipher_name(given.cipher.as_bytes()) {
        return Ok(None);
    }
    Ok(Some(segment_text(alloc, given)?))
}

fn segment_text(alloc: Global, given: &GivenSegment<'_>) -> Result<Vec<u8>, AllocError>
    ensures { IfOk result (λ text. text.items ≡ given_text given.now) }
{
    let mut text = Vec::new(alloc);
    let offset = given.offset.to_string(alloc)?;
    let sector_size = given.sector_size.to_string(alloc)?;
    text.extend_from_slice(b"{\"type\":\"crypt\",\"offset\":\"")?;
    text.extend_from_slice(offset.as_bytes())?;
    text.extend_from_slice(b"\",\"iv_tweak\":\"0\",\"size\":\"dynamic\",\"encryption\":\"")?;
    text.extend_from_slice(given.cipher.as_bytes())?;
    text.extend_from_slice(b"\",\"sector_size\":")?;
    text.extend_from_slice(sector_size.as_bytes())?;
    text.extend_from_slice(b"}")?;
    Ok(text)
}

fn is_cipher_name(name: &[u8]) -> bool
    ensures { IsTrue result ↔ IsCipherName name.now }
{
    name.len() <= LONGEST_NAME && is_unescaped(name)
}

fn is_unescaped(name: &[u8]) -> bool
    ensures { result ≡ list_all is_unescaped name.now }
{
    name.iter().all(|byte| is_unescaped_byte(*byte))
}

fn is_unescaped_byte(byte: u8) -> bool
    ensures { result ≡ is_unescaped byte }
{
    (0x20..=0x7E).contains(&byte) && byte != b'"' && byte != b'\\'
}
