//! The segment of LUKS2 metadata that is given, where none is whole.
ghost use Rattle.std.specs.Prelude.{◌≡◌, ◌+◌, ◌*◌, ◌<◌, ◌≤◌, ◌∷◌, ◌++◌, ℕ, List, length, IfNone, IfSome};
ghost use Rattle.luks_header_commands.specs.Segment.{longest_cipher, HasCipher, IsGivenCipher, IsGivenSegment};

use arrayvec::ArrayString;
use luks_request::{Luks1Fields, Rebuilding};
use luks2_searching::GivenSegment;

/// A cipher's name and its mode have no more bytes, with a hyphen between them.
const LONGEST_CIPHER: usize = 64;

/// The cipher that is given, its name and its mode, if both are, and fit.
pub(crate) fn given_cipher(fields: &Luks1Fields<'_>) -> Option<ArrayString<64>>
    ensures { IsGivenCipher fields.now result }
{
    match (fields.cipher_name, fields.cipher_mode) {
        (Some(name), Some(mode)) => joined(name, mode),
        _ => None,
    }
}

/// Both with a hyphen between them, if they fit.
fn joined(name: &str, mode: &str) -> Option<ArrayString<64>>
    ensures some { IfSome result (λ text. text.bytes ≡ name.now ++ 0x2D ∷ mode.now) }
    ensures none { IfNone result (longest_cipher < length (name.now ++ 0x2D ∷ mode.now)) }
{
    if name.len() >= LONGEST_CIPHER || mode.len() >= LONGEST_CIPHER - name.len() {
        return None;
    }
    let mut text = ArrayString::new();
    text.push_str(name);
    text.push_str("-");
    text.push_str(mode);
    Some(text)
}

/// The byte where the sector begins, of 512 bytes.
fn first_byte(sector: u32) -> u64
    ensures { result ≡ 512 * sector }
{
    512 * u64::from(sector)
}

/// The segment that is given, of this cipher, if its place and the size of its sectors are, too.
pub(crate) fn given_segment<'a>(
    rebuilding: &Rebuilding<'_>,
    cipher: &'a Option<ArrayString<64>>,
) -> Option<GivenSegment<'a>>
    requires { IsGivenCipher rebuilding.now.luks1 cipher.now }
    ensures { IsGivenSegment rebuilding.now result }
{
    match (cipher, rebuilding.luks1.payload, rebuilding.sector_size) {
        (Some(cipher), Some(sector), Some(sector_size)) => Some(GivenSegment {
            offset: first_byte(sector),
            cipher: cipher.as_str(),
            sector_size,
        }),
        _ => None,
    }
}
