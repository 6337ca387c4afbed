//! Texts of uuids.
ghost use Rattle.std.specs.Prelude.{◌≡◌, ◌↔◌, ◌++◌, ◌≤◌, length, replicate, IsTrue};
ghost use Rattle.luks1_header.specs.Bytes.{IsUuid};
ghost use Rattle.luks2_header.specs.NewUuid.{uuid_text};

use arrayvec::ArrayString;
use uuid::{Builder, Uuid};

/// Whether the text is that of a uuid, 36 bytes in either letter case (RFC 9562, 4).
pub fn is_uuid(text: &str) -> bool
    ensures { IsTrue result ↔ IsUuid text.now }
{
    text.len() == 36 && Uuid::try_parse(text).is_ok()
}

/// The text of the uuid of version 4 that these random bytes make, 36 bytes in lower case (RFC
/// 9562, 5.4).
pub fn uuid_text(random: [u8; 16]) -> ArrayString<40>
    ensures { result.bytes ≡ uuid_text random }
{
    let uuid = Builder::from_random_bytes(random).into_uuid();
    let mut buffer = [0; 36];
    owned(uuid.hyphenated().encode_lower(&mut buffer))
}

/// The text in place.
fn owned(text: &str) -> ArrayString<40>
    requires { length text.now ≤ 40 }
    ensures { result.bytes ≡ text.now }
{
    let mut owned = ArrayString::new();
    owned.push_str(text);
    owned
}

/// The uuid field of a header: a text of 36 bytes, and zeros to the end of its 40.
pub fn uuid_field(text: &str) -> [u8; 40]
    requires { length text.now ≡ 36 }
    ensures { result ≡ text.now ++ replicate 4 0 }
{
    let mut field = [0; 40];
    field[..36].copy_from_slice(text.as_bytes());
    field
}
