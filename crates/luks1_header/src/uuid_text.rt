//! The text of a uuid.
ghost use Rattle.std.specs.Prelude.{◌↔◌, IsTrue};
ghost use Rattle.luks1_header.specs.Bytes.{IsUuid};

use uuid::Uuid;

/// Whether the text is that of a uuid: 36 bytes that read as one, in either letter case.
pub fn is_uuid(text: &str) -> bool
    ensures { IsTrue result ↔ IsUuid text.now }
{
    text.len() == 36 && Uuid::try_parse(text).is_ok()
}
