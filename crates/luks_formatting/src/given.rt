//! What is given of a new volume.
ghost use Rattle.std.specs.Prelude.{◌≡◌, ◌+◌, ◌≤◌, ◌++◌, ◌-◌, length, replicate, IfSome};
ghost use Rattle.luks1_header.specs.Bytes.{IsUuid};
ghost use Rattle.luks_formatting.specs.Given.{key_of, name_field, uuid_of};

use crate::new_cipher::NewCipher;
use crate::random::{KEY, UUID, taken, taken_array};
use arrayvec::ArrayString;
use luks_reading::Data;
use luks2_header::uuid_text;

/// What is given of a new volume in the place of what is made for it.
#[derive(Clone, Copy)]
pub struct Given<'a> {
    /// Where the payload lies.
    pub payload: Data,
    /// At which sector of 512 bytes the payload begins, of the device that it lies on. Without it that is at 2
    /// MiB, of LUKS2 at 16 MiB, and on another device than the header's at its start.
    pub sector: Option<u64>,
    /// The volume key, of `key_bytes`; without it that is of the random bytes.
    pub key: Option<&'a [u8]>,
    /// The text of the uuid, which is kept as it is; without it that is of the random bytes.
    pub uuid: Option<&'a str>,
    /// LUKS2: the label, at most 47 bytes of 0x20 to 0x7E; without it there is none.
    pub label: Option<&'a str>,
    /// LUKS2: the subsystem, likewise.
    pub subsystem: Option<&'a str>,
    /// The cipher of the data and of the key areas.
    pub cipher: NewCipher,
    /// The length of the volume key in bytes, such as the cipher takes.
    pub key_bytes: u32,
    /// The length of the data's sectors in bytes: 512, of LUKS2 also 1024, 2048 or 4096.
    pub sector_size: u32,
}

impl Given<'_> {
    /// No more than that the payload lies on the volume itself: a key of 64 bytes for aes-xts-plain64, in sectors
    /// of 512 bytes.
    pub const NOTHING: Given<'static> = Given {
        payload: Data::Here,
        sector: None,
        key: None,
        uuid: None,
        label: None,
        subsystem: None,
        cipher: NewCipher::XtsPlain64,
        key_bytes: 64,
        sector_size: 512,
    };
}

/// The volume key: the given one, or that of the random bytes.
pub(crate) fn key_of<'a>(given: &Given<'a>, random: &'a [u8]) -> &'a [u8]
    requires { 16 + given.now.key_bytes ≤ length random.now }
    ensures { result.now ≡ key_of given.now random.now }
{
    match given.key {
        Some(key) => key,
        None => taken(random, KEY, given.key_bytes as usize),
    }
}

/// The text of the uuid likewise.
pub(crate) fn uuid_of(given: &Given<'_>, random: &[u8]) -> ArrayString<40>
    requires long { 16 ≤ length random.now }
    requires short { IfSome given.now.uuid (λ text. length text.now ≤ 40) }
    ensures { result.bytes ≡ uuid_of given.now random.now }
{
    match given.uuid {
        Some(text) => owned(text),
        None => uuid_text(taken_array(random, UUID)),
    }
}

/// The text in place.
pub(crate) fn owned<const N: usize>(text: &str) -> ArrayString<N>
    requires { length text.now ≤ N }
    ensures { result.bytes ≡ text.now }
{
    let mut owned = ArrayString::new();
    owned.push_str(text);
    owned
}

/// The field of a label or a subsystem: the text that is given, and zeros.
pub(crate) fn name_field(text: Option<&str>) -> [u8; 48]
    requires { IfSome text (λ text. length text.now ≤ 47) }
    ensures { result ≡ name_field text.entry }
{
    match text {
        Some(text) => padded(text.as_bytes()),
        None => [0; 48],
    }
}

/// The text, and zeros to the end of the field.
fn padded(text: &[u8]) -> [u8; 48]
    requires { length text.now ≤ 48 }
    ensures { result ≡ text.now ++ replicate (48 - length text.now) 0 }
{
    let mut field = [0; 48];
    field[..text.len()].copy_from_slice(text);
    field
}
