//! What is given of a volume that is made.
ghost use Rattle.std.specs.Prelude.{◌≡◌, ◌⊎◌, MatchOption, MatchResult};
ghost use Rattle.luks_c_answers.specs.Asked.{payload_of};
ghost use Rattle.luks_c.specs.GivenAsked.{IsGivenBy, IsMaybeKey, IsMaybeSector, IsNoCipher, cipher_number};
ghost use Rattle.luks_c_headers.specs.RebuildAnswers.{IsNoText};
ghost use Rattle.luks_formatting.specs.declared.new_cipher.NewCipher.{NewCipher as TheCipher};

use luks_c_answers::data_of;
use luks_c_headers::{NoText, text_of};
use luks_formatting::{Given, NewCipher};

/// The number that is no sector.
const NO_SECTOR: u64 = 0xFFFF_FFFF_FFFF_FFFF;

/// How a new volume is encrypted.
#[repr(C)]
#[derive(Clone, Copy, Drop)]
pub struct LuksEncryption {
    /// 1 aes-xts-plain64, 2 aes-xts-plain; of older disks 3 aes-cbc-essiv:sha256, 4 aes-cbc-plain64, 5
    /// aes-cbc-plain.
    pub cipher: u32,
    /// The bytes of the volume key.
    pub key_bytes: u32,
    /// The bytes of a sector of the data.
    pub sector_bytes: u32,
    /// Whether a cipher of older disks is accepted; 0: no.
    pub older: u32,
}

/// What is given: the payload's sector, unless it is 2^64 - 1, the key, where `is_keyed` says so, each text
/// that has a byte, and the encryption, by this cipher.
pub(crate) fn given_of<'a>(
    is_detached: bool,
    sector: u64,
    is_keyed: bool,
    key: &'a [u8],
    uuid: &'a [u8],
    label: &'a [u8],
    subsystem: &'a [u8],
    encryption: &LuksEncryption,
    cipher: NewCipher,
) -> Result<Given<'a>, NoText>
    requires { cipher_number cipher ≡ encryption.now.cipher }
    ensures { MatchResult result
        (IsGivenBy (payload_of is_detached) sector is_keyed key.now uuid.now label.now subsystem.now encryption.now)
        (λ _. IsNoText uuid.now ⊎ (IsNoText label.now ⊎ IsNoText subsystem.now)) }
{
    Ok(Given {
        payload: data_of(is_detached),
        sector: sector_of(sector),
        key: key_of(is_keyed, key),
        uuid: text_of(uuid)?,
        label: text_of(label)?,
        subsystem: text_of(subsystem)?,
        cipher,
        key_bytes: encryption.key_bytes,
        sector_size: encryption.sector_bytes,
    })
}

/// The sector, where one is given.
fn sector_of(number: u64) -> Option<u64>
    ensures { IsMaybeSector number result }
{
    if number == NO_SECTOR {
        None
    } else {
        Some(number)
    }
}

/// The key, where one is given; it may have no byte.
fn key_of(is_keyed: bool, key: &[u8]) -> Option<&[u8]>
    ensures { IsMaybeKey is_keyed key.now result }
{
    if is_keyed { Some(key) } else { None }
}

/// The cipher of this number.
pub(crate) fn cipher_of(number: u32) -> Option<NewCipher>
    ensures { MatchOption result (IsNoCipher number) (λ (c : TheCipher). cipher_number c ≡ number) }
{
    match number {
        1 => Some(NewCipher::XtsPlain64),
        2 => Some(NewCipher::XtsPlain),
        3 => Some(NewCipher::CbcEssiv),
        4 => Some(NewCipher::CbcPlain64),
        5 => Some(NewCipher::CbcPlain),
        _ => None,
    }
}
