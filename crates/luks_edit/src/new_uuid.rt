//! The uuid that an edit sets.
ghost use Rattle.std.specs.Prelude.{◌≡◌, ◌≢◌, ◌↔◌, ◌≤◌, Some, length, false, take, IfErr, MatchResult, OnOk, ⊤};
ghost use Rattle.luks_edit.specs.EditFaults.{is_edit_failure};
ghost use Rattle.luks_edit.specs.NewUuids.{uuid_field_after, uuid_need, IsBadUuid};

use crate::edit_fault::EditFault;
use luks2_header::{is_uuid, uuid_field, uuid_text};

/// The random bytes of a uuid of version 4.
const RANDOM: usize = 16;

/// The uuid that a volume gets.
#[derive(Clone, Copy)]
pub enum NewUuid<'a> {
    /// This text: 32 hexadecimal digits in either letter case, with hyphens at places 8, 13, 18 and 23.
    Text(&'a str),
    /// One of version 4 that 16 random bytes of the edit make, in lower case.
    Random,
}

/// Whether the uuid can be set, if one is given. Refused by `BadUuid`.
pub fn judge_uuid(given: Option<NewUuid<'_>>) -> Result<(), EditFault>
    ensures own { IfErr result (λ f. is_edit_failure f ≡ false) }
    ensures memory { IfErr result (λ f. f ≢ EditFault.Memory) }
    ensures row { MatchResult result (λ _. IsBadUuid given.entry → ⊥)
        (λ f. (f ≡ EditFault.BadUuid) × IsBadUuid given.entry) }
{
    match given {
        Some(NewUuid::Text(text)) => {
            if is_uuid(text) {
                Ok(())
            } else {
                Err(EditFault::BadUuid)
            }
        }
        _ => Ok(()),
    }
}

/// How many random bytes of an edit are its uuid's, if one is given.
pub fn uuid_need(given: Option<NewUuid<'_>>) -> usize
    ensures { result ≡ uuid_need given.entry }
{
    match given {
        Some(NewUuid::Random) => RANDOM,
        _ => 0,
    }
}

/// The uuid's field of a header, by the random bytes that are the uuid's own: the text that is given or made,
/// and zeros to the end of its 40 bytes; or the field that was there.
pub fn uuid_field_after(given: Option<NewUuid<'_>>, random: &[u8], kept: [u8; 40]) -> [u8; 40]
    requires good { IsBadUuid given → ⊥ }
    requires counted { uuid_need given ≤ length random.now }
    ensures { result ≡ uuid_field_after given.entry random.now kept }
{
    match given {
        Some(NewUuid::Text(text)) => uuid_field(text),
        Some(NewUuid::Random) => uuid_field(uuid_text(first_16(random)).as_str()),
        None => kept,
    }
}

/// The first 16 of the random bytes.
fn first_16(random: &[u8]) -> [u8; RANDOM]
    requires { 16 ≤ length random.now }
    ensures { result ≡ take 16 random.now }
{
    let mut owned = [0; RANDOM];
    owned.copy_from_slice(&random[..RANDOM]);
    owned
}
