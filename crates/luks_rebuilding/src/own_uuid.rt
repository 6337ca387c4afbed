//! The uuid of the new header.
ghost use Rattle.std.specs.Prelude.{◌≡◌, ◌+◌, ◌^◌, ◌<◌, ◌≤◌, ◌++◌, List, None, Some, length, replicate, option_map, IfOk, ℕ};
ghost use Rattle.luks_area.specs.Device.{CountsFailure, IsUnchanged, is_failure};
ghost use Rattle.luks1_header.specs.Bytes.{IsUuid};
ghost use Rattle.luks_rebuilding.specs.Candidates.{IsPlace};
ghost use Rattle.luks_rebuilding.specs.Found.{FindsUuid, IsOwnField};
ghost use Rattle.luks_rebuilding.specs.Rebuilt.{random_size, uuid_bytes};
ghost use Rattle.luks2_header.specs.NewUuid.{uuid_text};

use crate::place::{Place, other_at};
use luks_area::{Device, DeviceFault};
use luks2_header::{Bin2, uuid_field, uuid_text};

/// The place of the bytes of a new uuid among the random bytes.
const UUID: usize = 128;

/// The uuid field of the new header: the uuid that is given, else that of the source's binary headers.
pub(crate) fn own_field<D: Device>(
    source: &mut D,
    place: Place,
    given: Option<&str>,
    random: &[u8],
) -> Result<[u8; 40], DeviceFault>
    requires uuid { (text : List ℕ) → option_map (λ t. t.now) given ≡ Some text → IsUuid text }
    requires random { length random.now ≡ random_size }
    requires place { IsPlace (D.size source.old) place }
    requires other { place.size + place.size ≤ D.size source.old }
    requires room { D.failed source.old + 1 < 2 ^ 64 }
    ensures unchanged { IsUnchanged D.tells D.size D.bytes D.unsettled source.old source.new }
    ensures count { CountsFailure is_failure result (D.failed source.old) (D.failed source.new) }
    ensures own { D.tells → IfOk result
        (IsOwnField (D.bytes source.old) place.size place.at (option_map (λ t. t.now) given.entry) random.now) }
{
    match given {
        Some(text) => Ok(uuid_field(text)),
        None => kept_field(source, place, random),
    }
}

/// The field with the uuid of the binary header of the copy, or of the other copy, or a new one.
fn kept_field<D: Device>(
    source: &mut D,
    place: Place,
    random: &[u8],
) -> Result<[u8; 40], DeviceFault>
    requires random { length random.now ≡ random_size }
    requires place { IsPlace (D.size source.old) place }
    requires other { place.size + place.size ≤ D.size source.old }
    requires room { D.failed source.old + 1 < 2 ^ 64 }
    ensures unchanged { IsUnchanged D.tells D.size D.bytes D.unsettled source.old source.new }
    ensures count { CountsFailure is_failure result (D.failed source.old) (D.failed source.new) }
    ensures own { D.tells → IfOk result
        (IsOwnField (D.bytes source.old) place.size place.at None random.now) }
{
    match found_field(source, place.at)? {
        Some(field) => Ok(field),
        None => match found_field(source, other_at(place))? {
            Some(field) => Ok(field),
            None => Ok(new_field(random)),
        },
    }
}

/// The field with the uuid of the binary header at the place `at`, if that has one.
fn found_field<D: Device>(source: &mut D, at: u64) -> Result<Option<[u8; 40]>, DeviceFault>
    requires within { at + 4096 ≤ D.size source.old }
    requires room { D.failed source.old + 1 < 2 ^ 64 }
    ensures unchanged { IsUnchanged D.tells D.size D.bytes D.unsettled source.old source.new }
    ensures count { CountsFailure is_failure result (D.failed source.old) (D.failed source.new) }
    ensures found { D.tells → IfOk result (FindsUuid (D.bytes source.old) at) }
{
    let mut bytes = [0; 4096];
    source.read_at(at, &mut bytes)?;
    match Bin2::read(&bytes).uuid() {
        Ok(text) => Ok(Some(uuid_field(text))),
        Err(_) => Ok(None),
    }
}

/// The field with the new uuid.
fn new_field(random: &[u8]) -> [u8; 40]
    requires { length random.now ≡ random_size }
    ensures { result ≡ uuid_text (uuid_bytes random.now) ++ replicate 4 0 }
{
    let mut bytes = [0; 16];
    bytes.copy_from_slice(&random[UUID..]);
    uuid_field(uuid_text(bytes).as_str())
}
