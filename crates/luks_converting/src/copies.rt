//! The copies of the header of a converted volume.
ghost use Rattle.std.specs.Prelude.{◌≡◌, ◌+◌, ◌++◌, ◌^◌, ◌<◌, ◌≤◌, ◌⊎◌, length, replicate, OnOk};
ghost use Rattle.luks_area.specs.Device.{CountsFailure, IsSettled, is_failure};
ghost use Rattle.luks_area.specs.Ranges.{part, IsAt, SameBut};
ghost use Rattle.luks_converting.specs.Converted.{copy_size, json_size, HasConvertedCopy, IsConvertedHeader};

use luks_area::{Device, DeviceFault};
use luks_writing::write_copy;
use luks2_header::Bin2;

/// The length of a copy of the header in bytes, which is also the second copy's place.
pub(crate) const COPY_SIZE: u64 = 16384;

/// The place of the salt of the first copy among the random bytes.
pub(crate) const FIRST_SALT: usize = 0;

/// The place of the salt of the second copy.
pub(crate) const SECOND_SALT: usize = 64;

/// The salt at this place of the random bytes.
pub(crate) fn taken_salt(random: &[u8], at: usize) -> [u8; 64]
    requires { at + 64 ≤ length random.now }
    ensures { result ≡ part random.now at 64 }
{
    let mut salt = [0; 64];
    salt.copy_from_slice(&random[at..at + 64]);
    salt
}

/// Writes the copy of the header that is at the place `at`, with this uuid of 36 bytes and this
/// salt, and flushes. Also where the device fails no byte outside the copy changes.
pub(crate) fn write_converted_copy<D: Device>(
    device: &mut D,
    at: u64,
    uuid: &str,
    salt: [u8; 64],
    json: &[u8],
) -> Result<(), DeviceFault>
    requires place { (at ≡ 0) ⊎ (at ≡ copy_size) }
    requires uuid { length uuid.now ≡ 36 }
    requires json { length json.now ≡ json_size }
    requires within { 32768 ≤ D.size device.old }
    requires room { D.failed device.old + 1 < 2 ^ 64 }
    requires settled { D.tells → IsSettled D.unsettled device.old }
    ensures count { CountsFailure is_failure result (D.failed device.old) (D.failed device.new) }
    ensures size { D.size device.new ≡ D.size device.old }
    ensures settled { D.tells → D.failed device.new ≡ D.failed device.old
        → IsSettled D.unsettled device.new }
    ensures copy { D.tells → OnOk result
        (HasConvertedCopy (D.bytes device.new) uuid.now salt json.now at) }
    ensures rest { D.tells → SameBut (IsAt at copy_size) (D.bytes device.old) (D.bytes device.new) }
{
    let header = new_header(at, uuid, salt);
    write_copy(device, &header, json)
}

/// The binary header, whose checksum is made where it is written.
fn new_header(at: u64, uuid: &str, salt: [u8; 64]) -> Bin2
    requires { length uuid.now ≡ 36 }
    ensures { IsConvertedHeader uuid.now salt at result }
{
    let first = Bin2 {
        magic: [0; 6],
        version: 2,
        hdr_size: COPY_SIZE,
        seqid: 1,
        label: [0; 48],
        csum_alg: [0; 32],
        salt,
        uuid: uuid_field(uuid),
        subsystem: [0; 48],
        hdr_offset: at,
        csum: [0; 64],
    };
    first.renewed(at, 1, salt)
}

/// The uuid's text, with zeros to the end of its field.
fn uuid_field(uuid: &str) -> [u8; 40]
    requires { length uuid.now ≡ 36 }
    ensures { result ≡ uuid.now ++ replicate 4 0 }
{
    let mut field = [0; 40];
    field[..36].copy_from_slice(uuid.as_bytes());
    field
}
