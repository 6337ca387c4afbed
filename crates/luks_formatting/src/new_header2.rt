//! The copies of the header of a new LUKS2 volume.
ghost use Rattle.std.specs.Prelude.{◌≡◌, ◌+◌, ◌^◌, ◌<◌, ◌≤◌, ◌⊎◌, length, OnOk};
ghost use Rattle.luks_area.specs.Device.{CountsFailure, IsSettled, is_failure};
ghost use Rattle.luks_area.specs.Ranges.{IsAt, SameBut};
ghost use Rattle.luks_formatting.specs.Formatted2.{HasNewCopy};
ghost use Rattle.luks_formatting.specs.NewHeader2.{copy_size, json_size, AreTexts2, IsNewCopy};

use crate::given::{Given, name_field, uuid_of};
use luks_area::{Device, DeviceFault};
use luks_writing::write_copy;
use luks2_header::{Bin2, uuid_field};

/// The length of a copy of the header in bytes, which is also the second copy's place.
pub(crate) const COPY_SIZE: u64 = 16384;

/// The length of a copy's JSON area in bytes.
pub(crate) const JSON_SIZE: usize = 12288;

/// The place of the salt of the first copy among the random bytes, the length of the volume key aside.
pub(crate) const FIRST_SALT: usize = 48;

/// The place of the salt of the second copy, likewise.
pub(crate) const SECOND_SALT: usize = 112;

/// The place of the salt of keyslot 0, likewise.
pub(crate) const SLOT_SALT: usize = 176;

/// Writes the copy of the header that is at the place `at`, with its salt, and flushes. Also
/// where the device fails no byte outside the copy changes.
pub(crate) fn write_new_copy<D: Device>(
    device: &mut D,
    at: u64,
    given: &Given<'_>,
    random: &[u8],
    salt: [u8; 64],
    json: &[u8],
) -> Result<(), DeviceFault>
    requires place { (at ≡ 0) ⊎ (at ≡ copy_size) }
    requires long { 16 ≤ length random.now }
    requires texts { AreTexts2 given.now }
    requires json { length json.now ≡ json_size }
    requires within { 32768 ≤ D.size device.old }
    requires room { D.failed device.old + 1 < 2 ^ 64 }
    requires settled { D.tells → IsSettled D.unsettled device.old }
    ensures count { CountsFailure is_failure result (D.failed device.old) (D.failed device.new) }
    ensures size { D.size device.new ≡ D.size device.old }
    ensures settled { D.tells → D.failed device.new ≡ D.failed device.old
        → IsSettled D.unsettled device.new }
    ensures copy { D.tells → OnOk result
        (HasNewCopy (D.bytes device.new) given.now random.now salt json.now at) }
    ensures rest { D.tells → SameBut (IsAt at copy_size) (D.bytes device.old) (D.bytes device.new) }
{
    let header = new_header(at, given, random, salt);
    write_copy(device, &header, json)
}

// The binary header, whose checksum is made where it is written.
fn new_header(at: u64, given: &Given<'_>, random: &[u8], salt: [u8; 64]) -> Bin2
    requires long { 16 ≤ length random.now }
    requires texts { AreTexts2 given.now }
    ensures { IsNewCopy given.now random.now salt at result }
{
    let first = Bin2 {
        magic: [0; 6],
        version: 2,
        hdr_size: COPY_SIZE,
        seqid: 1,
        label: name_field(given.label),
        csum_alg: [0; 32],
        salt,
        uuid: uuid_field(uuid_of(given, random).as_str()),
        subsystem: name_field(given.subsystem),
        hdr_offset: at,
        csum: [0; 64],
    };
    first.renewed(at, 1, salt)
}
