//! The copies of the new header.
ghost use Rattle.std.specs.Prelude.{◌≡◌, ◌+◌, ◌*◌, ◌++◌, ◌^◌, ◌<◌, ◌≤◌, ◌⊎◌, ℕ, List, length, replicate, OnOk};
ghost use Rattle.luks_area.specs.Device.{CountsFailure, IsSettled, is_failure};
ghost use Rattle.luks_area.specs.Ranges.{part, IsAt, SameBut};
ghost use Rattle.luks2_header.specs.Sizes.{IsListed};
ghost use Rattle.luks_rebuilding.specs.Found.{kept_label, kept_subsystem, source_of};
ghost use Rattle.luks_rebuilding.specs.Rebuilt.{HasRebuiltCopy, IsRebuiltHeader};

use crate::candidate::Candidate;
use crate::vouching::next_seqid;
use luks_area::{Device, DeviceFault};
use luks_writing::write_copy;
use luks2_header::Bin2;

/// The place of the salt of the first copy among the random bytes.
pub(crate) const FIRST_SALT: usize = 0;

/// The place of the salt of the second copy.
pub(crate) const SECOND_SALT: usize = 64;

/// The salt at this place of the random bytes.
pub(crate) fn taken_salt(random: &[u8], at: usize) -> [u8; 64]
    requires { at + 64 ≤ length random.now }
    ensures { result ≡ part random.now at 64 }
{
    let mut salt = [0; 64];
    salt.copy_from_slice(&random[at..at + 64]);
    salt
}

/// Writes the copy of the header that is made of the candidate, at the place `at`, with this uuid field
/// and this salt, and flushes. Also where the device fails no byte outside the copy changes.
pub(crate) fn write_rebuilt_copy<D: Device>(
    device: &mut D,
    found: &Candidate,
    at: u64,
    uuid: [u8; 40],
    salt: [u8; 64],
) -> Result<(), DeviceFault>
    requires listed { IsListed found.now.place.size }
    requires place { (at ≡ 0) ⊎ (at ≡ found.now.place.size) }
    requires json { 4096 + length found.now.json.items ≡ found.now.place.size }
    requires within { 2 * found.now.place.size ≤ D.size device.old }
    requires room { D.failed device.old + 1 < 2 ^ 64 }
    requires settled { D.tells → IsSettled D.unsettled device.old }
    ensures count { CountsFailure is_failure result (D.failed device.old) (D.failed device.new) }
    ensures size { D.size device.new ≡ D.size device.old }
    ensures settled { D.tells → D.failed device.new ≡ D.failed device.old
        → IsSettled D.unsettled device.new }
    ensures copy { D.tells → OnOk result ((text : List ℕ) → uuid ≡ text ++ replicate 4 0
        → HasRebuiltCopy (D.bytes device.new) text salt (source_of found.now) at) }
    ensures rest { D.tells → SameBut (IsAt at found.now.place.size)
        (D.bytes device.old) (D.bytes device.new) }
{
    let header = new_header(found, at, uuid, salt);
    let json = found.json.as_slice();
    write_copy(device, &header, json)
}

/// The binary header, whose checksum is made where it is written.
fn new_header(found: &Candidate, at: u64, uuid: [u8; 40], salt: [u8; 64]) -> Bin2
    ensures made { (text : List ℕ) → uuid ≡ text ++ replicate 4 0
        → IsRebuiltHeader text salt (source_of found.now) at result }
    ensures hdr_size { result.hdr_size ≡ found.now.place.size }
    ensures hdr_offset { result.hdr_offset ≡ at }
{
    let (label, subsystem) = kept_texts(found);
    let first = Bin2 {
        magic: [0; 6],
        version: 2,
        hdr_size: found.place.size,
        seqid: 1,
        label,
        csum_alg: [0; 32],
        salt,
        uuid,
        subsystem,
        hdr_offset: at,
        csum: [0; 64],
    };
    first.renewed(at, next_seqid(found), salt)
}

/// The label and the subsystem of the header that is made of the candidate: those of the binary header
/// which vouches for it, or empty ones.
fn kept_texts(found: &Candidate) -> ([u8; 48], [u8; 48])
    ensures label { result.0 ≡ kept_label found.now.vouch }
    ensures subsystem { result.1 ≡ kept_subsystem found.now.vouch }
{
    match &found.vouch {
        Some(header) => (header.label, header.subsystem),
        None => ([0; 48], [0; 48]),
    }
}
