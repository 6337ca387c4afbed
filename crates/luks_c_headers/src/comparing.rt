//! Comparing a backup with a volume.
ghost use Rattle.std.specs.Prelude.{◌≡◌, ◌≢◌, ◌⊎◌, ◌≤◌, ◌<◌, length};
ghost use Rattle.luks_given.specs.Parts.{AreGiven, IsWanted};
ghost use Rattle.luks_c_headers.specs.KeepAnswers.{AnswersCompare, TellsKeyslots, WantsOneOf, key_number, keeping_number};

use luks_area::Device;
use luks_c_answers::{BEYOND, DONE, check_number, restore_number};
use luks_given::{Given, GivenParts, Part};
use luks_keeping::{
    Comparison, Keeping, RestoreFault, compare_areas, is_other_volume, read_outline,
};
use luks_reading::{CheckFault, Data};
use std::alloc::Global;

/// What `luks_compare_bytes` tells beside the keyslots.
#[repr(C)]
#[derive(Clone, Copy, Drop, Default)]
pub struct LuksCompared {
    /// 1 where a digest of the backup's volume key is one of the volume's, else 0.
    pub same_key: u32,
    /// With the answer BEYOND, the range of the backup that has to be given; it has no byte where one of the
    /// volume is asked for.
    pub backup_beyond: Part,
    /// The range that is wanted of the volume.
    pub beyond: Part,
}

/// Tells how the keyslots of the backup of which these ranges are given stand to those of the volume. No
/// range is asked for as yet, and the buffer has room for 32 numbers.
pub fn compare_given<S: Given, K: Given>(
    alloc: Global,
    backup_parts: &[Part],
    backup: &[u8],
    backup_total: u64,
    parts: &[Part],
    held: &[u8],
    total: u64,
    payload: Data,
    keyslots: &mut [u8],
    told: &mut LuksCompared,
) -> u32
    requires backup_parts { S.parts ≡ backup_parts.now }
    requires backup_given { AreGiven backup_parts.now backup.now backup_total S.bytes }
    requires parts { K.parts ≡ parts.now }
    requires given { AreGiven parts.now held.now total K.bytes }
    requires room { 32 ≤ length keyslots.old }
    requires backup_told { told.old.backup_beyond.len ≡ 0 }
    requires volume_told { told.old.beyond.len ≡ 0 }
    ensures own { result ≢ 101 }
    ensures answers { AnswersCompare S.bytes K.bytes payload
        keyslots.old keyslots.new told.new.same_key result }
    ensures wanted { result ≡ 102
        → WantsOneOf S.parts backup_total K.parts total told.new }
{
    let mut kept: GivenParts<'_, S> = GivenParts::new(backup_parts, backup, backup_total);
    let here = match read_outline(alloc, &mut kept, Data::Elsewhere) {
        Ok(found) => found,
        Err(CheckFault::Device) => {
            told.backup_beyond = kept.wanted();
            return BEYOND;
        }
        Err(fault) => return restore_number(&RestoreFault::from(fault)),
    };
    let mut device: GivenParts<'_, K> = GivenParts::new(parts, held, total);
    let there = match read_outline(alloc, &mut device, payload) {
        Ok(found) => found,
        Err(CheckFault::Device) => {
            told.beyond = device.wanted();
            return BEYOND;
        }
        Err(fault) => return check_number(&fault),
    };
    if is_other_volume(&here, &there) {
        return restore_number(&RestoreFault::OtherVolume);
    }
    let found = match compare_areas(&mut kept, &here, &mut device, &there) {
        Ok(found) => found,
        Err(_) => {
            if kept.failures() > 0 {
                told.backup_beyond = kept.wanted();
            } else {
                told.beyond = device.wanted();
            }
            return BEYOND;
        }
    };
    told.same_key = number_of_key(found.same_key);
    tell_keyslots(&found, keyslots);
    DONE
}

fn number_of_key(is_same: bool) -> u32
    ensures { result ≡ key_number is_same }
{
    if is_same { 1 } else { 0 }
}

/// Puts the numbers of the keyslots into the buffer's front.
fn tell_keyslots(found: &Comparison, keyslots: &mut [u8])
    requires { 32 ≤ length keyslots.old }
    ensures { TellsKeyslots found.now.keyslots 32 keyslots.old keyslots.new }
{
    let states = found.keyslots;
    for n in 0..32 {
        keyslots[n] = number_of_keeping(states[n]);
    }
}

/// The number of how a keyslot stands.
fn number_of_keeping(keeping: Keeping) -> u8
    ensures { result ≡ keeping_number keeping }
{
    match keeping {
        Keeping::Absent => 0,
        Keeping::Same => 1,
        Keeping::Older => 2,
        Keeping::Missing => 3,
        Keeping::Removed => 4,
        Keeping::Damaged => 5,
    }
}
