//! The plan of a call that writes, in the caller's buffers.
ghost use Rattle.std.specs.Prelude.{IsTrue, ℕ, ◌≡◌, ◌≤◌, ◌≢◌, ◌<◌, ◌⊎◌, length};
ghost use Rattle.luks_given.specs.Given.{given_failures, given_size, IsUnwritten};
ghost use Rattle.luks_given.specs.Parts.{IsWanted};
ghost use Rattle.luks_given.specs.Planned.{lacked_memory, planned_bytes, planned_calls, planned_failures, planned_size, planned_written, wants_to_write};
ghost use Rattle.luks_c_answers.specs.Plans.{IsPlan, IsPlanGiven, WantsEither};

use crate::buffers::{fill_front, move_front};
use crate::numbers::{BEYOND, DONE, MEMORY, ROOM};
use luks_area::Device;
use luks_given::{Given, GivenParts, Part, PlannedCall, PlannedWrites};

/// What a call tells that writes.
#[repr(C)]
#[derive(Clone, Copy, Drop, Default)]
pub struct LuksPlan {
    /// How many calls the plan has.
    pub calls: u64,
    /// How many bytes they write together.
    pub bytes: u64,
    /// With the answer BEYOND, the range that has to be given; it has no byte where one of the source's is
    /// asked for.
    pub beyond: Part,
    /// Of a call that reads another volume, the source: with the answer BEYOND, the range of that one that
    /// has to be given; it has no byte where one of the other's is asked for.
    pub source_beyond: Part,
    /// The keyslot that is made or sealed again; 2^32 - 1 where none is.
    pub slot: u32,
    /// With the answer BEYOND, whether the range in `beyond` is to be written, and no byte of it was asked
    /// for by a read: 1, else 0. Then any bytes may be given that aren't zeros, and the plan writes over
    /// each.
    pub to_write: u32,
}

/// Gives the plan of the device, where both buffers have room for it.
pub fn give_plan<K: Given>(
    device: PlannedWrites<'_, K>,
    calls: &mut [PlannedCall],
    bytes: &mut [u8],
    told: &mut LuksPlan,
) -> u32
    ensures plan { IsPlan K.parts K.bytes (planned_bytes device.entry)
        (planned_calls device.entry) (planned_written device.entry) }
    ensures calls { told.new.calls ≡ length (planned_calls device.entry) }
    ensures bytes { told.new.bytes ≡ length (planned_written device.entry) }
    ensures slot { told.new.slot ≡ told.old.slot }
    ensures answers { (result ≡ 0) ⊎ (result ≡ 106) }
    ensures given { IsPlanGiven (planned_calls device.entry) (planned_written device.entry)
        (record { calls = calls.old; bytes = bytes.old })
        (record { calls = calls.new; bytes = bytes.new }) result }
{
    let planned = device.calls();
    let written = device.bytes();
    told.calls = planned.len() as u64;
    told.bytes = written.len() as u64;
    if calls.len() < planned.len() || bytes.len() < written.len() {
        return ROOM;
    }
    fill_front(calls, planned);
    move_front(bytes, device.into_bytes());
    DONE
}

/// Tells which range has to be given for the call that failed not to; or memory was refused.
pub fn tell_wanted<K: Given>(device: &PlannedWrites<'_, K>, told: &mut LuksPlan) -> u32
    requires { planned_failures device.now ≢ 0 }
    ensures answers { (result ≡ 102) ⊎ (result ≡ 103) }
    ensures memory { result ≡ 103 → IsTrue (lacked_memory device.now) }
    ensures wanted { (m : ℕ) → planned_size device.now ≡ m → result ≡ 102
        → IsWanted K.parts m told.new.beyond }
    ensures source { told.new.source_beyond ≡ told.old.source_beyond }
    ensures writes { result ≡ 102 → told.new.to_write ≡ 1 → IsTrue (wants_to_write device.now) }
{
    match device.wanted() {
        Some(part) => {
            told.beyond = part;
            told.to_write = u32::from(device.is_to_write());
            BEYOND
        }
        None => MEMORY,
    }
}

/// Tells what a call wanted that read the source and wrote the device: one of the two failed.
pub fn tell_either<S: Given, K: Given>(
    source: &GivenParts<'_, S>,
    device: &PlannedWrites<'_, K>,
    told: &mut LuksPlan,
) -> u32
    requires unwritten { IsUnwritten source.now }
    requires one { given_failures source.now ≡ 0 → planned_failures device.now ≢ 0 }
    requires source { told.old.source_beyond.len ≡ 0 }
    requires target { told.old.beyond.len ≡ 0 }
    ensures answers { (result ≡ 102) ⊎ (result ≡ 103) }
    ensures memory { result ≡ 103 → IsTrue (lacked_memory device.now) }
    ensures wanted { (n m : ℕ) → given_size source.now ≡ n → planned_size device.now ≡ m
        → result ≡ 102 → WantsEither S.parts n K.parts m told.new }
{
    if source.failures() > 0 {
        told.source_beyond = source.wanted();
        return BEYOND;
    }
    tell_wanted(device, told)
}
