//! Where volumes begin on a disk.
ghost use Rattle.std.specs.Prelude.{◌≡◌, ◌≢◌, ◌↔◌, ◌≤◌, ◌<◌, length};
ghost use Rattle.luks_given.specs.Parts.{AreGiven as AreGivenOf, AreNoParts, IsWanted, volume};
ghost use Rattle.luks_c.specs.FindAnswers.{AnswersFind, AreGiven};

use luks_c_answers::{BEYOND, DONE, MEMORY, ROOM, USAGE, fill_front};
use luks_finding::{FindFault, all_starts};
use luks_given::{Given, GivenParts, Part, are_parts};
use std::alloc::Global;
use std::marker::Brand;

/// What `luks_find_bytes` tells.
#[repr(C)]
#[derive(Clone, Copy, Drop, Default)]
pub struct LuksFound {
    /// How many volumes begin there.
    pub count: u64,
    /// With the answer BEYOND, the range that has to be given.
    pub beyond: Part,
}

/// Tells where volumes begin on the disk of `total` bytes of which these ranges are given, in bytes, in the order of
/// the first of what is left of each: its header (of LUKS1 also without its magic), its second copy or metadata
/// that is whole.
///
/// All bytes are read. Takes memory for a block of 1 MiB, for the places, and for one JSON area at a time.
#[unsafe(no_mangle)]
pub extern "C" fn luks_find_bytes(
    alloc: Global,
    parts: &[Part],
    held: &[u8],
    total: u64,
    starts: &mut [u64],
    told: &mut LuksFound,
) -> u32
    ensures usage { result ≡ 101 ↔ AreNoParts parts.now held.now total }
    ensures answers { result ≢ 101
        → AnswersFind (volume parts.now held.now total) starts.old starts.new told.new.count result }
    ensures wanted { result ≡ 102 → IsWanted parts.now total told.new.beyond }
{
    *told = LuksFound::default();
    if !are_parts(parts, held, total) {
        return USAGE;
    }
    find_given::<Brand>(alloc, parts, held, total, starts, told)
}

/// Finds volumes on the disk `K`, of which these ranges are given.
fn find_given<K: Given>(
    alloc: Global,
    parts: &[Part],
    held: &[u8],
    total: u64,
    starts: &mut [u64],
    told: &mut LuksFound,
) -> u32
    requires parts { K.parts ≡ parts.now }
    requires given { AreGivenOf parts.now held.now total K.bytes }
    ensures own { result ≢ 101 }
    ensures answers { AnswersFind K.bytes starts.old starts.new told.new.count result }
    ensures wanted { result ≡ 102 → IsWanted K.parts total told.new.beyond }
{
    let mut device: GivenParts<'_, K> = GivenParts::new(parts, held, total);
    match all_starts(alloc, &mut device) {
        Ok(found) => give_starts(&found, starts, told),
        Err(FindFault::Device) => {
            told.beyond = device.wanted();
            BEYOND
        }
        Err(FindFault::Memory) => MEMORY,
    }
}

/// Puts the places into the buffer, where they fit.
fn give_starts(found: &[u64], starts: &mut [u64], told: &mut LuksFound) -> u32
    ensures count { told.new.count ≡ length found.now }
    ensures given { AreGiven found.now starts.old starts.new result }
{
    told.count = found.len() as u64;
    if starts.len() < found.len() {
        return ROOM;
    }
    fill_front(starts, found);
    DONE
}
