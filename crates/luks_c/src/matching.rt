//! Whether a key is a volume's.
ghost use Rattle.std.specs.Prelude.{◌≡◌, ◌==◌, ◌≤◌, ◌<◌, length, not};
ghost use Rattle.luks_given.specs.Parts.{AreGiven, AreNoParts, ArePartsOf, IsWanted, volume};
ghost use Rattle.luks_c.specs.MatchAnswers.{AnswersMeets, digest_asked};

use luks_c_answers::{BEYOND, DONE, SHUT, USAGE, key_number};
use luks_given::{Given, GivenParts, Part, are_parts};
use luks_reading::{KeyFault, match_key};
use std::alloc::Global;
use std::marker::Brand;

/// The number that names no digest.
const NO_DIGEST: u32 = 0xFFFF_FFFF;

/// What `luks_meets_bytes` tells.
#[repr(C)]
#[derive(Clone, Copy, Drop, Default)]
pub struct LuksMet {
    /// The digest by which the key was judged; of LUKS1 0.
    pub digest: u32,
    /// With the answer BEYOND, the range that has to be given.
    pub beyond: Part,
}

/// Judges whether the key is that of the volume of `total` bytes of which these ranges are given: DONE says
/// that it is, SHUT that it isn't. It is judged by the digest of this number, or, where that is 2^32 - 1,
/// by that of the volume key; of a digest with an older hash only where `older` isn't 0.
///
/// Takes memory for the metadata of LUKS2 alone.
#[unsafe(no_mangle)]
pub extern "C" fn luks_meets_bytes(
    alloc: Global,
    parts: &[Part],
    held: &[u8],
    total: u64,
    key: &[u8],
    digest: u32,
    older: u32,
    met: &mut LuksMet,
) -> u32
    ensures usage { AreNoParts parts.now held.now total → result ≡ 101 }
    ensures answers { ArePartsOf parts.now held.now total
        → AnswersMeets (volume parts.now held.now total) (digest_asked digest) (not (older == 0))
        key.now met.new.digest result }
    ensures wanted { result ≡ 102 → IsWanted parts.now total met.new.beyond }
{
    *met = LuksMet::default();
    if !are_parts(parts, held, total) {
        return USAGE;
    }
    meets_given::<Brand>(
        alloc,
        parts,
        held,
        total,
        key,
        digest_of(digest),
        older != 0,
        met,
    )
}

/// Tells whether the key is that of the volume `K`, of which these ranges are given.
fn meets_given<K: Given>(
    alloc: Global,
    parts: &[Part],
    held: &[u8],
    total: u64,
    key: &[u8],
    digest: Option<u8>,
    older: bool,
    met: &mut LuksMet,
) -> u32
    requires parts { K.parts ≡ parts.now }
    requires given { AreGiven parts.now held.now total K.bytes }
    ensures answers { AnswersMeets K.bytes digest older key.now met.new.digest result }
    ensures wanted { result ≡ 102 → IsWanted K.parts total met.new.beyond }
{
    let mut device: GivenParts<'_, K> = GivenParts::new(parts, held, total);
    match match_key(alloc, &mut device, key, digest, older) {
        Ok(found) => {
            met.digest = u32::from(found.digest);
            if found.matches { DONE } else { SHUT }
        }
        Err(KeyFault::Device) => {
            met.beyond = device.wanted();
            BEYOND
        }
        Err(fault) => key_number(&fault),
    }
}

/// The digest of this number, or none. No volume has one of 255, which stands for each larger number.
fn digest_of(number: u32) -> Option<u8>
    ensures { result ≡ digest_asked number }
{
    if number == NO_DIGEST {
        return None;
    }
    if number < 256 {
        Some(number as u8)
    } else {
        Some(255)
    }
}
