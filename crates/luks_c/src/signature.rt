//! What else a disk is used for.
ghost use Rattle.std.specs.Prelude.{◌≡◌, ◌≤◌, ◌<◌, drop, length, take};
ghost use Rattle.luks_c_answers.specs.Buffers.{filled};
ghost use Rattle.luks_signatures.specs.UseTexts.{use_text};
ghost use Rattle.luks_signatures.specs.declared.other_use.OtherUse.{OtherUse as TheUse};
ghost use Rattle.luks_given.specs.Parts.{AreGiven, AreNoParts, ArePartsOf, IsWanted, volume};
ghost use Rattle.luks_c.specs.SignatureAnswers.{AnswersSignature};
ghost use Rattle.luks_c_answers.specs.Uses.{use_number};

use luks_c_answers::{BEYOND, DONE, USAGE, fill_front, number_shown, use_name};
use luks_given::{Given, GivenParts, Part, are_parts};
use luks_signatures::first_use;
use std::marker::Brand;

/// What `luks_signature_bytes` tells.
#[repr(C)]
#[derive(Clone, Copy, Drop, Default)]
pub struct LuksSignature {
    /// The use that is shown, by its number; 0 where none is.
    pub shows: u32,
    /// With the answer BEYOND, the range that has to be given.
    pub beyond: Part,
}

/// Tells what the signatures among the first `len` bytes show of the disk of `total` bytes of which these
/// ranges are given: a partition table, a file system or another use, by the first row of the table that
/// is there.
#[unsafe(no_mangle)]
pub extern "C" fn luks_signature_bytes(
    parts: &[Part],
    held: &[u8],
    total: u64,
    len: u64,
    told: &mut LuksSignature,
) -> u32
    ensures usage { AreNoParts parts.now held.now total → result ≡ 101 }
    ensures answers { ArePartsOf parts.now held.now total
        → AnswersSignature (take len (volume parts.now held.now total)) told.new.shows result }
    ensures wanted { result ≡ 102 → IsWanted parts.now total told.new.beyond }
{
    *told = LuksSignature::default();
    if !are_parts(parts, held, total) {
        return USAGE;
    }
    find_given::<Brand>(parts, held, total, len, told)
}

/// Finds a signature on the disk `K`, of which these ranges are given.
fn find_given<K: Given>(
    parts: &[Part],
    held: &[u8],
    total: u64,
    len: u64,
    told: &mut LuksSignature,
) -> u32
    requires parts { K.parts ≡ parts.now }
    requires given { AreGiven parts.now held.now total K.bytes }
    ensures answers { AnswersSignature (take len K.bytes) told.new.shows result }
    ensures wanted { result ≡ 102 → IsWanted K.parts total told.new.beyond }
{
    let mut device: GivenParts<'_, K> = GivenParts::new(parts, held, total);
    match first_use(&mut device, len) {
        Ok(found) => {
            told.shows = number_shown(found);
            DONE
        }
        Err(_) => {
            told.beyond = device.wanted();
            BEYOND
        }
    }
}

/// Puts the name of the use of this number into the buffer, as far as it fits, and answers how many
/// bytes it has; 0 where no use has this number.
#[tactic(auto, using(luks_c_answers::proofs::BufferFacts::filled_behind))]
#[unsafe(no_mangle)]
pub extern "C" fn luks_signature_name(number: u32, buffer: &mut [u8]) -> usize
    ensures named { (shown : TheUse) → use_number shown ≡ number
        → (result ≡ length (use_text shown)) × (buffer.new ≡ filled buffer.old (use_text shown)) }
    ensures none { 63 < number → result ≡ 0 }
    ensures behind { drop result buffer.new ≡ drop result buffer.old }
{
    let name = use_name(number);
    fill_front(buffer, name.as_bytes());
    name.len()
}
