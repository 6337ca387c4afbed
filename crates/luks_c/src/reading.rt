//! What a header says.
ghost use Rattle.std.specs.Prelude.{◌≡◌, ◌≢◌, ◌≤◌, ◌<◌, ℕ, List, length};
ghost use Rattle.luks_given.specs.Parts.{AreGiven, AreNoParts, ArePartsOf, IsWanted, volume};
ghost use Rattle.luks_reading.specs.Header.{IsHeader};
ghost use Rattle.luks_c.specs.ReadAnswers.{AnswersRead, IsJsonGiven};

use luks_c_answers::{BEYOND, DONE, MEMORY, ROOM, USAGE, fill_front, read_number};
use luks_given::{Given, GivenParts, Part, are_parts};
use luks_reading::{Header, Luks1, ReadFault, read_header};
use luks_show::{Listing, json_text};
use std::alloc::Global;
use std::marker::Brand;

/// What `luks_read_bytes` tells.
#[repr(C)]
#[derive(Clone, Copy, Drop, Default)]
pub struct LuksRead {
    /// How many bytes the text has; 0 where there is none.
    pub json_bytes: u64,
    /// With the answer BEYOND, the range that has to be given.
    pub beyond: Part,
}

/// Puts what the header says that counts of the volume of `total` bytes of which these ranges are given into
/// the buffer, as the JSON object that `luks show --json` prints, without a newline.
///
/// Takes memory for the metadata of LUKS2, for the object, and for its text.
#[unsafe(no_mangle)]
pub extern "C" fn luks_read_bytes(
    alloc: Global,
    parts: &[Part],
    held: &[u8],
    total: u64,
    json: &mut [u8],
    told: &mut LuksRead,
) -> u32
    ensures usage { AreNoParts parts.now held.now total → result ≡ 101 }
    ensures answers { ArePartsOf parts.now held.now total
        → AnswersRead (volume parts.now held.now total) json.old json.new told.new result }
    ensures wanted { result ≡ 102 → IsWanted parts.now total told.new.beyond }
{
    *told = LuksRead::default();
    if !are_parts(parts, held, total) {
        return USAGE;
    }
    read_given::<Brand>(alloc, parts, held, total, json, told)
}

/// Lists the volume `K`, of which these ranges are given.
fn read_given<K: Given>(
    alloc: Global,
    parts: &[Part],
    held: &[u8],
    total: u64,
    json: &mut [u8],
    told: &mut LuksRead,
) -> u32
    requires parts { K.parts ≡ parts.now }
    requires given { AreGiven parts.now held.now total K.bytes }
    ensures answers { AnswersRead K.bytes json.old json.new told.new result }
    ensures wanted { result ≡ 102 → IsWanted K.parts total told.new.beyond }
{
    let mut device: GivenParts<'_, K> = GivenParts::new(parts, held, total);
    match read_header(alloc, &mut device) {
        Ok(header) => give_header(alloc, header, json, told),
        Err(ReadFault::Device) => {
            told.beyond = device.wanted();
            BEYOND
        }
        Err(fault) => read_number(&fault),
    }
}

/// Gives what the header says, or says why it isn't shown.
fn give_header(alloc: Global, header: Header, json: &mut [u8], told: &mut LuksRead) -> u32
    ensures answers { (v : List ℕ) → IsHeader v header
        → AnswersRead v json.old json.new told.new result }
    ensures own { result ≢ 102 }
{
    match header {
        Header::Luks1(bytes) => match Luks1::read(&bytes) {
            Ok(read) => give_json(alloc, Listing::Luks1(read), json, told),
            Err(fault) => read_number(&ReadFault::from(fault)),
        },
        Header::Luks2(copy) => give_json(alloc, Listing::Luks2(copy), json, told),
    }
}

/// Puts the text of the listing into the buffer, where it fits.
fn give_json(alloc: Global, listing: Listing, json: &mut [u8], told: &mut LuksRead) -> u32
    ensures given { IsJsonGiven listing json.old json.new told.new result }
    ensures own { result ≢ 102 }
{
    match json_text(alloc, listing) {
        Ok(text) => {
            let bytes = text.as_bytes();
            told.json_bytes = bytes.len() as u64;
            if json.len() < bytes.len() {
                return ROOM;
            }
            fill_front(json, bytes);
            DONE
        }
        Err(_) => MEMORY,
    }
}
