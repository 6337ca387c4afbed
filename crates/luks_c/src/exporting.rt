//! The text of a token.
ghost use Rattle.std.specs.Prelude.{◌≡◌, ◌≢◌, ◌≤◌, ◌<◌, ℕ, List, length};
ghost use Rattle.luks_given.specs.Parts.{AreGiven, AreNoParts, ArePartsOf, IsWanted, volume};
ghost use Rattle.luks_reading.specs.Header.{IsHeader};
ghost use Rattle.luks_c.specs.ExportAnswers.{AnswersExport, IsTokenTold};

use crate::reading::LuksRead;
use luks_c_answers::{BEYOND, DONE, MEMORY, ROOM, USAGE, fill_front, number_of, read_number};
use luks_explain::Fault;
use luks_given::{Given, GivenParts, Part, are_parts};
use luks_reading::{Header, Luks1, ReadFault, read_header};
use luks_show::{Listing, token_text};
use std::alloc::Global;
use std::marker::Brand;

/// How many tokens a header may have; they have the numbers below.
const TOKENS: u32 = 32;

/// Puts the text of the token of this number, which the header has that counts of the volume of `total` bytes of
/// which these ranges are given, into the buffer: the JSON object that `luks token export` prints, without a
/// newline.
///
/// Takes memory for the metadata of LUKS2, and for the text.
#[unsafe(no_mangle)]
pub extern "C" fn luks_token_bytes(
    alloc: Global,
    parts: &[Part],
    held: &[u8],
    total: u64,
    number: u32,
    text: &mut [u8],
    told: &mut LuksRead,
) -> u32
    ensures usage { AreNoParts parts.now held.now total → result ≡ 101 }
    ensures answers { ArePartsOf parts.now held.now total → AnswersExport
        (volume parts.now held.now total) number text.old text.new told.new result }
    ensures wanted { result ≡ 102 → IsWanted parts.now total told.new.beyond }
{
    *told = LuksRead::default();
    if !are_parts(parts, held, total) {
        return USAGE;
    }
    export_given::<Brand>(alloc, parts, held, total, number, text, told)
}

/// Exports from the volume `K`, of which these ranges are given.
fn export_given<K: Given>(
    alloc: Global,
    parts: &[Part],
    held: &[u8],
    total: u64,
    number: u32,
    text: &mut [u8],
    told: &mut LuksRead,
) -> u32
    requires parts { K.parts ≡ parts.now }
    requires given { AreGiven parts.now held.now total K.bytes }
    ensures answers { AnswersExport K.bytes number text.old text.new told.new result }
    ensures wanted { result ≡ 102 → IsWanted K.parts total told.new.beyond }
{
    let mut device: GivenParts<'_, K> = GivenParts::new(parts, held, total);
    match read_header(alloc, &mut device) {
        Ok(header) => export_of(alloc, header, number, text, told),
        Err(ReadFault::Device) => {
            told.beyond = device.wanted();
            BEYOND
        }
        Err(fault) => read_number(&fault),
    }
}

/// Gives the token's text, or says why there is none.
fn export_of(
    alloc: Global,
    header: Header,
    number: u32,
    text: &mut [u8],
    told: &mut LuksRead,
) -> u32
    ensures answers { (v : List ℕ) → IsHeader v header
        → AnswersExport v number text.old text.new told.new result }
    ensures own { result ≢ 102 }
{
    match header {
        Header::Luks1(bytes) => match Luks1::read(&bytes) {
            Ok(read) => give_token(alloc, &Listing::Luks1(read), number, text, told),
            Err(fault) => read_number(&ReadFault::from(fault)),
        },
        Header::Luks2(copy) => give_token(alloc, &Listing::Luks2(copy), number, text, told),
    }
}

/// Puts the text of the token into the buffer, where it is there and fits.
fn give_token(
    alloc: Global,
    listing: &Listing,
    number: u32,
    text: &mut [u8],
    told: &mut LuksRead,
) -> u32
    ensures given { IsTokenTold listing.now number text.old text.new told.new result }
    ensures own { result ≢ 102 }
{
    if number >= TOKENS {
        return number_of(Fault::NoSuchToken);
    }
    match token_text(alloc, listing, number as u8) {
        Ok(Some(shown)) => {
            let bytes = shown.as_bytes();
            told.json_bytes = bytes.len() as u64;
            if text.len() < bytes.len() {
                return ROOM;
            }
            fill_front(text, bytes);
            DONE
        }
        Ok(None) => number_of(Fault::NoSuchToken),
        Err(_) => MEMORY,
    }
}
