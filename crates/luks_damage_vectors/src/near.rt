//! What a passphrase finds near to what stands of a damaged header.
use luks_area::{Device, MemDevice};
use luks_searching::{Change1, Found1, SearchFault, Tally, Trying, Untold, search1};
use luks_slot::Allowed;
use luks_vector_lines::{Malformed, Words, demand};
use luks1_rebuilding::Given;
use luks2_searching::{Change2, Found2, GivenSegment, search2};
use sha2::{Digest, Sha256};
use std::alloc::Global;

/// By what is sought: a passphrase, and how many derivations may be made.
#[derive(Drop)]
pub struct Sought {
    passphrase: Vec<u8>,
    most: u32,
}

impl Sought {
    /// `PASSPHRASE MOST`.
    pub fn read(alloc: Global, words: &mut Words<'_>) -> Result<Sought, Malformed> {
        let passphrase = words.bytes(alloc)?;
        let most = words.number32()?;
        Ok(Sought { passphrase, most })
    }

    /// The LUKS1 header of the volume that is found, and how many derivations were made: which keyslot opens by which
    /// change, and the SHA-256 of the header.
    pub fn luks1(
        &self,
        alloc: Global,
        source: &mut MemDevice,
        given: &Given,
    ) -> Result<String, Malformed> {
        demand(source.len() >= 592)?;
        let mut tally = Tally::new(self.most);
        match search1(
            alloc,
            source,
            given,
            &self.passphrase,
            &mut tally,
            &mut Untold,
        ) {
            Ok(Some(found)) => told1(alloc, &found, tally.done()),
            Ok(None) => none(alloc, tally.done()),
            Err(fault) => broken_off(alloc, fault),
        }
    }

    /// The JSON area of the LUKS2 volume that is found, likewise, and the size and the place of its copy. A segment may
    /// be given.
    pub fn luks2(
        &self,
        alloc: Global,
        source: &mut MemDevice,
        given: &Option<GivenSegment<'_>>,
    ) -> Result<String, Malformed> {
        let trying = Trying {
            passphrase: &self.passphrase,
            allowed: Allowed::NOTHING,
        };
        let mut tally = Tally::new(self.most);
        match search2(alloc, source, given, &trying, &mut tally, &mut Untold) {
            Ok(Some(found)) => told2(alloc, &found, tally.done()),
            Ok(None) => none(alloc, tally.done()),
            Err(fault) => broken_off(alloc, fault),
        }
    }
}

/// The segment that is given, if the line goes on: `OFFSET CIPHER SECTOR_SIZE`.
pub fn given_segment<'a>(words: &mut Words<'a>) -> Result<Option<GivenSegment<'a>>, Malformed> {
    if words.is_empty() {
        return Ok(None);
    }
    let offset = words.number()?;
    let cipher = words.word()?;
    let sector_size = words.number32()?;
    Ok(Some(GivenSegment {
        offset,
        cipher,
        sector_size,
    }))
}

/// What was found of LUKS1 after so many derivations.
fn told1(alloc: Global, found: &Found1, done: u32) -> Result<String, Malformed> {
    let slot = found.slot;
    let change = change1(alloc, found.change)?;
    let sum = hex::encode(alloc, Sha256::digest(&found.header))?;
    Ok(format!(in alloc; "keyslot {slot} {change}, {done} derivations, {sum}")?)
}

/// By which change.
fn change1(alloc: Global, change: Change1) -> Result<String, Malformed> {
    let text = match change {
        Change1::Nothing => String::from_str(alloc, "by what stands")?,
        Change1::Bit { place, bit } => {
            format!(in alloc; "with bit {bit} of byte {place} turned")?
        }
        Change1::Digest { bits } => of_digest(alloc, bits)?,
    };
    Ok(text)
}

/// By so many bits of the digest.
fn of_digest(alloc: Global, bits: u32) -> Result<String, Malformed> {
    let counted = if bits == 1 { "bit" } else { "bits" };
    Ok(format!(in alloc; "with {bits} {counted} of the digest turned")?)
}

/// What was found of LUKS2 after so many derivations.
fn told2(alloc: Global, found: &Found2, done: u32) -> Result<String, Malformed> {
    let slot = found.slot;
    let size = found.place.size;
    let at = found.place.at;
    let change = change2(alloc, found.change)?;
    let sum = hex::encode(alloc, Sha256::digest(&found.json))?;
    Ok(format!(in alloc; "keyslot {slot} {change}, {done} derivations, {size} at {at}, {sum}")?)
}

/// By which change.
fn change2(alloc: Global, change: Change2) -> Result<String, Malformed> {
    let text = match change {
        Change2::Nothing => String::from_str(alloc, "by what stands")?,
        Change2::Bit { place, bit } => {
            format!(in alloc; "with bit {bit} of byte {place} of the JSON area turned")?
        }
        Change2::Digest { bits } => of_digest(alloc, bits)?,
        Change2::Mixed => String::from_str(alloc, "by bytes of both copies")?,
        Change2::Fragments {
            keyslot,
            digest,
            segment,
        } => of_fragments(alloc, keyslot, digest, segment)?,
    };
    Ok(text)
}

/// By fragments at these places; the segment stands nowhere if it is given.
fn of_fragments(
    alloc: Global,
    keyslot: u64,
    digest: u64,
    segment: Option<u64>,
) -> Result<String, Malformed> {
    let text = match segment {
        Some(segment) => { format!(in alloc; "by fragments at {keyslot}, {digest} and {segment}")? }
        None => {
            format!(in alloc;
                "by fragments at {keyslot} and {digest}, and the segment that is given"
            )?
        }
    };
    Ok(text)
}

/// Nothing was found by so many derivations.
fn none(alloc: Global, done: u32) -> Result<String, Malformed> {
    Ok(format!(in alloc; "none, {done} derivations")?)
}

/// Why the search was broken off.
fn broken_off(alloc: Global, fault: SearchFault) -> Result<String, Malformed> {
    match fault {
        SearchFault::Spent => Ok(String::from_str(alloc, "not all was tried")?),
        SearchFault::Device => Ok(String::from_str(alloc, "device fault")?),
        SearchFault::Memory => Err(Malformed::Memory),
    }
}
