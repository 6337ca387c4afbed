//! Headers of both versions, which stand in the device.
use crate::volume::{self, Volume};
use luks_area::Device;
use luks_test_devices::put;
use luks_vector_lines::{Malformed, Words, bytes_of, demand, number_of, shown, told};
use luks2_header::{Bin2, HeadFault, Luks1, Luks1Slot, Selected, select};
use sha2::Digest;
use std::alloc::Global;

const LUKS1: usize = 592;

const BIN2: usize = 4096;

/// So many bytes of the device from a place on, with the changes of all words left, each given as
/// `AT:BYTES` by its place among these bytes. The device stays as it is.
fn changed(
    alloc: Global,
    volume: &mut Volume,
    at: usize,
    len: usize,
    words: &mut Words<'_>,
) -> Result<Vec<u8>, Malformed> {
    let mut bytes = volume::copied(alloc, volume, at, len)?;
    change_all(alloc, &mut bytes, words.take_left())?;
    demand(bytes.len() == len)?;
    Ok(bytes)
}

fn change_all(alloc: Global, bytes: &mut Vec<u8>, changes: &str) -> Result<(), Malformed> {
    if !changes.is_empty() {
        for word in changes.split(' ') {
            change(alloc, bytes, word)?;
        }
    }
    Ok(())
}

fn change(alloc: Global, bytes: &mut Vec<u8>, word: &str) -> Result<(), Malformed> {
    let (at, change) = word.split_once(':').ok_or(Malformed::Bytes)?;
    let at = usize::try_from(number_of(at)?)
        .ok()
        .ok_or(Malformed::Number)?;
    let change = bytes_of(alloc, change)?;
    demand(at <= bytes.len() && change.len() <= bytes.len() - at)?;
    put(bytes, at, &change);
    Ok(())
}

/// `luks1 CHANGE ..`: the fault of the LUKS1 header, or `accepted` and whether its bytes, and those of
/// each keyslot alone, are written again.
pub fn luks1(
    alloc: Global,
    volume: &mut Volume,
    words: &mut Words<'_>,
) -> Result<String, Malformed> {
    let bytes = changed(alloc, volume, 0, LUKS1, words)?;
    demand(bytes.len() == LUKS1)?;
    match Luks1::read(&bytes) {
        Ok(header) if is_written(&header, &bytes) => Ok(String::from_str(alloc, "accepted again")?),
        Ok(_) => Ok(String::from_str(alloc, "accepted otherwise")?),
        Err(fault) => Ok(format!(in alloc; "{fault}")?),
    }
}

/// Whether these bytes are written of the header.
fn is_written(header: &Luks1, bytes: &[u8]) -> bool {
    for n in 0..8u8 {
        let at = 208 + 48 * usize::from(n);
        if bytes.get(at..at + 48) != Some(header.slot_bytes(n).as_slice()) {
            return false;
        }
    }
    bytes == header.write().as_slice()
}

/// `luks1-fields CHANGE ..`: the LUKS1 header that is read, or its fault.
pub fn luks1_fields(
    alloc: Global,
    volume: &mut Volume,
    words: &mut Words<'_>,
) -> Result<String, Malformed> {
    let bytes = changed(alloc, volume, 0, LUKS1, words)?;
    demand(bytes.len() == LUKS1)?;
    shown(alloc, Luks1::read(&bytes))
}

/// `luks1-common CHANGE ..`: the fields before the keyslots, of whose own bytes they are read, or the
/// fault.
pub fn luks1_common(
    alloc: Global,
    volume: &mut Volume,
    words: &mut Words<'_>,
) -> Result<String, Malformed> {
    let bytes = changed(alloc, volume, 0, LUKS1, words)?;
    let common = bytes.get(..208).ok_or(Malformed::Outside)?;
    shown(alloc, Luks1::common(common))
}

/// `luks1-slot NUMBER CHANGE ..`: the keyslot, of whose own bytes it is read, or the fault.
pub fn luks1_slot(
    alloc: Global,
    volume: &mut Volume,
    words: &mut Words<'_>,
) -> Result<String, Malformed> {
    let number = words.number32()?;
    demand(number < 8)?;
    let bytes = changed(alloc, volume, 0, LUKS1, words)?;
    shown(alloc, slot_of(&bytes, number as u8)?)
}

fn slot_of(bytes: &[u8], number: u8) -> Result<Result<Luks1Slot, HeadFault>, Malformed> {
    demand(number < 8)?;
    let at = 208 + 48 * usize::from(number);
    let entry = bytes.get(at..at + 48).ok_or(Malformed::Outside)?;
    demand(entry.len() == 48)?;
    Ok(Luks1::slot(entry, number))
}

/// The binary header that stands at the place that the next word gives, with the changes of the others.
fn bin2_of(
    alloc: Global,
    volume: &mut Volume,
    at: usize,
    words: &mut Words<'_>,
) -> Result<(Bin2, Vec<u8>), Malformed> {
    let bytes = changed(alloc, volume, at, BIN2, words)?;
    demand(bytes.len() == BIN2)?;
    Ok((Bin2::read(&bytes), bytes))
}

/// `bin2 AT CHANGE ..`: the binary header there, and whether its bytes are written again.
pub fn bin2(
    alloc: Global,
    volume: &mut Volume,
    words: &mut Words<'_>,
) -> Result<String, Malformed> {
    let at = words.len()?;
    let (header, bytes) = bin2_of(alloc, volume, at, words)?;
    let written = if bytes.as_slice() == header.write().as_slice() {
        "again"
    } else {
        "otherwise"
    };
    Ok(format!(in alloc; "{header:?} {written}")?)
}

/// `bin2-uuid AT CHANGE ..`: the uuid of the binary header there, or the fault.
pub fn bin2_uuid(
    alloc: Global,
    volume: &mut Volume,
    words: &mut Words<'_>,
) -> Result<String, Malformed> {
    let at = words.len()?;
    let (header, _) = bin2_of(alloc, volume, at, words)?;
    told(alloc, header.uuid())
}

/// The header with the checksum of the copy with this JSON area, which is fed by windows.
fn summed(header: &Bin2, area: &[u8]) -> Bin2 {
    let mut hasher = header.hasher();
    for window in area.chunks(4096) {
        hasher.update(window);
    }
    header.with_checksum(hasher)
}

/// `bin2-summed AT CHANGE ..`: the binary header there, with the checksum of the copy of 16384 bytes.
pub fn bin2_summed(
    alloc: Global,
    volume: &mut Volume,
    words: &mut Words<'_>,
) -> Result<String, Malformed> {
    let at = words.len()?;
    let area = volume::copied(alloc, volume, at.saturating_add(BIN2), 12288)?;
    let (header, _) = bin2_of(alloc, volume, at, words)?;
    Ok(format!(in alloc; "{:?}", summed(&header, &area))?)
}

/// `bin2-renewed AT PLACE SEQID SALT CHANGE ..`: the header that takes the place of the binary header
/// there, with the checksum of the copy with the same JSON area.
pub fn bin2_renewed(
    alloc: Global,
    volume: &mut Volume,
    words: &mut Words<'_>,
) -> Result<String, Malformed> {
    let at = words.len()?;
    let place = words.number()?;
    let seqid = words.number()?;
    let salt = words.bytes(alloc)?;
    let area = volume::copied(alloc, volume, at.saturating_add(BIN2), 12288)?;
    let (header, _) = bin2_of(alloc, volume, at, words)?;
    let mut whole = [0; 64];
    demand(salt.len() == 64)?;
    whole.copy_from_slice(&salt);
    Ok(format!(in alloc; "{:?}", summed(&header.renewed(place, seqid, whole), &area))?)
}

/// `select CHANGE ..`: which header of the device is chosen, how the copies stand, its sequence number
/// and its place, or the fault. With changes it is a device of the changed bytes, no call of which fails.
pub fn selected(
    alloc: Global,
    volume: &mut Volume,
    words: &mut Words<'_>,
) -> Result<String, Malformed> {
    if words.is_empty() {
        return chosen(alloc, volume);
    }
    let mut bytes = volume::copied_whole(alloc, volume)?;
    change_all(alloc, &mut bytes, words.take_left())?;
    chosen(alloc, &mut volume::volume(bytes))
}

fn chosen(alloc: Global, volume: &mut Volume) -> Result<String, Malformed> {
    demand(volume.failures() < u64::MAX)?;
    match select(volume) {
        Ok(Selected::V1(_)) => Ok(String::from_str(alloc, "luks1")?),
        Ok(Selected::V2 { header, copies }) => {
            Ok(format!(in alloc; "{copies:?} {} at {}", header.seqid, header.hdr_offset)?)
        }
        Err(fault) => Ok(format!(in alloc; "{fault}")?),
    }
}
