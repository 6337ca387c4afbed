//! A device in memory, of which one call may fail.
use luks_area::{Device, FaultyDevice, Leave, MemDevice};
use luks_vector_lines::{Malformed, Words, demand, done};
use sha2::{Digest, Sha256};
use std::alloc::Global;

/// The device of the functions that read and write one.
pub type Volume = FaultyDevice<MemDevice>;

/// A device of these bytes, of which no call fails.
pub fn volume(bytes: Vec<u8>) -> Volume {
    FaultyDevice::new(MemDevice::new(bytes), u64::MAX, Leave::Old)
}

/// The device behind, in whose place one of no bytes stands then.
fn taken_out(alloc: Global, volume: &mut Volume) -> MemDevice {
    std::mem::replace(volume, self::volume(Vec::new(alloc))).into_inner()
}

/// `fail CALL LEAVE`: of the calls to come the one of this number fails, counted from 0, and a write
/// then leaves `old`, `new` or `half` of its bytes, or `ones`. The count of failures is 0 again.
pub fn fail(alloc: Global, volume: &mut Volume, words: &mut Words<'_>) -> Result<(), Malformed> {
    let call = words.number()?;
    let leave = match words.word()? {
        "old" => Leave::Old,
        "new" => Leave::New,
        "ones" => Leave::Ones,
        "half" => Leave::Half,
        _ => return Err(Malformed::Name),
    };
    *volume = FaultyDevice::new(taken_out(alloc, volume), call, leave);
    Ok(())
}

/// `put AT BYTES`: these bytes stand there. No call to come fails.
pub fn put(alloc: Global, volume: &mut Volume, words: &mut Words<'_>) -> Result<(), Malformed> {
    let at = words.len()?;
    let bytes = words.bytes(alloc)?;
    let mut contents = taken_out(alloc, volume).contents().to_vec(alloc)?;
    demand(at <= contents.len() && bytes.len() <= contents.len() - at)?;
    luks_test_devices::put(&mut contents, at, &bytes);
    *volume = self::volume(contents);
    Ok(())
}

/// `cut LEN`: the device ends after so many bytes. No call to come fails.
pub fn cut(alloc: Global, volume: &mut Volume, words: &mut Words<'_>) -> Result<(), Malformed> {
    let len = words.len()?;
    let mut contents = taken_out(alloc, volume).contents().to_vec(alloc)?;
    demand(len <= contents.len())?;
    contents.truncate(len);
    *volume = self::volume(contents);
    Ok(())
}

/// `checksum AT LEN`: the copy of a LUKS2 header there, of so many bytes, has the SHA-256 that is owed
/// to it. No call to come fails.
pub fn checksum(
    alloc: Global,
    volume: &mut Volume,
    words: &mut Words<'_>,
) -> Result<(), Malformed> {
    let at = words.len()?;
    let len = words.len()?;
    let mut contents = taken_out(alloc, volume).contents().to_vec(alloc)?;
    demand(at <= contents.len() && len <= contents.len() - at)?;
    demand(len >= 512)?;
    let copy = &mut contents[at..at + len];
    luks_test_devices::put(copy, 448, &[0; 64]);
    let sum = Sha256::digest(&*copy);
    luks_test_devices::put(copy, 448, &sum);
    *volume = self::volume(contents);
    Ok(())
}

/// So many bytes of the device from a place on. No call to come fails.
pub fn copied(
    alloc: Global,
    volume: &mut Volume,
    at: usize,
    len: usize,
) -> Result<Vec<u8>, Malformed> {
    let inner = taken_out(alloc, volume);
    let end = at.saturating_add(len);
    let copy = inner
        .contents()
        .get(at..end)
        .ok_or(Malformed::Outside)?
        .to_vec(alloc)?;
    *volume = FaultyDevice::new(inner, u64::MAX, Leave::Old);
    Ok(copy)
}

/// All bytes of the device. No call to come fails.
pub fn copied_whole(alloc: Global, volume: &mut Volume) -> Result<Vec<u8>, Malformed> {
    let inner = taken_out(alloc, volume);
    let copy = inner.contents().to_vec(alloc)?;
    *volume = FaultyDevice::new(inner, u64::MAX, Leave::Old);
    Ok(copy)
}

/// `read AT LEN`: the bytes there.
pub fn read(
    alloc: Global,
    volume: &mut Volume,
    words: &mut Words<'_>,
) -> Result<String, Malformed> {
    let at = words.number()?;
    let len = words.len()?;
    let mut bytes = vec![in alloc; 0u8; len]?;
    let size = volume.len();
    demand(at <= size && len as u64 <= size - at)?;
    demand(volume.failures() < u64::MAX)?;
    match volume.read_at(at, &mut bytes) {
        Ok(()) => Ok(hex::encode(alloc, bytes.as_slice())?),
        Err(fault) => Ok(format!(in alloc; "{fault}")?),
    }
}

/// `write AT BYTES`: `done`, or the fault.
pub fn write(
    alloc: Global,
    volume: &mut Volume,
    words: &mut Words<'_>,
) -> Result<String, Malformed> {
    let at = words.number()?;
    let bytes = words.bytes(alloc)?;
    let size = volume.len();
    demand(at <= size && bytes.len() as u64 <= size - at)?;
    demand(volume.failures() < u64::MAX)?;
    done(alloc, volume.write_at(at, &bytes))
}

/// `flush`: `done`, or the fault.
pub fn flush(alloc: Global, volume: &mut Volume) -> Result<String, Malformed> {
    demand(volume.failures() < u64::MAX)?;
    done(alloc, volume.flush())
}

/// `failures`: how many calls failed since `device` or `fail`, and how many bytes the device has.
pub fn failures(alloc: Global, volume: &Volume) -> Result<String, Malformed> {
    Ok(format!(in alloc; "{} of {} bytes", volume.failures(), volume.len())?)
}

/// `contents`: the bytes of the device. No call to come fails.
pub fn contents(alloc: Global, volume: &mut Volume) -> Result<String, Malformed> {
    let bytes = copied_whole(alloc, volume)?;
    Ok(hex::encode(alloc, bytes.as_slice())?)
}

/// `sum FROM TO`: SHA-256 of the bytes of the device from a place up to another. No call to come fails.
pub fn sum(alloc: Global, volume: &mut Volume, words: &mut Words<'_>) -> Result<String, Malformed> {
    let from = words.len()?;
    let to = words.len()?;
    let bytes = copied_whole(alloc, volume)?;
    let part = bytes.get(from..to).ok_or(Malformed::Outside)?;
    Ok(hex::encode(alloc, Sha256::digest(part))?)
}
