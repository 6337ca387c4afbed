//! A device that remembers its first bytes, over one of which a call fails.
use luks_area::{Device, FaultyDevice, Leave, MemDevice};
use luks_guarded_files::{CachedDevice, ROOM};
use std::alloc::{AllocError, Global};
use std::test::Fail;

/// A call, and what it owes.
#[derive(Clone, Copy)]
enum Call {
    /// These bytes are read from a place on.
    Gives(u64, &'static [u8]),
    /// So many bytes 7 are read from a place on.
    GivesSevens(u64, usize),
    /// A read of so many bytes from a place on fails.
    Fails(u64, usize),
    /// These bytes are written from a place on.
    Takes(u64, &'static [u8]),
}

use Call::{Fails, Gives, GivesSevens, Takes};

type Remembering = CachedDevice<FaultyDevice<MemDevice>>;

/// Over six bytes: which call fails of the device behind, and calls in turn. Of bytes that are
/// remembered it sees no call, of others each, and after a write it is read anew.
static CALLS: [(u64, &[Call]); 3] = [
    (
        2,
        &[
            Gives(0, &[1, 2]),
            Gives(2, &[3, 4, 5]),
            Gives(3, &[4, 5]),
            Gives(0, &[1, 2, 3, 4, 5]),
            Gives(4, &[5]),
            Fails(0, 6),
            Gives(0, &[1, 2, 3, 4, 5]),
        ],
    ),
    (1, &[Gives(3, &[4, 5]), Fails(3, 2)]),
    (
        9,
        &[
            Gives(0, &[1, 2, 3, 4, 5, 6]),
            Takes(1, &[8, 9]),
            Gives(0, &[1, 8, 9, 4, 5, 6]),
        ],
    ),
];

/// Over bytes 7, two more than there is room for.
static CALLS_PAST_ROOM: [Call; 5] = [
    GivesSevens(0, ROOM),
    GivesSevens(ROOM as u64, 1),
    GivesSevens(ROOM as u64 - 1, 1),
    GivesSevens(ROOM as u64, 1),
    Fails(ROOM as u64, 1),
];

/// What is read of the device, if it is.
fn read(
    alloc: Global,
    device: &mut Remembering,
    at: u64,
    len: usize,
) -> Result<Option<Vec<u8>>, AllocError> {
    let mut into = vec![in alloc; 0u8; len]?;
    let size = device.len();
    if device.failures() < 9 && at <= size && len as u64 <= size - at {
        if device.read_at(at, &mut into).is_ok() {
            return Ok(Some(into));
        }
    }
    Ok(None)
}

fn is_answered(alloc: Global, device: &mut Remembering, call: Call) -> Result<bool, AllocError> {
    match call {
        Gives(at, want) => match read(alloc, device, at, want.len())? {
            Some(bytes) => Ok(bytes.as_slice() == want),
            None => Ok(false),
        },
        GivesSevens(at, len) => match read(alloc, device, at, len)? {
            Some(bytes) => Ok(bytes.iter().all(|byte| *byte == 7)),
            None => Ok(false),
        },
        Fails(at, len) => Ok(read(alloc, device, at, len)?.is_none()),
        Takes(at, bytes) => {
            let size = device.len();
            Ok(
                device.failures() < 9
                    && at <= size
                    && bytes.len() as u64 <= size - at
                    && device.write_at(at, bytes).is_ok(),
            )
        }
    }
}

/// Whether each of the calls is answered.
fn are_answered(
    alloc: Global,
    bytes: Vec<u8>,
    failing: u64,
    calls: &[Call],
) -> Result<bool, AllocError> {
    let behind = FaultyDevice::new(MemDevice::new(bytes), failing, Leave::Old);
    let mut device = CachedDevice::new(alloc, behind)?;
    for call in calls.iter() {
        if !is_answered(alloc, &mut device, *call)? {
            return Ok(false);
        }
    }
    Ok(true)
}

fn all_are_answered(alloc: Global) -> Result<bool, AllocError> {
    for (failing, calls) in CALLS.iter() {
        let bytes = [1, 2, 3, 4, 5, 6].to_vec(alloc)?;
        if !are_answered(alloc, bytes, *failing, *calls)? {
            return Ok(false);
        }
    }
    let sevens = vec![in alloc; 7u8; ROOM + 2]?;
    are_answered(alloc, sevens, 3, &CALLS_PAST_ROOM)
}

#[test]
fn first_bytes_are_read_once(rt: HostRuntime) -> Result<(), Fail> {
    assert!(rt; all_are_answered(rt.alloc())?, "a call");
    Ok(())
}
