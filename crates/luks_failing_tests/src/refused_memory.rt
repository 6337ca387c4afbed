//! Edits of LUKS2 volumes with refused memory.

use crate::trials::LUKS2;
use luks_area::MemDevice;
use luks_edit::{Edit, EditFault};
use luks_reading::Data;
use luks_test_devices::{BLOCKS, TakenMemory, counted, two_keyslots};
use luks_volume::{apply, needed};
use std::alloc::Global;
use std::process::Abort;
use std::test::Fail;

/// How a call ended.
#[derive(Clone, Copy, PartialEq, Eq)]
enum End {
    Done,
    /// It told that memory was refused, and no byte has changed.
    Memory,
    Other,
}

/// How telling the need ends.
fn end_of_needed(alloc: Global, device: &mut MemDevice, edit: &Edit<'_>, before: &[u8]) -> End {
    match needed(alloc, device, Data::Here, edit) {
        Ok(_) => End::Done,
        Err(EditFault::Memory) if device.contents() == before => End::Memory,
        Err(_) => End::Other,
    }
}

/// How the edit ends.
fn end_of(
    alloc: Global,
    device: &mut MemDevice,
    edit: &Edit<'_>,
    random: &[u8],
    before: &[u8],
) -> End {
    match apply(alloc, device, Data::Here, edit, random) {
        Ok(_) => End::Done,
        Err(EditFault::Memory) if device.contents() == before => End::Memory,
        Err(_) => End::Other,
    }
}

/// How an edit ended, and how many blocks had to be given back until its need was told, and until it
/// was done.
#[derive(Clone, Copy)]
struct Ended {
    need: End,
    end: End,
    for_need: usize,
    given: usize,
}

// With all memory taken, and given back in blocks, the calls are refused memory at one place after
// another. Nothing else is answered until they are done.
fn ends_with_little_memory(alloc: Global, edit: &Edit<'_>, random: usize) -> Result<Ended, Fail> {
    let before = two_keyslots(alloc)?;
    let random = counted(alloc, 7, random)?;
    let mut device = MemDevice::new(before.to_vec(alloc)?);
    let mut taken = TakenMemory::take(alloc)?;
    let mut need = End::Memory;
    let mut end = End::Memory;
    let mut for_need = 0;
    let mut given = 0;
    for turn in 0..BLOCKS {
        if need == End::Memory {
            need = end_of_needed(alloc, &mut device, edit, &before);
            for_need = turn;
        }
        end = end_of(alloc, &mut device, edit, &random, &before);
        given = turn;
        if end != End::Memory {
            break;
        }
        taken.give_back();
    }
    drop(taken);
    Ok(Ended {
        need,
        end,
        for_need,
        given,
    })
}

/// The edit is done once there is enough memory, and its need is told before.
fn tells(rt: &impl Abort, alloc: Global, edit: &Edit<'_>, random: usize) -> Result<(), Fail> {
    let ended = ends_with_little_memory(alloc, edit, random)?;
    assert!(rt; ended.need == End::Done, "{random} random bytes: the need");
    assert!(rt; ended.end == End::Done, "{random} random bytes");
    let (first, last) = (ended.for_need, ended.given);
    assert!(rt;
        1 < first && first <= last,
        "{random} random bytes: {first} and {last} blocks"
    );
    Ok(())
}

#[test]
fn tell_refused_memory(rt: HostRuntime) -> Result<(), Fail> {
    for trial in LUKS2.iter() {
        tells(&rt, rt.alloc(), &trial.edit, trial.random)?;
    }
    Ok(())
}

#[test]
fn erasing_tells_refused_memory(rt: HostRuntime) -> Result<(), Fail> {
    tells(&rt, rt.alloc(), &Edit::Erase, 128)
}
