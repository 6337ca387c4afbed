//! Lists of edits with refused memory.

use crate::rows::Row;
use crate::runs::{Reply, random_of, steps_of};
use crate::{luks1, luks2};
use luks_area::MemDevice;
use luks_edit::{Edit, EditFault, Step};
use luks_kdf::HashName;
use luks_reading::Data;
use luks_test_devices::{BLOCKS, TakenMemory, counted, is_sum, small1, small2};
use luks_volume::run;
use std::alloc::Global;
use std::test::Fail;

/// How a list ended with little memory.
#[derive(Debug, Clone, Copy, PartialEq, Eq)]
enum Ran {
    /// Each step has a reply, and memory was refused in none.
    All,
    /// There was no room for the replies; nothing ran.
    Nothing,
    /// Each step was refused memory, and no byte has changed.
    Starved,
    Other,
}

fn is_starved(reply: &Reply) -> bool {
    matches!(reply, Err(EditFault::Memory))
}

/// How the list ended; `before` is the sum of the volume that it was begun on.
fn ran_as(alloc: Global, device: &mut MemDevice, steps: &[Step<'_>], before: &str) -> Ran {
    let mut replies = Vec::new(alloc);
    let ran = run(alloc, device, Data::Here, steps, &mut replies);
    let same = is_sum(device.contents(), before);
    if ran.is_err() && replies.is_empty() && same {
        return Ran::Nothing;
    }
    if ran.is_err() || replies.len() != steps.len() {
        return Ran::Other;
    }
    if !replies.iter().any(is_starved) {
        return Ran::All;
    }
    if replies.iter().all(is_starved) && same {
        return Ran::Starved;
    }
    Ran::Other
}

/// With all memory taken, and given back in blocks of 256 bytes: how often nothing ran, and how often
/// each step was refused memory, before the list was run; none where it ended in another way.
fn ends_with_little_memory(
    alloc: Global,
    device: &mut MemDevice,
    steps: &[Step<'_>],
    before: &str,
) -> Result<Option<(usize, usize)>, Fail> {
    let mut taken = TakenMemory::take(alloc)?;
    let mut nothing = 0usize;
    let mut starved = 0usize;
    let mut end = None;
    for _ in 0..BLOCKS {
        match ran_as(alloc, device, steps, before) {
            Ran::All => {
                end = Some((nothing, starved));
                break;
            }
            Ran::Nothing => nothing = nothing.wrapping_add(1),
            Ran::Starved => starved = starved.wrapping_add(1),
            Ran::Other => break,
        }
        taken.give_back();
    }
    drop(taken);
    Ok(end)
}

/// Whether the list over a LUKS1 volume is refused memory for its replies alone, and leaves the last
/// volume.
fn takes_memory_once(alloc: Global, rows: &[Row], sums: &[&str]) -> Result<bool, Fail> {
    let [before, .., last] = sums else {
        return Ok(false);
    };
    let random = random_of(alloc, rows)?;
    let steps = steps_of(alloc, rows, &random)?;
    let mut device = MemDevice::new(small1(alloc, HashName::Sha256)?);
    let end = ends_with_little_memory(alloc, &mut device, &steps, before)?;
    Ok(matches!(end, Some((1.., 0))) && is_sum(device.contents(), last))
}

#[test]
fn little_memory_for_luks1(rt: HostRuntime) -> Result<(), Fail> {
    assert!(rt;
        takes_memory_once(rt.alloc(), &luks1::table::LIST, &luks1::table::SHA256)?,
        "the end"
    );
    Ok(())
}

// One over a LUKS2 volume takes it for each step too.
#[test]
fn little_memory_for_luks2(rt: HostRuntime) -> Result<(), Fail> {
    let alloc = rt.alloc();
    let random = counted(alloc, 0, 128)?;
    let step = Step {
        edit: Edit::Repair,
        random: random.as_slice(),
    };
    let steps = [step; 8];
    let mut device = MemDevice::new(small2(alloc, HashName::Sha256)?);
    let before = luks2::table::SHA256[0];
    let end = ends_with_little_memory(alloc, &mut device, &steps, before)?;
    assert!(rt; matches!(end, Some((1.., 1..))), "{end:?}");
    Ok(())
}
