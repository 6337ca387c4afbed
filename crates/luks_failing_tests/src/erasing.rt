//! Erasing volumes on devices of which each call fails in turn, and on those that lose then what was written and
//! not flushed.

use crate::failing_calls::{End, Ended, LEAVES, copy_that_counts, end_of};
use crate::losing_edits::LOSSES;
use crate::trials::{opens, two_luks1_keyslots};
use luks_area::{Device, Leave, MemDevice};
use luks_edit::{Edit, EditFault};
use luks_reading::{Data, check};
use luks_test_devices::{LosingDevice, Loss, counted, leave_behind, part, put, two_keyslots};
use luks_volume::apply;
use std::alloc::Global;
use std::process::Abort;
use std::test::Fail;

/// Whether keyslot 0 opens by `one`, and keyslot 1 by `two`.
fn opened(alloc: Global, left: &mut MemDevice) -> [bool; 2] {
    [
        opens(alloc, left, (0, b"one")),
        opens(alloc, left, (1, b"two")),
    ]
}

/// Whether the LUKS1 keyslot has its entry and its area still.
fn is_whole1(before: &[u8], left: &[u8], n: usize) -> bool {
    let entry = n.wrapping_mul(48).wrapping_add(208);
    let area = n.wrapping_mul(4096).wrapping_add(4096);
    let ends = [entry.wrapping_add(48), area.wrapping_add(2560)];
    part(before, entry, ends[0]) == part(left, entry, ends[0])
        && part(before, area, ends[1]) == part(left, area, ends[1])
}

/// Whether the copy that counts of the LUKS2 volume left is one of the volume before.
fn is_kept2(before: &[u8], left: &mut MemDevice) -> bool {
    let counting = copy_that_counts(left);
    [0usize, 16384]
        .iter()
        .any(|at| counting == part(before, *at, at.wrapping_add(16384)))
}

/// Which keyslots have to open by what is left: of LUKS1 those that are whole, of LUKS2 all or none.
fn owed(before: &[u8], left: &mut MemDevice) -> [bool; 2] {
    if part(before, 6, 8) == [0, 2].as_slice() {
        return [is_kept2(before, left); 2];
    }
    let left = left.contents();
    [is_whole1(before, left, 0), is_whole1(before, left, 1)]
}

/// Whichever call fails, it is told, and is the last; the bytes that earlier calls wrote are left, what the failing
/// one leaves, and all others as they were. The keyslots that are left whole open, and no others.
fn fails_at_each_call(
    rt: &impl Abort,
    alloc: Global,
    before: &[u8],
    random: usize,
    leave: Leave,
) -> Result<(), Fail> {
    let random = counted(alloc, 7, random)?;
    let mut done = end_of(alloc, before, &Edit::Erase, &random, u64::MAX, leave)?;
    assert!(rt; done.end == End::Done, "no call fails");
    let none = opened(alloc, &mut done.left) == [false; 2];
    assert!(rt; none, "a keyslot opens");
    let after = done.left.contents();
    let mut want = before.to_vec(alloc)?;
    for (i, call) in done.calls.iter().enumerate() {
        let (at, len) = call.range();
        let new = part(after, at, at.wrapping_add(len));
        leave_behind(&mut want, at, new, leave);
        let Ended {
            end,
            calls,
            mut left,
        } = end_of(alloc, before, &Edit::Erase, &random, i as u64, leave)?;
        assert!(rt; end == End::Told, "call {i}: the answer");
        assert!(rt; calls.len() == i.wrapping_add(1), "call {i}: the calls");
        assert!(rt; left.contents() == want.as_slice(), "call {i}: the bytes");
        let wanted = owed(before, &mut left);
        let same = opened(alloc, &mut left) == wanted;
        assert!(rt; same, "call {i}: the keyslots");
        let accepted = check(alloc, &mut left, Data::Here).is_ok();
        assert!(rt;
            accepted || random.is_empty() && leave == Leave::Ones,
            "call {i}: refused"
        );
        put(&mut want, at, new);
    }
    assert!(rt; after == want.as_slice(), "all writes");
    Ok(())
}

#[test]
fn each_call_of_luks1(rt: HostRuntime) -> Result<(), Fail> {
    let before = two_luks1_keyslots(rt.alloc())?;
    for leave in LEAVES {
        fails_at_each_call(&rt, rt.alloc(), &before, 0, leave)?;
    }
    Ok(())
}

#[test]
fn each_call_of_luks2(rt: HostRuntime) -> Result<(), Fail> {
    let before = two_keyslots(rt.alloc())?;
    for leave in LEAVES {
        fails_at_each_call(&rt, rt.alloc(), &before, 128, leave)?;
    }
    Ok(())
}

/// Whether the erasure ended, with the call of this number failing: none where it ended in another way than with the
/// device's fault and the keyslots removed in turn, of LUKS2 all at once, or with no fault and no keyslot that opens.
fn ends(
    alloc: Global,
    volume: &[u8],
    random: &[u8],
    call: u64,
    loss: Loss,
) -> Result<Option<bool>, Fail> {
    let mut device = LosingDevice::new(alloc, volume, call, loss, true)?;
    let answer = apply(alloc, &mut device, Data::Here, &Edit::Erase, random);
    let mut left = MemDevice::new(device.contents().to_vec(alloc)?);
    let is_flushed = device.contents() == device.settled();
    let accepted = check(alloc, &mut left, Data::Here).is_ok();
    let [first, second] = opened(alloc, &mut left);
    let in_turn = first == second || second && random.is_empty();
    let torn = random.is_empty() && loss == Loss::Ones;
    Ok(match (answer, device.failures()) {
        (Ok(_), 0) if is_flushed && accepted && !first && !second => Some(true),
        (Err(EditFault::Device), 1) if in_turn && (accepted || torn) => Some(false),
        _ => None,
    })
}

/// Whichever call is the last before the power is cut, the keyslots are removed in turn, of LUKS2 all at once.
fn loses_at_each_call(
    rt: &impl Abort,
    alloc: Global,
    volume: &[u8],
    random: usize,
) -> Result<(), Fail> {
    let random = counted(alloc, 7, random)?;
    for loss in LOSSES {
        let mut end = Some(false);
        for call in 0..256 {
            end = ends(alloc, volume, &random, call, loss)?;
            if !matches!(end, Some(false)) {
                break;
            }
        }
        assert!(rt; matches!(end, Some(true)), "the end");
    }
    Ok(())
}

#[test]
fn each_loss_of_luks1(rt: HostRuntime) -> Result<(), Fail> {
    let volume = two_luks1_keyslots(rt.alloc())?;
    loses_at_each_call(&rt, rt.alloc(), &volume, 0)
}

#[test]
fn each_loss_of_luks2(rt: HostRuntime) -> Result<(), Fail> {
    let volume = two_keyslots(rt.alloc())?;
    loses_at_each_call(&rt, rt.alloc(), &volume, 128)
}
