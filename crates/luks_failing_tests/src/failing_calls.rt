//! Edits of volumes on devices of which each call fails in turn.

use crate::trials::{
    ARGON2, LUKS1, LUKS2, Trial, argon2_keyslots, keyslots_open, two_luks1_keyslots,
};
use luks_area::{Device, FaultyDevice, Leave, MemDevice};
use luks_edit::{Edit, EditFault};
use luks_reading::{Data, check};
use luks_test_devices::{Call, Recording, change, counted, leave_behind, part, put, two_keyslots};
use luks_volume::{apply, needed};
use luks2_header::{Selected, select};
use std::alloc::Global;
use std::process::Abort;
use std::test::Fail;

/// How an edit ended.
#[derive(Clone, Copy, PartialEq, Eq)]
pub(crate) enum End {
    Done,
    /// The device's fault was told.
    Told,
    /// The passphrase was refused, and no call failed.
    Locked,
    Other,
}

/// What an edit came to on a device of which one call fails.
#[derive(Drop)]
pub(crate) struct Ended {
    pub(crate) end: End,
    pub(crate) calls: Vec<Call>,
    pub(crate) left: MemDevice,
}

/// What the edit comes to where the call of this number fails.
pub(crate) fn end_of(
    alloc: Global,
    volume: &[u8],
    edit: &Edit<'_>,
    random: &[u8],
    call: u64,
    leave: Leave,
) -> Result<Ended, Fail> {
    let inner = MemDevice::new(volume.to_vec(alloc)?);
    let mut device = Recording {
        device: FaultyDevice::new(inner, call, leave),
        calls: Vec::with_capacity(alloc, 128)?,
    };
    let answer = apply(alloc, &mut device, Data::Here, edit, random);
    let end = match (answer, device.failures()) {
        (Ok(_), 0) => End::Done,
        (Err(EditFault::Device), 1) => End::Told,
        (Err(EditFault::Locked), 0) => End::Locked,
        _ => End::Other,
    };
    let Recording { device, calls } = device;
    Ok(Ended {
        end,
        calls,
        left: device.into_inner(),
    })
}

/// The bytes of the copy that counts; nothing where none does.
pub(crate) fn copy_that_counts(device: &mut MemDevice) -> &[u8] {
    match select(device) {
        Ok(Selected::V2 { header, .. }) => {
            let at = header.hdr_offset as usize;
            part(device.contents(), at, at.wrapping_add(16384))
        }
        _ => &[],
    }
}

/// Whether the LUKS2 volume left is accepted, and the copy that counts is one of the volume before or
/// one of the volume after.
fn is_before_or_after(
    alloc: Global,
    left: &mut MemDevice,
    before: &[u8],
    after: &[u8],
) -> Result<bool, Fail> {
    let accepted = check(alloc, left, Data::Here).is_ok();
    let counting = copy_that_counts(left).to_vec(alloc)?;
    let known = [0usize, 16384].iter().any(|at| {
        let end = at.wrapping_add(16384);
        counting.as_slice() == part(before, *at, end)
            || counting.as_slice() == part(after, *at, end)
    });
    Ok(accepted && known && counting.len() == 16384)
}

/// Whichever call fails, it is told after that call, and is the last; the bytes that earlier calls
/// wrote are left, what the failing one leaves, and all others as they were. The keyslots open that have to,
/// but where the uuid of LUKS1 is left as nothing wrote it.
fn fails_at_each_call(
    rt: &impl Abort,
    alloc: Global,
    before: &[u8],
    trial: &Trial,
    leave: Leave,
) -> Result<(), Fail> {
    let random = counted(alloc, 7, trial.random)?;
    let done = end_of(alloc, before, &trial.edit, &random, u64::MAX, leave)?;
    assert!(rt; done.end == End::Done, "no call fails");
    let writes = done.calls.iter().filter(|call| call.range().1 > 0).count();
    assert!(rt; writes == trial.writes, "{writes} writes");
    let after = done.left.contents();
    let is_luks2 = part(before, 6, 8) == [0, 2].as_slice();
    let mut want = before.to_vec(alloc)?;
    for (i, call) in done.calls.iter().enumerate() {
        let (at, len) = call.range();
        let new = part(after, at, at.wrapping_add(len));
        leave_behind(&mut want, at, new, leave);
        let Ended {
            end,
            calls,
            mut left,
        } = end_of(alloc, before, &trial.edit, &random, i as u64, leave)?;
        assert!(rt; end == End::Told, "call {i}: the answer");
        assert!(rt; calls.len() == i.wrapping_add(1), "call {i}: the calls");
        assert!(rt; left.contents() == want.as_slice(), "call {i}: the bytes");
        let opened = keyslots_open(alloc, &mut left, trial);
        let torn = !is_luks2 && trial.sets_uuid() && len > 0 && leave == Leave::Ones;
        assert!(rt; opened != torn, "call {i}: the keyslots");
        let known = !is_luks2 || is_before_or_after(alloc, &mut left, before, after)?;
        assert!(rt; known, "call {i}: the copy that counts");
        put(&mut want, at, new);
    }
    assert!(rt; after == want.as_slice(), "all writes");
    Ok(())
}

pub(crate) const LEAVES: [Leave; 4] = [Leave::Old, Leave::New, Leave::Ones, Leave::Half];

#[test]
fn each_edit_of_luks1(rt: HostRuntime) -> Result<(), Fail> {
    let before = two_luks1_keyslots(rt.alloc())?;
    for trial in LUKS1.iter() {
        for leave in LEAVES {
            fails_at_each_call(&rt, rt.alloc(), &before, trial, leave)?;
        }
    }
    Ok(())
}

#[test]
fn each_edit_of_luks2(rt: HostRuntime) -> Result<(), Fail> {
    let before = two_keyslots(rt.alloc())?;
    for trial in LUKS2.iter() {
        for leave in LEAVES {
            fails_at_each_call(&rt, rt.alloc(), &before, trial, leave)?;
        }
    }
    Ok(())
}

#[test]
fn each_edit_of_argon2(rt: HostRuntime) -> Result<(), Fail> {
    let before = argon2_keyslots(rt.alloc())?;
    for trial in ARGON2.iter() {
        for leave in LEAVES {
            fails_at_each_call(&rt, rt.alloc(), &before, trial, leave)?;
        }
    }
    Ok(())
}

/// Where the passphrase is wrong no byte changes, whichever call fails.
fn stays(rt: &impl Abort, alloc: Global, before: &[u8], random: usize) -> Result<(), Fail> {
    let random = counted(alloc, 7, random)?;
    let edit = change!(0, b"two", b"three");
    let mut end = End::Told;
    for call in 0..128 {
        let ended = end_of(alloc, before, &edit, &random, call, Leave::Ones)?;
        end = ended.end;
        assert!(rt; ended.left.contents() == before, "call {call}: the bytes");
        if end != End::Told {
            break;
        }
    }
    assert!(rt; end == End::Locked, "the end");
    Ok(())
}

#[test]
fn wrong_passphrase(rt: HostRuntime) -> Result<(), Fail> {
    let old = two_luks1_keyslots(rt.alloc())?;
    stays(&rt, rt.alloc(), &old, 2528)?;
    let new = two_keyslots(rt.alloc())?;
    stays(&rt, rt.alloc(), &new, 2656)
}

/// How the need of the edit is told where the call of this number fails: done and told alone.
fn end_of_needed(alloc: Global, volume: &[u8], trial: &Trial, call: u64) -> Result<End, Fail> {
    let inner = MemDevice::new(volume.to_vec(alloc)?);
    let mut device = FaultyDevice::new(inner, call, Leave::Old);
    let answer = needed(alloc, &mut device, Data::Here, &trial.edit);
    match (answer, device.failures()) {
        (Ok(need), 0) if need == trial.random as u64 => Ok(End::Done),
        (Err(EditFault::Device), 1) => Ok(End::Told),
        _ => Ok(End::Other),
    }
}

/// Whichever call fails it is told, and the need is, where none does.
fn needs(rt: &impl Abort, alloc: Global, volume: &[u8], trials: &[Trial]) -> Result<(), Fail> {
    for trial in trials.iter() {
        let mut told = 0usize;
        let mut end = End::Told;
        for call in 0..64 {
            end = end_of_needed(alloc, volume, trial, call)?;
            if end != End::Told {
                break;
            }
            told = told.wrapping_add(1);
        }
        assert!(rt; end == End::Done && told > 0, "the end");
    }
    Ok(())
}

#[test]
fn each_need(rt: HostRuntime) -> Result<(), Fail> {
    let old = two_luks1_keyslots(rt.alloc())?;
    needs(&rt, rt.alloc(), &old, &LUKS1)?;
    let new = two_keyslots(rt.alloc())?;
    needs(&rt, rt.alloc(), &new, &LUKS2)?;
    let third = argon2_keyslots(rt.alloc())?;
    needs(&rt, rt.alloc(), &third, &ARGON2)
}
