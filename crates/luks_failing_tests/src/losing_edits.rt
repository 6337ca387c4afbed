//! Edits of volumes on devices that lose, with each call in turn, what was written and not flushed.

use crate::trials::{LUKS1, LUKS2, Trial, keyslots_open, two_luks1_keyslots};
use luks_area::{Device, MemDevice};
use luks_edit::EditFault;
use luks_reading::{Data, check};
use luks_test_devices::{LosingDevice, Loss, counted, two_keyslots};
use luks_volume::apply;
use std::alloc::Global;
use std::process::Abort;
use std::test::Fail;

pub(crate) const LOSSES: [Loss; 5] = [
    Loss::OutOfOrder,
    Loss::All,
    Loss::EvenSectors,
    Loss::OddSectors,
    Loss::Ones,
];

/// How an edit ended, and what it left.
#[derive(Clone, Copy, PartialEq, Eq)]
enum End {
    /// It is done, and all that it wrote is flushed.
    Done,
    /// The device's fault was told, and each keyslot opens that has to, or the uuid is torn; whether the volume
    /// is accepted.
    Told { accepted: bool },
    Other,
}

/// What the edit comes to where the call of this number fails and no later one does anything.
fn end_of(
    alloc: Global,
    volume: &[u8],
    trial: &Trial,
    random: &[u8],
    call: u64,
    loss: Loss,
) -> Result<End, Fail> {
    let mut device = LosingDevice::new(alloc, volume, call, loss, true)?;
    let answer = apply(alloc, &mut device, Data::Here, &trial.edit, random);
    let mut left = MemDevice::new(device.contents().to_vec(alloc)?);
    let accepted = check(alloc, &mut left, Data::Here).is_ok();
    let opened = keyslots_open(alloc, &mut left, trial);
    let torn = trial.sets_uuid() && loss == Loss::Ones && !accepted;
    let is_flushed = device.contents() == device.settled();
    Ok(match (answer, device.failures()) {
        (Ok(_), 0) if is_flushed && accepted && opened => End::Done,
        (Err(EditFault::Device), 1) if opened || torn => End::Told { accepted },
        _ => End::Other,
    })
}

/// Whichever call is the last before the power is cut, the keyslots open that have to. The volume is
/// accepted, but one of LUKS1 may be refused where bytes are left that nothing wrote; none opens of one that is
/// refused for its uuid.
fn loses_at_each_call(
    rt: &impl Abort,
    alloc: Global,
    volume: &[u8],
    trials: &[Trial],
    is_luks2: bool,
) -> Result<(), Fail> {
    for trial in trials.iter() {
        let random = counted(alloc, 7, trial.random)?;
        for loss in LOSSES {
            let mut end = End::Other;
            for call in 0..128 {
                end = end_of(alloc, volume, trial, &random, call, loss)?;
                let End::Told { accepted } = end else {
                    break;
                };
                let owed = is_luks2 || loss != Loss::Ones;
                assert!(rt; accepted || !owed, "call {call}: refused");
            }
            assert!(rt; end == End::Done, "the end");
        }
    }
    Ok(())
}

#[test]
fn each_edit_of_luks1(rt: HostRuntime) -> Result<(), Fail> {
    let volume = two_luks1_keyslots(rt.alloc())?;
    loses_at_each_call(&rt, rt.alloc(), &volume, &LUKS1, false)
}

#[test]
fn each_edit_of_luks2(rt: HostRuntime) -> Result<(), Fail> {
    let volume = two_keyslots(rt.alloc())?;
    loses_at_each_call(&rt, rt.alloc(), &volume, &LUKS2, true)
}
