//! `open` of a volume in whose metadata something is under way: which keyslot opens, and which key of the
//! reencryption it gives.
ghost use Rattle.std.specs.Prelude.{◌≡◌, ◌≢◌, ◌+◌, ◌^◌, ◌<◌, ◌≤◌, length};
ghost use Rattle.luks_area.specs.Device.{IsUnchanged};
ghost use Rattle.luks_commands.specs.Answer.{answer_status};
ghost use Rattle.luks_commands.specs.OpenAnswers.{FailsBeside, IsAnyUnderway, IsOneUnderway, IsUnderwayAnswer, wide_open_answer};
ghost use Rattle.luks_wide_reading.specs.Headers.{IsUnderwayCopy};

use super::almost_met::note_unopened;
use super::searching::note_unread;
use super::underway_untried::{Ground, note_all_wanting, note_fault, note_passed_over};
use crate::answers::{Answer, Refusal, Status};
use crate::underway_refusal::UnderwayRefusal;
use luks_reading::{Allowed, Device, OpenFault};
use luks_underway_said::{note_missing_key, note_side};
use luks_wide_reading::{
    UnderwayCopy, WideKeyslot, WideOpenFault, try_underway, try_underway_slot,
};
use std::alloc::Global;
use std::io::Write;

/// What is tried: the passphrase on the keyslots of a copy in which something is under way.
#[derive(Clone, Copy)]
pub(crate) struct UnderwayTrial<'a> {
    /// The file of the volume.
    pub(crate) volume: &'a str,
    /// The copy that counts.
    pub(crate) copy: &'a UnderwayCopy,
    /// The passphrase.
    pub(crate) passphrase: &'a [u8],
    /// What is allowed.
    pub(crate) allowed: Allowed,
}

/// What is answered of a volume with this copy.
pub(crate) fn open_underway<D: Device, E: Write>(
    alloc: Global,
    device: &mut D,
    trial: &UnderwayTrial<'_>,
    slot: Option<u8>,
    err: &mut E,
) -> Answer
    requires room { D.failed device.old + 1 < 2 ^ 64 }
    requires passphrase { length trial.now.passphrase.now < 2 ^ 32 }
    ensures unchanged { IsUnchanged D.tells D.size D.bytes D.unsettled device.old device.new }
    ensures kinds { answer_status result ≢ Status.NotInStep }
    ensures answers { IsUnderwayAnswer (D.tells × IsUnderwayCopy (D.bytes device.old) trial.now.copy.now)
        trial.now.allowed (D.bytes device.old) slot trial.now.passphrase.now
        (D.failed device.old) (D.failed device.new) result }
{
    match slot {
        Some(n) => open_named(alloc, device, trial, n, err),
        None => open_first(alloc, device, trial, err),
    }
}

/// What is answered where the keyslot `n` is named.
fn open_named<D: Device, E: Write>(
    alloc: Global,
    device: &mut D,
    trial: &UnderwayTrial<'_>,
    n: u8,
    err: &mut E,
) -> Answer
    requires room { D.failed device.old + 1 < 2 ^ 64 }
    requires passphrase { length trial.now.passphrase.now < 2 ^ 32 }
    ensures unchanged { IsUnchanged D.tells D.size D.bytes D.unsettled device.old device.new }
    ensures kinds { answer_status result ≢ Status.NotInStep }
    ensures answers { IsOneUnderway (D.tells × IsUnderwayCopy (D.bytes device.old) trial.now.copy.now)
        trial.now.allowed (D.bytes device.old) n trial.now.passphrase.now
        (D.failed device.old) (D.failed device.new) result }
{
    let UnderwayTrial {
        copy,
        passphrase,
        allowed,
        ..
    } = *trial;
    let mut nearest = None;
    match try_underway_slot(alloc, device, copy, n, passphrase, allowed, &mut nearest) {
        Ok(Some(_)) => {
            note_keys(alloc, device, trial, n, err);
            Answer::Opens(n)
        }
        Ok(None) => {
            note_unopened(nearest, passphrase, err);
            Answer::Closed(n)
        }
        Err(fault) => {
            note_fault(&ground_of(trial, device.len()), n, &fault, err);
            refused_keyslot(fault)
        }
    }
}

/// What is answered where the keyslot that is named is refused.
fn refused_keyslot(fault: WideOpenFault) -> Answer
    ensures { result ≡ wide_open_answer fault }
{
    match fault {
        WideOpenFault::Open(fault) => Answer::from(fault),
        WideOpenFault::NoKey => Answer::Refused(Refusal::Underway(UnderwayRefusal::NoKey)),
    }
}

/// What is answered where no keyslot is named.
fn open_first<D: Device, E: Write>(
    alloc: Global,
    device: &mut D,
    trial: &UnderwayTrial<'_>,
    err: &mut E,
) -> Answer
    requires room { D.failed device.old + 1 < 2 ^ 64 }
    requires passphrase { length trial.now.passphrase.now < 2 ^ 32 }
    ensures unchanged { IsUnchanged D.tells D.size D.bytes D.unsettled device.old device.new }
    ensures kinds { answer_status result ≢ Status.NotInStep }
    ensures answers { IsAnyUnderway (D.tells × IsUnderwayCopy (D.bytes device.old) trial.now.copy.now)
        trial.now.allowed (D.bytes device.old) trial.now.passphrase.now
        (D.failed device.old) (D.failed device.new) result }
{
    let UnderwayTrial {
        copy,
        passphrase,
        allowed,
        ..
    } = *trial;
    let mut nearest = None;
    match try_underway(alloc, device, copy, passphrase, allowed, &mut nearest) {
        Ok(Some((n, _))) => {
            note_keys(alloc, device, trial, n, err);
            Answer::Opens(n)
        }
        Ok(None) => {
            note_unopened(nearest, passphrase, err);
            note_passed_over(&ground_of(trial, device.len()), err);
            Answer::NoneOpens
        }
        Err(fault) => {
            if let OpenFault::Memory = fault {
                note_all_wanting(&ground_of(trial, device.len()), err);
            }
            Answer::from(fault)
        }
    }
}

/// On what the keyslots are tried, in a volume of so many bytes.
fn ground_of<'a>(trial: &UnderwayTrial<'a>, total: u64) -> Ground<'a> {
    Ground {
        meta: &trial.copy.meta,
        total,
        allowed: trial.allowed,
    }
}

/// So many calls may have failed that the other keyslots, at each of which one may, aren't tried.
const MOST_FAILURES: u64 = u64::MAX - 32;

/// Says of each keyslot that opens which key of the reencryption it gives, and which key none of them gives.
/// The keyslot `first` opens; the others are tried.
fn note_keys<D: Device, E: Write>(
    alloc: Global,
    device: &mut D,
    trial: &UnderwayTrial<'_>,
    first: u8,
    err: &mut E,
)
    requires { length trial.now.passphrase.now < 2 ^ 32 }
    ensures unchanged { IsUnchanged D.tells D.size D.bytes D.unsettled device.old device.new }
    ensures beside { FailsBeside (D.failed device.old) (D.failed device.new) }
{
    let meta = &trial.copy.meta;
    if first > 31 || meta.reencryption().is_none() {
        return;
    }
    let _ = note_side(meta, first, err);
    if device.failures() >= MOST_FAILURES {
        return;
    }
    let opened = try_others(alloc, device, trial, first, err);
    let _ = note_missing_key(meta, &opened, err);
}

/// Tries the keyslots other than `first`, which opens: at the place of each that opens stands its number, at
/// all others that of the first.
fn try_others<D: Device, E: Write>(
    alloc: Global,
    device: &mut D,
    trial: &UnderwayTrial<'_>,
    first: u8,
    err: &mut E,
) -> [u8; 32]
    requires room { D.failed device.old + 32 < 2 ^ 64 }
    requires passphrase { length trial.now.passphrase.now < 2 ^ 32 }
    ensures unchanged { IsUnchanged D.tells D.size D.bytes D.unsettled device.old device.new }
    ensures beside { FailsBeside (D.failed device.old) (D.failed device.new) }
{
    let mut opened = [first; 32];
    for n in 0..32 {
        if n != first && opens_too(alloc, device, trial, n, err) {
            opened[usize::from(n)] = n;
        }
    }
    opened
}

/// Whether the keyslot opens, if it is one that is tried where none is named; it says which key it gives. One
/// that can't be read is named.
fn opens_too<D: Device, E: Write>(
    alloc: Global,
    device: &mut D,
    trial: &UnderwayTrial<'_>,
    n: u8,
    err: &mut E,
) -> bool
    requires numbered { n < 32 }
    requires room { D.failed device.old + 1 < 2 ^ 64 }
    requires passphrase { length trial.now.passphrase.now < 2 ^ 32 }
    ensures unchanged { IsUnchanged D.tells D.size D.bytes D.unsettled device.old device.new }
    ensures least { D.failed device.old ≤ D.failed device.new }
    ensures most { D.failed device.new ≤ D.failed device.old + 1 }
{
    let UnderwayTrial {
        volume,
        copy,
        passphrase,
        allowed,
    } = *trial;
    if !is_tried(copy, n) {
        return false;
    }
    match try_underway_slot(alloc, device, copy, n, passphrase, allowed, &mut None) {
        Ok(Some(_)) => {
            let _ = note_side(&copy.meta, n, err);
            true
        }
        Err(WideOpenFault::Open(OpenFault::Device)) => {
            note_unread(volume, n, err);
            false
        }
        _ => false,
    }
}

/// Whether the keyslot is tried where none is named: it holds a key, and isn't of priority 0.
fn is_tried(copy: &UnderwayCopy, n: u8) -> bool {
    match copy.meta.keyslot(n) {
        Some(WideKeyslot::Luks2(keyslot)) => keyslot.priority != Some(0),
        _ => false,
    }
}
