//! A device that loses what was written and not flushed.
ghost use Rattle.std.specs.Prelude.{◌≡◌, ◌+◌, ◌≤◌, ◌<◌, ◌^◌, IfOk, length};
ghost use Rattle.luks_area.specs.Device.{IsSettled};
ghost use Rattle.luks_area.specs.Ranges.{IsAt, IsOfEither, SameBut};
ghost use Rattle.luks_test_devices.specs.Differing.{differ};

use crate::bytes::{put, put_ones};
use luks_area::{Device, DeviceFault};
use std::alloc::{AllocError, Global};

/// What a failing call leaves of the bytes that were written and not flushed, and of its own range.
#[derive(Clone, Copy, PartialEq, Eq)]
pub enum Loss {
    /// What was written before is lost, and what the call writes is there: writes out of order.
    OutOfOrder,
    /// All of it is lost.
    All,
    /// Of it, what lies in the sectors of 512 bytes of even numbers is lost.
    EvenSectors,
    /// Of it, what lies in those of odd numbers is lost.
    OddSectors,
    /// Each of these bytes is 0xFF.
    Ones,
}

impl Loss {
    /// What is left of a byte that was written and not flushed: its place, and what stands there now
    /// and stood there at the last flush.
    fn left(self, place: usize, now: u8, before: u8) -> u8 {
        let is_even = place / 512 % 2 == 0;
        match self {
            Loss::OutOfOrder | Loss::All => before,
            Loss::EvenSectors => { if is_even { before } else { now } }
            Loss::OddSectors => { if is_even { now } else { before } }
            Loss::Ones => 0xFF,
        }
    }
}

/// What a call comes to.
#[derive(Clone, Copy, PartialEq, Eq)]
enum Turn {
    /// It does what it is to do.
    Done,
    /// It fails, and the device loses bytes.
    Lost,
    /// It fails and does nothing, since the device died.
    Dead,
}

/// A device in memory of which one call fails, or each from one on, to try what holds after the power
/// was cut.
///
/// Of its calls `read_at`, `write_at` and `flush`, counted from 0, the one of a given number fails; it
/// loses what was written and not flushed, as `Loss` says, but a read loses nothing. Where the device
/// dies with that call, each later one fails and does nothing; else all later ones are done.
#[derive(Drop)]
pub struct LosingDevice {
    present: Vec<u8>,
    settled: Vec<u8>,
    before: Option<u64>,
    loss: Loss,
    dies: bool,
    is_dead: bool,
    failures: u64,
    ghost fits: { length present.items < 2 ^ 64 },
    ghost same_length: { length settled.items ≡ length present.items },
}

impl LosingDevice {
    ghost use Rattle.luks_test_devices.specs.Losing.{failures_after, losing_bytes, losing_failures};
    ghost use Rattle.luks_test_devices.specs.Losing.{losing_unsettled, settled_bytes};

    /// A device of these bytes, all of them settled, of which the call of the number `call` fails,
    /// counted from 0; with `dies` all later ones too.
    pub fn new(
        alloc: Global,
        contents: &[u8],
        call: u64,
        loss: Loss,
        dies: bool,
    ) -> Result<Self, AllocError>
        ensures bytes { IfOk result (λ device. losing_bytes device ≡ contents.now) }
        ensures settled { IfOk result (λ device. settled_bytes device ≡ contents.now) }
        ensures none { IfOk result (λ device. IsSettled losing_unsettled device) }
        ensures count { IfOk result (λ device. losing_failures device ≡ 0) }
    {
        Ok(LosingDevice {
            present: contents.to_vec(alloc)?,
            settled: contents.to_vec(alloc)?,
            before: Some(call),
            loss,
            dies,
            is_dead: false,
            failures: 0,
        })
    }

    /// The bytes that the device holds now.
    pub fn contents(&self) -> &[u8]
        ensures { result.now ≡ losing_bytes self.now }
    {
        self.present.as_slice()
    }

    /// The bytes that it held when it was flushed last.
    pub fn settled(&self) -> &[u8]
        ensures { result.now ≡ settled_bytes self.now }
    {
        self.settled.as_slice()
    }

    /// Counts a call, and its failure; tells what it comes to.
    fn turn(&mut self) -> Turn
        requires { losing_failures self.old + 1 < 2 ^ 64 }
        ensures bytes { losing_bytes self.new ≡ losing_bytes self.old }
        ensures settled { settled_bytes self.new ≡ settled_bytes self.old }
        ensures count { losing_failures self.new ≡ failures_after result (losing_failures self.old) }
    {
        if self.is_dead {
            self.failures += 1;
            return Turn::Dead;
        }
        match self.before {
            Some(0) => {
                self.before = None;
                self.is_dead = self.dies;
                self.failures += 1;
                Turn::Lost
            }
            Some(calls) => {
                self.before = Some(calls - 1);
                Turn::Done
            }
            None => Turn::Done,
        }
    }
}

/// Of the bytes that differ from the settled ones, leaves what is left of them.
fn lose(present: &mut [u8], settled: &[u8], loss: Loss)
    requires { length settled.now ≡ length present.old }
    ensures { SameBut (differ present.old settled.now) present.old present.new }
{
    for i in 0..present.len() {
        if present[i] != settled[i] {
            present[i] = loss.left(i, present[i], settled[i]);
        }
    }
}

/// What a failing write from the place `at` on leaves.
fn lose_with(present: &mut [u8], settled: &[u8], at: usize, from: &[u8], loss: Loss)
    requires within { at + length from.now ≤ length present.old }
    requires same_length { length settled.now ≡ length present.old }
    ensures { SameBut (IsOfEither (differ present.old settled.now) (IsAt at (length from.now)))
        present.old present.new }
{
    match loss {
        Loss::All => lose(present, settled, loss),
        Loss::OutOfOrder => {
            lose(present, settled, loss);
            put(present, at, from);
        }
        Loss::EvenSectors | Loss::OddSectors => {
            put(present, at, from);
            lose(present, settled, loss);
        }
        Loss::Ones => {
            lose(present, settled, loss);
            put_ones(present, at, from.len());
        }
    }
}

impl Device for LosingDevice {
    ghost use Rattle.std.specs.Prelude.{refl};
    ghost use Rattle.luks_test_devices.specs.Losing.{losing_bytes, losing_failures, losing_unsettled};

    ghost tells = { Unit {0} };

    ghost bytes = { losing_bytes };

    ghost unsettled = { losing_unsettled };

    ghost size = { λ d. length (losing_bytes d) };

    ghost failed = { losing_failures };

    fn len(&self) -> u64 {
        self.present.len() as u64
    }

    fn failures(&self) -> u64 {
        self.failures
    }

    fn read_at(&mut self, at: u64, into: &mut [u8]) -> Result<(), DeviceFault> {
        if self.turn() != Turn::Done {
            return Err(DeviceFault);
        }
        let at = at as usize;
        into.copy_from_slice(&self.present[at..at + into.len()]);
        Ok(())
    }

    fn write_at(&mut self, at: u64, from: &[u8]) -> Result<(), DeviceFault> {
        match self.turn() {
            Turn::Done => {
                put(&mut self.present, at as usize, from);
                return Ok(());
            }
            Turn::Lost => lose_with(
                &mut self.present,
                &self.settled,
                at as usize,
                from,
                self.loss,
            ),
            Turn::Dead => {}
        }
        Err(DeviceFault)
    }

    fn flush(&mut self) -> Result<(), DeviceFault> {
        match self.turn() {
            Turn::Done => {
                self.settled.copy_from_slice(&self.present);
                return Ok(());
            }
            Turn::Lost => lose(&mut self.present, &self.settled, self.loss),
            Turn::Dead => {}
        }
        Err(DeviceFault)
    }

    ghost sized = { λ d t. refl };

    ghost bounded = { λ d. d.fits };
}
