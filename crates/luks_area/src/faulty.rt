ghost use Rattle.std.specs.Prelude.{◌≡◌, ◌+◌, ◌^◌, ◌<◌, ◌≤◌, ◌↔◌, IsTrue, OnOk, length};
ghost use Rattle.luks_area.specs.Device.{CountsFailure, IsSettled, IsUnchanged, Touches, count_after, is_failure, no_place};
ghost use Rattle.luks_area.specs.Ranges.{part, written, IsAt};

use crate::area::Area;
use crate::device::{Device, DeviceFault};
use crate::filling::fill;

/// What the failing write leaves in its range.
#[derive(Clone, Copy, PartialEq, Eq)]
pub enum Leave {
    /// The bytes that stood there.
    Old,
    /// The bytes that were to be written.
    New,
    /// 0xFF in each byte.
    Ones,
    /// The new bytes in the first half, whose length is rounded down, and the old ones in the rest.
    Half,
}

/// A device of which one call fails, to try what holds after a failure.
///
/// Of its calls `read_at`, `write_at` and `flush`, counted from 0, the one of a given number fails;
/// all others are passed on to the device behind, and after the failing one none is counted. Its
/// count of failures begins at that of the device behind, and rises by one where a call fails, for
/// either cause.
#[derive(Drop)]
pub struct FaultyDevice<D: Device> {
    device: D,
    before: Option<u64>,
    leave: Leave,
    failures: u64,
    ghost counted: { D.failed device ≤ failures },
}

impl<D: Device> FaultyDevice<D> {
    ghost use Rattle.std.specs.Prelude.{Some};
    ghost use Rattle.luks_area.specs.Faulty.{IsDue, LeavesBehind, inner_device, leave_of, one_fewer};
    ghost use Rattle.luks_area.specs.Faulty.{calls_before, faulty_bytes, faulty_failures, faulty_size, faulty_unsettled};

    /// A device over `device` of which the call of the number `call` fails, counted from 0.
    pub fn new(device: D, call: u64, leave: Leave) -> Self
        ensures device { inner_device result ≡ device }
        ensures call { calls_before result ≡ Some call }
        ensures leave { leave_of result ≡ leave }
        ensures count { faulty_failures result ≡ D.failed device }
    {
        let failures = device.failures();
        FaultyDevice {
            device,
            before: Some(call),
            leave,
            failures,
        }
    }

    /// The device behind, as the calls have left it.
    pub fn into_inner(self) -> D
        ensures { result ≡ inner_device self }
    {
        let FaultyDevice { device, .. } = self;
        device
    }

    /// Counts a call, and tells whether it is the one that fails; then it counts the failure.
    fn count_call(&mut self) -> bool
        requires { faulty_failures self.old + 1 < 2 ^ 64 }
        ensures due { IsTrue result ↔ IsDue self.old }
        ensures counted { calls_before self.new ≡ one_fewer (calls_before self.old) }
        ensures leave { leave_of self.new ≡ leave_of self.old }
        ensures device { inner_device self.new ≡ inner_device self.old }
        ensures count { faulty_failures self.new ≡ count_after result (faulty_failures self.old) }
    {
        match self.before {
            Some(0) => {
                self.before = None;
                self.failures += 1;
                true
            }
            Some(calls) => {
                self.before = Some(calls - 1);
                false
            }
            None => false,
        }
    }

    /// Writes what the failing write leaves, as far as the device behind doesn't fail.
    fn leave_behind(&mut self, at: u64, from: &[u8])
        requires within { at + length from.now ≤ faulty_size self.old }
        requires room { D.failed (inner_device self.old) + 1 < 2 ^ 64 }
        requires counted { D.failed (inner_device self.old) < faulty_failures self.old }
        ensures count { faulty_failures self.new ≡ faulty_failures self.old }
        ensures before { calls_before self.new ≡ calls_before self.old }
        ensures leave { leave_of self.new ≡ leave_of self.old }
        ensures size { faulty_size self.new ≡ faulty_size self.old }
        ensures touches { D.tells → Touches faulty_bytes faulty_unsettled
            (IsAt at (length from.now)) self.old self.new }
        ensures left { D.tells → LeavesBehind self.old self.new at from.now }
    {
        let range = Area {
            start: at,
            len: from.len() as u64,
        };
        let _ = match self.leave {
            Leave::Old => Ok(()),
            Leave::New => self.device.write_at(at, from),
            Leave::Ones => fill(&mut self.device, range, 0xFF),
            Leave::Half => self.device.write_at(at, &from[..from.len() / 2]),
        };
    }
}

impl<D: Device> Device for FaultyDevice<D> {
    ghost use Rattle.luks_area.specs.Faulty.{FailsWhereDue, IsDue, LeavesBehind};
    ghost use Rattle.luks_area.specs.Faulty.{faulty_bytes, faulty_failures, faulty_size, faulty_unsettled};

    ghost tells = { D.tells };

    ghost bytes = { faulty_bytes };

    ghost unsettled = { faulty_unsettled };

    ghost size = { faulty_size };

    ghost failed = { faulty_failures };

    fn len(&self) -> u64 {
        self.device.len()
    }

    fn failures(&self) -> u64 {
        self.failures
    }

    fn read_at(&mut self, at: u64, into: &mut [u8]) -> Result<(), DeviceFault>
        requires within { at + length into.old ≤ faulty_size self.old }
        requires room { faulty_failures self.old + 1 < 2 ^ 64 }
        ensures fails { FailsWhereDue self.old self.new result }
        ensures count { CountsFailure is_failure result
            (faulty_failures self.old) (faulty_failures self.new) }
        ensures unchanged { IsUnchanged D.tells faulty_size faulty_bytes faulty_unsettled self.old self.new }
        ensures read { D.tells → OnOk result
            (into.new ≡ part (faulty_bytes self.old) at (length into.old)) }
    {
        if self.count_call() {
            return Err(DeviceFault);
        }
        let outcome = self.device.read_at(at, into);
        self.failures += u64::from(outcome.is_err());
        outcome
    }

    fn write_at(&mut self, at: u64, from: &[u8]) -> Result<(), DeviceFault>
        requires within { at + length from.now ≤ faulty_size self.old }
        requires room { faulty_failures self.old + 1 < 2 ^ 64 }
        ensures fails { FailsWhereDue self.old self.new result }
        ensures left { D.tells → IsDue self.old → LeavesBehind self.old self.new at from.now }
        ensures count { CountsFailure is_failure result
            (faulty_failures self.old) (faulty_failures self.new) }
        ensures size { faulty_size self.new ≡ faulty_size self.old }
        ensures wrote { D.tells → OnOk result
            (faulty_bytes self.new ≡ written (faulty_bytes self.old) at from.now) }
        ensures touches { D.tells → Touches faulty_bytes faulty_unsettled
            (IsAt at (length from.now)) self.old self.new }
    {
        if self.count_call() {
            self.leave_behind(at, from);
            return Err(DeviceFault);
        }
        let outcome = self.device.write_at(at, from);
        self.failures += u64::from(outcome.is_err());
        outcome
    }

    fn flush(&mut self) -> Result<(), DeviceFault>
        requires { faulty_failures self.old + 1 < 2 ^ 64 }
        ensures fails { FailsWhereDue self.old self.new result }
        ensures count { CountsFailure is_failure result
            (faulty_failures self.old) (faulty_failures self.new) }
        ensures size { faulty_size self.new ≡ faulty_size self.old }
        ensures same { D.tells → OnOk result (faulty_bytes self.new ≡ faulty_bytes self.old) }
        ensures settled { D.tells → OnOk result (IsSettled faulty_unsettled self.new) }
        ensures touches { D.tells → Touches faulty_bytes faulty_unsettled no_place
            self.old self.new }
    {
        if self.count_call() {
            return Err(DeviceFault);
        }
        let outcome = self.device.flush();
        self.failures += u64::from(outcome.is_err());
        outcome
    }

    ghost sized = { λ d t. D.sized d.device t };

    ghost bounded = { λ d. D.bounded d.device };
}
