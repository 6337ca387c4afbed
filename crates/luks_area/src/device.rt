ghost use Rattle.std.specs.Prelude.{◌≡◌, ℕ, ◌+◌, ◌^◌, ◌<◌, ◌≤◌, List, length, OnOk};
ghost use Rattle.luks_area.specs.Device.{CountsFailure, IsSettled, IsUnchanged, Touches, is_failure, no_place};
ghost use Rattle.luks_area.specs.Ranges.{part, written, IsAt};

use std::error::Error;
use std::fmt;

/// A device call failed. The device counts its failures.
#[derive(Debug, Clone, Copy, PartialEq, Eq)]
pub struct DeviceFault;

impl fmt::Display for DeviceFault {
    ghost use Rattle.std.specs.Prelude.{Some};
    ghost use Rattle.luks_area.specs.Printed.{device_fault_text};

    ghost output = { λ _. Some device_fault_text };

    fn fmt<W: fmt::Write>(&self, f: &mut fmt::Formatter<W>) -> fmt::Result {
        f.write_str("Device")
    }
}

impl Error for DeviceFault {}

/// A block of bytes of a fixed length that is read and written by ranges, such as a disk.
///
/// Places and lengths are in bytes. Contracts see the device's bytes where it tells them (memory
/// does, a file that others may write doesn't), its length, and its count of failed calls, which
/// each failing call raises by one. No call may be made once the count is 2^64 - 1.
///
/// A place is unsettled from when it is written until a flush has ended well, and what is there
/// may be lost till then. So a power cut is a device of which the last write before the cut fails,
/// whatever it leaves in its range and at the unsettled places, and of which no later call does
/// anything; what is read after the cut is what was left. Not said by this are disks that lose bytes
/// that were flushed, that write beside the range, or that write later what was written before a
/// flush.
pub trait Device: Drop {
    /// Holds where the clauses on bytes are promised.
    ghost tells: { Type 0 };

    /// The bytes, from the place 0 on.
    ghost bytes: { Self → List ℕ };

    /// The places that may have been written and not flushed since: what a failing write or flush
    /// may change beside its own range.
    ghost unsettled: { Self → ℕ → Type 0 };

    /// The length in bytes.
    ghost size: { Self → ℕ };

    /// How many calls have failed.
    ghost failed: { Self → ℕ };

    /// The length in bytes; it never changes.
    fn len(&self) -> u64
        ensures { result ≡ size self.now };

    /// How many calls have failed so far.
    fn failures(&self) -> u64
        ensures { result ≡ failed self.now };

    /// Fills `into` with the bytes from the place `at` on; that range lies inside the device.
    ///
    /// A failed read leaves anything in `into`, and changes no byte of the device. The error comes
    /// exactly where the count of failures rose in this call.
    fn read_at(&mut self, at: u64, into: &mut [u8]) -> Result<(), DeviceFault>
        requires within { at + length into.old ≤ size self.old }
        requires room { failed self.old + 1 < 2 ^ 64 }
        ensures count { CountsFailure is_failure result (failed self.old) (failed self.new) }
        ensures unchanged { IsUnchanged tells size bytes unsettled self.old self.new }
        ensures read { tells → OnOk result
            (into.new ≡ part (bytes self.old) at (length into.old)) };

    /// Writes `from` from the place `at` on; that range lies inside the device.
    ///
    /// The range may be unsettled then, and no place beside it that wasn't. A failed write leaves any
    /// bytes in that range and at the places that were unsettled, and all others as they were. The
    /// error comes exactly where the count of failures rose in this call.
    fn write_at(&mut self, at: u64, from: &[u8]) -> Result<(), DeviceFault>
        requires within { at + length from.now ≤ size self.old }
        requires room { failed self.old + 1 < 2 ^ 64 }
        ensures count { CountsFailure is_failure result (failed self.old) (failed self.new) }
        ensures size { size self.new ≡ size self.old }
        ensures wrote { tells → OnOk result
            (bytes self.new ≡ written (bytes self.old) at from.now) }
        ensures touches { tells → Touches bytes unsettled (IsAt at (length from.now))
            self.old self.new };

    /// Asks that all that was written stays. A flush changes no byte, and leaves none unsettled; one
    /// that fails leaves any bytes at the places that were unsettled.
    fn flush(&mut self) -> Result<(), DeviceFault>
        requires { failed self.old + 1 < 2 ^ 64 }
        ensures count { CountsFailure is_failure result (failed self.old) (failed self.new) }
        ensures size { size self.new ≡ size self.old }
        ensures same { tells → OnOk result (bytes self.new ≡ bytes self.old) }
        ensures settled { tells → OnOk result (IsSettled unsettled self.new) }
        ensures touches { tells → Touches bytes unsettled no_place self.old self.new };

    /// A device that tells its bytes has as many as its length.
    ghost sized: { (d : Self) → tells → length (bytes d) ≡ size d };

    /// A length fits a `u64`.
    ghost bounded: { (d : Self) → size d < 2 ^ 64 };
}
