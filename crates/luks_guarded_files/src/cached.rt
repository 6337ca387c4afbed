ghost use Rattle.std.specs.Prelude.{◌≡◌, ◌≢◌, ◌+◌, ◌^◌, ◌<◌, ◌≤◌, ◌↔◌, None, IfOk, IfSome, IsOk, IsTrue, length, take};
ghost use Rattle.luks_area.specs.Area.{IsInside};
ghost use Rattle.luks_area.specs.Ranges.{part, written};
ghost use Rattle.luks_guarded_files.specs.Missed.{IsCounted, LiesIn};

use crate::guarded::GuardedDevice;
use luks_area::{Area, Device, DeviceFault};
use std::alloc::{AllocError, Global};

/// How many bytes there is room for: both copies of a LUKS2 header of the least size.
pub const ROOM: usize = 32768;

/// A device over another one that remembers what was read of its first bytes, and reads them from
/// memory when they are asked for again. Before a write they are read from the device behind once
/// more and compared; the write forgets them, and so does a flush, which may fail and change them.
/// If one has changed before a write, since something else wrote it, nothing is written: the call
/// fails, and is counted. `GuardedDevice`, behind it, can't be written otherwise.
///
/// It remembers bytes from the place 0 on alone, as many as were read one after the other, and at
/// most `ROOM`; others aren't compared. Its calls take no memory: the place for `ROOM` bytes is taken
/// as it is made, so that the value itself is small. Over a device that tells its bytes its calls
/// fail exactly where those of the device behind do.
///
/// It also remembers the first range whose reading failed, as it was asked for. What a write reads to
/// compare it isn't such a range.
#[derive(Drop)]
pub struct CachedDevice<D: Device> {
    behind: GuardedDevice<D>,
    bytes: Vec<u8>,
    missed: Option<Area>,
    ghost room: { length bytes.items ≡ 32768 },
    ghost fits: { behind.known ≤ 32768 },
    ghost same: { D.tells → take behind.known bytes.items ≡ part (D.bytes behind.device) 0 behind.known },
    ghost lies: { LiesIn missed (D.size behind.device) },
    ghost counted: { IsCounted missed (D.failed behind.device + behind.changes) },
}

impl<D: Device> CachedDevice<D> {
    ghost use Rattle.luks_guarded_files.specs.Cached.{Follows, IsRemembered, cached_failures, cached_size, changes_seen};
    ghost use Rattle.luks_guarded_files.specs.Cached.{device_behind, missed_by, remembered};
    ghost use Rattle.luks_guarded_files.specs.Missed.{missed_first};

    /// A device over `device` that remembers nothing yet. It takes memory for `ROOM` bytes; where that
    /// is refused, the device behind is given up.
    pub fn new(alloc: Global, device: D) -> Result<Self, AllocError>
        ensures device { IfOk result (λ cached. device_behind cached ≡ device) }
        ensures nothing { IfOk result (λ cached. remembered cached ≡ 0) }
        ensures none_seen { IfOk result (λ cached. changes_seen cached ≡ 0) }
        ensures none_missed { IfOk result (λ cached. missed_by cached ≡ None) }
    {
        Ok(CachedDevice {
            behind: GuardedDevice::new(device),
            bytes: vec![in alloc; 0u8; ROOM]?,
            missed: None,
        })
    }

    /// Whether a write failed since a byte that is remembered had changed behind it. Nothing was
    /// written by that call.
    pub fn has_changed(&self) -> bool
        ensures { IsTrue result ↔ (changes_seen self.now ≢ 0) }
    {
        self.behind.has_changed()
    }

    /// The first range whose reading failed, as it was asked for; None where none has.
    pub fn missed(&self) -> Option<Area>
        ensures first { result ≡ missed_by self.now }
        ensures inside { IfSome result (λ area. IsInside area (cached_size self.now)) }
        ensures unfailed { cached_failures self.now ≡ 0 → result ≡ None }
    {
        self.missed
    }

    /// Remembers that reading `len` bytes at `at` has failed, where it is the first range.
    fn miss(&mut self, at: u64, len: usize)
        requires within { at + len ≤ cached_size self.old }
        requires failed { cached_failures self.old ≢ 0 }
        ensures device { device_behind self.new ≡ device_behind self.old }
        ensures changes { changes_seen self.new ≡ changes_seen self.old }
        ensures missed { missed_by self.new ≡ missed_first (missed_by self.old) at len }
    {
        let first = &mut self.missed;
        if first.is_none() {
            *first = Some(Area {
                start: at,
                len: len as u64,
            });
        }
    }

    /// Whether the bytes of this range are remembered.
    fn has(&self, at: u64, len: usize) -> bool
        requires { at + len < 2 ^ 64 }
        ensures { IsTrue result ↔ IsRemembered self.now at len }
    {
        at + len as u64 <= self.behind.known() as u64
    }

    /// Remembers bytes that were read at `at`, where they follow those that are remembered: as many as
    /// there is room for.
    fn remember(&mut self, at: u64, read: &[u8])
        requires within { at + length read.now ≤ cached_size self.old }
        requires told { D.tells → read.now ≡ part (D.bytes (device_behind self.old)) at (length read.now) }
        ensures device { device_behind self.new ≡ device_behind self.old }
        ensures changes { changes_seen self.new ≡ changes_seen self.old }
        ensures missed { missed_by self.new ≡ missed_by self.old }
        ensures follows { Follows self.old at (length read.now)
            → IsRemembered self.new at (length read.now) }
    {
        let count = self.behind.known();
        if at == count as u64 {
            let len = read.len().min(ROOM - count);
            put(&mut self.bytes, count, &read[..len]);
            self.behind.learn(len);
        }
    }
}

/// Writes `from` over the bytes from `at` on.
fn put(bytes: &mut Vec<u8>, at: usize, from: &[u8])
    requires { at + length from.now ≤ length bytes.old.items }
    ensures { bytes.new.items ≡ written bytes.old.items at from.now }
{
    bytes[at..at + from.len()].copy_from_slice(from);
}

impl<D: Device> Device for CachedDevice<D> {
    ghost use Rattle.std.specs.Prelude.{OnOk};
    ghost use Rattle.luks_area.specs.Device.{CountsFailure, IsSettled, IsUnchanged, Touches, is_failure, no_place};
    ghost use Rattle.luks_area.specs.Ranges.{IsAt};
    ghost use Rattle.luks_guarded_files.specs.Cached.{Follows, IsRemembered};
    ghost use Rattle.luks_guarded_files.specs.Cached.{cached_bytes, cached_failures, cached_size, cached_unsettled};
    ghost use Rattle.luks_guarded_files.specs.Cached.{changes_seen, missed_by};
    ghost use Rattle.luks_guarded_files.specs.Missed.{missed_after};

    ghost tells = { D.tells };

    ghost bytes = { cached_bytes };

    ghost unsettled = { cached_unsettled };

    ghost size = { cached_size };

    ghost failed = { cached_failures };

    fn len(&self) -> u64 {
        self.behind.len()
    }

    fn failures(&self) -> u64 {
        self.behind.failures()
    }

    fn read_at(&mut self, at: u64, into: &mut [u8]) -> Result<(), DeviceFault>
        requires within { at + length into.old ≤ cached_size self.old }
        requires room { cached_failures self.old + 1 < 2 ^ 64 }
        ensures memory { IsRemembered self.old at (length into.old) → self.new ≡ self.old }
        ensures follows { OnOk result (Follows self.old at (length into.old)
            → IsRemembered self.new at (length into.old)) }
        ensures changes { changes_seen self.new ≡ changes_seen self.old }
        ensures missed { missed_by self.new
            ≡ missed_after result (missed_by self.old) at (length into.old) }
        ensures count { CountsFailure is_failure result
            (cached_failures self.old) (cached_failures self.new) }
        ensures unchanged { IsUnchanged D.tells cached_size cached_bytes cached_unsettled self.old self.new }
        ensures read { D.tells → OnOk result
            (into.new ≡ part (cached_bytes self.old) at (length into.old)) }
    {
        if self.has(at, into.len()) {
            let at = at as usize;
            into.copy_from_slice(&self.bytes[at..at + into.len()]);
            return Ok(());
        }
        if let Err(fault) = self.behind.read_at(at, into) {
            self.miss(at, into.len());
            return Err(fault);
        }
        self.remember(at, into);
        Ok(())
    }

    fn write_at(&mut self, at: u64, from: &[u8]) -> Result<(), DeviceFault>
        requires within { at + length from.now ≤ cached_size self.old }
        requires room { cached_failures self.old + 1 < 2 ^ 64 }
        ensures still { D.tells → changes_seen self.new ≡ changes_seen self.old }
        ensures missed { missed_by self.new ≡ missed_by self.old }
        ensures count { CountsFailure is_failure result
            (cached_failures self.old) (cached_failures self.new) }
        ensures size { cached_size self.new ≡ cached_size self.old }
        ensures wrote { D.tells → OnOk result
            (cached_bytes self.new ≡ written (cached_bytes self.old) at from.now) }
        ensures touches { D.tells → Touches cached_bytes cached_unsettled
            (IsAt at (length from.now)) self.old self.new }
    {
        let known = self.behind.known();
        let same = self.behind.compare(&self.bytes[..known])?;
        self.behind.write_at(same, at, from)
    }

    fn flush(&mut self) -> Result<(), DeviceFault>
        requires { cached_failures self.old + 1 < 2 ^ 64 }
        ensures missed { missed_by self.new ≡ missed_by self.old }
        ensures count { CountsFailure is_failure result
            (cached_failures self.old) (cached_failures self.new) }
        ensures size { cached_size self.new ≡ cached_size self.old }
        ensures same { D.tells → OnOk result (cached_bytes self.new ≡ cached_bytes self.old) }
        ensures settled { D.tells → OnOk result (IsSettled cached_unsettled self.new) }
        ensures touches { D.tells → Touches cached_bytes cached_unsettled no_place self.old self.new }
    {
        self.behind.flush()
    }

    ghost sized = { λ d t. D.sized d.behind.device t };

    ghost bounded = { λ d. D.bounded d.behind.device };
}
