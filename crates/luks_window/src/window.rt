ghost use Rattle.std.specs.Prelude.{◌≡◌, ◌+◌, ◌^◌, ◌<◌, ◌≤◌, ◌-◌, length, min};
ghost use Rattle.luks_area.specs.Ranges.{part, written, IsAt};
ghost use Rattle.luks_window.specs.Cut.{cut, cut_length, StaysInside};

use crate::disk::Disk;
use luks_area::{Device, DeviceFault};
use std::marker::PhantomData;

/// The bytes of a device from a place on, as a device of its own: they begin at the place 0.
///
/// Its calls are those of the device behind, further on by where the window begins, and fail exactly
/// where those do. Whatever is done with it, no byte of the device behind changes beside it but at
/// the places that were unsettled when it was taken: `K` says what stood there, and every value of
/// this type has it so. Of a device that tells no bytes, as a file, `K` says nothing, so that any will
/// do: `Brand`.
#[derive(Drop)]
pub struct Window<D: Device, K: Disk> {
    device: D,
    start: u64,
    len: u64,
    disk: PhantomData<K>,
    ghost starts: { D.tells → start ≡ K.start },
    ghost long: { D.tells → len ≡ K.len },
    ghost fits: { len < 2 ^ 64 },
    ghost inside: { start + len ≤ D.size device },
    ghost beside: { D.tells → StaysInside K.bytes K.unsettled K.start K.len
        (D.bytes device) (D.unsettled device) },
}

impl<D: Device, K: Disk> Window<D, K> {
    ghost use Rattle.std.specs.Prelude.{OnOk};
    ghost use Rattle.luks_window.specs.Windows.{behind, starts_at, window_bytes, window_failures, window_size};

    /// The bytes of `device` from `offset` on, to its end or `length` of them (fewer where it ends
    /// before). Any numbers will do: from its end on there are none, and the window is empty.
    pub fn new(device: D, offset: u64, length: Option<u64>) -> Self
        requires start { D.tells → K.start ≡ min offset (D.size device) }
        requires len { D.tells → K.len ≡ cut_length (D.size device) offset length }
        requires beside { D.tells → StaysInside K.bytes K.unsettled K.start K.len (D.bytes device) (D.unsettled device) }
        ensures device { behind result ≡ device }
        ensures start { starts_at result ≡ min offset (D.size device) }
        ensures size { window_size result ≡ cut_length (D.size device) offset length }
        ensures bytes { D.tells → window_bytes result ≡ cut (D.bytes device) offset length }
    {
        let total = device.len();
        let start = offset.min(total);
        let rest = total - start;
        let len = match length {
            Some(length) => length.min(rest),
            None => rest,
        };
        Window {
            device,
            start,
            len,
            disk: PhantomData,
        }
    }

    /// The device behind, as the calls have left it.
    pub fn into_inner(self) -> D
        ensures device { result ≡ behind self }
        ensures size { D.tells → K.start + K.len ≤ D.size result }
        ensures beside { D.tells → StaysInside K.bytes K.unsettled K.start K.len (D.bytes result) (D.unsettled result) }
    {
        let Window { device, .. } = self;
        device
    }
}

impl<D: Device, K: Disk> Device for Window<D, K> {
    ghost use Rattle.std.specs.Prelude.{ℕ};
    ghost use Rattle.std.proofs.Common.{subst, sym};
    ghost use Rattle.luks_area.proofs.RangeFacts.{length-part_inside};
    ghost use Rattle.luks_window.specs.Windows.{window_bytes, window_failures, window_size, window_unsettled};

    ghost tells = { D.tells };

    ghost bytes = { window_bytes };

    ghost unsettled = { window_unsettled };

    ghost size = { window_size };

    ghost failed = { window_failures };

    fn len(&self) -> u64 {
        self.len
    }

    fn failures(&self) -> u64 {
        self.device.failures()
    }

    fn read_at(&mut self, at: u64, into: &mut [u8]) -> Result<(), DeviceFault> {
        self.device.read_at(self.start + at, into)
    }

    fn write_at(&mut self, at: u64, from: &[u8]) -> Result<(), DeviceFault> {
        self.device.write_at(self.start + at, from)
    }

    fn flush(&mut self) -> Result<(), DeviceFault> {
        self.device.flush()
    }

    ghost sized = { λ d t. length-part_inside (D.bytes d.device) d.start d.len (subst (λ (n : ℕ). d.start + d.len ≤ n) (sym (D.sized d.device t)) d.inside) };

    ghost bounded = { λ d. d.fits };
}
