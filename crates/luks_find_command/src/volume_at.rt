ghost use Rattle.std.specs.Prelude.{◌≡◌, ◌+◌, ◌-◌, ◌^◌, ◌<◌, ◌≤◌, length};
ghost use Rattle.luks_area.specs.Ranges.{part, written, IsAt};
ghost use Rattle.luks_window.specs.Cut.{StaysInside};

use luks_area::{Device, DeviceFault};
use luks_window::Disk;
use std::marker::PhantomData;

/// The volume that begins at a place of a device and ends with it, as a device of its own.
///
/// It is a window (`luks_window`) that takes all that follows. Its type also says that the length of
/// the device behind stays, even if the device tells no bytes. So what is only read through it leaves
/// the device as it was.
#[derive(Drop)]
pub(crate) struct VolumeAt<D: Device, K: Disk> {
    device: D,
    start: u64,
    len: u64,
    disk: PhantomData<K>,
    ghost starts: { start ≡ K.start },
    ghost long: { len ≡ K.len },
    ghost fits: { len < 2 ^ 64 },
    ghost whole: { start + len ≡ D.size device },
    ghost beside: { D.tells → StaysInside K.bytes K.unsettled K.start K.len
        (D.bytes device) (D.unsettled device) },
}

impl<D: Device, K: Disk> VolumeAt<D, K> {
    ghost use Rattle.luks_find_command.specs.Volumes.{behind, volume_bytes, volume_size, volume_start};

    /// The volume of the device that begins at `start`.
    pub(crate) fn new(device: D, start: u64) -> Self
        requires start { K.start ≡ start }
        requires len { start + K.len ≡ D.size device }
        requires beside { D.tells → StaysInside K.bytes K.unsettled K.start K.len (D.bytes device) (D.unsettled device) }
        ensures device { behind result ≡ device }
        ensures start { volume_start result ≡ start }
        ensures size { volume_size result ≡ K.len }
    {
        let len = device.len() - start;
        VolumeAt {
            device,
            start,
            len,
            disk: PhantomData,
        }
    }

    /// The device behind, as the calls have left it.
    pub(crate) fn into_inner(self) -> D
        ensures device { result ≡ behind self }
        ensures size { D.size result ≡ K.start + K.len }
        ensures start { volume_start self ≡ K.start }
        ensures len { volume_size self ≡ K.len }
        ensures beside { D.tells → StaysInside K.bytes K.unsettled K.start K.len (D.bytes result) (D.unsettled result) }
    {
        let VolumeAt { device, .. } = self;
        device
    }
}

impl<D: Device, K: Disk> Device for VolumeAt<D, K> {
    ghost use Rattle.std.specs.Prelude.{ℕ};
    ghost use Rattle.std.proofs.Common.{subst, sym, ◌∙◌};
    ghost use Rattle.luks_area.proofs.RangeFacts.{length-part_inside};
    ghost use Rattle.luks_find_command.specs.Volumes.{inside-whole, volume_bytes, volume_failures, volume_size, volume_unsettled};

    ghost tells = { D.tells };

    ghost bytes = { volume_bytes };

    ghost unsettled = { volume_unsettled };

    ghost size = { volume_size };

    ghost failed = { volume_failures };

    fn len(&self) -> u64 {
        self.len
    }

    fn failures(&self) -> u64 {
        self.device.failures()
    }

    fn read_at(&mut self, at: u64, into: &mut [u8]) -> Result<(), DeviceFault> {
        self.device.read_at(self.start + at, into)
    }

    fn write_at(&mut self, at: u64, from: &[u8]) -> Result<(), DeviceFault> {
        self.device.write_at(self.start + at, from)
    }

    fn flush(&mut self) -> Result<(), DeviceFault> {
        self.device.flush()
    }

    ghost sized = { λ d t. length-part_inside (D.bytes d.device) d.start d.len (inside-whole d.start d.len (D.size d.device) (D.bytes d.device) d.whole (D.sized d.device t)) };

    ghost bounded = { λ d. d.fits };
}
