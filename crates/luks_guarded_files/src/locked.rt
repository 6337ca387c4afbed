ghost use Rattle.std.specs.Prelude.{◌≡◌, ◌↔◌, ◌⊎◌, IsTrue};
ghost use Rattle.luks_guarded_files.specs.Locked.{IsHeldByAnother, edited_notices, other_notices};

use crate::names::Named;
use crate::notice::Notice;
use crate::system::{Answer, Share};
use luks_area::{Device, DeviceFault};

/// What was answered when a volume's lock was asked for. It is let go where this is.
#[derive(Drop)]
pub struct Lock {
    /// How it was asked for.
    pub share: Share,
    /// Of the volume's file or device node.
    pub node: Answer,
    /// The name of the file that cryptsetup locks for a block device.
    pub name: Named,
}

impl Lock {
    /// Whether another program holds one of the two.
    pub fn is_taken(&self) -> bool
        ensures { IsTrue result ↔ IsHeldByAnother self.now }
    {
        self.node == Answer::Taken || matches!(self.name, Named::Taken)
    }

    /// What a person is to know of a lock that isn't held, in the order in which it is said.
    pub fn notices(&self) -> [Option<Notice>; 2]
        ensures taken { IsHeldByAnother self.now → result ≡ edited_notices }
        ensures other { (IsHeldByAnother self.now → ⊥) → result ≡ other_notices self.now }
    {
        if self.is_taken() {
            return [Some(Notice::Edited), None];
        }
        let node = (self.node == Answer::Unknown).then_some(Notice::NoLock);
        let name = matches!(self.name, Named::Unheld).then_some(Notice::NoName);
        [node, name]
    }
}

/// A device with the lock of its volume: the lock is a part of it, so that it is held as long as the
/// device is there. All calls are passed on.
#[derive(Drop)]
pub struct LockedDevice<D: Device> {
    device: D,
    lock: Lock,
}

impl<D: Device> LockedDevice<D> {
    ghost use Rattle.luks_guarded_files.specs.Locked.{device_inside, lock_of};

    /// The device with this lock.
    pub fn new(device: D, lock: Lock) -> Self
        ensures device { device_inside result ≡ device }
        ensures lock { lock_of result ≡ lock }
    {
        LockedDevice { device, lock }
    }

    /// Its lock.
    pub fn lock(&self) -> &Lock
        ensures { result.now ≡ lock_of self.now }
    {
        &self.lock
    }
}

impl<D: Device> Device for LockedDevice<D> {
    ghost use Rattle.luks_guarded_files.specs.Locked.{device_inside};

    ghost tells = { D.tells };

    ghost bytes = { λ d. D.bytes (device_inside d) };

    ghost unsettled = { λ d. D.unsettled (device_inside d) };

    ghost size = { λ d. D.size (device_inside d) };

    ghost failed = { λ d. D.failed (device_inside d) };

    fn len(&self) -> u64 {
        self.device.len()
    }

    fn failures(&self) -> u64 {
        self.device.failures()
    }

    fn read_at(&mut self, at: u64, into: &mut [u8]) -> Result<(), DeviceFault> {
        self.device.read_at(at, into)
    }

    fn write_at(&mut self, at: u64, from: &[u8]) -> Result<(), DeviceFault> {
        self.device.write_at(at, from)
    }

    fn flush(&mut self) -> Result<(), DeviceFault> {
        self.device.flush()
    }

    ghost sized = { λ d t. D.sized d.device t };

    ghost bounded = { λ d. D.bounded d.device };
}
