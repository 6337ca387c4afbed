//! Devices of the tests.
ghost use Rattle.std.specs.Prelude.{◌<◌, ◌^◌};

use crate::bytes::old_bytes;
use luks_area::{Device, DeviceFault, MemDevice};
use std::alloc::{AllocError, Global};

/// A disk of which the front alone is kept: bytes beyond it are zeros, a write that reaches beyond it
/// is only counted, and no call fails.
#[derive(Drop)]
pub struct Front {
    /// What is kept.
    pub front: MemDevice,
    /// The length of the disk.
    pub len: u64,
    /// How many writes reached beyond the front.
    pub beyond: u64,
    ghost fits: { len < 2 ^ 64 },
}

impl Device for Front {
    ghost use Rattle.std.specs.Prelude.{[]};

    ghost tells = { ⊥ };

    ghost bytes = { λ _. [] };

    ghost unsettled = { λ _ _. ⊥ };

    ghost size = { λ d. d.len };

    ghost failed = { λ _. 0 };

    fn len(&self) -> u64 {
        self.len
    }

    fn failures(&self) -> u64 {
        0
    }

    fn read_at(&mut self, at: u64, into: &mut [u8]) -> Result<(), DeviceFault> {
        if at + into.len() as u64 <= self.front.len() {
            return self.front.read_at(at, into);
        }
        into.fill(0);
        Ok(())
    }

    fn write_at(&mut self, at: u64, from: &[u8]) -> Result<(), DeviceFault> {
        if at + from.len() as u64 <= self.front.len() {
            return self.front.write_at(at, from);
        }
        self.beyond = self.beyond.saturating_add(1);
        Ok(())
    }

    fn flush(&mut self) -> Result<(), DeviceFault> {
        Ok(())
    }

    ghost sized = { λ d t. absurd t };

    ghost bounded = { λ d. d.fits };
}

/// The bytes of a target that are kept: those of a small volume are all written before them.
pub const KEPT: usize = 98304;

/// A disk of so many bytes, of which these alone are kept.
pub fn front_of(bytes: Vec<u8>, len: u64) -> Front {
    Front {
        front: MemDevice::new(bytes),
        len,
        beyond: 0,
    }
}

/// A target of so many bytes, of which the first alone are kept.
pub fn target(alloc: Global, len: u64) -> Result<Front, AllocError> {
    Ok(front_of(old_bytes(alloc, KEPT)?, len))
}

/// A call of a device.
#[derive(Clone, Copy, PartialEq, Eq)]
pub enum Call {
    Read,
    /// A write from the place `at` on, of so many bytes.
    Write { at: usize, len: usize },
    Flush,
}

impl Call {
    /// The place and the length of what it writes; of another call zeros.
    pub fn range(self) -> (usize, usize) {
        match self {
            Call::Write { at, len } => (at, len),
            Call::Read | Call::Flush => (0, 0),
        }
    }
}

/// A device that keeps a list of its calls, and passes them on.
#[derive(Drop)]
pub struct Recording<D: Device> {
    /// The device behind.
    pub device: D,
    /// The calls that read, write or flush it.
    pub calls: Vec<Call>,
}

impl<D: Device> Device for Recording<D> {
    ghost tells = { D.tells };

    ghost bytes = { λ d. D.bytes d.device };

    ghost unsettled = { λ d. D.unsettled d.device };

    ghost size = { λ d. D.size d.device };

    ghost failed = { λ d. D.failed d.device };

    fn len(&self) -> u64 {
        self.device.len()
    }

    fn failures(&self) -> u64 {
        self.device.failures()
    }

    fn read_at(&mut self, at: u64, into: &mut [u8]) -> Result<(), DeviceFault> {
        let _ = self.calls.push(Call::Read);
        self.device.read_at(at, into)
    }

    fn write_at(&mut self, at: u64, from: &[u8]) -> Result<(), DeviceFault> {
        let _ = self.calls.push(Call::Write {
            at: at as usize,
            len: from.len(),
        });
        self.device.write_at(at, from)
    }

    fn flush(&mut self) -> Result<(), DeviceFault> {
        let _ = self.calls.push(Call::Flush);
        self.device.flush()
    }

    ghost sized = { λ d t. D.sized d.device t };

    ghost bounded = { λ d. D.bounded d.device };
}
