//! A disk of which some bytes can't be read.
ghost use Rattle.std.specs.Prelude.{◌≡◌, ◌<◌, ◌^◌};

use luks_area::{Device, DeviceFault, MemDevice};

/// A disk in memory of which the bytes from one place up to another can't be read, for each of the pairs.
#[derive(Drop)]
pub struct BadDisk {
    behind: MemDevice,
    len: u64,
    bad: Vec<(u64, u64)>,
    /// How many of its calls failed.
    pub failures: u64,
    ghost fits: { len < 2 ^ 64 },
}

impl BadDisk {
    /// A disk of these bytes of which no call has failed.
    pub fn new(bytes: Vec<u8>, bad: Vec<(u64, u64)>) -> BadDisk
        ensures { result.failures ≡ 0 }
    {
        let behind = MemDevice::new(bytes);
        let len = behind.len();
        BadDisk {
            behind,
            len,
            bad,
            failures: 0,
        }
    }

    /// Whether all these bytes can be read.
    fn can_read(&self, at: u64, end: u64) -> bool {
        end <= self.behind.len() && !self.bad.iter().any(|(from, to)| *from < end && at < *to)
    }
}

impl Device for BadDisk {
    ghost use Rattle.std.specs.Prelude.{[]};

    ghost tells = { ⊥ };

    ghost bytes = { λ _. [] };

    ghost unsettled = { λ _ _. ⊥ };

    ghost size = { λ d. d.len };

    ghost failed = { λ d. d.failures };

    fn len(&self) -> u64 {
        self.len
    }

    fn failures(&self) -> u64 {
        self.failures
    }

    fn read_at(&mut self, at: u64, into: &mut [u8]) -> Result<(), DeviceFault> {
        let end = at.saturating_add(into.len() as u64);
        if at <= end && end - at == into.len() as u64 && self.can_read(at, end) {
            let bytes = self.behind.contents();
            if let Some(part) = bytes.get(at as usize..end as usize) {
                if part.len() == into.len() {
                    into.copy_from_slice(part);
                    return Ok(());
                }
            }
        }
        self.failures += 1;
        Err(DeviceFault)
    }

    fn write_at(&mut self, _at: u64, _from: &[u8]) -> Result<(), DeviceFault> {
        self.failures += 1;
        Err(DeviceFault)
    }

    fn flush(&mut self) -> Result<(), DeviceFault> {
        Ok(())
    }

    ghost sized = { λ d t. absurd t };

    ghost bounded = { λ d. d.fits };
}
