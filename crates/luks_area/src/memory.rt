ghost use Rattle.std.specs.Prelude.{◌≡◌, ◌+◌, ◌≤◌, ◌<◌, ◌^◌, length};
ghost use Rattle.luks_area.specs.Ranges.{written};

use crate::device::{Device, DeviceFault};

/// A device in memory, such as a whole image that was read. It tells its bytes, and no call of it
/// fails.
#[derive(Drop)]
pub struct MemDevice {
    contents: Vec<u8>,
    ghost fits: { length contents.items < 2 ^ 64 },
}

impl MemDevice {
    ghost use Rattle.luks_area.specs.Memory.{memory_bytes};

    /// A device of exactly these bytes; its length is theirs.
    pub fn new(contents: Vec<u8>) -> Self
        ensures { memory_bytes result ≡ contents.items }
    {
        MemDevice { contents }
    }

    /// The bytes that the device holds now.
    pub fn contents(&self) -> &[u8]
        ensures { result.now ≡ memory_bytes self.now }
    {
        self.contents.as_slice()
    }
}

impl Device for MemDevice {
    ghost use Rattle.std.specs.Prelude.{refl};
    ghost use Rattle.luks_area.specs.Memory.{memory_bytes};

    ghost tells = { Unit {0} };

    ghost bytes = { memory_bytes };

    ghost unsettled = { λ _ _. ⊥ };

    ghost size = { λ d. length (memory_bytes d) };

    ghost failed = { λ _. 0 };

    fn len(&self) -> u64 {
        self.contents.len() as u64
    }

    fn failures(&self) -> u64 {
        0
    }

    fn read_at(&mut self, at: u64, into: &mut [u8]) -> Result<(), DeviceFault> {
        let at = at as usize;
        into.copy_from_slice(&self.contents[at..at + into.len()]);
        Ok(())
    }

    fn write_at(&mut self, at: u64, from: &[u8]) -> Result<(), DeviceFault> {
        put(&mut self.contents, at as usize, from);
        Ok(())
    }

    fn flush(&mut self) -> Result<(), DeviceFault> {
        Ok(())
    }

    ghost sized = { λ d t. refl };

    ghost bounded = { λ d. d.fits };
}

/// Writes `from` over the bytes from `at` on.
fn put(bytes: &mut [u8], at: usize, from: &[u8])
    requires { at + length from.now ≤ length bytes.old }
    ensures { bytes.new ≡ written bytes.old at from.now }
{
    bytes[at..at + from.len()].copy_from_slice(from);
}
