ghost use Rattle.std.specs.Prelude.{◌≡◌, ℕ, length, min};
ghost use Rattle.luks_area.specs.Memory.{memory_bytes};
ghost use Rattle.luks_area.specs.Ranges.{SameOutside};
ghost use Rattle.luks_window.specs.Cut.{cut_length};

use luks_area::{Area, Device, MemDevice, fill};
use luks_window::{Disk, Window};
use std::marker::Brand;

/// The disk with `byte` over the bytes from `offset` on, to its end or `len` of them. No byte beside
/// them changes, as the contract says, though `fill` is proved for any device and says nothing of what
/// lies behind one.
pub fn filled(disk: MemDevice, offset: u64, len: Option<u64>, byte: u8) -> MemDevice
    ensures { SameOutside (memory_bytes disk) (memory_bytes result)
        (min offset (length (memory_bytes disk)))
        (cut_length (length (memory_bytes disk)) offset len) }
{
    fill_window::<Brand>(disk, offset, len, byte)
}

fn fill_window<K: Disk>(disk: MemDevice, offset: u64, len: Option<u64>, byte: u8) -> MemDevice
    requires bytes { memory_bytes disk ≡ K.bytes }
    requires settled { (p : ℕ) → K.unsettled p → ⊥ }
    requires start { K.start ≡ min offset (length (memory_bytes disk)) }
    requires len { K.len ≡ cut_length (length (memory_bytes disk)) offset len }
    ensures { SameOutside (memory_bytes disk) (memory_bytes result) K.start K.len }
{
    let mut window = Window::<MemDevice, K>::new(disk, offset, len);
    let whole = Area {
        start: 0,
        len: window.len(),
    };
    let _ = fill(&mut window, whole, byte);
    window.into_inner()
}

#[cfg(test)]
mod tests {
    use super::filled;
    use luks_area::MemDevice;
    use std::alloc::{AllocError, Global};
    use std::test::Fail;

    /// Whether of a disk of 64 bytes those from `offset` to `end` are filled, and no others.
    fn fills(alloc: Global, offset: u64, len: Option<u64>, end: usize) -> Result<bool, AllocError> {
        let disk = filled(MemDevice::new(vec![in alloc; 1u8; 64]?), offset, len, 9);
        for (at, byte) in disk.contents().iter().enumerate() {
            let is_filled = at as u64 >= offset && at < end;
            if (*byte == 9) != is_filled {
                return Ok(false);
            }
        }
        Ok(true)
    }

    #[test]
    fn windows_are_filled(rt: HostRuntime) -> Result<(), Fail> {
        let alloc = rt.alloc();
        assert!(rt; fills(alloc, 8, Some(4), 12)?, "in the middle");
        assert!(rt; fills(alloc, 8, None, 64)?, "to the end");
        assert!(rt; fills(alloc, 60, Some(u64::MAX), 64)?, "past the end");
        assert!(rt; fills(alloc, 64, None, 64)?, "at the end");
        assert!(rt;
            fills(alloc, u64::MAX, Some(u64::MAX), 64)?,
            "behind the end"
        );
        Ok(())
    }
}
