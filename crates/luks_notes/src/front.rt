//! The bytes of a volume in which something may be left.
ghost use Rattle.std.specs.Prelude.{◌≡◌, ◌+◌, ◌<◌, ◌^◌, IfOk, min};
ghost use Rattle.luks_area.specs.Device.{CountsFailure, IsUnchanged};
ghost use Rattle.luks_area.specs.Ranges.{part};
ghost use Rattle.luks_notes.specs.FrontFailures.{is_front_failure};

use luks_area::{Device, DeviceFault};
use std::alloc::{AllocError, Global};

/// The most bytes of a front: the farthest second copy, of 4 MiB, ends there.
const MOST: u64 = 0x80_0000;

/// Why a volume's front couldn't be read.
#[derive(Clone, Copy)]
pub enum FrontFault {
    /// Reading failed.
    Device,
    /// Memory was refused.
    Memory,
}

impl From<DeviceFault> for FrontFault {
    ghost use Rattle.luks_notes.specs.declared.front.FrontFault.{FrontFault};

    ghost from_gives = { λ _ fault. fault ≡ FrontFault.Device };

    fn from(_: DeviceFault) -> FrontFault {
        FrontFault::Device
    }
}

impl From<AllocError> for FrontFault {
    ghost use Rattle.luks_notes.specs.declared.front.FrontFault.{FrontFault};

    ghost from_gives = { λ _ fault. fault ≡ FrontFault.Memory };

    fn from(_: AllocError) -> FrontFault {
        FrontFault::Memory
    }
}

/// The first 8 MiB of a volume, or all of it where it has fewer: second copies of headers are there,
/// and the signatures that are looked for. They are read in one call.
///
/// `Device` where that call failed, `Memory` where as many bytes were refused.
pub fn read_front<D: Device>(alloc: Global, device: &mut D) -> Result<Vec<u8>, FrontFault>
    requires { D.failed device.old + 1 < 2 ^ 64 }
    ensures unchanged { IsUnchanged D.tells D.size D.bytes D.unsettled device.old device.new }
    ensures count { CountsFailure is_front_failure result
        (D.failed device.old) (D.failed device.new) }
    ensures read { D.tells → IfOk result (λ front. front.items
        ≡ part (D.bytes device.old) 0 (min (D.size device.old) 0x800000)) }
{
    let mut front = vec![in alloc; 0u8; device.len().min(MOST) as usize]?;
    device.read_at(0, &mut front)?;
    Ok(front)
}
