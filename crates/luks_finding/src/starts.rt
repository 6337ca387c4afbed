//! All starts of a disk.
ghost use Rattle.std.specs.Prelude.{◌≡◌, ◌+◌, ◌++◌, ◌∷◌, [], ◌^◌, ◌<◌, IfOk, OnOk};
ghost use Rattle.luks_area.specs.Device.{CountsFailure, IsUnchanged};
ghost use Rattle.luks_finding.specs.Faults.{is_find_failure};
ghost use Rattle.luks_finding.specs.Starts.{AreStarts};

use crate::find_fault::FindFault;
use crate::finding::{Finding, Step};
use luks_area::Device;
use std::alloc::{AllocError, Global};

/// All starts of the device, in bytes: each once, in the order of their first signs.
///
/// Takes memory for a block, for the list and for one JSON area at a time. `Memory` is answered only where it was refused, and
/// `Device` exactly where a device call failed.
pub fn all_starts<D: Device>(alloc: Global, device: &mut D) -> Result<Vec<u64>, FindFault>
    requires { D.failed device.old + 1 < 2 ^ 64 }
    ensures unchanged { IsUnchanged D.tells D.size D.bytes D.unsettled device.old device.new }
    ensures count { CountsFailure is_find_failure result (D.failed device.old) (D.failed device.new) }
    ensures found { D.tells
        → IfOk result (λ starts. AreStarts (D.bytes device.old) starts.items) }
{
    let mut finding = Finding::new(alloc)?;
    let mut starts = Vec::new(alloc);
    loop {
        match finding.step(alloc, device)? {
            Step::Start(start) => put(&mut starts, start)?,
            Step::Two(first, second) => {
                put(&mut starts, first)?;
                put(&mut starts, second)?;
            }
            Step::On => {}
            Step::End => return Ok(starts),
        }
    }
}

/// Puts a start at the end of the list.
fn put(starts: &mut Vec<u64>, start: u64) -> Result<(), AllocError>
    ensures { OnOk result (starts.new.items ≡ starts.old.items ++ start ∷ []) }
{
    starts.push(start)?;
    Ok(())
}
