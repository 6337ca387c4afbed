//! Metadata of LUKS2 headers, and whether it is whole in a volume that begins before it.
ghost use Rattle.std.specs.Prelude.{◌≡◌, ◌↔◌, ◌+◌, ◌-◌, ◌*◌, ◌^◌, ◌<◌, ◌≤◌, ◌⊎◌, List, ℕ, codes, length, false, IsTrue, IfErr, IfOk};
ghost use Rattle.luks_area.specs.Device.{CountsFailure, IsUnchanged, is_failure};
ghost use Rattle.luks_area.specs.Ranges.{part};
ghost use Rattle.luks2_header.specs.Sizes.{IsListed};
ghost use Rattle.luks_json.specs.AreaText.{JsonText};
ghost use Rattle.luks_wider.specs.Wide.{IsWiderFault};
ghost use Rattle.luks_finding.specs.Faults.{faulty, is_find_failure};
ghost use Rattle.luks_finding.specs.Starts.{volume_at, IsWholeCopy};
ghost use Rattle.luks_finding.specs.Telling.{IsMemoryOnly};

use crate::find_fault::FindFault;
use crate::second_copies::HEAD;
use crate::signs::SECTOR;
use luks_area::{Device, DeviceFault};
use luks_rebuilding::Place;
use luks_rules::MetaFault;
use luks_wider::{WideFault, read_wider};
use std::alloc::Global;

/// Whether the volume that begins at the sector `sector` has whole metadata in the copy at the place.
///
/// Reads two bytes of the JSON area, and all of it, into memory, only where the first is a brace and
/// the last a zero.
pub(crate) fn is_whole<D: Device>(
    alloc: Global,
    device: &mut D,
    sector: u64,
    place: Place,
) -> Result<bool, FindFault>
    requires listed { IsListed place.size }
    requires half { (place.at ≡ 0) ⊎ (place.at ≡ place.size) }
    requires inside { 512 * sector ≤ D.size device.old }
    requires room { D.failed device.old + 1 < 2 ^ 64 }
    ensures unchanged { IsUnchanged D.tells D.size D.bytes D.unsettled device.old device.new }
    ensures count { CountsFailure is_find_failure result (D.failed device.old) (D.failed device.new) }
    ensures whole { D.tells → IfOk result
        (λ is. IsTrue is ↔ IsWholeCopy (volume_at (D.bytes device.old) (512 * sector)) place) }
    ensures within { IfOk result
        (λ is. IsTrue is → 512 * sector + place.at + place.size ≤ D.size device.old) }
    ensures memory { D.tells → IfErr result (IsMemoryOnly (D.bytes device.old)) }
{
    let start = SECTOR as u64 * sector;
    let total = device.len() - start;
    if place.size > total || place.at > total - place.size {
        return Ok(false);
    }
    let at = start + place.at + HEAD as u64;
    let len = place.size - HEAD as u64;
    if !may_hold_text(device, at, len)? {
        return Ok(false);
    }
    let json = read_area(alloc, device, at, len)?;
    is_faultless(alloc, &json)
}

/// Whether a text may be in the JSON area of `len` bytes at `at`: it begins with a brace, and ends
/// with a zero byte.
fn may_hold_text<D: Device>(device: &mut D, at: u64, len: u64) -> Result<bool, DeviceFault>
    requires some { 0 < len }
    requires within { at + len ≤ D.size device.old }
    requires room { D.failed device.old + 1 < 2 ^ 64 }
    ensures unchanged { IsUnchanged D.tells D.size D.bytes D.unsettled device.old device.new }
    ensures count { CountsFailure is_failure result (D.failed device.old) (D.failed device.new) }
    ensures brace { D.tells → IfOk result
        (λ may. IsTrue may → part (D.bytes device.old) at 1 ≡ codes "{") }
    ensures text { D.tells → IfOk result
        (λ may. (text : List ℕ) → JsonText (part (D.bytes device.old) at len) text → IsTrue may) }
{
    let _total = device.len();
    let mut first = [0; 1];
    device.read_at(at, &mut first)?;
    if first != *b"{" {
        return Ok(false);
    }
    let mut last = [0; 1];
    device.read_at(at + (len - 1), &mut last)?;
    Ok(last == [0])
}

/// The `len` bytes at `at`.
fn read_area<D: Device>(
    alloc: Global,
    device: &mut D,
    at: u64,
    len: u64,
) -> Result<Vec<u8>, FindFault>
    requires within { at + len ≤ D.size device.old }
    requires room { D.failed device.old + 1 < 2 ^ 64 }
    ensures unchanged { IsUnchanged D.tells D.size D.bytes D.unsettled device.old device.new }
    ensures count { CountsFailure is_find_failure result (D.failed device.old) (D.failed device.new) }
    ensures read { D.tells → IfOk result (λ bytes. bytes.items ≡ part (D.bytes device.old) at len) }
{
    let _total = device.len();
    let mut bytes = vec![in alloc; 0u8; len as usize]?;
    device.read_at(at, &mut bytes)?;
    Ok(bytes)
}

/// Whether a JSON area has none of the faults of metadata, by the rules of what is under way, where something
/// is. Fails only where memory was refused.
fn is_faultless(alloc: Global, json: &[u8]) -> Result<bool, FindFault>
    ensures faultless { IfOk result
        (λ is. IsTrue is ↔ ((f : WideFault) → IsWiderFault json.now f → ⊥)) }
    ensures refused { IfErr result (λ fault. fault ≡ FindFault.Memory) }
{
    let Err(fault) = read_wider(alloc, json) else {
        return Ok(true);
    };
    faulty(fault)
}

/// Whether metadata that is refused by this fault has none: it has, but that a failed allocation leaves it open.
fn faulty(fault: WideFault) -> Result<bool, FindFault>
    ensures { result ≡ faulty fault }
{
    match fault {
        WideFault::Meta(MetaFault::Memory) => Err(FindFault::Memory),
        _ => Ok(false),
    }
}
