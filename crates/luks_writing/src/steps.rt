ghost use Rattle.std.specs.Prelude.{◌≡◌, ◌+◌, ◌-◌, ◌*◌, ◌^◌, ◌<◌, ◌≤◌, false, length, replicate, Err, Some, IfErr, OnOk};
ghost use Rattle.luks_area.specs.Area.{IsInside};
ghost use Rattle.luks_area.specs.Calls.{IsReady, KeepsBut, Settles};
ghost use Rattle.luks_area.specs.Device.{is_failure};
ghost use Rattle.luks_area.specs.Ranges.{written, IsAt, SameOutside};
ghost use Rattle.luks_area.specs.Sectors.{rounded_to_sectors};
ghost use Rattle.luks_slot.specs.declared.fault.SlotFault.{SlotFault as TheFault};
ghost use Rattle.luks_slot.specs.Fault.{IsAnsweredFault, IsAnsweredWithin, is_device_fault};
ghost use Rattle.luks_slot.specs.Opening.{area_bytes, stripe_bytes};
ghost use Rattle.luks_slot.specs.Refusal.{slot_refusal, slot_refusal_within};
ghost use Rattle.luks_slot.specs.Sealing.{IsReadyToSeal, IsSealed};

use luks_area::{Area, Device, DeviceFault};
use luks_slot::{Allowed, Key, SlotFault, SlotPlan, seal, seal_within, wipe};
use std::alloc::Global;

/// Writes the bytes from the place `at` on, and flushes.
pub fn write_range<D: Device>(device: &mut D, at: u64, bytes: &[u8]) -> Result<(), DeviceFault>
    requires within { at + length bytes.now ≤ D.size device.old }
    requires device { IsReady D.Device device.old }
    ensures settles { Settles D.Device is_failure result device.old device.new }
    ensures wrote { D.tells → OnOk result
        (D.bytes device.new ≡ written (D.bytes device.old) at bytes.now) }
    ensures outside { D.tells
        → SameOutside (D.bytes device.old) (D.bytes device.new) at (length bytes.now) }
{
    device.write_at(at, bytes)?;
    device.flush()?;
    Ok(())
}

/// Overwrites an area with zeros, its whole length, and flushes.
pub fn wipe_area<D: Device>(device: &mut D, area: Area) -> Result<(), DeviceFault>
    requires within { IsInside area (D.size device.old) }
    requires device { IsReady D.Device device.old }
    ensures settles { Settles D.Device is_failure result device.old device.new }
    ensures wiped { D.tells → OnOk result
        (area_bytes (D.bytes device.new) area ≡ replicate area.len 0) }
    ensures rest { KeepsBut D.Device (IsAt area.start area.len) device.old device.new }
{
    wipe(device, area)?;
    device.flush()?;
    Ok(())
}

/// Seals the key in the area of the plan, and flushes; or answers why the plan can't be sealed, and
/// then changes no byte. The range is the sectors that hold the stripes.
pub fn seal_area<D: Device>(
    device: &mut D,
    plan: &SlotPlan<'_>,
    passphrase: &[u8],
    key: &Key,
    random: &[u8],
) -> Result<(), SlotFault>
    requires ready { IsReadyToSeal plan.now key.now random.now (D.size device.old) }
    requires device { IsReady D.Device device.old }
    ensures refused { (f : TheFault) → slot_refusal plan.now ≡ Some f → result ≡ Err f }
    ensures fault { IfErr result (IsAnsweredFault plan.now) }
    ensures settles { Settles D.Device is_device_fault result device.old device.new }
    ensures same { D.tells → (f : TheFault) → slot_refusal plan.now ≡ Some f
        → D.bytes device.new ≡ D.bytes device.old }
    ensures sealed { D.tells → OnOk result
        (IsSealed plan.now (area_bytes (D.bytes device.new) plan.now.area)
        passphrase.now key.now random.now) }
    ensures rest { KeepsBut D.Device
        (IsAt plan.now.area.start (rounded_to_sectors (stripe_bytes plan.now))) device.old device.new }
{
    seal(device, plan, passphrase, key, random)?;
    match device.flush() {
        Ok(()) => Ok(()),
        Err(_) => Err(SlotFault::Device),
    }
}

/// The same where so much is allowed; Argon2 takes its memory before the first write. `Memory` comes
/// only of a plan that derives by Argon2 and isn't refused, and then no byte changes.
pub fn seal_area_within<D: Device>(
    alloc: Global,
    device: &mut D,
    plan: &SlotPlan<'_>,
    passphrase: &[u8],
    allowed: Allowed,
    key: &Key,
    random: &[u8],
) -> Result<(), SlotFault>
    requires passphrase { 0 < allowed.memory → length passphrase.now < 2 ^ 32 }
    requires ready { IsReadyToSeal plan.now key.now random.now (D.size device.old) }
    requires device { IsReady D.Device device.old }
    ensures refused { (f : TheFault) → slot_refusal_within allowed plan.now ≡ Some f → result ≡ Err f }
    ensures fault { IfErr result (IsAnsweredWithin allowed plan.now) }
    ensures settles { Settles D.Device is_device_fault result device.old device.new }
    ensures same { D.tells → IfErr result (λ f. is_device_fault f ≡ false
        → D.bytes device.new ≡ D.bytes device.old) }
    ensures sealed { D.tells → OnOk result
        (IsSealed plan.now (area_bytes (D.bytes device.new) plan.now.area)
        passphrase.now key.now random.now) }
    ensures rest { KeepsBut D.Device
        (IsAt plan.now.area.start (rounded_to_sectors (stripe_bytes plan.now))) device.old device.new }
{
    seal_within(alloc, device, plan, passphrase, allowed, key, random)?;
    device.flush()?;
    Ok(())
}
