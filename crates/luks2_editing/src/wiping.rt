//! Overwriting the areas of keyslots with zeros.
ghost use Rattle.std.specs.Prelude.{◌≡◌, [], ◌∷◌, ℕ, IfErr, OnErr, OnOk};
ghost use Rattle.luks_area.specs.declared.area.Area.{Area as TheArea};
ghost use Rattle.luks_area.specs.declared.area.AreaName.TheVariants.{Slot};
ghost use Rattle.luks_area.specs.Area.{IsInside};
ghost use Rattle.luks_area.specs.Calls.{IsReady, KeepsBut, Settles};
ghost use Rattle.luks_area.specs.Device.{is_failure};
ghost use Rattle.luks_area.specs.Names.{HasArea, IsIncreasing};
ghost use Rattle.luks2_editing.specs.Wiping.{AreApart, AreWiped, AreWipedInPart, IsOfKeyslots};

use luks_area::{AreaName, Device, DeviceFault, Entry};
use luks_writing::wipe_area;

/// Overwrites the areas of the keyslots in the list with zeros, by their numbers, each with a flush. Other
/// areas of the list stay as they are.
pub(crate) fn wipe_keyslots<D: Device>(device: &mut D, areas: &[Entry]) -> Result<(), DeviceFault>
    requires inside { (n : ℕ) (a : TheArea) → HasArea areas.now (Slot n) a
        → IsInside a (D.size device.old) }
    requires increasing { IsIncreasing areas.now }
    requires device { IsReady D.Device device.old }
    ensures settles { Settles D.Device is_failure result device.old device.new }
    ensures wiped { D.tells → AreApart areas.now
        → OnOk result (AreWiped areas.now (D.bytes device.new)) }
    ensures rest { KeepsBut D.Device (IsOfKeyslots areas.now) device.old device.new }
    ensures torn { D.tells → AreApart areas.now
        → OnErr result (AreWipedInPart areas.now (D.bytes device.old) (D.bytes device.new)) }
{
    for entry in areas {
        wipe_keyslot(device, entry)?;
    }
    Ok(())
}

/// Overwrites the area with zeros where it is a keyslot's, and flushes.
fn wipe_keyslot<D: Device>(device: &mut D, entry: &Entry) -> Result<(), DeviceFault>
    requires inside { (n : ℕ) → entry.now.name ≡ Slot n
        → IsInside entry.now.area (D.size device.old) }
    requires device { IsReady D.Device device.old }
    ensures settles { Settles D.Device is_failure result device.old device.new }
    ensures wiped { D.tells → OnOk result (AreWiped (entry.now ∷ []) (D.bytes device.new)) }
    ensures rest { KeepsBut D.Device (IsOfKeyslots (entry.now ∷ [])) device.old device.new }
    ensures slot { OnErr result ((n : ℕ) × (entry.now.name ≡ Slot n)) }
{
    match entry.name {
        AreaName::Slot(_) => wipe_area(device, entry.area),
        AreaName::Head1 | AreaName::Head2 | AreaName::Segment(_) => Ok(()),
    }
}
