//! Sealing a keyslot.

ghost use Rattle.std.specs.Prelude.{◌≡◌, ◌+◌, ◌-◌, ◌*◌, ◌/◌, ◌^◌, ◌<◌, ◌≤◌, ◌++◌, ℕ, List, length, replicate, Some, None, OnOk, IsErr, IfErr, if◌then◌else◌};
ghost use Rattle.luks_area.specs.Area.{IsInside};
ghost use Rattle.luks_area.specs.Device.{CountsFailure, Touches, is_failure};
ghost use Rattle.luks_area.specs.Ranges.{part, IsAt};
ghost use Rattle.luks_area.specs.Sectors.{rounded_to_sectors, sector_count};
ghost use Rattle.luks_slot.specs.Fault.{IsAnsweredFault, IsAnsweredWithin, is_device_fault};
ghost use Rattle.luks_slot.specs.Opening.{area_bytes, area_key, hash_by_name, meets_digest, opened_sectors, slot_key, stripe_bytes, HasIterations};
ghost use Rattle.luks_slot.specs.Refusal.{slot_refusal, slot_refusal_within};
ghost use Rattle.luks_slot.specs.Sealing.{IsReadyToSeal, IsSealed};
ghost use Rattle.luks_slot.specs.Writing.{filled};
ghost use Rattle.luks_slot.specs.declared.fault.SlotFault.{SlotFault as TheFault};

use crate::allowed::Allowed;
use crate::area_reader::SECTOR_BYTES;
use crate::area_writer::AreaWriter;
use crate::cipher::AreaKey;
use crate::fault::SlotFault;
use crate::hashing::{area_key, pbkdf2_key};
use crate::key::Key;
use crate::parameters::{KeyDerivation, parameters_within};
use crate::plan::SlotPlan;
use crate::splitting::write_last_stripe;
use luks_area::{Area, Device, DeviceFault, rounded_to_sectors};
use luks_kdf::KeyslotHash;
use std::alloc::Global;

/// Seals the key in the keyslot's area under the passphrase: the stripes that hold it, of which all
/// but the last are the random bytes, and zeros to the end of their last sector of 512 bytes, all
/// of it encrypted (LUKS1 On-Disk Format 1.2.3, 4.1; LUKS2 On-Disk Format 1.1, 4.3). No byte but
/// those of these sectors changes, and those that were unsettled where the device fails. Nothing is
/// flushed.
///
/// Nothing is allowed, so that a refusal is of the plan alone, the first of `Argon2`, `Cipher`, `Hash`
/// and `KeySize`, and then no byte changes. `Device` comes exactly where the device
/// failed. Eight sectors are held and written at a time, and no memory is taken from an allocator.
pub fn seal<D: Device>(
    device: &mut D,
    plan: &SlotPlan<'_>,
    passphrase: &[u8],
    key: &Key,
    random: &[u8],
) -> Result<(), SlotFault>
    requires ready { IsReadyToSeal plan.now key.now random.now (D.size device.old) }
    requires room { D.failed device.old + 1 < 2 ^ 64 }

    // The plan is refused, the device failed, or the area holds the key and opens to it.
    ensures refused { (f : TheFault) → slot_refusal plan.now ≡ Some f → result ≡ Err f }
    ensures fault { IfErr result (IsAnsweredFault plan.now) }
    ensures accepted { OnOk result (slot_refusal plan.now ≡ None) }
    ensures sealed { D.tells → OnOk result
        (IsSealed plan.now (area_bytes (D.bytes device.new) plan.now.area)
        passphrase.now key.now random.now) }
    ensures opens { D.tells → OnOk result
        (slot_key plan.now (area_bytes (D.bytes device.new) plan.now.area) passphrase.now
        ≡ (if meets_digest plan.now.digest key.now then Some key.now else None)) }

    // The device: `Device` exactly where a call of it failed, and the bytes that may have changed.
    ensures count { CountsFailure is_device_fault result
        (D.failed device.old) (D.failed device.new) }
    ensures size { D.size device.new ≡ D.size device.old }
    ensures untouched { IsErr result → D.failed device.new ≡ D.failed device.old
        → device.new ≡ device.old }
    ensures same { D.tells → (f : TheFault) → slot_refusal plan.now ≡ Some f
        → D.bytes device.new ≡ D.bytes device.old }
    ensures touches { D.tells → Touches D.bytes D.unsettled
        (IsAt plan.now.area.start (rounded_to_sectors (stripe_bytes plan.now)))
        device.old device.new }
{
    let parameters = parameters_within(plan, Allowed::NOTHING)?;
    let KeyDerivation::Pbkdf2(costs) = parameters.derivation else {
        return Err(SlotFault::Argon2);
    };
    let cipher = parameters.cipher;
    let cipher_key = pbkdf2_key(cipher, plan.area_key_bytes, &costs, passphrase);
    seal_under(
        device,
        plan,
        parameters.splitter_hash,
        cipher_key,
        key,
        random,
    )?;
    Ok(())
}

/// The same where so much is allowed (`refusal_within`): Argon2 takes its memory at once and before
/// the first write.
///
/// `Memory` comes only of an Argon2 keyslot that isn't refused, where the allocator refuses it, and
/// then no byte has changed.
pub fn seal_within<D: Device>(
    alloc: Global,
    device: &mut D,
    plan: &SlotPlan<'_>,
    passphrase: &[u8],
    allowed: Allowed,
    key: &Key,
    random: &[u8],
) -> Result<(), SlotFault>
    requires passphrase { 0 < allowed.memory → length passphrase.now < 2 ^ 32 }
    requires ready { IsReadyToSeal plan.now key.now random.now (D.size device.old) }
    requires room { D.failed device.old + 1 < 2 ^ 64 }

    // The plan is refused, the device failed, memory was refused, or the area holds the key and
    // opens to it.
    ensures refused { (f : TheFault) → slot_refusal_within allowed plan.now ≡ Some f → result ≡ Err f }
    ensures fault { IfErr result (IsAnsweredWithin allowed plan.now) }
    ensures accepted { OnOk result (slot_refusal_within allowed plan.now ≡ None) }
    ensures sealed { D.tells → OnOk result
        (IsSealed plan.now (area_bytes (D.bytes device.new) plan.now.area)
        passphrase.now key.now random.now) }
    ensures opens { D.tells → OnOk result
        (slot_key plan.now (area_bytes (D.bytes device.new) plan.now.area) passphrase.now
        ≡ (if meets_digest plan.now.digest key.now then Some key.now else None)) }

    // The device: `Device` exactly where a call of it failed, and the bytes that may have changed.
    ensures count { CountsFailure is_device_fault result
        (D.failed device.old) (D.failed device.new) }
    ensures size { D.size device.new ≡ D.size device.old }
    ensures untouched { IsErr result → D.failed device.new ≡ D.failed device.old
        → device.new ≡ device.old }
    ensures same { D.tells → (f : TheFault) → slot_refusal_within allowed plan.now ≡ Some f
        → D.bytes device.new ≡ D.bytes device.old }
    ensures touches { D.tells → Touches D.bytes D.unsettled
        (IsAt plan.now.area.start (rounded_to_sectors (stripe_bytes plan.now)))
        device.old device.new }
{
    let parameters = parameters_within(plan, allowed)?;
    let cipher_key = area_key(alloc, plan, &parameters, passphrase)?;
    seal_under(
        device,
        plan,
        parameters.splitter_hash,
        cipher_key,
        key,
        random,
    )?;
    Ok(())
}

// Writes the stripes that hold the key, encrypted under the area's key.
fn seal_under<D: Device>(
    device: &mut D,
    plan: &SlotPlan<'_>,
    hash: KeyslotHash,
    cipher_key: AreaKey,
    key: &Key,
    random: &[u8],
) -> Result<(), DeviceFault>
    requires hash { hash_by_name plan.now.splitter_hash.now ≡ hash }
    requires ready { IsReadyToSeal plan.now key.now random.now (D.size device.old) }
    requires room { D.failed device.old + 1 < 2 ^ 64 }
    ensures count { CountsFailure is_failure result
        (D.failed device.old) (D.failed device.new) }
    ensures size { D.size device.new ≡ D.size device.old }
    ensures sealed { D.tells → OnOk result ((passphrase : List ℕ)
        → cipher_key ≡ area_key plan.now passphrase
        → IsSealed plan.now (area_bytes (D.bytes device.new) plan.now.area)
        passphrase key.now random.now) }
    ensures opens { D.tells → OnOk result ((passphrase : List ℕ)
        → cipher_key ≡ area_key plan.now passphrase
        → slot_key plan.now (area_bytes (D.bytes device.new) plan.now.area) passphrase
        ≡ (if meets_digest plan.now.digest key.now then Some key.now else None)) }
    ensures touches { D.tells → Touches D.bytes D.unsettled
        (IsAt plan.now.area.start (rounded_to_sectors (stripe_bytes plan.now)))
        device.old device.new }
{
    let bytes = key.as_bytes();
    let mut buffer = [0u8; 128];
    let last = &mut buffer[..bytes.len()];
    write_last_stripe(hash, last, bytes, random);
    write_stripes(device, plan.area.start, cipher_key, random, last)?;
    Ok(())
}

// Writes the stripes, and zeros to the end of their last sector, encrypted.
fn write_stripes<D: Device>(
    device: &mut D,
    start: u64,
    key: AreaKey,
    random: &[u8],
    last: &[u8],
) -> Result<(), DeviceFault>
    requires within { start + rounded_to_sectors (length random.now + length last.now)
        ≤ D.size device.old }
    requires room { D.failed device.old + 1 < 2 ^ 64 }
    ensures count { CountsFailure is_failure result
        (D.failed device.old) (D.failed device.new) }
    ensures size { D.size device.new ≡ D.size device.old }
    ensures value { D.tells → OnOk result (
        let used = length random.now + length last.now in
        opened_sectors key (part (D.bytes device.new) start (rounded_to_sectors used))
        (sector_count used) ≡ filled (rounded_to_sectors used) (random.now ++ last.now)) }
    ensures touches { D.tells → Touches D.bytes D.unsettled
        (IsAt start (rounded_to_sectors (length random.now + length last.now)))
        device.old device.new }
{
    let len = rounded_to_sectors(random.len() as u64 + last.len() as u64);
    let mut writer = AreaWriter::new(Area { start, len }, key);
    write_filled(device, &mut writer, random, last, &[0; SECTOR_BYTES])
}

// The same by a writer of the area that they fill. `zeros` is a sector of zeros.
fn write_filled<D: Device>(
    device: &mut D,
    writer: &mut AreaWriter,
    random: &[u8],
    last: &[u8],
    zeros: &[u8],
) -> Result<(), DeviceFault>
    requires zeros { zeros.now ≡ replicate 512 0 }
    requires area_length { writer.old.area.len
        ≡ rounded_to_sectors (length random.now + length last.now) }
    requires within { IsInside writer.old.area (D.size device.old) }
    requires room { D.failed device.old + 1 < 2 ^ 64 }
    ensures count { CountsFailure is_failure result
        (D.failed device.old) (D.failed device.new) }
    ensures size { D.size device.new ≡ D.size device.old }
    ensures value { D.tells → OnOk result
        (opened_sectors writer.old.key (area_bytes (D.bytes device.new) writer.old.area)
        (sector_count (length random.now + length last.now))
        ≡ filled writer.old.area.len (random.now ++ last.now)) }
    ensures touches { D.tells → Touches D.bytes D.unsettled
        (IsAt writer.old.area.start writer.old.area.len) device.old device.new }
{
    let before = random.len() as u64;
    let used = before + last.len() as u64;
    let left = (writer.area.len - used) as usize;
    writer.write(device, 0, random)?;
    writer.write(device, before, last)?;
    writer.write(device, used, &zeros[..left])?;
    Ok(())
}
