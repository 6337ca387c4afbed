//! Sealing keyslot 0 of a new volume.
ghost use Rattle.std.specs.Prelude.{◌≡◌, ◌+◌, ◌*◌, ◌^◌, ◌<◌, ◌≤◌, length, IfOk, MatchOption, OnOk};
ghost use Rattle.luks_area.specs.Area.{IsInside};
ghost use Rattle.luks_area.specs.Memory.{memory_bytes};
ghost use Rattle.luks_area.specs.Device.{CountsFailure, IsSettled, is_failure};
ghost use Rattle.luks_area.specs.Ranges.{IsAt, SameBut};
ghost use Rattle.luks_slot.specs.Opening.{area_bytes};
ghost use Rattle.luks_slot.specs.Sealing.{IsSealed};
ghost use Rattle.luks_formatting.specs.Encrypting.{used_bytes};
ghost use Rattle.luks_formatting.specs.NewPlan.{IsSealable, IsSealableWithin, IsSealedAhead};

use luks_area::{Area, Device, DeviceFault, MemDevice};
use luks_edit::Passphrase;
use luks_slot::{Allowed, Key, SlotPlan};
use luks_writing::{seal_area_within, write_range};
use std::alloc::{AllocError, Global};

/// What is allowed of a plan that takes no memory and was judged before: older ciphers too.
const JUDGED: Allowed = Allowed {
    memory: 0,
    older: true,
};

/// Seals the key in the area of the plan, and flushes. Also where the device fails no byte outside the area's used
/// sectors changes.
pub(crate) fn seal_key<D: Device>(
    alloc: Global,
    device: &mut D,
    plan: &SlotPlan<'_>,
    passphrase: &[u8],
    key: &[u8],
    random: &[u8],
) -> Result<(), DeviceFault>
    requires sealable { IsSealable (length key.now) plan.now }
    requires some_key { 1 ≤ length key.now }
    requires short_key { length key.now ≤ 64 }
    requires random_length { length random.now ≡ 3999 * length key.now }
    requires large { used_bytes (length key.now) ≤ plan.now.area.len }
    requires within { IsInside plan.now.area (D.size device.old) }
    requires room { D.failed device.old + 1 < 2 ^ 64 }
    requires settled { D.tells → IsSettled D.unsettled device.old }
    ensures count { CountsFailure is_failure result (D.failed device.old) (D.failed device.new) }
    ensures size { D.size device.new ≡ D.size device.old }
    ensures settled { D.tells → D.failed device.new ≡ D.failed device.old
        → IsSettled D.unsettled device.new }
    ensures sealed { D.tells → OnOk result
        (IsSealed plan.now (area_bytes (D.bytes device.new) plan.now.area)
        passphrase.now key.now random.now) }
    ensures rest { D.tells → SameBut (IsAt plan.now.area.start (used_bytes (length key.now)))
        (D.bytes device.old) (D.bytes device.new) }
{
    match seal_area_within(
        alloc,
        device,
        plan,
        passphrase,
        JUDGED,
        &Key::new(key),
        random,
    ) {
        Ok(()) => Ok(()),
        Err(_) => Err(DeviceFault),
    }
}

/// The used sectors of the key area that the plan seals the key in, on a device in memory. Takes that
/// memory, and what Argon2 takes.
pub(crate) fn sealed_ahead(
    alloc: Global,
    plan: &SlotPlan<'_>,
    passphrase: &Passphrase<'_>,
    key: &[u8],
    random: &[u8],
) -> Result<MemDevice, AllocError>
    requires short { 0 < passphrase.now.allowed.memory → length passphrase.now.bytes.now < 2 ^ 32 }
    requires sealable { IsSealableWithin passphrase.now.allowed (length key.now) plan.now }
    requires some_key { 1 ≤ length key.now }
    requires short_key { length key.now ≤ 64 }
    requires random_length { length random.now ≡ 3999 * length key.now }
    ensures { IfOk result (λ d. IsSealedAhead (length key.now) plan.now passphrase.now.bytes.now
        key.now random.now (memory_bytes d)) }
{
    let mut zeros = Vec::new(alloc);
    let len = (key.len() * 4000).next_multiple_of(512);
    zeros.resize(len, 0)?;
    let mut device = MemDevice::new(zeros);
    let alone = SlotPlan {
        area: Area {
            start: 0,
            len: len as u64,
        },
        ..*plan
    };
    let (words, allowed) = (passphrase.bytes, passphrase.allowed);
    match seal_area_within(
        alloc,
        &mut device,
        &alone,
        words,
        allowed,
        &Key::new(key),
        random,
    ) {
        Ok(()) => Ok(device),
        Err(_) => Err(AllocError),
    }
}

/// Writes the used sectors of the key area that were sealed ahead, or seals the key there, and flushes.
/// Also where the device fails no byte outside them changes.
pub(crate) fn put_key_area<D: Device>(
    alloc: Global,
    device: &mut D,
    plan: &SlotPlan<'_>,
    ahead: Option<&[u8]>,
    passphrase: &[u8],
    key: &[u8],
    random: &[u8],
) -> Result<(), DeviceFault>
    requires sealable { MatchOption ahead (IsSealable (length key.now) plan.now)
        (λ bytes. IsSealedAhead (length key.now) plan.now passphrase.now key.now random.now bytes.now) }
    requires key_bytes { plan.now.key_bytes ≡ length key.now }
    requires stripes { plan.now.stripes ≡ 4000 }
    requires some_key { 1 ≤ length key.now }
    requires short_key { length key.now ≤ 64 }
    requires random_length { length random.now ≡ 3999 * length key.now }
    requires large { used_bytes (length key.now) ≤ plan.now.area.len }
    requires within { IsInside plan.now.area (D.size device.old) }
    requires room { D.failed device.old + 1 < 2 ^ 64 }
    requires settled { D.tells → IsSettled D.unsettled device.old }
    ensures count { CountsFailure is_failure result (D.failed device.old) (D.failed device.new) }
    ensures size { D.size device.new ≡ D.size device.old }
    ensures settled { D.tells → D.failed device.new ≡ D.failed device.old
        → IsSettled D.unsettled device.new }
    ensures sealed { D.tells → OnOk result
        (IsSealed plan.now (area_bytes (D.bytes device.new) plan.now.area)
        passphrase.now key.now random.now) }
    ensures rest { D.tells → SameBut (IsAt plan.now.area.start (used_bytes (length key.now)))
        (D.bytes device.old) (D.bytes device.new) }
{
    match ahead {
        Some(bytes) => write_range(device, plan.area.start, bytes),
        None => seal_key(alloc, device, plan, passphrase, key, random),
    }
}
