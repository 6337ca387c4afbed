//! Opening a keyslot.

ghost use Rattle.std.specs.Prelude.{◌≡◌, ◌+◌, ◌*◌, ◌^◌, ◌<◌, ◌≤◌, length, OnOk, IfOk, IfErr, IfSome, if◌then◌else◌};
ghost use Rattle.luks_area.specs.Area.{IsInside};
ghost use Rattle.luks_area.specs.Device.{CountsFailure, IsUnchanged};
ghost use Rattle.luks_area.specs.Sectors.{rounded_to_sectors};
ghost use Rattle.luks_slot.specs.Distance.{digest_distance, found_by, slot_digest, slot_distance, IsTriedAt};
ghost use Rattle.luks_slot.specs.Fault.{IsAnsweredFault, IsAnsweredWithin, is_device_fault};
ghost use Rattle.luks_slot.specs.Opening.{area_bytes, candidate, hash_by_name, meets_digest, slot_key, stripe_bytes, HasIterations};
ghost use Rattle.luks_slot.specs.Refusal.{slot_refusal, slot_refusal_within};
ghost use Rattle.luks_slot.specs.declared.fault.SlotFault.{SlotFault as TheFault};

use crate::allowed::Allowed;
use crate::area_reader::AreaReader;
use crate::fault::SlotFault;
use crate::hashing::{area_key, digest_distance, made_digest};
use crate::key::Key;
use crate::merging::read_candidate;
use crate::parameters::parameters_within;
use crate::plan::{DigestPlan, SlotPlan};
use arrayvec::ArrayVec;
use luks_area::{Area, Device, rounded_to_sectors};
use luks_kdf::KeyslotHash;
use std::alloc::Global;

/// The volume key that the passphrase opens the keyslot to, or None where the stored digest isn't
/// met; an empty passphrase is a passphrase (LUKS1 On-Disk Format 1.2.3, 4.3; LUKS2 On-Disk Format
/// 1.1, 4.3).
///
/// Nothing is allowed, so that a refusal is of the plan alone, the first of `Argon2`, `Cipher`, `Hash`
/// and `KeySize`. `Device` comes exactly where the device failed. Of the area the
/// sectors of the stripes are read, eight of 512 bytes at a time, and no memory is taken from the
/// allocator.
pub fn open<D: Device>(
    alloc: Global,
    device: &mut D,
    plan: &SlotPlan<'_>,
    passphrase: &[u8],
) -> Result<Option<Key>, SlotFault>
    requires iterations { HasIterations plan.now.derivation }
    requires digest_iterations { 1 ≤ plan.now.digest.iterations }
    requires digest_length { length plan.now.digest.stored.now ≤ 64 }
    requires some_bytes { 1 ≤ plan.now.key_bytes }
    requires at_most_128 { plan.now.key_bytes ≤ 128 }
    requires some_stripes { 1 ≤ plan.now.stripes }
    requires sectors { rounded_to_sectors (stripe_bytes plan.now) ≤ plan.now.area.len }
    requires within { IsInside plan.now.area (D.size device.old) }
    requires room { D.failed device.old + 1 < 2 ^ 64 }

    // The plan is refused, the device failed, or there is an answer.
    ensures refused { (f : TheFault) → slot_refusal plan.now ≡ Some f → result ≡ Err f }
    ensures fault { IfErr result (IsAnsweredFault plan.now) }
    ensures accepted { OnOk result (slot_refusal plan.now ≡ None) }
    ensures length { IfOk result (λ found. IfSome found (λ k. length k ≡ plan.now.key_bytes)) }
    ensures value { D.tells → IfOk result (λ found. found
        ≡ slot_key plan.now (area_bytes (D.bytes device.old) plan.now.area) passphrase.now) }

    // The device: `Device` exactly where a call of it failed.
    ensures count { CountsFailure is_device_fault result
        (D.failed device.old) (D.failed device.new) }
    ensures unchanged { IsUnchanged D.tells D.size D.bytes D.unsettled device.old device.new }
{
    open_within(alloc, device, plan, passphrase, Allowed::NOTHING)
}

/// The same where so much is allowed (`refusal_within`): Argon2 takes its memory at once and before
/// the area is read.
///
/// `Memory` comes only of an Argon2 keyslot that isn't refused, where the allocator refuses it.
pub fn open_within<D: Device>(
    alloc: Global,
    device: &mut D,
    plan: &SlotPlan<'_>,
    passphrase: &[u8],
    allowed: Allowed,
) -> Result<Option<Key>, SlotFault>
    requires iterations { HasIterations plan.now.derivation }
    requires passphrase { 0 < allowed.memory → length passphrase.now < 2 ^ 32 }
    requires digest_iterations { 1 ≤ plan.now.digest.iterations }
    requires digest_length { length plan.now.digest.stored.now ≤ 64 }
    requires some_bytes { 1 ≤ plan.now.key_bytes }
    requires at_most_128 { plan.now.key_bytes ≤ 128 }
    requires some_stripes { 1 ≤ plan.now.stripes }
    requires sectors { rounded_to_sectors (stripe_bytes plan.now) ≤ plan.now.area.len }
    requires within { IsInside plan.now.area (D.size device.old) }
    requires room { D.failed device.old + 1 < 2 ^ 64 }

    // The plan is refused, the device failed, memory was refused, or there is an answer.
    ensures refused { (f : TheFault) → slot_refusal_within allowed plan.now ≡ Some f → result ≡ Err f }
    ensures fault { IfErr result (IsAnsweredWithin allowed plan.now) }
    ensures accepted { OnOk result (slot_refusal_within allowed plan.now ≡ None) }
    ensures length { IfOk result (λ found. IfSome found (λ k. length k ≡ plan.now.key_bytes)) }
    ensures value { D.tells → IfOk result (λ found. found
        ≡ slot_key plan.now (area_bytes (D.bytes device.old) plan.now.area) passphrase.now) }

    // The device: `Device` exactly where a call of it failed.
    ensures count { CountsFailure is_device_fault result
        (D.failed device.old) (D.failed device.new) }
    ensures unchanged { IsUnchanged D.tells D.size D.bytes D.unsettled device.old device.new }
{
    match try_within(alloc, device, plan, passphrase, allowed)? {
        Tried::Opens(key) => Ok(Some(key)),
        Tried::Differs(_) => Ok(None),
    }
}

/// What trying a passphrase on a keyslot comes to.
#[derive(Drop)]
pub enum Tried {
    /// The keyslot opens to this volume key.
    Opens(Key),
    /// It doesn't: what the candidate for the key gives differs from the stored digest in so many
    /// bits, at least one.
    Differs(u32),
}

/// What `open_within` answers, where the keyslot doesn't open with the number of bits in which the
/// digest differs. It derives nothing more for that.
pub fn try_within<D: Device>(
    alloc: Global,
    device: &mut D,
    plan: &SlotPlan<'_>,
    passphrase: &[u8],
    allowed: Allowed,
) -> Result<Tried, SlotFault>
    requires iterations { HasIterations plan.now.derivation }
    requires passphrase { 0 < allowed.memory → length passphrase.now < 2 ^ 32 }
    requires digest_iterations { 1 ≤ plan.now.digest.iterations }
    requires digest_length { length plan.now.digest.stored.now ≤ 64 }
    requires some_bytes { 1 ≤ plan.now.key_bytes }
    requires at_most_128 { plan.now.key_bytes ≤ 128 }
    requires some_stripes { 1 ≤ plan.now.stripes }
    requires sectors { rounded_to_sectors (stripe_bytes plan.now) ≤ plan.now.area.len }
    requires within { IsInside plan.now.area (D.size device.old) }
    requires room { D.failed device.old + 1 < 2 ^ 64 }

    // The plan is refused, the device failed, memory was refused, or there is an answer.
    ensures refused { (f : TheFault) → slot_refusal_within allowed plan.now ≡ Some f → result ≡ Err f }
    ensures fault { IfErr result (IsAnsweredWithin allowed plan.now) }
    ensures accepted { OnOk result (slot_refusal_within allowed plan.now ≡ None) }
    ensures length { IfOk result
        (λ tried. IfSome (found_by tried) (λ k. length k ≡ plan.now.key_bytes)) }
    ensures value { D.tells → IfOk result (λ tried. found_by tried
        ≡ slot_key plan.now (area_bytes (D.bytes device.old) plan.now.area) passphrase.now) }
    ensures distance { D.tells → IfOk result (IsTriedAt
        (slot_distance plan.now (area_bytes (D.bytes device.old) plan.now.area) passphrase.now)) }

    // The device: `Device` exactly where a call of it failed.
    ensures count { CountsFailure is_device_fault result
        (D.failed device.old) (D.failed device.new) }
    ensures unchanged { IsUnchanged D.tells D.size D.bytes D.unsettled device.old device.new }
{
    let mut buffer = [0u8; 128];
    let candidate = &mut buffer[..plan.key_bytes];
    let hash = candidate_within(alloc, device, plan, passphrase, allowed, candidate)?;
    Ok(tested(&plan.digest, hash, candidate))
}

/// The digest that the keyslot's stripes give under the passphrase, as long as the stored one, whether or not it is
/// that: what the header would have to store for the keyslot to open. It is answered and refused where `try_within`
/// is, and derives as much.
pub fn digest_within<D: Device>(
    alloc: Global,
    device: &mut D,
    plan: &SlotPlan<'_>,
    passphrase: &[u8],
    allowed: Allowed,
) -> Result<ArrayVec<u8, 64>, SlotFault>
    requires iterations { HasIterations plan.now.derivation }
    requires passphrase { 0 < allowed.memory → length passphrase.now < 2 ^ 32 }
    requires digest_iterations { 1 ≤ plan.now.digest.iterations }
    requires digest_length { length plan.now.digest.stored.now ≤ 64 }
    requires some_bytes { 1 ≤ plan.now.key_bytes }
    requires at_most_128 { plan.now.key_bytes ≤ 128 }
    requires some_stripes { 1 ≤ plan.now.stripes }
    requires sectors { rounded_to_sectors (stripe_bytes plan.now) ≤ plan.now.area.len }
    requires within { IsInside plan.now.area (D.size device.old) }
    requires room { D.failed device.old + 1 < 2 ^ 64 }

    // The plan is refused, the device failed, memory was refused, or there is an answer.
    ensures refused { (f : TheFault) → slot_refusal_within allowed plan.now ≡ Some f → result ≡ Err f }
    ensures fault { IfErr result (IsAnsweredWithin allowed plan.now) }
    ensures accepted { OnOk result (slot_refusal_within allowed plan.now ≡ None) }
    ensures length { IfOk result
        (λ digest. length digest.items ≡ length plan.now.digest.stored.now) }
    ensures value { D.tells → IfOk result (λ digest. digest.items
        ≡ slot_digest plan.now (area_bytes (D.bytes device.old) plan.now.area) passphrase.now) }

    // The device: `Device` exactly where a call of it failed.
    ensures count { CountsFailure is_device_fault result
        (D.failed device.old) (D.failed device.new) }
    ensures unchanged { IsUnchanged D.tells D.size D.bytes D.unsettled device.old device.new }
{
    let mut buffer = [0u8; 128];
    let candidate = &mut buffer[..plan.key_bytes];
    let hash = candidate_within(alloc, device, plan, passphrase, allowed, candidate)?;
    Ok(made_digest(&plan.digest, hash, candidate))
}

// Reads what the stripes hold under the passphrase, the volume key or not; the hash of the digest.
fn candidate_within<D: Device>(
    alloc: Global,
    device: &mut D,
    plan: &SlotPlan<'_>,
    passphrase: &[u8],
    allowed: Allowed,
    out: &mut [u8],
) -> Result<KeyslotHash, SlotFault>
    requires iterations { HasIterations plan.now.derivation }
    requires passphrase { 0 < allowed.memory → length passphrase.now < 2 ^ 32 }
    requires digest_iterations { 1 ≤ plan.now.digest.iterations }
    requires digest_length { length plan.now.digest.stored.now ≤ 64 }
    requires some_bytes { 1 ≤ plan.now.key_bytes }
    requires at_most_128 { plan.now.key_bytes ≤ 128 }
    requires some_stripes { 1 ≤ plan.now.stripes }
    requires sectors { rounded_to_sectors (stripe_bytes plan.now) ≤ plan.now.area.len }
    requires long { length out.old ≡ plan.now.key_bytes }
    requires within { IsInside plan.now.area (D.size device.old) }
    requires room { D.failed device.old + 1 < 2 ^ 64 }
    ensures refused { (f : TheFault) → slot_refusal_within allowed plan.now ≡ Some f → result ≡ Err f }
    ensures fault { IfErr result (IsAnsweredWithin allowed plan.now) }
    ensures accepted { OnOk result (slot_refusal_within allowed plan.now ≡ None) }
    ensures hash { IfOk result (λ hash. hash_by_name plan.now.digest.hash.now ≡ hash) }
    ensures value { D.tells → OnOk result (out.new ≡ candidate plan.now
        (area_bytes (D.bytes device.old) plan.now.area) passphrase.now) }
    ensures count { CountsFailure is_device_fault result
        (D.failed device.old) (D.failed device.new) }
    ensures unchanged { IsUnchanged D.tells D.size D.bytes D.unsettled device.old device.new }
{
    let parameters = parameters_within(plan, allowed)?;
    let key = area_key(alloc, plan, &parameters, passphrase)?;
    let mut reader = AreaReader::new(stripes_area(plan), key);
    read_candidate(
        device,
        &mut reader,
        parameters.splitter_hash,
        plan.stripes,
        out,
    )?;
    Ok(parameters.digest_hash)
}

// The sectors of the keyslot's area that hold its stripes.
fn stripes_area(plan: &SlotPlan<'_>) -> Area
    requires { plan.now.key_bytes ≤ 128 }
    ensures start { result.start ≡ plan.now.area.start }
    ensures len { result.len ≡ rounded_to_sectors (stripe_bytes plan.now) }
{
    let bytes = plan.key_bytes as u64 * u64::from(plan.stripes);
    Area {
        start: plan.area.start,
        len: rounded_to_sectors(bytes),
    }
}

// The candidate where it is the key, or how far it is from the digest.
fn tested(digest: &DigestPlan<'_>, hash: KeyslotHash, candidate: &[u8]) -> Tried
    requires hash { hash_by_name digest.now.hash.now ≡ hash }
    requires iterations { 1 ≤ digest.now.iterations }
    requires at_most_64 { length digest.now.stored.now ≤ 64 }
    requires some_bytes { 1 ≤ length candidate.now }
    requires at_most_128 { length candidate.now ≤ 128 }
    ensures value { found_by result
        ≡ (if meets_digest digest.now candidate.now then Some candidate.now else None) }
    ensures distance { IsTriedAt (digest_distance digest.now candidate.now) result }
{
    match digest_distance(digest, hash, candidate) {
        0 => Tried::Opens(Key::new(candidate)),
        bits => Tried::Differs(bits),
    }
}
